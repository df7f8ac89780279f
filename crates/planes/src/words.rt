// Words and planes.
ghost use Rattle.std.specs.Prelude.{◌≡◌, ◌<◌};
ghost use Rattle.planes.specs.Arrays.{Carries, symbols_of};
ghost use Rattle.planes.specs.Words.{apart_of, four_of, word_of};

use crate::{PLACES, Planes};
use packing::{joined, sixteen};

// Symbols count modulo 16.
pub fn planes(word: [u8; PLACES]) -> Planes
    ensures { Carries (symbols_of word) result }
{
    let a = sixteen(word, 0);
    let b = sixteen(word, 16);
    let c = sixteen(word, 32);
    let d = sixteen(word, 48);
    let one = joined(a, b, c, d, 0);
    let two = joined(a, b, c, d, 1);
    let four = joined(a, b, c, d, 2);
    let eight = joined(a, b, c, d, 3);
    [one, two, four, eight]
}

// The bits of the four lanes from 4x on, each in a byte of its own.
fn apart(plane: u64, x: usize) -> u64
    requires { x < 16 }
    ensures { result ≡ apart_of x plane }
{
    ((plane >> (x * 4)) % 16 * 0x20_4081) & 0x101_0101
}

// The symbols at these lanes, a byte each.
fn four(a: Planes, x: usize) -> u64
    requires { x < 16 }
    ensures { result ≡ four_of x a }
{
    let one = apart(a[0], x);
    let two = apart(a[1], x);
    let four = apart(a[2], x);
    let eight = apart(a[3], x);
    one + two * 2 + four * 4 + eight * 8
}

// The symbols at all places.
pub fn symbols(a: Planes) -> [u8; PLACES]
    ensures { result ≡ word_of a }
{
    let mut out = [0u8; PLACES];
    for x in 0..16 {
        let four = four(a, x);
        let place = x * 4;
        out[place] = (four % 256) as u8;
        out[place + 1] = (four / 256 % 256) as u8;
        out[place + 2] = (four / 65536 % 256) as u8;
        out[place + 3] = (four / 16777216 % 256) as u8;
    }
    out
}
