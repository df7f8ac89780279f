// Coefficients by order: the sums over all x.
ghost use Rattle.std.specs.Prelude.{◌≡◌, ◌<◌};
ghost use Rattle.coefficients.specs.Reading.{repeat_of, Entry, Gathered, coefficients_of};
ghost use Rattle.planes.specs.Words.{word_of};

use crate::MARKS;
use crate::fibres::fibres;
use crate::tables::x_duals;
use planes::lanes::{sum, times};
use planes::words::symbols;
use planes::{PLACES, Planes};

// The four lanes of x, again and again.
fn repeat(plane: u64, x: usize) -> u64
    requires { x < 16 }
    ensures { result ≡ repeat_of x plane }
{
    (plane >> (x * 4)) % 16 * MARKS
}

// What x adds at each order.
pub fn entry(sums: Planes, dual: Planes, x: usize) -> Planes
    requires { x < 16 }
    ensures { Entry sums dual x result }
{
    let one = repeat(sums[0], x);
    let two = repeat(sums[1], x);
    let four = repeat(sums[2], x);
    let eight = repeat(sums[3], x);
    times([one, two, four, eight], dual)
}

fn gathered(sums: Planes) -> Planes
    ensures { Gathered sums result }
{
    let duals = x_duals();
    let mut out = [0u64; 4];
    for x in 0..16 {
        let next = sum(out, entry(sums, duals[x], x));
        out = next;
    }
    out
}

// The coefficients by order of the function with these values; at a missing order 0.
pub fn coefficients(values: Planes) -> [u8; PLACES]
    ensures { result ≡ coefficients_of (word_of values) }
{
    symbols(gathered(fibres(values)))
}
