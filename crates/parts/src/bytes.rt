// The bytes of the interpolant reading: those of a multiple of a polynomial, given by its parts.
ghost use Rattle.std.specs.Prelude.{◌≡◌, ℕ, ◌<◌};
ghost use Rattle.lists.specs.Listed.{listed};
ghost use Rattle.algebra.specs.Coefficients.{scale};
ghost use Rattle.galois.specs.Field16.{K16, to_f};
ghost use Rattle.interpolant.specs.LeastQ.{byte_key, reading_length};
ghost use Rattle.interpolant.specs.Reading.{byte_of};
ghost use Rattle.parts.specs.Parts.{polynomial_of};

use crate::READING;
use galois::product;
use planes::PLACES;

// The coefficient that byte i of a reading shows.
fn shown(q0: [u8; PLACES], q1: [u8; PLACES], i: usize) -> u8
    requires { i < reading_length }
    ensures { (M : ℕ) → to_f result ≡ polynomial_of M q0 q1 (byte_key M i) }
{
    if i < PLACES {
        return q0[i];
    }
    if i == PLACES {
        return 0;
    }
    q1[i - 65]
}

// The bytes of a multiple.
pub fn scaled(q0: [u8; PLACES], q1: [u8; PLACES], by: u8) -> [u8; READING]
    ensures { (M : ℕ) → result ≡ listed reading_length (byte_of M (scale K16 (to_f by) (polynomial_of M q0 q1))) }
{
    let mut out = [0u8; READING];
    for i in 0..READING {
        out[i] = product(by, shown(q0, q1, i));
    }
    out
}
