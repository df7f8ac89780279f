// Functions on the curve by order: the coefficient of order o at o, 64 of them; and their values at the places.
ghost use Rattle.std.specs.Prelude.{◌≡◌, ◌<◌};
ghost use Rattle.lists.specs.Listed.{listed};
ghost use Rattle.code.specs.Evaluation.{value_of};
ghost use Rattle.evaluation.specs.Broad.{broad_of, Broad};
ghost use Rattle.evaluation.specs.Evaluating.{FibreValues, Evaluated};

use crate::sums::power_sums;
use coefficients::MARKS;
use planes::Planes;
use planes::constants::ys;
use planes::lanes::{sum, times};
use planes::words::{planes, symbols};

// Lane j of each four, at all of them.
fn broad_plane(plane: u64, j: usize) -> u64
    requires { j < 4 }
    ensures { result ≡ broad_of j plane }
{
    let first = (plane >> j) & MARKS;
    first ^ (first << 1) ^ (first << 2) ^ (first << 3)
}

fn broad(a: Planes, j: usize) -> Planes
    requires { j < 4 }
    ensures { Broad a j result }
{
    let one = broad_plane(a[0], j);
    let two = broad_plane(a[1], j);
    let four = broad_plane(a[2], j);
    let eight = broad_plane(a[3], j);
    [one, two, four, eight]
}

// Horner's rule in y, at all places: lane j of the four with an x is the coefficient of y^j there.
fn fibre_values(sums: Planes) -> Planes
    ensures { FibreValues sums result }
{
    let y = ys();
    let third = broad(sums, 3);
    let second = sum(times(third, y), broad(sums, 2));
    let first = sum(times(second, y), broad(sums, 1));
    sum(times(first, y), broad(sums, 0))
}

// The values by place of the function with these coefficients by order.
pub fn values(function: Planes) -> Planes
    ensures { Evaluated function result }
{
    fibre_values(power_sums(function))
}

// The value at each place; what stands at a missing order counts for nothing.
pub fn codeword(function: [u8; 64]) -> [u8; 64]
    ensures { result ≡ listed 64 (value_of function) }
{
    symbols(values(planes(function)))
}
