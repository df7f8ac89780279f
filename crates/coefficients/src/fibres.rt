// Sums over the four places of each x.
ghost use Rattle.std.specs.Prelude.{◌≡◌, ◌<◌};
ghost use Rattle.coefficients.specs.Reading.{met_of, Fibre, FibreSums};

use crate::MARKS;
use crate::tables::y_duals;
use planes::Planes;
use planes::lanes::{sum, times};

// The sum of each four lanes, at the first of them and then moved up by j.
fn met(plane: u64, j: usize) -> u64
    requires { j < 4 }
    ensures { result ≡ met_of j plane }
{
    let pairs = plane ^ (plane >> 1);
    let fours = pairs ^ (pairs >> 2);
    (fours & MARKS) << j
}

// Place 4x + j has the sum over the places with x of the value times the dual; the others of these four have 0.
fn fibre(values: Planes, dual: Planes, j: usize) -> Planes
    requires { j < 4 }
    ensures { Fibre values dual j result }
{
    let terms = times(values, dual);
    let one = met(terms[0], j);
    let two = met(terms[1], j);
    let four = met(terms[2], j);
    let eight = met(terms[3], j);
    [one, two, four, eight]
}

pub fn fibres(values: Planes) -> Planes
    ensures { FibreSums values result }
{
    let duals = y_duals();
    let mut out = [0u64; 4];
    for j in 0..4 {
        let next = sum(out, fibre(values, duals[j], j));
        out = next;
    }
    out
}
