// Rows of eight planes: the values of a polynomial Q0 + Q1 z at the places, four planes with a symbol for z at each place and four of Q1.
ghost use Rattle.std.specs.Prelude.{◌≡◌, ◌<◌};
ghost use Rattle.planes.specs.Rows.{whole_of, slope_of, joined_of, row_sum, doubled_row, MultiplesOf, AddedBy, Raised, Moved};

use crate::Planes;
use crate::constants::{single, spread, xs};
use crate::lanes::{at, times};
use galois::product;

pub type Row = [u64; 8];

pub fn whole(row: Row) -> Planes
    ensures { result ≡ whole_of row }
{
    [row[0], row[1], row[2], row[3]]
}

// The values of Q1.
pub fn slope(row: Row) -> Planes
    ensures { result ≡ slope_of row }
{
    [row[4], row[5], row[6], row[7]]
}

pub fn joined(whole: Planes, slope: Planes) -> Row
    ensures { result ≡ joined_of whole slope }
{
    [
        whole[0], whole[1], whole[2], whole[3], slope[0], slope[1], slope[2], slope[3],
    ]
}

// As in `lanes`, written out: one operation a line, where a length as a parameter would need a loop and what it keeps.
fn sum(a: Row, b: Row) -> Row
    ensures { result ≡ row_sum a b }
{
    [
        a[0] ^ b[0],
        a[1] ^ b[1],
        a[2] ^ b[2],
        a[3] ^ b[3],
        a[4] ^ b[4],
        a[5] ^ b[5],
        a[6] ^ b[6],
        a[7] ^ b[7],
    ]
}

// α times a row: planes move up by one, and α^4 comes back as α + 1.
fn doubled(row: Row) -> Row
    ensures { result ≡ doubled_row row }
{
    [
        row[3],
        row[0] ^ row[3],
        row[1],
        row[2],
        row[7],
        row[4] ^ row[7],
        row[5],
        row[6],
    ]
}

// 0, 1, 2 and 3 times a row, then 0, 4, 8 and 12 times: two of them add to any multiple.
pub type Multiples = [Row; 8];

pub fn multiples(row: Row) -> Multiples
    ensures { MultiplesOf row result }
{
    let two = doubled(row);
    let four = doubled(two);
    let eight = doubled(four);
    let none = [0u64; 8];
    let three = sum(row, two);
    let twelve = sum(four, eight);
    [none, row, two, three, none, four, eight, twelve]
}

// A row, and a multiple of the row whose multiples are given.
pub fn added(row: Row, by: u8, multiples: &Multiples) -> Row
    ensures { AddedBy row by multiples.now result }
{
    let low = multiples[(by % 4) as usize];
    let high = multiples[(4 + by / 4 % 4) as usize];
    sum(sum(row, low), high)
}

// x + a times a row: it vanishes where x is a.
pub fn raised(row: Row, a: u8) -> Row
    ensures { Raised row a result }
{
    let by = crate::lanes::sum(xs(), spread(a));
    joined(times(by, whole(row)), times(by, slope(row)))
}

// A row by another symbol at one place: the value there moves by a multiple of the slope.
pub fn moved(row: Row, place: usize, change: u8) -> Row
    requires { place < 64 }
    ensures { Moved row place change result }
{
    let slopes = slope(row);
    let by = product(change, at(slopes, place));
    joined(crate::lanes::sum(whole(row), single(place, by)), slopes)
}
