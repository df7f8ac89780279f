// One row against the rows that stand: what they have at their places is taken off it, up to the first place that has no row.
ghost use Rattle.std.specs.Prelude.{◌≡◌, ◌<◌};
ghost use Rattle.elimination.specs.Reducing.{Stuck, Cleared, Reduces};

use galois::{inverse, product};
use planes::PLACES;
use planes::lanes::at;
use planes::rows::{Row, added, multiples, whole};

// A row for each place: its first value among the places that count stands there. One that is zero there is none.
pub type Pivots = [Row; PLACES];

// A row, and the place of its first value among those that count; past the last place if it has none.
#[derive(Clone, Copy)]
pub struct Reduced {
    pub place: usize,
    pub row: Row,
}

// Whether a place stops a row: it counts, and the row has a value there that no row can take off.
fn stuck(row: Row, pivot: Row, flag: u8, place: usize) -> bool
    requires { place < 64 }
    ensures { Stuck row pivot flag place result }
{
    if flag != 1 {
        return false;
    }
    if at(whole(pivot), place) != 0 {
        return false;
    }
    at(whole(row), place) != 0
}

// The row without its value at a place that counts.
fn cleared(row: Row, pivot: Row, flag: u8, place: usize) -> Row
    requires { place < 64 }
    ensures { Cleared row pivot flag place result }
{
    if flag != 1 {
        return row;
    }
    let value = at(whole(row), place);
    if value == 0 {
        return row;
    }
    let by = product(value, inverse(at(whole(pivot), place)));
    added(row, by, &multiples(pivot))
}

// In place order, up to the place that stops it.
pub fn reduce(row: Row, pivots: &Pivots, flags: [u8; PLACES]) -> Reduced
    ensures { Reduces row pivots.now flags result }
{
    let mut rest = row;
    for place in 0..PLACES {
        let pivot = pivots[place];
        let flag = flags[place];
        if stuck(rest, pivot, flag, place) {
            return Reduced { place, row: rest };
        }
        let next = cleared(rest, pivot, flag, place);
        rest = next;
    }
    Reduced {
        place: PLACES,
        row: rest,
    }
}
