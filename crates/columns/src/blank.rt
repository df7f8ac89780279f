// Blank places (erasures): those whose column has all its costs equal. Nothing is known there.
ghost use Rattle.std.specs.Prelude.{◌≡◌, not};
ghost use Rattle.lists.specs.Count.{count};
ghost use Rattle.soft.specs.Column.{places, symbols, column_of};
ghost use Rattle.soft.specs.Blank.{open_at, flag_at, flags_of};

use crate::costs::{PLACES, SYMBOLS};
use lists::entry_or;

// Whether a place is not blank: not all its costs are equal, whatever its gap. They are compared where they stand, up to the first that differs:
// every frame asks this of every place. Past the last costs all read as 0, and `place * SYMBOLS` is not asked for.
pub fn is_open(costs: &[u16], place: usize) -> bool
    ensures { result ≡ open_at (column_of symbols costs.now) place }
{
    if costs.len() / SYMBOLS < place {
        return false;
    }
    let first = entry_or(costs, place * SYMBOLS, 0);
    for s in 1..SYMBOLS {
        if entry_or(costs, place * SYMBOLS + s, 0) != first {
            return true;
        }
    }
    false
}

// A flag for each place: 1 where it is not blank.
pub fn open_places(costs: &[u16]) -> [u8; PLACES]
    ensures { result ≡ flags_of places (column_of symbols costs.now) }
{
    let mut out = [0u8; PLACES];
    for place in 0..PLACES {
        out[place] = u8::from(is_open(costs, place));
    }
    out
}

// How many places are blank, by their flags.
pub fn blanks(flags: [u8; PLACES]) -> usize
    ensures { result ≡ count places (λ p. not (flag_at flags p)) }
{
    let mut n = 0u16;
    for place in 0..PLACES {
        n += u16::from(flags[place] != 1);
    }
    n as usize
}
