// The first term that depends on the smaller ones, and the least Q with it.
ghost use Rattle.std.specs.Prelude.{◌≡◌, ◌<◌, ◌≤◌, length};
ghost use Rattle.elimination.specs.Solving.{Tries, Keeps, SolvedOf};

use crate::reducing::{Pivots, Reduced, reduce};
use crate::term::{is_term, term};
use planes::rows::Row;
use planes::words::planes;
use planes::{PLACES, Planes};

// A key, and the row of the polynomial that leads there.
#[derive(Clone, Copy)]
pub struct Solved {
    pub key: usize,
    pub row: Row,
}

// The row of a term, reduced, if the key is a term's.
fn tried(
    key: usize,
    m: usize,
    symbols: Planes,
    pivots: &Pivots,
    flags: [u8; PLACES],
) -> Option<Reduced>
    ensures { Tries key m symbols pivots.now flags result }
{
    if !is_term(key, m) {
        return None;
    }
    Some(reduce(term(key, m, symbols), pivots, flags))
}

// A row that has a first value becomes the row of its place.
fn keep(pivots: &mut Pivots, place: usize, row: Row)
    ensures { Keeps pivots.old place row pivots.new }
{
    if place < PLACES {
        pivots[place] = row;
    }
}

// The least polynomial through the places with flag 1, each with the word's symbol, if its key is up to the limit.
pub fn solve(word: [u8; PLACES], flags: [u8; PLACES], m: usize, limit: usize) -> Option<Solved>
    requires { limit ≤ 127 }
    ensures { SolvedOf m word flags limit result }
{
    let symbols = planes(word);
    let mut pivots = [[0u64; 8]; PLACES];
    for key in 0..limit + 1 {
        let Some(next) = tried(key, m, symbols, &pivots, flags) else {
            continue;
        };
        let place = next.place;
        let row = next.row;
        if place == PLACES {
            return Some(Solved { key, row });
        }
        keep(&mut pivots, place, row);
    }
    None
}
