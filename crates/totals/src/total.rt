// What a word costs over 64 places, and where it differs.
ghost use Rattle.std.specs.Prelude.{◌≡◌, List, ℕ, ◌<◌};
ghost use Rattle.soft.specs.Column.{places, symbols, column_of};
ghost use Rattle.soft.specs.Blank.{flag_at, flags_of};
ghost use Rattle.soft.specs.TestWord.{best_word};
ghost use Rattle.lists.specs.Count.{count};
ghost use Rattle.soft.specs.Total.{total_of, pinned_of, changed_flags, agree, differing_in};
ghost use Rattle.weighing.specs.Changed.{changed_by};

use columns::blank::blanks;
use columns::costs::{CEILING, PLACES, cost_of};
use lists::entry_or;

// A cost at the ceiling is summed as it stands.
pub fn total(costs: &[u16], word: &[u8]) -> u32
    ensures { result ≡ total_of places (column_of symbols costs.now) word.now }
{
    let mut sum: u32 = 0;
    for place in 0..PLACES {
        sum += cost_of(costs, place, entry_or(word, place, 0)) as u32;
    }
    sum
}

pub fn pinned(costs: &[u16], word: &[u8]) -> u8
    ensures { result ≡ pinned_of places (column_of symbols costs.now) word.now }
{
    let mut n = 0u16;
    for place in 0..PLACES {
        n += u16::from(cost_of(costs, place, entry_or(word, place, 0)) == CEILING);
    }
    n as u8
}

// Where the symbol is the best one, it does not matter whether the place is blank.
fn is_changed(symbol: u8, best: u8, flag: u8) -> bool
    ensures { result ≡ changed_by symbol best flag }
{
    if symbol == best {
        return false;
    }
    flag == 1
}

// A flag for each place: 1 where it is changed, by the best symbols and the flags of the places that are not blank.
pub fn changed_places(word: &[u8], best: [u8; PLACES], counts: [u8; PLACES]) -> [u8; PLACES]
    ensures { (columns : ℕ → List ℕ) → best ≡ best_word places columns → counts ≡ flags_of places columns → result ≡ changed_flags places columns word.now }
{
    let mut out = [0u8; PLACES];
    for place in 0..PLACES {
        out[place] = u8::from(is_changed(entry_or(word, place, 0), best[place], counts[place]));
    }
    out
}

// How many places are changed, by their flags.
pub fn changed(flags: [u8; PLACES]) -> u8
    ensures { result ≡ count places (flag_at flags) }
{
    (PLACES - blanks(flags)) as u8
}

// Two words have an entry at a place, and it is the same.
fn agreeing(u: &[u8], v: &[u8], place: usize) -> bool
    ensures { result ≡ agree u.now v.now place }
{
    if u.len() <= place {
        return false;
    }
    if v.len() <= place {
        return false;
    }
    u[place] == v[place]
}

// In how many of the places that count two words differ: those whose flag is 1.
pub fn differing_in(u: &[u8], v: &[u8], counts: [u8; PLACES]) -> u16
    ensures { result ≡ differing_in (flag_at counts) places u.now v.now }
{
    let mut n = 0u16;
    for place in 0..PLACES {
        n += u16::from(counts[place] == 1) * u16::from(!agreeing(u, v, place));
    }
    n
}
