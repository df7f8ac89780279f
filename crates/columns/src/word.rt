// The word of best symbols.
ghost use Rattle.std.specs.Prelude.{◌≡◌};
ghost use Rattle.soft.specs.Column.{places, symbols, column_of};
ghost use Rattle.soft.specs.TestWord.{best_word};

use crate::column::best;
use crate::costs::{PLACES, column_of};

// The word that carries the best symbol at every place.
pub fn best_word(costs: &[u16]) -> [u8; PLACES]
    ensures { result ≡ best_word places (column_of symbols costs.now) }
{
    let mut out = [0u8; PLACES];
    for place in 0..PLACES {
        out[place] = best(column_of(costs, place));
    }
    out
}
