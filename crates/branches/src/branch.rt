// What the tree finds for one test word: no place is doubtful, so that the word of best symbols is the only one, and the blank places have
// blank columns.
ghost use Rattle.std.specs.Prelude.{◌||◌, ◌≡◌, ◌+◌, ◌*◌, ◌%◌, ◌<◌, eqb, get_or};
ghost use Rattle.soft.specs.Column.{symbols};
ghost use Rattle.book64.specs.Here.{places};
ghost use Rattle.agreement.specs.Faded.{faded_cost, faded_costs};
ghost use Rattle.refusals.specs.Refusal.{accepted, none_near};
ghost use Rattle.branches.specs.Beside.{branch_in, branch_of, beside_of, shown_of};

use answer::Answer;
use answers::Finding;
use candidate::Word;
use columns::costs::{COSTS, PLACES, SYMBOLS};
use doubt::MOST_DOUBT;
use lists::entry_or;
use refusals::{Refusal, number_of};
use session::is_among;
use stream::bytes::LENT;

// Where the cost of the word's symbol stands in a table.
fn own_place(word: &[u8], place: usize) -> usize
    requires { place < places }
    ensures { result ≡ place * symbols + get_or word.now place 0 % symbols }
{
    place * SYMBOLS + entry_or(word, place, 0) as usize % SYMBOLS
}

// What stands there: 0, but 1 at a blank place, as for the other symbols, and where the word has no symbol.
fn own_cost(word: &[u8], blanks: &[u8], place: usize) -> u16
    requires { place < places }
    ensures { result ≡ faded_cost blanks.now word.now place (get_or word.now place 0 % symbols) }
{
    if is_among(place, blanks) {
        return 1;
    }
    if 15 < entry_or(word, place, 0) {
        return 1;
    }
    0
}

// Cost 0 for the word's symbol and 1 for the others; 1 for every symbol at the blank places.
pub fn faded_costs(word: &[u8], blanks: &[u8]) -> [u16; COSTS]
    ensures { result ≡ faded_costs blanks.now word.now }
{
    let mut out = [1u16; COSTS];
    for place in 0..PLACES {
        out[own_place(word, place)] = own_cost(word, blanks, place);
    }
    out
}

// What a call would answer that finds this.
pub fn branch_in(found: Finding) -> Result<Word, Refusal>
    ensures { result ≡ branch_in found }
{
    match found.answer {
        Answer::NoneNear => Err(Refusal::NoneNear),
        Answer::Near { .. } => Ok(found.codeword),
    }
}

// A function of its own in the program, since its calls are counted (bench/engines).
#[inline(never)]
pub fn branch_of(rate: usize, word: &[u8], blanks: &[u8]) -> Result<Word, Refusal>
    ensures { result ≡ branch_of rate word.now blanks.now }
{
    let costs = faded_costs(word, blanks);
    branch_in(chase::nearest(rate, &costs, [0u8; MOST_DOUBT], 0))
}

// Whether the engine's checks passed, by the number of its answer.
fn passed(number: u8) -> bool
    ensures { result ≡ (eqb number accepted || eqb number none_near) }
{
    number == number_of(Ok(())) || number == number_of(Err(Refusal::NoneNear))
}

// Beside the number of the engine's answer: its checks are not the tree's, so that the tree is asked only where they passed.
pub fn branch_beside(
    number: u8,
    rate: usize,
    word: &[u8],
    blanks: &[u8],
) -> Option<Result<Word, Refusal>>
    ensures { result ≡ beside_of number rate word.now blanks.now }
{
    if !passed(number) {
        return None;
    }
    Some(branch_of(rate, word, blanks))
}

// The number where the tree is not asked.
const NOT_ASKED: u8 = 255;

// The number and the codeword of what the tree answers; the bytes of a lent buffer where there is none.
pub fn shown(beside: Option<Result<Word, Refusal>>) -> (u8, Word)
    ensures { result ≡ shown_of beside }
{
    match beside {
        Some(Ok(codeword)) => (0, codeword),
        Some(Err(refusal)) => (u8::from(refusal), [LENT; PLACES]),
        None => (NOT_ASKED, [LENT; PLACES]),
    }
}
