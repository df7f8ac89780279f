// A known codeword at a node of the tree, near or not: whether it is the only one that can be near the test words below, how many of them it
// is near, and the answer there. It knows of no rows and no basis.
#![tactic(auto)]

ghost use Rattle.std.specs.Prelude.{◌&&◌, ◌≡◌, ◌≤◌, eqb, length};
ghost use Rattle.lists.specs.Choices.{choices_of};
ghost use Rattle.soft.specs.Column.{symbols, column_of};
ghost use Rattle.soft.specs.Doubt.{most_doubt};
ghost use Rattle.near.specs.Choices.{closer_of};
ghost use Rattle.known.specs.Known.{filled_of, governs_of, closest_test, agreeing_in, WithinOf, known_total, answer_here};

use answer::Answer;
use answers::{Finding, missed};
use candidate::open::Open;
use candidate::{Word, distance};
use columns::column::{best, second};
use columns::costs::{PLACES, SYMBOLS, column_of};
use totals::total::total;

// The doubtful places that a node has still to decide, in the order in which they are decided.
#[derive(Clone, Copy)]
pub struct Undecided<'a> {
    pub places: &'a [u8],
    ghost few: { length places.now ≤ most_doubt },
}

// The word with the codeword's symbols at some places.
fn filled(codeword: Word, word: Word, places: &[u8]) -> Word
    ensures { result ≡ filled_of codeword word places.now }
{
    let mut out = word;
    for &p in places {
        let place = p as usize % PLACES;
        out[place] = codeword[place];
    }
    out
}

// Is no other codeword than the known one within T of any test word below a node? Of the places that count, two codewords differ in at least
// 64 - M without the blank ones; and the known one differs from such a test word only in decided places in which it differs from the word, and in
// places left.
pub fn governs(known: Finding, word: Word, counted: &Open, undecided: Undecided<'_>) -> bool
    ensures { result ≡ governs_of counted.now.rate.k counted.now.counts counted.now.blanks known word undecided.entry.places.now }
{
    let places = undecided.places;
    let agreed = filled(known.codeword, word, places);
    let apart = distance(known.codeword, agreed, counted.counts) + places.len() + counted.reach();
    apart < counted.least_distance()
}

// Of the best and the second symbol of a column the given one, if it is one of them, and the best otherwise.
fn closer(symbol: u8, column: [u16; SYMBOLS]) -> u8
    ensures { result ≡ closer_of symbol column }
{
    let first = best(column);
    if symbol == first {
        return first;
    }
    let other = second(column);
    if symbol == other {
        return other;
    }
    first
}

// The test word below a node that differs least from the codeword.
fn closest(codeword: Word, word: Word, costs: &[u16], places: &[u8]) -> Word
    ensures { result ≡ closest_test (column_of symbols costs.now) codeword word places.now }
{
    let mut out = word;
    for &p in places {
        let place = p as usize % PLACES;
        out[place] = closer(codeword[place], column_of(costs, place));
    }
    out
}

// Whether a place counts, by its flag, and two words have the same symbol there.
fn agrees(flag: u8, symbol: u8, other: u8) -> bool
    ensures { result ≡ (eqb flag 1 && eqb symbol other) }
{
    flag == 1 && symbol == other
}

// At how many of some places, of those that count, the word has the codeword's symbol.
fn agreeing(codeword: Word, word: Word, places: &[u8], counts: [u8; PLACES]) -> usize
    ensures number { result ≡ agreeing_in counts codeword word places.now }
    ensures few { result ≤ length places.now }
{
    let mut n = 0;
    for &p in places {
        let place = p as usize % PLACES;
        n += usize::from(agrees(counts[place], codeword[place], word[place]));
    }
    n
}

// How many of the choices between two symbols at m places change at most so many of them: those that change none, one, two and so on.
fn choices(m: usize, most: usize) -> usize
    requires { (m ≤ most_doubt) × (most ≤ m) }
    ensures { result ≡ choices_of m most }
{
    let mut exactly = 1;
    let mut sum = 1;
    for i in 0..most {
        exactly = exactly * (m - i) / (i + 1);
        sum += exactly;
    }
    sum
}

// How many test words below a node are within T of the codeword. At a place left that counts and has the codeword's symbol as its best or its
// second, one of the two differs, and the closest test word has the other; at any other place left both differ, or neither counts.
pub fn tests_within(
    codeword: Word,
    word: Word,
    costs: &[u16],
    counted: &Open,
    undecided: Undecided<'_>,
) -> usize
    ensures { WithinOf counted.now.rate.k counted.now.counts counted.now.blanks (column_of symbols costs.now) codeword word undecided.entry.places.now
        (length undecided.entry.places.now) result }
{
    let places = undecided.places;
    let nearest = closest(codeword, word, costs, places);
    let apart = distance(codeword, nearest, counted.counts);
    let most = counted.reach();
    if most < apart {
        return 0;
    }
    let agreed = agreeing(codeword, nearest, places, counted.counts);
    let spare = most - apart;
    if agreed <= spare {
        return 1 << places.len();
    }
    choices(agreed, spare) << (places.len() - agreed)
}

// The total of the known codeword: it stands in the answer, where there is one.
fn known_total(known: Finding, costs: &[u16]) -> u32
    ensures { result ≡ known_total (column_of symbols costs.now) known }
{
    match known.answer {
        Answer::Near { total, .. } => total,
        Answer::NoneNear => total(costs, &known.codeword),
    }
}

// The known codeword as the answer of the test words below a node, where so many of them are within T of it and no other is near. So it has
// no runner-up there, whatever rivals it has elsewhere.
pub fn as_answer_here(known: Finding, tests: usize, costs: &[u16]) -> Finding
    ensures { result ≡ answer_here (column_of symbols costs.now) known tests }
{
    if tests == 0 {
        return missed(known);
    }
    Finding {
        answer: Answer::Near {
            total: known_total(known, costs),
            margin: None,
        },
        tests,
        ..known
    }
}
