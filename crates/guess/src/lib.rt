// A codeword known before the search: the one that the best symbols are, all of them or all but one. It need not be near: what it tells is
// asked of it later, as of any codeword that is known. It knows of no costs.
#![tactic(auto)]

ghost use Rattle.std.specs.Prelude.{◌≡◌, ◌<◌};
ghost use Rattle.lists.specs.XorSum.{xor_sum};
ghost use Rattle.galois.specs.Field16.{value};
ghost use Rattle.family.specs.Member.{m16, places};
ghost use Rattle.planes.specs.Arrays.{element_at};
ghost use Rattle.guess.specs.Guess.{overall, folded_of, symbol_in, with_bit, SumsOf, PlaceAt, WrongPlace, KnownFirst};

use answer::Answer;
use answers::{Finding, none_near};
use candidate::rate::Rate;
use candidate::{Candidate, Word, shown};
use columns::costs::PLACES;
use curve::y_at;
use galois::{inverse, product};
use planes::Planes;
use planes::constants::ys;
use planes::lanes::{at, times};
use planes::words::planes;

// The points with one x.
const FIBRE: usize = 4;

// The sum of all bits of a plane, at the first of them.
fn folded(plane: u64) -> u64
    ensures { result ≡ folded_of plane }
{
    let twos = plane ^ (plane >> 1);
    let fours = twos ^ (twos >> 2);
    let eights = fours ^ (fours >> 4);
    let sixteens = eights ^ (eights >> 8);
    let halves = sixteens ^ (sixteens >> 16);
    halves ^ (halves >> 32)
}

// The sum of the symbols at all places.
fn all_of(a: Planes) -> u8
    ensures { result ≡ value (overall m16 (element_at a)) }
{
    let one = folded(a[0]);
    let two = folded(a[1]);
    let four = folded(a[2]);
    let eight = folded(a[3]);
    at([one, two, four, eight], 0)
}

// The sum of the symbols at the places whose number has a bit.
fn sum_with(word: Word, bit: usize) -> u8
    requires { bit < 6 }
    ensures { result ≡ xor_sum (places m16) (with_bit word bit) }
{
    let mut out = 0u8;
    for place in 0..PLACES {
        out ^= word[place] % 16 * ((place >> bit) % 2) as u8;
    }
    out
}

fn sum_of(word: Word) -> u8
    ensures { result ≡ xor_sum (places m16) (symbol_in word) }
{
    let mut out = 0u8;
    for &symbol in &word {
        out ^= symbol;
    }
    out
}

// Sums over all places: of the symbols, of the symbols times x, and of the symbols times the square of x.
#[derive(Clone, Copy)]
struct Sums {
    all: u8,
    across: u8,
    squares: u8,
}

// The bits of x are those of the place's number from the third on; the squares of 1, 2, 4 and 8 are 1, 4, 3 and 12.
fn sums_of(word: Word) -> Sums
    ensures { SumsOf word result }
{
    let one = sum_with(word, 2);
    let two = sum_with(word, 3);
    let four = sum_with(word, 4);
    let eight = sum_with(word, 5);
    Sums {
        all: sum_of(word) % 16,
        across: product(1, one) ^ product(2, two) ^ product(4, four) ^ product(8, eight),
        squares: product(1, one) ^ product(4, two) ^ product(3, four) ^ product(12, eight),
    }
}

// The place of a point of the curve.
fn place_at(x: u8, y: u8) -> Option<usize>
    ensures { PlaceAt x y result }
{
    let first = x as usize % 16 * FIBRE;
    for r in 0..FIBRE {
        if y_at(first + r) == y {
            return Some(first + r);
        }
    }
    None
}

// The place where a change alone has the sums of the word: a codeword's are zero, so those of a word with one wrong symbol are the change's.
// The sums with the squares of x and of y tell most words with more of them.
fn wrong_place(word: Word, told: Sums) -> Option<usize>
    requires { SumsOf word told × (0 < told.all) }
    ensures { WrongPlace word told.all result }
{
    let scale = inverse(told.all);
    let x = product(told.across, scale);
    if product(told.all, product(x, x)) != told.squares {
        return None;
    }
    let heights = ys();
    let by_y = times(planes(word), heights);
    let y = product(all_of(by_y), scale);
    if product(told.all, product(y, y)) != all_of(times(by_y, heights)) {
        return None;
    }
    place_at(x, y)
}

// The codeword that values show, known and not yet asked.
fn known_of(values: Planes, rate: Rate) -> Finding
    ensures { KnownFirst rate.k result }
{
    let Candidate { message, codeword } = shown(values, rate);
    Finding {
        answer: Answer::NoneNear,
        message,
        codeword,
        tests: 0,
    }
}

// The word with one wrong symbol mended.
fn mended(word: Word, told: Sums, rate: Rate) -> Finding
    requires { SumsOf word told × (0 < told.all) }
    ensures { KnownFirst rate.k result }
{
    let Some(place) = wrong_place(word, told) else {
        return none_near();
    };
    let mut out = word;
    out[place] ^= told.all;
    known_of(planes(out), rate)
}

// The sums of a codeword are zero. Where the word is neither one nor one but for a symbol, by these sums, the zero word is known.
pub fn first_known(word: Word, rate: Rate) -> Finding
    ensures { KnownFirst rate.k result }
{
    let told = sums_of(word);
    if told.all != 0 {
        return mended(word, told, rate);
    }
    if told.across != 0 || told.squares != 0 {
        return none_near();
    }
    let values = planes(word);
    if all_of(times(values, ys())) != 0 {
        return none_near();
    }
    known_of(values, rate)
}
