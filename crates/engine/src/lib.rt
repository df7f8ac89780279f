// The elimination engine as one call: of one test word the codeword within T of it and the least Q through it, by elimination. It knows of no
// session, no costs and no tree.
#![tactic(auto)]

ghost use Rattle.std.specs.Prelude.{◌≡◌, ◌+◌, IfOk, length};
ghost use Rattle.lists.specs.Count.{count};
ghost use Rattle.lists.specs.Listed.{listed};
ghost use Rattle.soft.specs.Blank.{flag_at};
ghost use Rattle.book64.specs.Here.{places};
ghost use Rattle.book64.specs.engine.Engine.{engine_checks, eliminated, engine_of};
ghost use Rattle.engine.specs.Solution.{open_flag, OpenOf, SolutionOf};
ghost use Rattle.refusals.specs.Numbers.{number_of};

use candidate::open::Open;
use candidate::rate::Rate;
use candidate::{Word, candidate_of, distance};
use elimination::solving::solve;
use encoding::symbols_only;
use lists::{copy, padded};
use parts::READING;
use parts::bytes::scaled;
use parts::orders::{with_z, without_z};
use planes::PLACES;
use refusals::Refusal;
use session::{fit_places, is_among};

// The symbols of the codeword that is near, and the bytes of the least Q.
#[derive(Clone, Copy)]
struct Solution {
    codeword: Word,
    bytes: [u8; READING],
}

// A flag of 1 for the places that are not in the list.
fn unblanked(blanks: &[u8]) -> [u8; PLACES]
    ensures { result ≡ listed places (open_flag blanks.now) }
{
    let mut out = [0u8; PLACES];
    for place in 0..PLACES {
        out[place] = u8::from(!is_among(place, blanks));
    }
    out
}

// The codeword within T over the places that count, if there is one.
fn decide(word: Word, counted: &Open) -> Option<Solution>
    requires { count places (flag_at counted.now.counts) + counted.now.blanks ≡ places }
    ensures { SolutionOf counted.now.rate.k word counted.now.counts counted.now.blanks result }
{
    let limit = counted.largest_key();
    let solved = solve(word, counted.counts, counted.rate.top_order(), limit)?;
    let row = solved.row;
    let codeword = candidate_of(row, counted.rate, word).codeword;
    if counted.reach() < distance(codeword, word, counted.counts) {
        return None;
    }
    let bytes = scaled(without_z(row, word), with_z(row), 1);
    Some(Solution { codeword, bytes })
}

// The first check that fails, by the sizes of the two buffers; or the places that count.
fn checks(
    rate: usize,
    word: &[u8],
    blanks: &[u8],
    codeword: usize,
    q: usize,
) -> Result<Open, Refusal>
    ensures number { number_of result ≡ engine_checks rate word.now blanks.now codeword q }
    ensures open { IfOk result (OpenOf rate blanks.now) }
{
    let Some(known) = Rate::new(rate) else {
        return Err(Refusal::UnknownRate);
    };
    if word.len() != PLACES {
        return Err(Refusal::WrongSize);
    }
    if codeword != PLACES {
        return Err(Refusal::WrongSize);
    }
    if q != READING {
        return Err(Refusal::WrongSize);
    }
    if !symbols_only(word) {
        return Err(Refusal::NoSymbol);
    }
    if !fit_places(blanks) {
        return Err(Refusal::WrongDoubt);
    }
    if known.blank_limit() < blanks.len() {
        return Err(Refusal::TooBlank);
    }
    Ok(Open {
        rate: known,
        counts: unblanked(blanks),
        blanks: blanks.len(),
    })
}

// The codeword within T of the word over the places that are not blank, and the least Q through the word there.
pub fn eliminate(
    rate: usize,
    word: &[u8],
    blanks: &[u8],
    codeword: &mut [u8],
    q: &mut [u8],
) -> Result<(), Refusal>
    ensures { eliminated (number_of result) codeword.new q.new
        ≡ engine_of rate word.now blanks.now codeword.old q.old }
{
    let open = checks(rate, word, blanks, codeword.len(), q.len())?;
    let Some(found) = decide(padded(word), &open) else {
        return Err(Refusal::NoneNear);
    };
    copy(&found.codeword, codeword);
    copy(&found.bytes, q);
    Ok(())
}
