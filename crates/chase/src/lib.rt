// The search for the nearest codeword as one call: what may be asked, a codeword that is guessed, the settled places' basis, and the tree from
// there. Blank places are neither settled nor doubled. It knows of no session and no buffers, and not how the guess is made.
#![tactic(auto)]

ghost use Rattle.std.specs.Prelude.{◌≡◌, ◌≤◌, IfNone, IfSome, length, take};
ghost use Rattle.soft.specs.Column.{places, symbols, column_of};
ghost use Rattle.soft.specs.Blank.{flag_at, flags_of, unblanked};
ghost use Rattle.soft.specs.Doubt.{most_doubt};
ghost use Rattle.summary.specs.Summary.{SummaryOf};
ghost use Rattle.doubt.specs.Picked.{PickedOf};
ghost use Rattle.near.specs.Here.{Places};
ghost use Rattle.chase.specs.Places.{are_places, Flagged};
ghost use Rattle.chase.specs.Call.{Asked, OpenFor, well_formed, nearest_of};

use answers::{Finding, none_near, told};
use basis::CLASSES;
use candidate::open::Open;
use candidate::rate::Rate;
use columns::blank::blanks;
use columns::costs::{COSTS, PLACES};
use doubt::{MOST_DOUBT, Picked, with_place};
use encoding::known_rate;
use guess::first_known;
use interpolation::settle::settle;
use known::{Undecided, as_answer_here, governs, tests_within};
use summary::{Summary, summary_of};
use tree::{Frame, search};

// Whether a place's flag is 1; past the last place there is none.
fn has_flag(flags: [u8; PLACES], place: usize) -> bool
    ensures { result ≡ flag_at flags place }
{
    place < PLACES && flags[place] == 1
}

// The doubtful places that are doubled: those that count, in their order.
fn doubled_places(doubtful: &[u8], counts: [u8; PLACES]) -> Picked
    requires { length doubtful.now ≤ most_doubt }
    ensures { PickedOf (unblanked (flag_at counts) doubtful.now) result }
{
    let mut places = [0u8; MOST_DOUBT];
    let mut count = 0;
    for &place in doubtful {
        let chosen = has_flag(counts, place as usize);
        with_place(&mut places, count, place, chosen);
        count += usize::from(chosen);
    }
    Picked { places, count }
}

// A flag of 1 for the settled places: those that count, but for the doubled ones.
fn settled_places(doubled: &[u8], counts: [u8; PLACES]) -> [u8; PLACES]
    ensures { Places doubled.now → Flagged (flag_at counts) doubled.now result }
{
    let mut out = counts;
    for &place in doubled {
        out[place as usize % PLACES] = 0;
    }
    out
}

// Whether the doubtful places are different and below 64. A flag of 1 for the places not named so far.
fn are_places(doubtful: &[u8]) -> bool
    ensures { result ≡ are_places doubtful.now }
{
    let mut unnamed = [1u8; PLACES];
    for &p in doubtful {
        let place = p as usize;
        if PLACES <= place || unnamed[place] == 0 {
            return false;
        }
        unnamed[place] = 0;
    }
    true
}

// Whether the arguments have the form of a session's: a known rate, 1,024 costs and at most twelve doubtful places, different and below 64.
fn well_formed(rate: usize, costs: &[u16], doubtful: [u8; MOST_DOUBT], doubt: usize) -> bool
    ensures { result ≡ well_formed rate costs.now doubtful doubt }
{
    if !known_rate(rate) || costs.len() != COSTS || MOST_DOUBT < doubt {
        return false;
    }
    are_places(&doubtful[..doubt])
}

// The places that count, where the arguments are a session's and not too many places are blank.
fn open_for(
    rate: usize,
    costs: &[u16],
    doubtful: [u8; MOST_DOUBT],
    doubt: usize,
    counts: [u8; PLACES],
) -> Option<Open>
    requires { counts ≡ flags_of places (column_of symbols costs.now) }
    ensures unasked { IfNone result (¬ Asked rate costs.now doubtful doubt) }
    ensures asked { IfSome result (OpenFor rate costs.now doubtful doubt counts) }
{
    if !well_formed(rate, costs, doubtful, doubt) {
        return None;
    }
    let rate = Rate::new(rate)?;
    let blanks = blanks(counts);
    if rate.blank_limit() < blanks {
        return None;
    }
    Some(Open {
        rate,
        counts,
        blanks,
    })
}

// The answer by a table of costs, a summary of its columns and a list of doubtful places. Arguments that no session has, find nothing, and so do
// too many blank places. Where a guessed codeword governs the root of the tree, its test words are only counted.
pub fn nearest_by(
    rate: usize,
    costs: &[u16],
    doubtful: [u8; MOST_DOUBT],
    doubt: usize,
    summary: Summary,
) -> Finding
    requires { SummaryOf (column_of symbols costs.now) summary }
    ensures { result ≡ nearest_of rate costs.now doubtful doubt }
{
    let Some(open) = open_for(rate, costs, doubtful, doubt, summary.counts) else {
        return none_near();
    };
    let frame = Frame { costs, open };
    let doubled = doubled_places(&doubtful[..doubt], frame.open.counts);
    let undecided = Undecided {
        places: &doubled.places[..doubled.count],
    };
    let word = summary.best;
    let known = first_known(word, frame.open.rate);
    if governs(known, word, &frame.open, undecided) {
        let tests = tests_within(known.codeword, word, costs, &frame.open, undecided);
        return told(as_answer_here(known, tests, costs));
    }
    let flags = settled_places(undecided.places, frame.open.counts);
    let mut leads = [0usize; CLASSES];
    let rows = settle(
        word,
        flags,
        frame.open.rate.top_order(),
        frame.open.largest_key(),
        &mut leads,
    );
    told(search(&rows, &leads, word, &frame, undecided, known))
}

// The same by the costs alone.
pub fn nearest(rate: usize, costs: &[u16], doubtful: [u8; MOST_DOUBT], doubt: usize) -> Finding
    ensures { result ≡ nearest_of rate costs.now doubtful doubt }
{
    nearest_by(rate, costs, doubtful, doubt, summary_of(costs))
}
