// Decoding of a table of costs, with a summary of its columns, by a doubtful list: 'too many blank', 'none near', or the answer's message and its report.
// It knows of no session and checks no argument; the search is `chase`'s, and nothing here knows how it goes.
#![tactic(auto)]

ghost use Rattle.std.specs.Prelude.{◌≡◌, List, ℕ, take};
ghost use Rattle.soft.specs.Column.{places, symbols, column_of};
ghost use Rattle.soft.specs.Blank.{flags_of};
ghost use Rattle.summary.specs.Summary.{SummaryOf};
ghost use Rattle.book.specs.tables.Table.{closed};
ghost use Rattle.book64.specs.Here.{decode_of};
ghost use Rattle.decoding.specs.Decoding.{Decodable, unanswered_of};
ghost use Rattle.refusals.specs.Numbers.{number_of};

use answer::Answer;
use candidate::rate::Rate;
use columns::blank::blanks;
use columns::costs::PLACES;
use doubt::MOST_DOUBT;
use lists::copy;
use refusals::Refusal;
use summary::Summary;

// What is answered where nothing was found: more places are blank than leave a T, or no codeword is near.
fn unanswered(rate: Rate, counts: [u8; PLACES]) -> Result<(), Refusal>
    ensures { (columns : ℕ → List ℕ) → counts ≡ flags_of places columns → number_of result ≡ unanswered_of rate.k columns }
{
    if blanks(counts) <= rate.blank_limit() {
        return Err(Refusal::NoneNear);
    }
    Err(Refusal::TooBlank)
}

// 'Too many blank' or 'none near', the buffers as they were; or the answer's message and its report. With too many blank the search finds
// nothing, so that a frame with an answer is not asked for its blanks twice.
// `doubtful` and `doubt` are a list in the front of an array, as `nearest` takes it and as the contracts of both name it.
pub fn decode(
    rate: usize,
    costs: &[u16],
    doubtful: [u8; MOST_DOUBT],
    doubt: usize,
    message: &mut [u8],
    report: &mut [u8],
    summary: Summary,
) -> Result<(), Refusal>
    requires { Decodable rate costs.now doubtful doubt message.old report.old × SummaryOf (column_of symbols costs.now) summary }
    ensures { closed (number_of result) message.new report.new ≡ decode_of rate (column_of symbols costs.now) (take doubt doubtful) message.old report.old }
{
    let of_rate = Rate { k: rate };
    let found = chase::nearest_by(rate, costs, doubtful, doubt, summary);
    let Answer::Near { total, margin } = found.answer else {
        return unanswered(of_rate, summary.counts);
    };
    copy(&found.message, message);
    let word = found.codeword;
    let pinned = totals::total::pinned(costs, &word);
    let flags = totals::total::changed_places(&word, summary.best, summary.counts);
    let changed = totals::total::changed(flags);
    let mark = marks::mark(costs, &word, flags, of_rate.least_distance(), summary);
    let bytes = totals::report::report(total, found.tests as u16, pinned, changed, margin, mark);
    copy(&bytes, report);
    Ok(())
}
