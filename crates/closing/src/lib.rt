// Closing a session: document 01's checks in their order, and then decoding by the session's table and doubtful list.
// It knows of no codeword: what is near is `decoding`'s.
#![tactic(auto)]

ghost use Rattle.refusals.specs.Numbers.{number_of};
ghost use Rattle.session.specs.Answering.{Closing};

use decoding::decode;
use doubt::MOST_DOUBT;
use refusals::Refusal;
use session::Session;
use summary::summary_of;
use totals::report::REPORT_BYTES;

// A session record that was built by hand, with a rate or a doubtful list that no opening accepts, is refused: no contract says by which number.
#[tactic(auto, using(crate::proofs::Cases::message_unfit, crate::proofs::Cases::report_unfit))]
pub fn close(session: Session, message: &mut [u8], report: &mut [u8]) -> Result<(), Refusal>
    ensures { Closing session message.old report.old (number_of result) message.new report.new }
{
    let rate = session.rate as usize;
    if message.len() != rate {
        return Err(Refusal::WrongSize);
    }
    if report.len() != REPORT_BYTES {
        return Err(Refusal::WrongSize);
    }
    let taken = session.taken;
    if !session::all_taken(taken) {
        return Err(Refusal::PlaceMissing);
    }
    let doubt = session.doubt;
    let doubtful = session.doubtful;
    if MOST_DOUBT < doubt {
        return Err(Refusal::WrongDoubt);
    }
    session::try_open(rate, &doubtful[..doubt])?;
    let costs = session.costs;
    let summary = summary_of(&costs);
    decode(rate, &costs, doubtful, doubt, message, report, summary)
}
