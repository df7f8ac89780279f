// Runs: lists of calls from an opened session, and the theorem that their answers are the book's (specs/Demand3.antt).
// The list starts from `open` or `open_capture`, and `step` makes its calls, each on the session that the one before it left. A later call
// is one kind and one arm more. How a call answers is the business of its own crate; nothing here looks into a session.
#![tactic(auto)]

ghost use Rattle.std.specs.Prelude.{[]};
ghost use Rattle.book64.specs.calls.Calls.{deliver, reading, writing, closing, withdraw};
ghost use Rattle.book64.specs.Here.{open_of};
ghost use Rattle.refusals.specs.Numbers.{number_of};
ghost use Rattle.session.specs.Calls.{ended, Opening};
ghost use Rattle.runs.specs.Follows.{ByCapture};
ghost use Rattle.runs.specs.Step.{Step, answer_with};
ghost use Rattle.runs.specs.Stepping.{Stepping};

use columns::costs::SYMBOLS;
use refusals::Refusal;
use session::{Opened, Session};

// The calls that a list is made of.
#[derive(Clone, Copy)]
pub enum Kind {
    Deliver,
    Read,
    Write,
    Close,
    Withdraw,
}

pub fn open(rate: usize, doubtful: &[u8]) -> Opened
    ensures { Opening (open_of rate doubtful.now) (ended result.answer result.session) }
{
    session::open(rate, doubtful)
}

pub fn open_capture(bytes: &[u8]) -> Opened
    ensures { ByCapture bytes.now (ended result.answer result.session) }
{
    ranges::bytes(bytes);
    opening::open_capture(bytes)
}

#[tactic(auto, using(crate::proofs::Steps::steps))]
fn make_delivery(session: &mut Session, place: usize, column: [u16; SYMBOLS]) -> Result<(), Refusal>
    ensures { Step session.old (deliver place column) (answer_with (number_of result) [] []) session.new }
{
    ranges::costs(&column);
    session::deliver(session, place, column)
}

fn make_reading(session: &Session, out: &mut [u8]) -> Result<(), Refusal>
    ensures { Step session.now (reading out.old) (answer_with (number_of result) out.new []) session.now }
{
    reading::read_interpolant(*session, out)
}

fn make_writing(session: &Session, out: &mut [u8]) -> Result<(), Refusal>
    ensures { Step session.now (writing out.old) (answer_with (number_of result) out.new []) session.now }
{
    writing::write_capture(*session, out)
}

fn make_closing(session: &Session, message: &mut [u8], report: &mut [u8]) -> Result<(), Refusal>
    ensures { Step session.now (closing message.old report.old) (answer_with (number_of result) message.new report.new) session.now }
{
    closing::close(*session, message, report)
}

#[tactic(auto, using(crate::proofs::Steps::steps))]
fn make_withdrawal(session: &mut Session, place: usize) -> Result<(), Refusal>
    ensures { Step session.old (withdraw place) (answer_with (number_of result) [] []) session.new }
{
    session::withdraw(session, place)
}

// Makes one call. Place and column are a delivery's, and the place a withdrawal's; reading and writing are lent the first buffer, closing both.
pub fn step(
    kind: Kind,
    session: &mut Session,
    place: usize,
    column: [u16; SYMBOLS],
    first: &mut [u8],
    second: &mut [u8],
) -> Result<(), Refusal>
    ensures { Stepping kind session.old place column first.old second.old (ended result session.new) first.new second.new }
{
    match kind {
        Kind::Deliver => make_delivery(session, place, column),
        Kind::Read => make_reading(session, first),
        Kind::Write => make_writing(session, first),
        Kind::Close => make_closing(session, first, second),
        Kind::Withdraw => make_withdrawal(session, place),
    }
}
