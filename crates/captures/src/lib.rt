// Calls on whole captures, for C: decoding one, putting one into place order, making one from a table.
// Each makes calls on a session, one after the other, up to the first that is refused, and adds no check but that of the table's size.
#![tactic(auto)]

ghost use Rattle.std.specs.Prelude.{◌≡◌};
ghost use Rattle.refusals.specs.Numbers.{number_of};
ghost use Rattle.soft.specs.Column.{column_of};
ghost use Rattle.book.specs.tables.Table.{closed};
ghost use Rattle.book64.specs.Here.{width, deliver_row};
ghost use Rattle.session.specs.View.{book_of, Good};
ghost use Rattle.session.specs.Calls.{started, Opening};
ghost use Rattle.captures.specs.Calls.{filled, decode_capture_of, sort_capture_of, table_entries, open_table, make_capture_of, WritesOpened};

use closing::close;
use columns::costs::{COSTS, PLACES, column_of, costs_from};
use opening::try_open_capture;
use refusals::Refusal;
use session::{Session, deliver, try_open};
use writing::write_capture;

// The two bytes of a cost for each symbol of each place.
const TABLE_BYTES: usize = 2048;

// The message and the report of a capture: opening it, and closing.
pub fn decode_capture(capture: &[u8], message: &mut [u8], report: &mut [u8]) -> Result<(), Refusal>
    ensures { closed (number_of result) message.new report.new ≡ decode_capture_of capture.now message.old report.old }
{
    let opened = try_open_capture(capture)?;
    close(opened, message, report)
}

// Writes the session of an accepted opening; a refused one leaves the buffer, and its refusal is handed on.
#[tactic(auto, using(crate::proofs::Cases::refused_on))]
fn write_opened(given: Result<Session, Refusal>, out: &mut [u8]) -> Result<(), Refusal>
    ensures { WritesOpened (started given) out.old (number_of result) out.new }
{
    match given {
        Ok(session) => write_capture(session, out),
        Err(refusal) => Err(refusal),
    }
}

// A capture with its records in place order: opening it, and writing.
pub fn sort_capture(capture: &[u8], out: &mut [u8]) -> Result<(), Refusal>
    ensures { filled (number_of result) out.new ≡ sort_capture_of capture.now out.old }
{
    write_opened(try_open_capture(capture), out)
}

// The columns of all places delivered, place 0 first.
fn deliver_columns(opened: Session, costs: &[u16]) -> Result<Session, Refusal>
    requires { Good opened }
    ensures { Opening (deliver_row (book_of opened) (table_entries (column_of width costs.now))) (started result) }
{
    let mut current = opened;
    for place in 0..PLACES {
        deliver(&mut current, place, column_of(costs, place))?;
    }
    Ok(current)
}

// A session with a rate, a doubtful list and the columns of a table.
fn open_table(rate: usize, doubtful: &[u8], table: &[u8]) -> Result<Session, Refusal>
    ensures { Opening (open_table rate doubtful.now table.now) (started result) }
{
    let opened = try_open(rate, doubtful)?;
    if table.len() != TABLE_BYTES {
        return Err(Refusal::WrongSize);
    }
    let costs: [u16; COSTS] = costs_from(table);
    deliver_columns(opened, &costs)
}

// A capture of a rate, a doubtful list and a table: opening a session with them, delivering, and writing.
pub fn make_capture(
    rate: usize,
    doubtful: &[u8],
    table: &[u8],
    out: &mut [u8],
) -> Result<(), Refusal>
    ensures { filled (number_of result) out.new ≡ make_capture_of rate doubtful.now table.now out.old }
{
    write_opened(open_table(rate, doubtful, table), out)
}
