// What a call's report holds and what its mark means, as promises of functions that make the call and nothing else: where it is accepted, the report's bytes hold
// the numbers of the answer, none of them cut, and an answer with the mark is the cheapest of all codewords. And what a look-up hands back is the column's bytes, and what opening a capture and writing the session gives is the capture in place order.
// That bytes are bytes and costs have 16 bits is taken from the types (`ranges`), so that nothing is left to the caller.
#![tactic(auto)]

ghost use Rattle.book.specs.tables.Table.{closed};
ghost use Rattle.refusals.specs.Numbers.{number_of};
ghost use Rattle.promises.specs.Told.{TableTold, BelowTold, BitsTold, SessionTold, ColumnTold, WrittenAgain};

use refusals::Refusal;
use session::Session;

pub fn decode_table(
    rate: usize,
    table: &[u8],
    doubt: usize,
    message: &mut [u8],
    report: &mut [u8],
) -> Result<(), Refusal>
    ensures { TableTold rate table.now doubt message.old report.old (closed (number_of result) message.new report.new) }
{
    ranges::bytes(table);
    table_decoding::decode_table(rate, table, doubt, message, report)
}

pub fn decode_table_below(
    rate: usize,
    table: &[u8],
    threshold: u16,
    most: usize,
    message: &mut [u8],
    report: &mut [u8],
) -> Result<(), Refusal>
    ensures { BelowTold rate table.now threshold most message.old report.old (closed (number_of result) message.new report.new) }
{
    ranges::bytes(table);
    threshold_decoding::decode_table_below(rate, table, threshold, most, message, report)
}

pub fn decode_bits(
    rate: usize,
    frame: &[u8],
    doubt: usize,
    message: &mut [u8],
    report: &mut [u8],
) -> Result<(), Refusal>
    ensures { BitsTold rate frame.now doubt message.old report.old (closed (number_of result) message.new report.new) }
{
    bit_decoding::decode_bits(rate, frame, doubt, message, report)
}

pub fn close(session: Session, message: &mut [u8], report: &mut [u8]) -> Result<(), Refusal>
    ensures { SessionTold session message.old report.old (closed (number_of result) message.new report.new) }
{
    let table = session.costs;
    ranges::costs(&table);
    closing::close(session, message, report)
}

pub fn look_up<'a>(capture: &'a [u8], place: usize) -> &'a [u8]
    ensures { ColumnTold capture.now place result.now }
{
    ranges::bytes(capture);
    look_up::look_up(capture, place)
}

// The two calls one after the other; the second writes what the first leaves, refused or not.
pub fn write_again(capture: &[u8], out: &mut [u8]) -> Result<(), Refusal>
    ensures { WrittenAgain capture.now out.old (number_of result) out.new }
{
    ranges::bytes(capture);
    let opened = opening::open_capture(capture);
    writing::write_capture(opened.session, out)
}
