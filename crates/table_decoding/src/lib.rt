// Table decoding: document 01's checks in their order, and then decoding by the table's columns and the doubtful places picked from them.
// It knows of no session and of no codeword: what is near is `decoding`'s.
#![tactic(auto)]

ghost use Rattle.std.specs.Prelude.{true, ◌≡◌, ◌*◌, ◌≤◌, length};
ghost use Rattle.code.specs.Encoding.{known_rate};
ghost use Rattle.soft.specs.Column.{places, symbols, column_of};
ghost use Rattle.soft.specs.Doubt.{most_doubt, doubtful_of};
ghost use Rattle.book.specs.tables.Table.{closed};
ghost use Rattle.book64.specs.Here.{report_length, decode_of, table_of};
ghost use Rattle.refusals.specs.Numbers.{number_of};

use checking::checks;
use columns::costs::{COSTS, fill};
use decoding::decode;
use doubt::{MOST_DOUBT, doubtful_by};
use refusals::Refusal;
use summary::summary_of;

// The two bytes of a cost for each symbol of each place.
pub const TABLE_BYTES: usize = 2048;

// Decoding by the doubtful places picked from the columns, whatever they were made from. Rate, doubt and sizes are checked. Inlined, so that the
// summary lies in its caller's part of the stack.
#[inline(always)]
pub fn decode_costs(
    rate: usize,
    costs: &[u16],
    doubt: usize,
    message: &mut [u8],
    report: &mut [u8],
) -> Result<(), Refusal>
    requires { (known_rate rate ≡ true) × (length costs.now ≡ places * symbols) × (doubt ≤ most_doubt)
        × (length message.old ≡ rate) × (length report.old ≡ report_length) }
    ensures { closed (number_of result) message.new report.new
        ≡ decode_of rate (column_of symbols costs.now) (doubtful_of places doubt (column_of symbols costs.now)) message.old report.old }
{
    let summary = summary_of(costs);
    let picked = doubtful_by(summary, doubt);
    let doubtful = picked.places;
    decode(
        rate,
        costs,
        doubtful,
        picked.count,
        message,
        report,
        summary,
    )
}

#[tactic(auto, using(crate::proofs::Cases::doubt_too_large))]
pub fn decode_table(
    rate: usize,
    table: &[u8],
    doubt: usize,
    message: &mut [u8],
    report: &mut [u8],
) -> Result<(), Refusal>
    ensures { closed (number_of result) message.new report.new ≡ table_of rate table.now doubt message.old report.old }
{
    checks(rate, table.len(), TABLE_BYTES, message.len(), report.len())?;
    if MOST_DOUBT < doubt {
        return Err(Refusal::WrongDoubt);
    }
    let mut costs = [0; COSTS];
    fill(table, &mut costs);
    decode_costs(rate, &costs, doubt, message, report)
}
