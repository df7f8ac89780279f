// Table decoding with a threshold: table decoding's checks in their order, the maximum in the place of the doubt, and then decoding by the table's columns and
// the places that the threshold makes doubtful. It knows of no session and of no codeword.
#![tactic(auto)]

ghost use Rattle.std.specs.Prelude.{◌≡◌};
ghost use Rattle.book.specs.tables.Table.{closed};
ghost use Rattle.book64.specs.Here.{table_below_of};
ghost use Rattle.refusals.specs.Numbers.{number_of};

use checking::checks;
use columns::costs::{COSTS, fill};
use decoding::decode;
use doubt::MOST_DOUBT;
use refusals::Refusal;
use summary::summary_of;
use table_decoding::TABLE_BYTES;

// Not by `decode_costs`: here a threshold picks the doubtful places, and what would be shared is two lines.
pub fn decode_table_below(
    rate: usize,
    table: &[u8],
    threshold: u16,
    most: usize,
    message: &mut [u8],
    report: &mut [u8],
) -> Result<(), Refusal>
    ensures { closed (number_of result) message.new report.new ≡ table_below_of rate table.now threshold most message.old report.old }
{
    checks(rate, table.len(), TABLE_BYTES, message.len(), report.len())?;
    if most < 1 {
        return Err(Refusal::WrongDoubt);
    }
    if MOST_DOUBT < most {
        return Err(Refusal::WrongDoubt);
    }
    let mut costs = [0; COSTS];
    fill(table, &mut costs);
    let summary = summary_of(&costs);
    let picked = doubt::doubtful_below_by(summary, threshold, most);
    let doubtful = picked.places;
    decode(
        rate,
        &costs,
        doubtful,
        picked.count,
        message,
        report,
        summary,
    )
}
