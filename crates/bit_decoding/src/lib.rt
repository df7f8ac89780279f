// Decoding from bit values: table decoding's checks in their order, and then decoding by the columns that the frame makes and the doubtful places picked from them.
// It makes no table of bytes, and answers as table decoding of it does.
#![tactic(auto)]

ghost use Rattle.std.specs.Prelude.{◌≡◌};
ghost use Rattle.book.specs.tables.Table.{closed};
ghost use Rattle.book64.specs.Here.{bits_of};
ghost use Rattle.refusals.specs.Numbers.{number_of};

use checking::checks;
use columns::bits::fill_table;
use columns::costs::COSTS;
use doubt::MOST_DOUBT;
use refusals::Refusal;
use table_decoding::decode_costs;

// A value for each bit of the symbol of each place.
const FRAME_BYTES: usize = 256;

pub fn decode_bits(
    rate: usize,
    frame: &[u8],
    doubt: usize,
    message: &mut [u8],
    report: &mut [u8],
) -> Result<(), Refusal>
    ensures { closed (number_of result) message.new report.new ≡ bits_of rate frame.now doubt message.old report.old }
{
    checks(rate, frame.len(), FRAME_BYTES, message.len(), report.len())?;
    if MOST_DOUBT < doubt {
        return Err(Refusal::WrongDoubt);
    }
    let mut costs = [0; COSTS];
    fill_table(frame, &mut costs);
    decode_costs(rate, &costs, doubt, message, report)
}
