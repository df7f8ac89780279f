// What decoding of a table, by doubt or by threshold, and of bit values checks first: the rate, and then the sizes of what is given and of the two lent
// buffers. It knows of no doubt and of no column.
#![tactic(auto)]

ghost use Rattle.std.specs.Prelude.{◌≡◌};
ghost use Rattle.book64.specs.Here.{checks_of};
ghost use Rattle.refusals.specs.Numbers.{number_of};

use encoding::known_rate;
use refusals::Refusal;
use totals::report::REPORT_BYTES;

// By the lengths of what is given, beside the one wanted, of the message and of the report.
#[tactic(auto, using(crate::proofs::Cases::unknown_first))]
pub fn checks(
    rate: usize,
    given: usize,
    wanted: usize,
    message: usize,
    report: usize,
) -> Result<(), Refusal>
    ensures { number_of result ≡ checks_of rate given wanted message report }
{
    if !known_rate(rate) {
        return Err(Refusal::UnknownRate);
    }
    if given != wanted {
        return Err(Refusal::WrongSize);
    }
    if message != rate {
        return Err(Refusal::WrongSize);
    }
    if report != REPORT_BYTES {
        return Err(Refusal::WrongSize);
    }
    Ok(())
}
