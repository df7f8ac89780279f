// Writing a session as a capture: the checks in document 01's order, then the head and the records in rising place order.
// It knows a session only by its fields, and a column only as sixteen costs.
#![tactic(auto)]

ghost use Rattle.std.specs.Prelude.{◌≡◌, ◌*◌, ◌≤◌, length, take};
ghost use Rattle.soft.specs.Doubt.{most_doubt};
ghost use Rattle.soft.specs.CostBytes.{cost_bytes};
ghost use Rattle.book64.specs.captures.Capture.{row_bytes, record_length};
ghost use Rattle.book64.specs.Here.{places, width};
ghost use Rattle.refusals.specs.Numbers.{number_of};
ghost use Rattle.capture.specs.Calls.{head_length, head_bytes, record_bytes, row_of, Writing};

use capture::{
    BODY_BYTES, DOUBT_AT, HEAD_BYTES, LEAST_BYTES, LENGTH_HIGH_AT, LENGTH_LOW_AT, RATE_AT,
    RECORD_BYTES, VERSION_AT, version_of,
};
use columns::costs::{PLACES, SYMBOLS};
use doubt::MOST_DOUBT;
use lists::copy;
use refusals::Refusal;
use session::Session;

// The costs of a column, two bytes each, high byte first.
fn write_costs(column: &[u16], out: &mut [u8])
    requires { (length column.now ≡ width) × (length out.old ≡ 2 * width) }
    ensures { out.new ≡ cost_bytes column.now }
{
    for j in 0..SYMBOLS {
        let [high, low] = column[j].to_be_bytes();
        out[2 * j] = high;
        out[2 * j + 1] = low;
    }
}

// A place and its 32 cost bytes.
fn write_record(place: u8, column: &[u16], out: &mut [u8])
    requires { (length column.now ≡ width) × (length out.old ≡ record_length) }
    ensures { out.new ≡ record_bytes place column.now }
{
    out[0] = place;
    write_costs(column, &mut out[1..]);
}

// The records of all places, from 0 on.
fn write_records(costs: &[u16], out: &mut [u8])
    requires { (length costs.now ≡ places * width) × (length out.old ≡ record_length * places) }
    ensures { out.new ≡ row_bytes (row_of costs.now places) }
{
    for place in 0..PLACES {
        let from = SYMBOLS * place;
        let to = RECORD_BYTES * place;
        write_record(
            place as u8,
            &costs[from..from + SYMBOLS],
            &mut out[to..to + RECORD_BYTES],
        );
    }
}

// Version, length, rate, d and the d doubtful places.
fn write_head(rate: u8, list: [u8; MOST_DOUBT], count: usize, out: &mut [u8])
    requires { (count ≤ most_doubt) × (length out.old ≡ head_length count) }
    ensures { out.new ≡ head_bytes rate (take count list) }
{
    let [high, low] = ((BODY_BYTES + count) as u16).to_be_bytes();
    out[VERSION_AT] = version_of(count);
    out[LENGTH_HIGH_AT] = high;
    out[LENGTH_LOW_AT] = low;
    out[RATE_AT] = rate;
    out[DOUBT_AT] = count as u8;
    copy(&list[..count], &mut out[HEAD_BYTES..]);
}

// The first test keeps a session record that was built by hand from running past the list.
#[tactic(auto, using(crate::proofs::Cases::list_too_long, crate::proofs::Cases::buffer_unfit))]
pub fn write_capture(session: Session, out: &mut [u8]) -> Result<(), Refusal>
    ensures { Writing session out.old (number_of result) out.new }
{
    let doubt = session.doubt;
    if MOST_DOUBT < doubt {
        return Err(Refusal::WrongSize);
    }
    if out.len() != LEAST_BYTES + doubt {
        return Err(Refusal::WrongSize);
    }
    let taken = session.taken;
    if !session::all_taken(taken) {
        return Err(Refusal::PlaceMissing);
    }
    let doubtful = session.doubtful;
    let costs = session.costs;
    let start = HEAD_BYTES + doubt;
    write_head(session.rate, doubtful, doubt, &mut out[..start]);
    write_records(&costs, &mut out[start..]);
    Ok(())
}
