// Opening a capture as a session: the checks in document 01's order, then a session opened with its rate and list and its records delivered.
// It knows a session only by `open` and `deliver`, and a column only as the bytes that `columns` reads.
#![tactic(auto)]

ghost use Rattle.std.specs.Prelude.{◌≡◌, ◌*◌, length};
ghost use Rattle.book64.specs.captures.Capture.{records_of, record_length};
ghost use Rattle.book64.specs.captures.CaptureOpening.{open_capture_of};
ghost use Rattle.book64.specs.Here.{places, deliver_row};
ghost use Rattle.session.specs.View.{book_of, Good};
ghost use Rattle.session.specs.Calls.{ended, started, Opening};

use capture::{
    BODY_AT, BODY_BYTES, DOUBT_AT, HEAD_BYTES, LEAST_BYTES, LENGTH_HIGH_AT, LENGTH_LOW_AT,
    MOST_BYTES, RATE_AT, RECORD_BYTES, VERSION_AT, is_version, version_of,
};
use columns::costs::PLACES;
use refusals::Refusal;
use session::{Opened, Session};

// The 64 records delivered in their order, up to the first that is refused.
fn deliver_records(opened: Session, records: &[u8]) -> Result<Session, Refusal>
    requires { Good opened × (length records.now ≡ record_length * places) }
    ensures { Opening (deliver_row (book_of opened) (records_of places records.now)) (started result) }
{
    let mut current = opened;
    for i in 0..PLACES {
        let at = RECORD_BYTES * i;
        let place = records[at] as usize;
        let column = columns::costs::costs_from(&records[at + 1..at + RECORD_BYTES]);
        session::deliver(&mut current, place, column)?;
    }
    Ok(current)
}

// For who goes on with an accepted capture alone; `open_capture` hands a session back in any case.
pub fn try_open_capture(bytes: &[u8]) -> Result<Session, Refusal>
    ensures { Opening (open_capture_of bytes.now) (started result) }
{
    if bytes.len() < LEAST_BYTES {
        return Err(Refusal::WrongLength);
    }
    if MOST_BYTES < bytes.len() {
        return Err(Refusal::WrongLength);
    }
    let version = bytes[VERSION_AT];
    if !is_version(version) {
        return Err(Refusal::WrongVersion);
    }
    let length = u16::from_be_bytes([bytes[LENGTH_HIGH_AT], bytes[LENGTH_LOW_AT]]) as usize;
    let doubt = bytes[DOUBT_AT] as usize;
    if length + BODY_AT != bytes.len() {
        return Err(Refusal::WrongLength);
    }
    if length != BODY_BYTES + doubt {
        return Err(Refusal::WrongLength);
    }
    let start = HEAD_BYTES + doubt;
    let suited = version_of(doubt);
    let opened = session::try_open(bytes[RATE_AT] as usize, &bytes[HEAD_BYTES..start])?;
    if version != suited {
        return Err(Refusal::WrongDoubt);
    }
    deliver_records(opened, &bytes[start..])
}

pub fn open_capture(bytes: &[u8]) -> Opened
    ensures { Opening (open_capture_of bytes.now) (ended result.answer result.session) }
{
    session::left_by(try_open_capture(bytes))
}
