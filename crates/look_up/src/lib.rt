// Looking one place up in a capture: its column's bytes, where they lie.
// It knows of no session and of no column: whether a capture is accepted is `opening`'s to say.
#![tactic(auto)]

ghost use Rattle.std.specs.Prelude.{◌≡◌, ◌*◌, ◌<◌, length};
ghost use Rattle.refusals.specs.Refusal.{accepted};
ghost use Rattle.book64.specs.captures.CaptureOpening.{open_capture_of};
ghost use Rattle.book64.specs.captures.LookUpLaws.{Located};
ghost use Rattle.book64.specs.captures.Capture.{record_length};
ghost use Rattle.book64.specs.captures.LookUp.{record_with, look_up_of};
ghost use Rattle.book64.specs.Here.{places};

use capture::{COLUMN_BYTES, DOUBT_AT, HEAD_BYTES, RECORD_BYTES};
use columns::costs::PLACES;
use opening::try_open_capture;

// The number of the record of a place; where there is none it is 64, as the definition has it.
fn record_of(place: usize, records: &[u8]) -> usize
    requires { length records.now ≡ record_length * places }
    ensures { result ≡ record_with place places records.now }
{
    for i in 0..PLACES {
        if records[RECORD_BYTES * i] as usize == place {
            return i;
        }
    }
    PLACES
}

// The part of an accepted capture that is a place's column.
fn column_in<'a>(capture: &'a [u8], place: usize) -> &'a [u8]
    requires { (place < places) × ((open_capture_of capture.now).number ≡ accepted) × Located capture.now place }
    ensures { result.now ≡ look_up_of capture.now place }
{
    let start = HEAD_BYTES + capture[DOUBT_AT] as usize;
    let at = start + RECORD_BYTES * record_of(place, &capture[start..]) + 1;
    &capture[at..at + COLUMN_BYTES]
}

// The 32 bytes of a place's column, as a part of the caller's own capture; empty if the capture is refused or the place is above 63.
pub fn look_up<'a>(capture: &'a [u8], place: usize) -> &'a [u8]
    ensures { result.now ≡ look_up_of capture.now place }
{
    if PLACES <= place {
        return &capture[..0];
    }
    if try_open_capture(capture).is_err() {
        return &capture[..0];
    }
    column_in(capture, place)
}
