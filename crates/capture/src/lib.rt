// The layout of a capture: its versions, and where its parts stand and how many bytes they have. It knows of no code that writes or reads one.
// What a capture holds is written in `book`; what writing and opening one answer, and their round trips, in specs/.
#![tactic(auto)]

ghost use Rattle.std.specs.Prelude.{◌≡◌};
ghost use Rattle.book64.specs.captures.Capture.{is_version, version_of};

use doubt::MOST_DOUBT;

// The versions of captures that are written and read, and the most doubtful places of the first one.
pub const FIRST_VERSION: u8 = 1;

pub const SECOND_VERSION: u8 = 2;

pub const MOST_IN_FIRST_VERSION: usize = 8;

// Version, two bytes of length, rate and d: where they stand, and how many bytes lie before the doubtful list.
pub const VERSION_AT: usize = 0;

pub const LENGTH_HIGH_AT: usize = 1;

pub const LENGTH_LOW_AT: usize = 2;

pub const RATE_AT: usize = 3;

pub const DOUBT_AT: usize = 4;

pub const HEAD_BYTES: usize = 5;

// The two bytes of a cost for each symbol, and a record: a place and its cost bytes.
pub const COLUMN_BYTES: usize = 32;

pub const RECORD_BYTES: usize = 33;

// A capture without doubtful places: the bytes up to its length, those that follow it, and all of them; and the longest capture.
pub const BODY_AT: usize = 3;

pub const BODY_BYTES: usize = 2114;

pub const LEAST_BYTES: usize = 2117;

pub const MOST_BYTES: usize = LEAST_BYTES + MOST_DOUBT;

pub fn is_version(version: u8) -> bool
    ensures { result ≡ is_version version }
{
    if version == FIRST_VERSION {
        return true;
    }
    version == SECOND_VERSION
}

// The version of a capture with so many doubtful places.
pub fn version_of(doubt: usize) -> u8
    ensures { result ≡ version_of doubt }
{
    if MOST_IN_FIRST_VERSION < doubt {
        return SECOND_VERSION;
    }
    FIRST_VERSION
}
