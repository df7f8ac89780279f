// The refusals, by who can cause them, and document 01's number of each. A call that is accepted answers `Ok`, which C sees as 0.
#![tactic(auto)]

ghost use Rattle.std.specs.Prelude.{◌≡◌};
ghost use Rattle.refusals.specs.Numbers.{number_in, number_of};

use std::error::Error;
use std::fmt;

#[derive(Clone, Copy, Debug, PartialEq, Eq, Hash)]
pub enum Refusal {
    // The caller.
    // 1: the rate is not one of 6 to 52.
    UnknownRate,
    // 2: a lent buffer of the wrong size, or no 64 bytes from the start.
    WrongSize,
    // 3: a symbol above 15.
    NoSymbol,
    // 4: doubt above 12, a maximum of 0 or above 12, or a doubtful list longer than 12, with a place above 63, not strictly rising, or in a
    // capture of a length that does not suit its version.
    WrongDoubt,
    // 7: closing or writing with a place missing.
    PlaceMissing,

    // The deinterleaver.
    // 5: a place above 63.
    NoPlace,
    // 6: a place already taken.
    PlaceTaken,

    // The link.
    // 8: not a codeword.
    NoCodeword,
    // 9: none near.
    NoneNear,
    // 12: more blank places than the rate allows.
    TooBlank,

    // The recorder.
    // 10: the version is not 1 or 2.
    WrongVersion,
    // 11: size or length wrong.
    WrongLength,
    // 14: a superframe that has not 516 bytes, or a wrong version or length.
    WrongSuperframe,

    // The equaliser.
    // 13: the place is not taken.
    NotTaken,
}

impl From<Refusal> for u8 {
    ghost from_gives = { λ refusal n. n ≡ number_in refusal };

    fn from(refusal: Refusal) -> u8 {
        match refusal {
            Refusal::UnknownRate => 1,
            Refusal::WrongSize => 2,
            Refusal::NoSymbol => 3,
            Refusal::WrongDoubt => 4,
            Refusal::NoPlace => 5,
            Refusal::PlaceTaken => 6,
            Refusal::PlaceMissing => 7,
            Refusal::NoCodeword => 8,
            Refusal::NoneNear => 9,
            Refusal::WrongVersion => 10,
            Refusal::WrongLength => 11,
            Refusal::TooBlank => 12,
            Refusal::NotTaken => 13,
            Refusal::WrongSuperframe => 14,
        }
    }
}

impl fmt::Display for Refusal {
    fn fmt<W: fmt::Write>(&self, f: &mut fmt::Formatter<W>) -> fmt::Result {
        f.write_str(match self {
            Refusal::UnknownRate => "unknown rate",
            Refusal::WrongSize => "wrong size",
            Refusal::NoSymbol => "no symbol",
            Refusal::WrongDoubt => "wrong doubt",
            Refusal::NoPlace => "no place",
            Refusal::PlaceTaken => "place taken",
            Refusal::PlaceMissing => "place missing",
            Refusal::NoCodeword => "no codeword",
            Refusal::NoneNear => "none near",
            Refusal::WrongVersion => "wrong version",
            Refusal::WrongLength => "wrong length",
            Refusal::TooBlank => "too blank",
            Refusal::NotTaken => "not taken",
            Refusal::WrongSuperframe => "wrong superframe",
        })
    }
}

impl Error for Refusal {}

// What C sees of an answer: 0, or the refusal's number.
pub fn number_of(answer: Result<(), Refusal>) -> u8
    ensures { result ≡ number_of answer }
{
    match answer {
        Ok(()) => 0,
        Err(refusal) => u8::from(refusal),
    }
}
