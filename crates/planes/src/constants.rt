// Planes that are known: one element at all places, and the points of the places.
ghost use Rattle.std.specs.Prelude.{◌≡◌, ◌<◌};
ghost use Rattle.family.specs.Member.{m16, px, py};
ghost use Rattle.planes.specs.Arrays.{Carries, spread_of, only_at};

use crate::Planes;

const ALL: u64 = 0xFFFF_FFFF_FFFF_FFFF;

pub fn spread(c: u8) -> Planes
    ensures { result ≡ spread_of c }
{
    let a = c as u64;
    [
        a % 2 * ALL,
        a / 2 % 2 * ALL,
        a / 4 % 2 * ALL,
        a / 8 % 2 * ALL,
    ]
}

// An element at one place, and zero at the others.
pub fn single(place: usize, c: u8) -> Planes
    requires { place < 64 }
    ensures { Carries (only_at place c) result }
{
    let a = c as u64;
    [
        (a % 2) << place,
        (a / 2 % 2) << place,
        (a / 4 % 2) << place,
        (a / 8 % 2) << place,
    ]
}

// Place 4X + r has x = X.
pub fn xs() -> Planes
    ensures { Carries (px m16) result }
{
    [
        0xF0F0_F0F0_F0F0_F0F0,
        0xFF00_FF00_FF00_FF00,
        0xFFFF_0000_FFFF_0000,
        0xFFFF_FFFF_0000_0000,
    ]
}

pub fn ys() -> Planes
    ensures { Carries (py m16) result }
{
    [
        0xAAAA_AAAA_AAAA_AAAA,
        0x3C33_33C3_3CCC_333C,
        0xCCCC_CCCC_CCCC_CCCC,
        0x0FF0_F0F0_FFFF_FF00,
    ]
}
