// The least polynomial through the settled places, in the 98 bytes of the interpolant reading.
ghost use Rattle.std.specs.Prelude.{◌≡◌, ℕ, ◌<◌, ◌≤◌};
ghost use Rattle.lists.specs.Listed.{listed};
ghost use Rattle.galois.specs.Field16.{K16, to_f};
ghost use Rattle.hermitian.specs.Frobenius.{frobenius};
ghost use Rattle.values.specs.Settled.{settled};
ghost use Rattle.parts.specs.Parts.{polynomial_of};
ghost use Rattle.interpolant.specs.LeastQ.{reading_length, reading_of};
ghost use Rattle.interpolant.specs.Reading.{byte_of};
ghost use Rattle.interpolation.specs.Reading.{Lowest, Interpolated};

use crate::LIMIT;
use basis::step::choice;
use basis::{CLASSES, Leads, Rows};
use galois::inverse;
use parts::READING;
use parts::bytes::scaled;
use parts::orders::{with_z, without_z};
use planes::PLACES;

// The coefficient at a key, where no order is above 63.
fn coefficient(q0: [u8; PLACES], q1: [u8; PLACES], key: usize, m: usize) -> u8
    requires { key ≤ 127 }
    ensures { to_f result ≡ polynomial_of m q0 q1 key }
{
    let order = key / 2;
    if key % 2 == 0 {
        return q0[order];
    }
    if order < m {
        return 0;
    }
    q1[order - m]
}

// x^16 + x, which vanishes at every place.
fn field_equation() -> [u8; READING]
    ensures { (M : ℕ) → result ≡ listed reading_length (byte_of M (frobenius K16 4 16)) }
{
    let mut out = [0u8; READING];
    out[PLACES] = 1;
    out[4] = 1;
    out
}

// The class of least lead: every class counts.
fn lowest(leads: Leads) -> usize
    ensures { Lowest leads result }
{
    choice([1; CLASSES], leads).unwrap_or(0)
}

// The row of least lead, divided by its leading coefficient; where all classes are spent, x^16 + x.
fn interpolant(rows: Rows, leads: Leads, m: usize, word: [u8; PLACES]) -> [u8; READING]
    ensures { Interpolated m word rows leads result }
{
    let best = lowest(leads);
    let lead = leads[best];
    if LIMIT < lead {
        return field_equation();
    }
    let row = rows[best];
    let q0 = without_z(row, word);
    let q1 = with_z(row);
    scaled(q0, q1, inverse(coefficient(q0, q1, lead, m)))
}

// The least polynomial through the places with flag 1, each with the word's symbol.
pub fn reading(word: [u8; PLACES], flags: [u8; PLACES], m: usize) -> [u8; READING]
    requires { m ≤ 127 }
    ensures { result ≡ reading_of m (settled word flags 64) }
{
    let mut leads = [0usize; CLASSES];
    let rows = crate::settle::settle(word, flags, m, LIMIT, &mut leads);
    interpolant(rows, leads, m, word)
}
