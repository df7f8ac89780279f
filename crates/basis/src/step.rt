// One step of Kötter's algorithm on the eight rows and their leads.
ghost use Rattle.std.specs.Prelude.{◌≡◌, ◌<◌, ◌%◌, IfSome, unwrap_or};
ghost use Rattle.lists.specs.Listed.{listed};
ghost use Rattle.galois.specs.Gf16.{times};
ghost use Rattle.planes.specs.Rows.{AddedBy};
ghost use Rattle.basis.specs.Choice.{Chosen, pivot_of};
ghost use Rattle.basis.specs.Step.{discrepancy_of, discrepancy_at, NextRows, MovedRows};

use crate::{CLASSES, Leads, Rows};
use galois::{inverse, product};
use planes::lanes::at;
use planes::rows::{Multiples, Row, added, moved, multiples, raised, whole};

// The value of a row at a place; a spent class counts as zero.
fn discrepancy(row: Row, lead: usize, limit: usize, place: usize) -> u8
    ensures { result ≡ discrepancy_of limit lead row (place % 64) }
{
    if limit < lead {
        return 0;
    }
    at(whole(row), place)
}

pub fn discrepancies(rows: &Rows, leads: Leads, limit: usize, place: usize) -> [u8; CLASSES]
    ensures { result ≡ listed 8 (discrepancy_at limit leads rows.now (place % 64)) }
{
    let mut out = [0u8; CLASSES];
    for r in 0..CLASSES {
        out[r] = discrepancy(rows[r], leads[r], limit, place);
    }
    out
}

// The class chosen so far, or class r.
fn better(ds: [u8; CLASSES], leads: Leads, best: Option<usize>, r: usize) -> Option<usize>
    requires { (r < 8) × IfSome best (λ held. held < 8) }
    ensures { (unwrap_or result 8 ≡ pivot_of ds leads (unwrap_or best 8) r) × IfSome result (λ chosen. chosen < 8) }
{
    if ds[r] == 0 {
        return best;
    }
    let Some(held) = best else {
        return Some(r);
    };
    if leads[held] <= leads[r] {
        return best;
    }
    Some(r)
}

// The first class of least lead among those of non-zero discrepancy.
pub fn choice(ds: [u8; CLASSES], leads: Leads) -> Option<usize>
    ensures { Chosen 8 ds leads (unwrap_or result 8) × IfSome result (λ chosen. chosen < 8) }
{
    let mut best = None;
    for r in 0..CLASSES {
        best = better(ds, leads, best, r);
    }
    best
}

// A row and the multiple of the pivot's row that takes its discrepancy d away; by is the inverse of the pivot's. Where there is none, the row stays.
fn next_row(row: Row, d: u8, by: u8, pivots: &Multiples) -> Row
    ensures { AddedBy row (times d by) pivots.now result }
{
    if d == 0 {
        return row;
    }
    added(row, product(d, by), pivots)
}

// The rows after a step at class `at`, where the place's x is a. They are changed where they stand; the pivot's own is not cleared first.
pub fn next_rows(rows: &mut Rows, ds: [u8; CLASSES], at: usize, a: u8)
    requires { at < 8 }
    ensures { NextRows at a ds rows.old rows.new }
{
    let pivot = rows[at];
    let by = inverse(ds[at]);
    let pivots = multiples(pivot);
    let mut others = ds;
    others[at] = 0;
    for r in 0..CLASSES {
        let row = rows[r];
        rows[r] = next_row(row, others[r], by, &pivots);
    }
    rows[at] = raised(pivot, a);
}

// The rows by another symbol at one place.
pub fn moved_rows(rows: &mut Rows, place: usize, change: u8)
    requires { place < 64 }
    ensures { MovedRows place change rows.old rows.new }
{
    for r in 0..CLASSES {
        let row = rows[r];
        rows[r] = moved(row, place, change);
    }
}
