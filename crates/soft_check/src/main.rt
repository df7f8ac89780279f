// Prints what the bench sheet's columns C9 and C10 read, the doubtful places of a small table with doubt 3, how many they are, what the zero word costs there,
// and what columns from bit values read and cost.
#![tactic(auto)]

use columns::{bits, column, costs};
use output::Output;
use std::fmt::{self, Write};
use totals::total;

fn print_column(out: &mut Output, c: [u16; 16]) -> fmt::Result {
    write!(
        out,
        "{} {} {} ",
        column::best(c),
        column::second(c),
        column::gap(c)
    )?;
    writeln!(out)
}

// The column of four bit values: best, second and gap, and what symbols 0, 5, 7, 8 and 15 cost.
fn print_bits(out: &mut Output, values: [u8; 4]) -> fmt::Result {
    let c = bits::column_from_bits(values);
    print_column(out, c)?;
    write!(out, "{} {} {} {} {} ", c[0], c[5], c[7], c[8], c[15])?;
    writeln!(out)
}

// The three doubtful places, and how many there are.
fn print_doubtful(out: &mut Output, table: &[u16]) -> fmt::Result {
    let picked = doubt::doubtful(table, 3);
    let [first, second, third, ..] = picked.places;
    let count = picked.count;
    write!(out, "{first} {second} {third} {count} ")?;
    writeln!(out)
}

// What the zero word costs, at how many places its cost is pinned, and at how many it differs from the best symbols.
fn print_zero_word(out: &mut Output, table: &[u16]) -> fmt::Result {
    let word = [0u8; 64];
    let summary = summary::summary_of(table);
    let changed = total::changed_places(&word, summary.best, summary.counts);
    write!(
        out,
        "{} {} {} ",
        total::total(table, &word),
        total::pinned(table, &word),
        total::changed(changed)
    )?;
    writeln!(out)
}

fn print_all(out: &mut Output) -> fmt::Result {
    let mut nine = [7u16; 16];
    nine[5] = 0;
    nine[9] = 0;
    print_column(out, nine)?;
    print_column(out, [65535; 16])?;
    // Every place but 0 and 2 is blank, so only these two are doubtful.
    let mut bytes = [255u8; 2048];
    bytes[0] = 0;
    bytes[64] = 1;
    let table: [u16; 1024] = costs::costs_from(&bytes);
    print_doubtful(out, &table)?;
    print_zero_word(out, &table)?;
    // 127, -1, 0 and -128; then the dearest symbol there is; then a blank column.
    print_bits(out, [127, 255, 0, 128])?;
    print_bits(out, [128; 4])?;
    print_bits(out, [0; 4])
}

fn main() {
    let _ = print_all(&mut Output);
}
