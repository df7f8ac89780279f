// The two tables of all rates, as they stand in docs/RATES.md: the numbers of each, and T by blank places.
use candidate::rate::Rate;
use encoding::{LEAST_RATE, MOST_RATE};
use numbers::chance::chance;
use numbers::sums::{bits_within, never_another, sure_doubt, whole_reach};
use output::Bytewise;
use std::fmt::{self, Write};

// Numbers of blank places that have a column.
const BLANKS: [usize; 20] = [
    0, 1, 2, 3, 4, 5, 6, 7, 8, 9, 10, 11, 12, 13, 16, 20, 24, 32, 40, 46,
];

fn print_head(out: &mut Bytewise) -> fmt::Result {
    writeln!(
        out,
        "| Rate | Wrong | Doubtful | Refused | Never another | Blank | Distance | Burst | Bits | Burst bits | By chance |\n\
        |---|---|---|---|---|---|---|---|---|---|---|"
    )
}

// The least distance is known exactly at two rates.
fn exactly(rate: Rate) -> &'static str {
    match rate.k {
        39 | 49 => "exactly ",
        _ => "",
    }
}

fn print_row(out: &mut Bytewise, rate: Rate) -> fmt::Result {
    let reach = whole_reach(rate);
    let never = never_another(rate, 0);
    let symbols = 8 * reach;
    writeln!(
        out,
        "| {} | {reach} | {} | {} to {never} | {never} | {} | {}{} | {symbols} | {} | {} | 10^{} |",
        rate.k,
        sure_doubt(rate, 0),
        reach + 1,
        rate.blank_limit(),
        exactly(rate),
        rate.least_distance(),
        bits_within(reach),
        bits_within(symbols),
        chance(rate)
    )
}

fn print_blank_head(out: &mut Bytewise) -> fmt::Result {
    writeln!(
        out,
        "\n| Rate | 0 | 1 | 2 | 3 | 4 | 5 | 6 | 7 | 8 | 9 | 10 | 11 | 12 | 13 | 16 | 20 | 24 | 32 | 40 | 46 |\n\
        |---|---|---|---|---|---|---|---|---|---|---|---|---|---|---|---|---|---|---|---|---|"
    )
}

fn print_blank_cell(out: &mut Bytewise, rate: Rate, blanks: usize) -> fmt::Result {
    if rate.blank_limit() < blanks {
        return write!(out, " - |");
    }
    write!(out, " {} |", rate.reach(blanks))
}

fn print_blank_row(out: &mut Bytewise, rate: Rate) -> fmt::Result {
    write!(out, "| {} |", rate.k)?;
    for blanks in BLANKS {
        print_blank_cell(out, rate, blanks)?;
    }
    writeln!(out)
}

fn print_all(out: &mut Bytewise) -> fmt::Result {
    print_head(out)?;
    for k in LEAST_RATE..=MOST_RATE {
        print_row(out, Rate { k })?;
    }
    print_blank_head(out)?;
    for k in LEAST_RATE..=MOST_RATE {
        print_blank_row(out, Rate { k })?;
    }
    Ok(())
}

pub fn print_tables() {
    let _ = print_all(&mut Bytewise);
}
