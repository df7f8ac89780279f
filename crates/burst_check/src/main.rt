// Sends a superframe of eight messages at rate 39 through a burst at each start, and prints after how many of them all messages came back: after all
// bursts of 48 symbols, and not after all of 49.
#![tactic(auto)]

use output::Output;
use std::fmt::{self, Write};

// Symbols with no order to see, others for each seed.
fn fill(out: &mut [u8], seed: u16) {
    let mut x = u32::from(seed);
    for symbol in out {
        x = (x * 75 + 74) % 65537;
        *symbol = (x / 16 % 16) as u8;
    }
}

fn all_come_back(start: usize, burst: &[u8]) -> bool {
    let mut sent = [0u8; 312];
    fill(&mut sent, 39);
    let mut out = [0u8; 312];
    let taken = bursts::at_rate_39(&sent, start, burst, &mut out);
    taken.answer.is_ok() && taken.status == 0 && sent == out
}

fn print_count(out: &mut Output, starts: usize, burst: &[u8]) -> fmt::Result {
    let back = (0..starts)
        .filter(|start| all_come_back(*start, burst))
        .count();
    let long = burst.len();
    writeln!(
        out,
        "all messages back after {back} of {starts} bursts of {long} symbols"
    )
}

fn print_all(out: &mut Output) -> fmt::Result {
    let mut burst = [0u8; 48];
    fill(&mut burst, 48);
    print_count(out, 465, &burst)?;
    let mut longer = [0u8; 49];
    fill(&mut longer, 49);
    print_count(out, 464, &longer)
}

fn main() {
    let _ = print_all(&mut Output);
}
