// Prints the readings of R7: a new session's, and that of place 0 settled with best symbol 0; then one after 64 settled places, and one after
// a blank place, which is not interpolated: it is the new session's.
#![tactic(auto)]

use output::Output;
use refusals::number_of;
use session::Session;
use std::fmt::{self, Write};

fn print_reading(out: &mut Output, from: Session) -> fmt::Result {
    let mut bytes = [255; 98];
    write!(
        out,
        "{} ",
        number_of(reading::read_interpolant(from, &mut bytes))
    )?;
    for byte in bytes {
        write!(out, "{byte} ")?;
    }
    writeln!(out)
}

// Cost 0 for one symbol, 9 for the others.
fn column(best: usize) -> [u16; 16] {
    let mut out = [9; 16];
    out[best % 16] = 0;
    out
}

// A session with the first so many places settled.
fn settled(count: usize) -> Session {
    let mut held = session::open(39, b"").session;
    for place in 0..count.min(64) {
        let _ = session::deliver(&mut held, place, column(place * 7));
    }
    held
}

// A new session with place 0 blank.
fn faded() -> Session {
    let mut held = session::open(39, b"").session;
    let _ = session::deliver(&mut held, 0, [9; 16]);
    held
}

fn print_all(out: &mut Output) -> fmt::Result {
    print_reading(out, settled(0))?;
    print_reading(out, settled(1))?;
    print_reading(out, settled(64))?;
    print_reading(out, faded())
}

fn main() {
    let _ = print_all(&mut Output);
}
