// The field as it runs, in hexadecimal: for each a its products with 0 to 15 by computing, the same by the table, and its
// inverse; then the powers of α. What it must print was made by multiplying polynomials.
#![tactic(auto)]

ghost use Rattle.std.specs.Iterator.{IsFinite};

use output::Output;
use std::fmt::{self, Write};

// A digit for each symbol, on one line.
fn print_row<I: Iterator<Item = u8> + Drop>(out: &mut Output, symbols: I) -> fmt::Result
    requires can { I.can_next symbols }
    requires ends { IsFinite (I.remaining symbols) }
{
    for symbol in symbols {
        write!(out, "{symbol:x}")?;
    }
    writeln!(out)
}

fn print_element(out: &mut Output, a: u8) -> fmt::Result {
    print_row(out, (0..16).map(|b| galois::product(a, b)))?;
    print_row(out, (0..16).map(|b| galois::product_by_table(a, b)))?;
    writeln!(out, "{:x}", galois::inverse(a))
}

fn print_all(out: &mut Output) -> fmt::Result {
    for a in 0..16 {
        print_element(out, a)?;
    }
    print_row(out, (0..15).map(galois::power))
}

fn main() {
    let _ = print_all(&mut Output);
}
