// What the decoder always repairs and always refuses at a rate, for a tender: reads one line from standard input. For a rate it prints the
// page of that rate, for `all` the tables of all of them, and for anything else a sentence. The numbers come from the functions that the
// decoder itself goes by.
#![tactic(auto)]

mod table;

ghost use Rattle.std.specs.Prelude.{◌≤◌, length};

use candidate::rate::Rate;
use output::Output;
use std::fmt::Write;

// The descriptor of standard input.
const STDIN_FILENO: i32 = 0;

// The rate that one or two digits are.
fn rate_in(line: &str) -> Option<Rate> {
    if line.len() > 2 {
        return None;
    }
    if !line.bytes().all(|byte| byte.is_ascii_digit()) {
        return None;
    }
    line.parse().ok().and_then(Rate::new)
}

// Where the first line ends.
fn line_end(bytes: &[u8]) -> usize
    ensures { result ≤ length bytes.now }
{
    for i in 0..bytes.len() {
        if bytes[i] == b'\n' {
            return i;
        }
    }
    bytes.len()
}

fn print_answer(line: &str) {
    if line == "all" {
        table::print_tables();
        return;
    }
    match rate_in(line) {
        Some(rate) => page::write_page(rate),
        None => {
            let _ = writeln!(
                Output,
                "No such rate: a line with a number from 6 to 52 is asked for, or the word all."
            );
        }
    }
}

fn main() {
    let mut input = io::buffer();
    let count = io::read_full(STDIN_FILENO, &mut input);
    let bytes = &input[..count];
    // What is no text is no rate.
    print_answer(str::from_utf8(&bytes[..line_end(bytes)]).unwrap_or(""));
}
