// Runs R1 to R6 of document 01's bench sheet on the library, by table and by session. A line is the name, the call's number, the bytes of the
// report, and whether a bit is set anywhere in the message buffer, both as the call left them: they are lent filled with 1.
#![tactic(auto)]

ghost use Rattle.std.specs.Prelude.{◌≤◌};

use output::Output;
use refusals::{Refusal, number_of};
use session::Session;
use std::fmt::{self, Write};
use totals::report::REPORT_BYTES;

// A run: its number, the rate, the doubtful places, and how many places of its frame S(m) lean.
#[derive(Clone, Copy)]
struct Run<'a> {
    number: u8,
    rate: usize,
    doubtful: &'a [u8],
    leaning: usize,
    ghost short: { rate ≤ 49 },
}

// Is place p one of the first m of the places 0, 10, 20, 30, 40, 50, 60?
fn is_leaning(place: usize, m: usize) -> bool {
    place % 10 == 0 && place / 10 < m
}

// The column of a place in the frame S(m): where it leans, symbol 1 costs 0 and symbol 0 costs 30; elsewhere symbol 0 costs 0; others 40.
fn column(place: usize, m: usize) -> [u16; 16] {
    let mut out = [40; 16];
    out[0] = 0;
    if is_leaning(place, m) {
        out[0] = 30;
        out[1] = 0;
    }
    out
}

fn table(m: usize) -> [u8; 2048] {
    let mut out = [0; 2048];
    for i in 0..1024 {
        let [high, low] = column(i / 16, m)[i % 16].to_be_bytes();
        out[2 * i] = high;
        out[2 * i + 1] = low;
    }
    out
}

// A session after it got the run's frame, the last place first.
fn filled(run: Run<'_>) -> Session {
    let mut held = session::open(run.rate, run.doubtful).session;
    for place in (0..64).rev() {
        let _ = session::deliver(&mut held, place, column(place, run.leaning));
    }
    held
}

// Each bit that is set in some byte of a message.
fn seen(message: &[u8]) -> u8 {
    message.iter().fold(0, |bits, symbol| bits | symbol)
}

fn print_answer(
    out: &mut Output,
    answer: Result<(), Refusal>,
    report: [u8; REPORT_BYTES],
    message: &[u8],
) -> fmt::Result {
    write!(out, " {}", number_of(answer))?;
    for byte in report {
        write!(out, " {byte}")?;
    }
    writeln!(out, " {}", seen(message))
}

fn by_table(out: &mut Output, run: Run<'_>, costs: &[u8]) -> fmt::Result {
    let number = run.number;
    write!(out, "R{number} table")?;
    let mut room = [1; 49];
    let message = &mut room[..run.rate];
    let mut report = [1; REPORT_BYTES];
    let doubt = run.doubtful.len();
    let answer = table_decoding::decode_table(run.rate, costs, doubt, message, &mut report);
    print_answer(out, answer, report, message)
}

fn by_session(out: &mut Output, run: Run<'_>) -> fmt::Result {
    let number = run.number;
    write!(out, "R{number} session")?;
    let mut room = [1; 49];
    let message = &mut room[..run.rate];
    let mut report = [1; REPORT_BYTES];
    let answer = closing::close(filled(run), message, &mut report);
    print_answer(out, answer, report, message)
}

fn both(out: &mut Output, run: Run<'_>) -> fmt::Result {
    by_table(out, run, &table(run.leaning))?;
    by_session(out, run)
}

fn run_of(number: u8, rate: usize, doubtful: &[u8], leaning: usize) -> Run<'_>
    requires { rate ≤ 49 }
{
    Run {
        number,
        rate,
        doubtful,
        leaning,
    }
}

fn print_all(out: &mut Output) -> fmt::Result {
    both(out, run_of(1, 39, &[], 6))?;
    both(out, run_of(2, 39, &[], 7))?;
    by_session(out, run_of(3, 39, &[0], 7))?;
    both(out, run_of(4, 39, &[0, 10], 7))?;
    both(out, run_of(5, 49, &[], 1))?;
    both(out, run_of(5, 49, &[], 2))?;
    by_table(out, run_of(6, 39, &[], 0), &[0; 2048])
}

fn main() {
    let _ = print_all(&mut Output);
}
