// What `show` prints, as text in a lent buffer: each function puts some behind the first `at` bytes and answers where the text then ends.
// For other writers the same as values that print themselves. It knows of no session: a report is its bytes.
#![tactic(auto)]

ghost use Rattle.std.specs.Prelude.{◌≡◌, map, ◌++◌, ◌+◌, ◌*◌, ◌≤◌, ◌<◌, length, Some};
ghost use Rattle.book.specs.closing.Report.{total_in, tests_in};
ghost use Rattle.book64.specs.Here.{margin_in};
ghost use Rattle.text.specs.Text.{space, decimal_of, hex_of, number_line, margin_line, margin_shown, heading_of, message_line, refused_line};
ghost use Rattle.text.specs.Appended.{Appended};

use std::fmt;
use totals::report::REPORT_BYTES;

fn put_bytes(bytes: &[u8], out: &mut [u8], at: usize) -> usize
    requires { at + length bytes.now ≤ length out.old }
    ensures { Appended out.old at bytes.now result out.new }
{
    for i in 0..bytes.len() {
        out[at + i] = bytes[i];
    }
    at + bytes.len()
}

fn put_decimal(n: u64, out: &mut [u8], at: usize) -> usize
    requires { at + 20 ≤ length out.old }
    ensures { Appended out.old at (decimal_of n) result out.new × (result ≤ at + 20) }
{
    let mut digits = [0; 20];
    let count = io::decimal(n, &mut digits);
    put_bytes(&digits[..count], out, at)
}

// A number and the byte that ends it.
fn put_number(n: u64, end: u8, out: &mut [u8], at: usize) -> usize
    requires { at + 21 ≤ length out.old }
    ensures { Appended out.old at (number_line n end) result out.new × (result ≤ at + 21) }
{
    let after = put_decimal(n, out, at);
    put_bytes(&[end], out, after)
}

fn byte(x: u8) -> u64
    ensures { (result ≡ x) × (result < 256) }
{
    x as u64
}

fn pair(high: u8, low: u8) -> u64
    ensures { (result ≡ 256 * high + low) × (result < 65536) }
{
    256 * byte(high) + byte(low)
}

fn total_in(report: [u8; REPORT_BYTES]) -> u64
    ensures { result ≡ total_in report }
{
    65536 * pair(report[0], report[1]) + pair(report[2], report[3])
}

fn tests_in(report: [u8; REPORT_BYTES]) -> u64
    ensures { result ≡ tests_in report }
{
    pair(report[4], report[5])
}

fn margin_in(report: [u8; REPORT_BYTES]) -> u64
    ensures { result ≡ margin_in report }
{
    65536 * pair(report[9], report[10]) + pair(report[11], report[12])
}

fn hex_digit(symbol: u8) -> u8
    ensures { result ≡ hex_of symbol }
{
    let digit = symbol % 16;
    if digit < 10 {
        return 48 + digit;
    }
    87 + digit
}

fn put_digits(symbols: &[u8], out: &mut [u8], at: usize) -> usize
    requires { at + length symbols.now ≤ length out.old }
    ensures { Appended out.old at (map hex_of symbols.now) result out.new }
{
    for i in 0..symbols.len() {
        out[at + i] = hex_digit(symbols[i]);
    }
    at + symbols.len()
}

// The message, a digit for each symbol.
fn put_message(message: &[u8], out: &mut [u8], at: usize) -> usize
    requires { at + length message.now + 1 ≤ length out.old }
    ensures { Appended out.old at (message_line message.now) result out.new }
{
    let after = put_digits(message, out, at);
    put_bytes(b"\n", out, after)
}

// The first three numbers of the heading.
fn put_cost(rate: u8, doubt: usize, total: u64, out: &mut [u8]) -> usize
    requires { 256 ≤ length out.old }
    ensures { Appended out.old 0 (number_line rate space ++ number_line doubt space ++ number_line total space) result out.new × (result ≤ 63) }
{
    let after_rate = put_number(rate as u64, b' ', out, 0);
    let after_doubt = put_number(doubt as u64, b' ', out, after_rate);
    put_number(total, b' ', out, after_doubt)
}

// The margin, or a dash where there is none, and the end of the line.
fn put_margin(report: [u8; REPORT_BYTES], out: &mut [u8], at: usize) -> usize
    requires { at + 21 ≤ length out.old }
    ensures { Appended out.old at (margin_line report) result out.new × (result ≤ at + 21) }
{
    if report[8] != 1 {
        return put_bytes(b"-\n", out, at);
    }
    put_number(margin_in(report), b'\n', out, at)
}

// The line `rate d total tests pinned changed margin`; the last five are read from the report.
fn put_heading(rate: u8, doubt: usize, report: [u8; REPORT_BYTES], out: &mut [u8]) -> usize
    requires { 256 ≤ length out.old }
    ensures { Appended out.old 0 (heading_of rate doubt report) result out.new × (result ≤ 147) }
{
    let after_total = put_cost(rate, doubt, total_in(report), out);
    let after_tests = put_number(tests_in(report), b' ', out, after_total);
    let after_pinned = put_number(byte(report[6]), b' ', out, after_tests);
    let after_changed = put_number(byte(report[7]), b' ', out, after_pinned);
    put_margin(report, out, after_changed)
}

// Both lines of an accepted closing.
pub fn put_answer(
    rate: u8,
    doubt: usize,
    report: [u8; REPORT_BYTES],
    message: &[u8],
    out: &mut [u8],
) -> usize
    requires { (256 ≤ length out.old) × (length message.now ≤ 64) }
    ensures { Appended out.old 0 (heading_of rate doubt report ++ message_line message.now) result out.new }
{
    let after = put_heading(rate, doubt, report, out);
    put_message(message, out, after)
}

// The line of a refusal.
pub fn put_refused(number: u8, out: &mut [u8]) -> usize
    requires { 256 ≤ length out.old }
    ensures { Appended out.old 0 (refused_line number) result out.new }
{
    let at = put_bytes(b"refused ", out, 0);
    put_number(number as u64, b'\n', out, at)
}

fn margin_of(report: [u8; REPORT_BYTES]) -> Option<u64>
    ensures { margin_shown result ≡ margin_line report }
{
    if report[8] != 1 {
        return None;
    }
    Some(margin_in(report))
}

// The margin, or a dash where there is none, and the end of the line.
#[derive(Clone, Copy)]
struct Margin(Option<u64>);

impl fmt::Display for Margin {
    ghost output = { λ m. Some (margin_shown m.0) };

    fn fmt<W: fmt::Write>(&self, f: &mut fmt::Formatter<W>) -> fmt::Result {
        match self.0 {
            Some(margin) => writeln!(f, "{margin}"),
            None => writeln!(f, "-"),
        }
    }
}

// Symbols, a digit for each.
#[derive(Clone, Copy)]
struct Symbols<'a>(&'a [u8]);

impl fmt::Display for Symbols<'_> {
    ghost output = { λ s. Some (map hex_of s.0.now) };

    fn fmt<W: fmt::Write>(&self, f: &mut fmt::Formatter<W>) -> fmt::Result {
        for symbol in self.0 {
            write!(f, "{:x}", symbol % 16)?;
        }
        Ok(())
    }
}

// The line `rate d total tests pinned changed margin`; the last five are read from the report.
#[derive(Clone, Copy)]
struct Heading {
    rate: u8,
    doubt: usize,
    report: [u8; REPORT_BYTES],
}

impl fmt::Display for Heading {
    ghost output = { λ h. Some (heading_of h.rate h.doubt h.report) };

    fn fmt<W: fmt::Write>(&self, f: &mut fmt::Formatter<W>) -> fmt::Result {
        let Heading {
            rate,
            doubt,
            report,
        } = *self;
        let total = total_in(report);
        let tests = tests_in(report);
        let pinned = byte(report[6]);
        let changed = byte(report[7]);
        let margin = Margin(margin_of(report));
        write!(
            f,
            "{rate} {doubt} {total} {tests} {pinned} {changed} {margin}"
        )
    }
}

// Both lines of an accepted closing: the heading, and the message.
#[derive(Clone, Copy)]
pub struct Answer<'a> {
    pub rate: u8,
    pub doubt: usize,
    pub report: [u8; REPORT_BYTES],
    pub message: &'a [u8],
}

impl fmt::Display for Answer<'_> {
    ghost output = { λ a. Some (heading_of a.rate a.doubt a.report ++ message_line a.message.now) };

    fn fmt<W: fmt::Write>(&self, f: &mut fmt::Formatter<W>) -> fmt::Result {
        let heading = Heading {
            rate: self.rate,
            doubt: self.doubt,
            report: self.report,
        };
        let message = Symbols(self.message);
        writeln!(f, "{heading}{message}")
    }
}

// The line of a refusal.
#[derive(Clone, Copy)]
pub struct Refused(pub u8);

impl fmt::Display for Refused {
    ghost output = { λ r. Some (refused_line r.0) };

    fn fmt<W: fmt::Write>(&self, f: &mut fmt::Formatter<W>) -> fmt::Result {
        let Refused(number) = *self;
        writeln!(f, "refused {number}")
    }
}

#[cfg(test)]
mod tests {
    use super::*;
    use std::test::Fail;

    #[test]
    fn lines_print_themselves(rt: HostRuntime) -> Result<(), Fail> {
        let with_margin = Answer {
            rate: 39,
            doubt: 12,
            report: [0, 1, 0, 44, 1, 7, 2, 64, 1, 0, 0, 0, 40, 1],
            message: &[0, 9, 10, 15],
        };
        assert_eq!(rt;
            with_margin.to_string(rt.alloc())?.as_str(),
            "39 12 65580 263 2 64 40\n09af\n"
        );
        let long = Answer {
            rate: 6,
            doubt: 0,
            report: [0; REPORT_BYTES],
            message: &[5; 65],
        };
        let lines =
            "6 0 0 0 0 0 -\n55555555555555555555555555555555555555555555555555555555555555555\n";
        assert_eq!(rt; long.to_string(rt.alloc())?.as_str(), lines);
        assert_eq!(rt; Refused(12).to_string(rt.alloc())?.as_str(), "refused 12\n");
        Ok(())
    }
}
