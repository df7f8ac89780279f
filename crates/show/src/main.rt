// Reads a capture from standard input and prints what its session closes with: `rate d total tests pinned changed margin`, then the
// message in hexadecimal digits; or `refused N`. No more than 4,096 bytes are read: a capture is shorter, and a longer input is refused by its size.
#![tactic(auto)]

ghost use Rattle.std.specs.Prelude.{◌≡◌, ◌≤◌, length, replicate};
ghost use Rattle.session.specs.View.{book_of, Good};
ghost use Rattle.text.specs.Appended.{Appended};
ghost use Rattle.show.specs.Shown.{closed_lines, shown_of, Shown};

use session::Session;
use totals::report::REPORT_BYTES;

// The descriptor of standard input.
const STDIN_FILENO: i32 = 0;

// The descriptor of standard output.
const STDOUT_FILENO: i32 = 1;

// Closes a session into a message buffer of zeros, as long as its rate asks for.
fn show_closed(opened: Session, message: &mut [u8], out: &mut [u8]) -> usize
    requires { Good opened × (message.old ≡ replicate opened.rate 0) × (opened.rate ≤ 64) × (256 ≤ length out.old) }
    ensures { Appended out.old 0 (closed_lines (book_of opened)) result out.new }
{
    let mut report = [0; REPORT_BYTES];
    match closing::close(opened, message, &mut report) {
        Ok(()) => text::put_answer(opened.rate, opened.doubt, report, message, out),
        Err(refusal) => text::put_refused(u8::from(refusal), out),
    }
}

fn show_session(opened: Session, out: &mut [u8]) -> usize
    requires { Good opened × (256 ≤ length out.old) }
    ensures { Appended out.old 0 (closed_lines (book_of opened)) result out.new }
{
    let mut space = [0; 64];
    show_closed(opened, &mut space[..opened.rate as usize], out)
}

// The text for the bytes that were read.
fn show_capture(bytes: &[u8], out: &mut [u8]) -> usize
    requires { 256 ≤ length out.old }
    ensures { Appended out.old 0 (shown_of bytes.now) result out.new }
{
    let opened = opening::open_capture(bytes);
    match opened.answer {
        Ok(()) => show_session(opened.session, out),
        Err(refusal) => text::put_refused(u8::from(refusal), out),
    }
}

// The same, with what the lines tell of an accepted capture: that bytes are bytes is taken from the types.
fn show_bytes(bytes: &[u8], out: &mut [u8]) -> usize
    requires { 256 ≤ length out.old }
    ensures { Appended out.old 0 (shown_of bytes.now) result out.new × Shown bytes.now (shown_of bytes.now) }
{
    ranges::bytes(bytes);
    show_capture(bytes, out)
}

fn main() {
    let mut input = io::buffer();
    let count = io::read_full(STDIN_FILENO, &mut input);
    let mut out = [0; 256];
    let length = show_bytes(&input[..count], &mut out);
    io::write_all(STDOUT_FILENO, &out[..length]);
}
