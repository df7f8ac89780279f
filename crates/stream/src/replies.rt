// The answer to each call: the refusal's number or 0, then all bytes of the lent buffers; to a look-up, the part's length and the part.
// Each call takes the session and hands back the one that it leaves. The calls themselves are made by `runs`.
ghost use Rattle.std.specs.Prelude.{◌≡◌, ◌≤◌};
ghost use Rattle.soft.specs.Column.{symbols, costs_from};
ghost use Rattle.book64.specs.captures.CaptureOpening.{open_capture_of};
ghost use Rattle.book64.specs.Here.{open_of};
ghost use Rattle.stream.specs.Changes.{delivered, withdrawn, change_by, numbered_change, change_of, StandsFor, Leaves};

use crate::bytes;
use crate::bytes::{lent, write, write_byte};
use columns::costs::SYMBOLS;
use refusals::number_of;
use runs::Kind;
use session::{Opened, Session};

fn write_number(number: usize) {
    write(&((number % 65536) as u16).to_be_bytes());
}

// Writes the number of an opening's answer; a refused one leaves a new session of rate 39.
fn told(opened: Opened) -> Session
    ensures { result ≡ opened.session }
{
    write_byte(number_of(opened.answer));
    opened.session
}

fn open(rate: usize, doubtful: &[u8]) -> Session
    ensures { StandsFor (open_of rate doubtful.now).book result }
{
    told(runs::open(rate, doubtful))
}

fn open_capture(bytes: &[u8]) -> Session
    ensures { StandsFor (open_capture_of bytes.now).book result }
{
    told(runs::open_capture(bytes))
}

// Makes a call and writes its answer.
fn make(
    kind: Kind,
    current: Session,
    place: usize,
    column: [u16; SYMBOLS],
    first: &mut [u8],
    second: &mut [u8],
) -> Session
    ensures { Leaves current (change_by kind place column) result }
{
    let mut left = current;
    let answer = runs::step(kind, &mut left, place, column, first, second);
    write_byte(number_of(answer));
    write(first);
    write(second);
    left
}

// Makes a call that is lent buffers of these sizes: none for a size of 0.
fn lend(
    kind: Kind,
    current: Session,
    place: usize,
    column: [u16; SYMBOLS],
    size: usize,
    other: usize,
) -> Session
    requires { (size ≤ 4096) × (other ≤ 4096) }
    ensures { Leaves current (change_by kind place column) result }
{
    let mut first = lent();
    let mut second = lent();
    make(
        kind,
        current,
        place,
        column,
        &mut first[..size],
        &mut second[..other],
    )
}

fn deliver(current: Session, place: usize, column: &[u8]) -> Session
    ensures { Leaves current (delivered place (costs_from symbols column.now)) result }
{
    let costs = columns::costs::costs_from(column);
    lend(Kind::Deliver, current, place, costs, 0, 0)
}

fn read(current: Session, size: usize) -> Session
    ensures { result ≡ current }
{
    if bytes::MOST_BYTES < size {
        return current;
    }
    let none = [0u16; SYMBOLS];
    lend(Kind::Read, current, 0, none, size, 0)
}

fn write_capture(current: Session, size: usize) -> Session
    ensures { result ≡ current }
{
    if bytes::MOST_BYTES < size {
        return current;
    }
    let none = [0u16; SYMBOLS];
    lend(Kind::Write, current, 0, none, size, 0)
}

fn close_into(current: Session, size: usize, report_size: usize) -> Session
    ensures { result ≡ current }
{
    if bytes::MOST_BYTES < size {
        return current;
    }
    if bytes::MOST_BYTES < report_size {
        return current;
    }
    let none = [0u16; SYMBOLS];
    lend(Kind::Close, current, 0, none, size, report_size)
}

fn close(current: Session, size: usize, rest: &[u8]) -> Session
    ensures { result ≡ current }
{
    if rest.len() < 2 {
        return current;
    }
    close_into(current, size, bytes::number(rest[0], rest[1]))
}

fn withdraw(current: Session, place: usize) -> Session
    ensures { Leaves current (withdrawn place) result }
{
    let none = [0u16; SYMBOLS];
    lend(Kind::Withdraw, current, place, none, 0, 0)
}

fn look_up(current: Session, place: usize, bytes: &[u8]) -> Session
    ensures { result ≡ current }
{
    let part = look_up::look_up(bytes, place);
    write_number(part.len());
    write(part);
    current
}

// By the letter of a call whose arguments start with a number: letters are what the other side sends.
fn answer_numbered(current: Session, letter: u8, number: usize, rest: &[u8]) -> Session
    ensures { Leaves current (numbered_change letter number rest.now) result }
{
    match letter {
        b'O' => open(number, rest),
        b'D' => deliver(current, number, rest),
        b'R' => read(current, number),
        b'W' => write_capture(current, number),
        b'X' => close(current, number, rest),
        b'L' => look_up(current, number, rest),
        b'U' => withdraw(current, number),
        _ => current,
    }
}

// A call that is none of these gets no answer and leaves the session as it was.
pub fn answer(current: Session, letter: u8, arguments: &[u8]) -> Session
    ensures { Leaves current (change_of letter arguments.now) result }
{
    if letter == b'C' {
        return open_capture(arguments);
    }
    if arguments.len() < 2 {
        return current;
    }
    let number = bytes::number(arguments[0], arguments[1]);
    answer_numbered(current, letter, number, &arguments[2..])
}
