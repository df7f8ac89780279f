// A call of the elimination engine on standard input, answered on standard output, with what the tree finds for the word beside it.
// reference/src/engine.rs has the layout.
ghost use Rattle.std.specs.Prelude.{◌≤◌};

use crate::branch::{branch_beside, shown};
use refusals::number_of;
use stream::bytes::{MOST_BYTES, lent, number, read, write, write_byte};

// The rate in eight bytes, then the lengths of word, list, codeword buffer and buffer for Q, in two bytes each.
const HEAD: usize = 16;

fn rate_in(head: [u8; HEAD]) -> usize {
    let [a, b, c, d, e, f, g, h, ..] = head;
    u64::from_be_bytes([a, b, c, d, e, f, g, h]) as usize
}

// The engine's number and buffers, then the tree's number and codeword.
fn answer(rate: usize, word: &[u8], blanks: &[u8], codeword: &mut [u8], q: &mut [u8]) {
    let number = number_of(engine::eliminate(rate, word, blanks, codeword, q));
    write_byte(number);
    write(codeword);
    write(q);
    let (beside, found) = shown(branch_beside(number, rate, word, blanks));
    write_byte(beside);
    write(&found);
}

// Makes a call that is lent buffers of these sizes.
fn lend(rate: usize, word: &[u8], blanks: &[u8], size: usize, room: usize)
    requires { (size ≤ 4096) × (room ≤ 4096) }
{
    let mut codeword = lent();
    let mut q = lent();
    answer(rate, word, blanks, &mut codeword[..size], &mut q[..room]);
}

// Reads word and list into the space given for them, and answers the call.
fn answer_read(rate: usize, word: &mut [u8], blanks: &mut [u8], size: usize, room: usize) -> bool
    requires { (size ≤ 4096) × (room ≤ 4096) }
{
    let length = word.len();
    if read(word) < length {
        return false;
    }
    let count = blanks.len();
    if read(blanks) < count {
        return false;
    }
    lend(rate, word, blanks, size, room);
    true
}

// Answers a call with these lengths.
fn answer_sized(rate: usize, length: usize, count: usize, size: usize, room: usize) -> bool {
    if MOST_BYTES < length {
        return false;
    }
    if MOST_BYTES < count {
        return false;
    }
    if MOST_BYTES < size {
        return false;
    }
    if MOST_BYTES < room {
        return false;
    }
    let mut word = io::buffer();
    let mut blanks = io::buffer();
    answer_read(rate, &mut word[..length], &mut blanks[..count], size, room)
}

// Whether there was a call; it is answered.
pub fn answer_next() -> bool {
    let mut head = [0u8; HEAD];
    if read(&mut head) < HEAD {
        return false;
    }
    let length = number(head[8], head[9]);
    let count = number(head[10], head[11]);
    let size = number(head[12], head[13]);
    let room = number(head[14], head[15]);
    answer_sized(rate_in(head), length, count, size, room)
}
