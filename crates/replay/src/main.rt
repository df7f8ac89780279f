// Answers the calls on its standard input, one after the other, on its standard output, so that another decoder can make
// the same calls and compare. The session is carried from call to call; the first is a new one of rate 39.
// A call is a letter, two bytes of length and that many bytes of arguments; reference/src/calls.rs has the letters.
// The input ends at the first call that is cut short or too long.
#![tactic(auto)]

use session::Session;
use stream::bytes::{MOST_BYTES, number, read};
use stream::replies::answer;

// Reads a call's arguments into the space given for them, and answers it: the session that it leaves, or none where the input ends.
fn answer_next(current: Session, letter: u8, arguments: &mut [u8]) -> Option<Session> {
    let length = arguments.len();
    if read(arguments) < length {
        return None;
    }
    Some(answer(current, letter, arguments))
}

fn next_call(current: Session) -> Option<Session> {
    let mut head = [0u8; 3];
    if read(&mut head) < 3 {
        return None;
    }
    let length = number(head[1], head[2]);
    if MOST_BYTES < length {
        return None;
    }
    let mut arguments = io::buffer();
    answer_next(current, head[0], &mut arguments[..length])
}

// A proved loop ends, and nothing says that the input does: no run has as many turns as there are here.
fn main() {
    let mut current = session::fresh();
    for _ in 0..u64::MAX {
        match next_call(current) {
            Some(left) => current = left,
            None => return,
        }
    }
}
