// What a user of superframes may rely on, as functions: eight messages are built into a superframe, a burst that the caller gives is written over
// its symbols, and it is taken apart. It calls `build` and `take_apart`, and knows of nothing below them.
#![tactic(auto)]

ghost use Rattle.std.specs.Prelude.{◌≡◌, ◌+◌, ◌≤◌, leb, length};
ghost use Rattle.superframe.specs.Superframe.{symbol_count, frame_length};
ghost use Rattle.taking_apart.specs.Taking.{taken_by};
ghost use Rattle.bursts.specs.Struck.{struck_by, through_of, Relied};

use lists::copy;
use refusals::Refusal;
use superframe::building::build;
use superframe::{FRAME_BYTES, HEAD_BYTES};
use taking_apart::{Taken, take_apart, told};

const SYMBOLS_SENT: usize = FRAME_BYTES - HEAD_BYTES;

// The burst in place of the symbols from number `start` on.
fn strike(frame: &mut [u8], start: usize, burst: &[u8])
    requires { (length frame.old ≡ frame_length) × (start + length burst.now ≤ symbol_count) }
    ensures { frame.new ≡ struck_by start burst.now frame.old }
{
    let at = HEAD_BYTES + start;
    let end = at + burst.len();
    copy(burst, &mut frame[at..end]);
}

// Whether so many symbols from number `start` on lie within the 512.
fn lies_within(start: usize, long: usize) -> bool
    ensures { result ≡ leb (start + long) symbol_count }
{
    if SYMBOLS_SENT < long {
        return false;
    }
    if SYMBOLS_SENT - long < start {
        return false;
    }
    true
}

// Eight messages through a channel that strikes a superframe with a burst: what building refuses for, 'wrong size' for a burst that does not
// lie within the symbols, or what taking apart answers.
pub fn through_burst(
    rate: usize,
    messages: &[u8],
    start: usize,
    burst: &[u8],
    out: &mut [u8],
) -> Taken
    ensures { taken_by result out.new ≡ through_of rate messages.now start burst.now out.old }
{
    let mut frame = [0u8; FRAME_BYTES];
    if let Err(refusal) = build(rate, messages, &mut frame) {
        return told(Err(refusal));
    }
    if !lies_within(start, burst.len()) {
        return told(Err(Refusal::WrongSize));
    }
    strike(&mut frame, start, burst);
    take_apart(&frame, out)
}

// Document 02's sentence on bursts at rate 39 is the contract.
pub fn at_rate_39(messages: &[u8], start: usize, burst: &[u8], out: &mut [u8]) -> Taken
    ensures { Relied messages.now start burst.now out.old result out.new }
{
    through_burst(39, messages, start, burst, out)
}
