// Building a superframe: the codewords of the eight messages, place by place.
ghost use Rattle.std.specs.Prelude.{true, ◌≡◌, ◌*◌, ◌<◌, length, get_or};
ghost use Rattle.lists.specs.Listed.{listed};
ghost use Rattle.code.specs.Encoding.{known_rate};
ghost use Rattle.family.specs.Calls.{outcome};
ghost use Rattle.refusals.specs.Numbers.{number_of};
ghost use Rattle.superframe.specs.Superframe.{words, frame_length, sent_word, frame_of, build_of};

use crate::{
    FRAME_BYTES, HEAD_BYTES, LENGTH_HIGH, LENGTH_HIGH_AT, LENGTH_LOW, LENGTH_LOW_AT, RATE_AT,
    VERSION, VERSION_AT, WORDS, Word,
};
use columns::costs::PLACES;
use encoding::{codeword_of, known_rate, symbols_only};
use lists::copy;
use refusals::Refusal;

// The codewords of the messages, which stand one after the other.
fn codewords(rate: usize, messages: &[u8]) -> [Word; WORDS]
    requires { (known_rate rate ≡ true) × (length messages.now ≡ rate * words) }
    ensures { result ≡ listed words (sent_word rate messages.now) }
{
    let mut out = [[0u8; PLACES]; WORDS];
    for v in 0..WORDS {
        let at = rate * v;
        let end = at + rate;
        out[v] = codeword_of(&messages[at..end]);
    }
    out
}

// Byte i of the frame: one of the head, or place p of word v at 8p + v behind it.
fn byte_of(rate: u8, sent: &[Word; WORDS], i: usize) -> u8
    requires { i < frame_length }
    ensures { result ≡ get_or (frame_of rate sent.now) i 0 }
{
    if i == VERSION_AT {
        return VERSION;
    }
    if i == LENGTH_HIGH_AT {
        return LENGTH_HIGH;
    }
    if i == LENGTH_LOW_AT {
        return LENGTH_LOW;
    }
    if i == RATE_AT {
        return rate;
    }
    let symbol = i - HEAD_BYTES;
    let word = sent[symbol % WORDS];
    word[symbol / WORDS]
}

fn bytes_of(rate: u8, sent: &[Word; WORDS]) -> [u8; FRAME_BYTES]
    ensures { result ≡ frame_of rate sent.now }
{
    let mut out = [0u8; FRAME_BYTES];
    for i in 0..FRAME_BYTES {
        out[i] = byte_of(rate, sent, i);
    }
    out
}

// The superframe of eight messages, those of word 0 first, into the caller's 516 bytes.
pub fn build(rate: usize, messages: &[u8], frame: &mut [u8]) -> Result<(), Refusal>
    ensures { outcome (number_of result) frame.new ≡ build_of rate messages.now frame.old }
{
    if !known_rate(rate) {
        return Err(Refusal::UnknownRate);
    }
    if messages.len() != rate * WORDS {
        return Err(Refusal::WrongSize);
    }
    if frame.len() != FRAME_BYTES {
        return Err(Refusal::WrongSize);
    }
    if !symbols_only(messages) {
        return Err(Refusal::NoSymbol);
    }
    let sent = codewords(rate, messages);
    let bytes = bytes_of(rate as u8, &sent);
    copy(&bytes, frame);
    Ok(())
}
