// Taking a superframe apart: each word by its own columns, and each message into its own part of one buffer. It knows of no tree and no session.
#![tactic(auto)]

ghost use Rattle.std.specs.Prelude.{true, cond, ◌≡◌, ◌*◌, ◌<◌, eqb, length};
ghost use Rattle.refusals.specs.Refusal.{none_near};
ghost use Rattle.soft.specs.Column.{places, symbols, column_of};
ghost use Rattle.code.specs.Encoding.{known_rate};
ghost use Rattle.soft.specs.Hard.{hard_cost};
ghost use Rattle.superframe.specs.Superframe.{words, frame_length, word_in, hard_columns, head_of, taken_of};
ghost use Rattle.refusals.specs.Numbers.{number_of};
ghost use Rattle.taking_apart.specs.Taking.{TakesNear, TakesWord, TakesWords, status_in, taken_with, taken_by};

use columns::costs::{COSTS, PLACES, SYMBOLS};
use decoding::decode;
use doubt::MOST_DOUBT;
use encoding::{known_rate, symbols_only};
use reading_back::read_back;
use refusals::Refusal;
use summary::summary_of;
use superframe::{
    FRAME_BYTES, HEAD_BYTES, LENGTH_HIGH, LENGTH_HIGH_AT, LENGTH_LOW, LENGTH_LOW_AT, RATE_AT,
    VERSION, VERSION_AT, WORDS, Word,
};

// What taking apart answers, and which words have no codeword near, word v as 2^v; no word is named where it refuses.
#[derive(Clone, Copy)]
pub struct Taken {
    pub answer: Result<(), Refusal>,
    pub status: u8,
}

// The symbols of one word.
fn word_in(frame: &[u8], v: usize) -> Word
    requires { (length frame.now ≡ frame_length) × (v < words) }
    ensures { result ≡ word_in frame.now v }
{
    let mut out = [0u8; PLACES];
    for place in 0..PLACES {
        out[place] = frame[HEAD_BYTES + (WORDS * place + v)];
    }
    out
}

// 0 for the symbol that was received, 1 for the others.
fn hard_cost(received: u8, symbol: usize) -> u16
    ensures { result ≡ hard_cost received symbol }
{
    u16::from(received as usize != symbol)
}

// The columns of a word, one after the other, into a table that the caller holds, so that no second one lies on its stack.
fn hard_costs(word: Word, out: &mut [u16; COSTS])
    ensures { (length out.new ≡ places * symbols) × (column_of symbols out.new ≡ hard_columns word) }
{
    for i in 0..COSTS {
        out[i] = hard_cost(word[i / SYMBOLS], i % SYMBOLS);
    }
}

// The message of the codeword within T of a word into its part, without doubt; or 'none near', and the part as it was.
fn take_near(rate: usize, word: Word, part: &mut [u8]) -> Result<(), Refusal>
    requires { (known_rate rate ≡ true) × (length part.old ≡ rate) }
    ensures { TakesNear rate word part.old (number_of result) part.new }
{
    let mut costs = [0; COSTS];
    hard_costs(word, &mut costs);
    let summary = summary_of(&costs);
    let mut report = [0u8; 14];
    decode(rate, &costs, [0; MOST_DOUBT], 0, part, &mut report, summary)
}

// The message of one word into its part. A word that arrived as a codeword is its own answer, and is read back.
fn take_word(rate: usize, frame: &[u8], v: usize, part: &mut [u8]) -> Result<(), Refusal>
    requires { (known_rate rate ≡ true) × (length frame.now ≡ frame_length) × (v < words) × (length part.old ≡ rate) }
    ensures { TakesWord rate frame.now v part.old (number_of result) part.new }
{
    let word = word_in(frame, v);
    match read_back(rate, &word, part) {
        Ok(()) => Ok(()),
        Err(_) => take_near(rate, word, part),
    }
}

// What a word adds to the status, if it is named.
fn named(answer: Result<(), Refusal>, weight: u16) -> u16
    ensures { result ≡ cond (eqb (number_of answer) none_near) weight 0 }
{
    match answer {
        Err(Refusal::NoneNear) => weight,
        _ => 0,
    }
}

// Word by word, each into its own part; and which words have no codeword near, word v as 2^v.
fn take_words(rate: usize, frame: &[u8], messages: &mut [u8]) -> u8
    requires { (known_rate rate ≡ true) × (length frame.now ≡ frame_length) × (length messages.old ≡ rate * words) }
    ensures { TakesWords rate frame.now messages.old result messages.new }
{
    let mut status = 0u16;
    let mut weight = 1u16;
    for v in 0..WORDS {
        let at = rate * v;
        let end = at + rate;
        let answer = take_word(rate, frame, v, &mut messages[at..end]);
        status += named(answer, weight);
        weight *= 2;
    }
    status as u8
}

// Size, version and length.
fn check_head(frame: &[u8]) -> Result<(), Refusal>
    ensures { number_of result ≡ head_of frame.now }
{
    if frame.len() != FRAME_BYTES {
        return Err(Refusal::WrongSuperframe);
    }
    if frame[VERSION_AT] != VERSION {
        return Err(Refusal::WrongSuperframe);
    }
    if frame[LENGTH_HIGH_AT] != LENGTH_HIGH {
        return Err(Refusal::WrongSuperframe);
    }
    if frame[LENGTH_LOW_AT] != LENGTH_LOW {
        return Err(Refusal::WrongSuperframe);
    }
    Ok(())
}

// The status, or why there is none.
fn status_of(frame: &[u8], messages: &mut [u8]) -> Result<u8, Refusal>
    ensures { taken_with result messages.new ≡ taken_of frame.now messages.old }
{
    check_head(frame)?;
    let rate = frame[RATE_AT] as usize;
    if !known_rate(rate) {
        return Err(Refusal::UnknownRate);
    }
    if messages.len() != rate * WORDS {
        return Err(Refusal::WrongSize);
    }
    if !symbols_only(&frame[HEAD_BYTES..]) {
        return Err(Refusal::NoSymbol);
    }
    Ok(take_words(rate, frame, messages))
}

// A status beside its answer; 0 beside a refusal.
pub fn told(answer: Result<u8, Refusal>) -> Taken
    ensures { (number_of result.answer ≡ number_of answer) × (result.status ≡ status_in answer) }
{
    match answer {
        Ok(status) => Taken {
            answer: Ok(()),
            status,
        },
        Err(refusal) => Taken {
            answer: Err(refusal),
            status: 0,
        },
    }
}

// The eight messages of a superframe into the caller's buffer, and the status. A word with none near leaves its part as it was, and is named there.
pub fn take_apart(frame: &[u8], messages: &mut [u8]) -> Taken
    ensures { taken_by result messages.new ≡ taken_of frame.now messages.old }
{
    told(status_of(frame, messages))
}
