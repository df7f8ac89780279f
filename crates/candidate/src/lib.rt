// The candidate of a row: the message that it holds, by division, and its codeword. It knows of no costs, no tree and no answer.
#![tactic(auto)]

pub mod open;
pub mod rate;

ghost use Rattle.std.specs.Prelude.{◌≡◌, ◌≤◌, take};
ghost use Rattle.lists.specs.Listed.{listed};
ghost use Rattle.lists.specs.Padded.{padded};
ghost use Rattle.code.specs.Encoding.{encode_of, most_rate};
ghost use Rattle.soft.specs.Blank.{flag_at};
ghost use Rattle.soft.specs.Column.{places};
ghost use Rattle.soft.specs.Total.{differing_in};
ghost use Rattle.candidate.specs.Candidate.{symbol_in, CandidateOf, ShownOf};

use crate::rate::Rate;
use coefficients::orders::coefficients;
use division::dividing::divide;
use encoding::{MOST_RATE, codeword_of, order};
use parts::orders::{with_z, without_z};
use planes::rows::Row;
use planes::{PLACES, Planes};
use totals::total::differing_in;

// A message of k symbols in the first k entries, where k is the rate.
pub type Message = [u8; MOST_RATE];

// A symbol for each place.
pub type Word = [u8; PLACES];

#[derive(Clone, Copy)]
pub struct Candidate {
    pub message: Message,
    pub codeword: Word,
}

// The message of a function by order, with zeros behind it.
fn message_of(function: [u8; PLACES], rate: Rate) -> Message
    ensures { result ≡ padded most_rate (listed rate.k (symbol_in function)) }
{
    let mut out = [0u8; MOST_RATE];
    for t in 0..rate.symbols() {
        out[t] = function[order(t)];
    }
    out
}

fn encoded(message: Message, rate: Rate) -> Word
    ensures { result ≡ encode_of rate.k (take rate.k message) }
{
    codeword_of(&message[..rate.k])
}

// What a row holds by the word that it has its values from: the only message whose codeword can be within T of a word that the row decides.
pub fn candidate_of(row: Row, rate: Rate, word: Word) -> Candidate
    ensures { CandidateOf rate.k word row result }
{
    let function = divide(without_z(row, word), with_z(row), rate.top_order());
    let message = message_of(function, rate);
    let codeword = encoded(message, rate);
    Candidate { message, codeword }
}

// What values at the places show: the message in the coefficients of the function that has them, and its codeword. Where they are a codeword of
// the rate, it is this one.
pub fn shown(values: Planes, rate: Rate) -> Candidate
    ensures { ShownOf rate.k values result }
{
    let function = coefficients(values);
    let message = message_of(function, rate);
    let codeword = encoded(message, rate);
    Candidate { message, codeword }
}

// In how many of the places that count, those with the flag 1, a codeword differs from a word.
pub fn distance(codeword: Word, word: Word, counts: [u8; PLACES]) -> usize
    ensures { result ≡ differing_in (flag_at counts) places codeword word }
{
    differing_in(&codeword, &word, counts) as usize
}
