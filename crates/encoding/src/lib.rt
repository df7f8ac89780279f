// Encoding: a message as a function, symbol t at the t-th present order, and its values at all places; and the call.
// It knows of no costs, no doubt and no session.
#![tactic(auto)]

ghost use Rattle.std.specs.Prelude.{◌≡◌, ◌+◌, ◌%◌, min, replicate};
ghost use Rattle.lists.specs.Filled.{Filled};
ghost use Rattle.lists.specs.Over.{over};
ghost use Rattle.lists.specs.Words.{all_below};
ghost use Rattle.hermitian.specs.Present.{Present};
ghost use Rattle.hermitian.specs.Orders.{order_of, rank};
ghost use Rattle.code.specs.Encoding.{encode_of, known_rate};
ghost use Rattle.code.specs.Rates.{longest};
ghost use Rattle.code.specs.Evaluation.{coefficient_of, function_of};
ghost use Rattle.family.specs.Calls.{outcome};
ghost use Rattle.code.specs.Calls.{encode_call};
ghost use Rattle.refusals.specs.Numbers.{number_of};

use evaluation::value::codeword;
use lists::{copy, entry_or};
use refusals::Refusal;

// The rates: so many symbols a message has.
pub const LEAST_RATE: usize = 6;

pub const MOST_RATE: usize = 52;

// The number of the message symbol that stands at a present order: 1, 2, 3, 6, 7 and 11 are missing.
fn rank(order: usize) -> usize
    requires { Present 4 order }
    ensures { result ≡ rank 4 order }
{
    if order < 4 {
        return order;
    }
    if order < 8 {
        return order - 3;
    }
    if order < 12 {
        return order - 5;
    }
    order - 6
}

// The first present orders; from message symbol 6 on none is missing.
const ORDERS: [usize; 6] = [0, 4, 5, 8, 9, 10];

// The order of a message symbol. Its number counts modulo 58.
pub fn order(symbol: usize) -> usize
    ensures { result ≡ order_of 4 (symbol % longest) }
{
    let t = symbol % 58;
    if 6 <= t {
        return t + 6;
    }
    ORDERS[t]
}

// The message's coefficient of an order.
fn coefficient(message: &[u8], order: usize) -> u8
    ensures { result ≡ coefficient_of message.now order }
{
    if order / 4 < order % 4 {
        return 0;
    }
    entry_or(message, rank(order), 0)
}

// The coefficients of the orders below 12, among which some are missing, and zeros behind them.
fn lowest(message: &[u8]) -> [u8; 64]
    ensures { Filled (replicate 64 0) (coefficient_of message.now) 12 result }
{
    let mut out = [0u8; 64];
    for order in 0..12 {
        out[order] = coefficient(message, order);
    }
    out
}

// Where a message of so many symbols ends among the orders: from 12 on none is missing.
fn end_of(symbols: usize) -> usize
    ensures { result ≡ min (symbols + 6) 64 }
{
    symbols.min(58) + 6
}

fn function_of(message: &[u8]) -> [u8; 64]
    ensures { result ≡ function_of message.now }
{
    let end = end_of(message.len());
    let mut out = lowest(message);
    for order in 12..end {
        out[order] = message[order - 6];
    }
    out
}

// The codeword of a message; symbols after the 58th are not read.
pub fn codeword_of(message: &[u8]) -> [u8; 64]
    ensures { result ≡ encode_of longest message.now }
{
    codeword(function_of(message))
}

pub fn known_rate(rate: usize) -> bool
    ensures { result ≡ known_rate rate }
{
    if rate < LEAST_RATE {
        return false;
    }
    rate <= MOST_RATE
}

// Whether every byte is a symbol: their bits together then make one.
pub fn symbols_only(bytes: &[u8]) -> bool
    ensures { result ≡ all_below 16 bytes.now }
{
    let mut all = 0u8;
    for &byte in bytes {
        all |= byte;
    }
    all < 16
}

// The codeword of a message into the part of a frame that is lent for it.
fn encode_into(message: &[u8], part: &mut [u8])
    ensures { part.new ≡ over (encode_of longest message.now) part.old }
{
    let word = codeword_of(message);
    copy(&word, part);
}

// Encode: the codeword of the message into the 64 bytes of the frame from start on.
#[tactic(auto, using(crate::proofs::Cases::unknown_first))]
pub fn encode(rate: usize, message: &[u8], frame: &mut [u8], start: usize) -> Result<(), Refusal>
    ensures { outcome (number_of result) frame.new ≡ encode_call rate message.now frame.old start }
{
    if !known_rate(rate) {
        return Err(Refusal::UnknownRate);
    }
    if message.len() != rate {
        return Err(Refusal::WrongSize);
    }
    if frame.len() < 64 {
        return Err(Refusal::WrongSize);
    }
    if frame.len() - 64 < start {
        return Err(Refusal::WrongSize);
    }
    if !symbols_only(message) {
        return Err(Refusal::NoSymbol);
    }
    let end = start + 64;
    encode_into(message, &mut frame[start..end]);
    Ok(())
}
