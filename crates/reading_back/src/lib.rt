// Reading back: the message is read off the word's coefficients by order, encoded again and compared.
#![tactic(auto)]

ghost use Rattle.std.specs.Prelude.{true, ◌≡◌, length};
ghost use Rattle.lists.specs.Words.{all_below};
ghost use Rattle.code.specs.Rates.{longest};
ghost use Rattle.code.specs.Extraction.{extract_of};
ghost use Rattle.family.specs.Calls.{outcome};
ghost use Rattle.code.specs.Calls.{read_back_call};
ghost use Rattle.refusals.specs.Numbers.{number_of};

use coefficients::orders::coefficients;
use encoding::{codeword_of, known_rate, order, symbols_only};
use lists::{copy, padded};
use planes::words::planes;
use refusals::Refusal;

// The message of the longest rate that the word's coefficients show.
fn extracted(word: &[u8]) -> [u8; 58]
    requires { (length word.now ≡ 64) × (all_below 16 word.now ≡ true) }
    ensures { result ≡ extract_of longest word.now }
{
    let shown = coefficients(planes(padded(word)));
    let mut out = [0u8; 58];
    for t in 0..58 {
        out[t] = shown[order(t)];
    }
    out
}

// Whether two parts hold the same bytes.
fn same(a: &[u8], b: &[u8]) -> bool
    ensures { (result ≡ true → a.now ≡ b.now) × (a.now ≡ b.now → result ≡ true) }
{
    a == b
}

// Read back: the message of a codeword into the caller's buffer.
pub fn read_back(rate: usize, word: &[u8], message: &mut [u8]) -> Result<(), Refusal>
    ensures { outcome (number_of result) message.new ≡ read_back_call rate word.now message.old }
{
    if !known_rate(rate) {
        return Err(Refusal::UnknownRate);
    }
    if word.len() != 64 {
        return Err(Refusal::WrongSize);
    }
    if message.len() != rate {
        return Err(Refusal::WrongSize);
    }
    if !symbols_only(word) {
        return Err(Refusal::NoSymbol);
    }
    let found = extracted(word);
    let again = codeword_of(&found[..rate]);
    if !same(&again, word) {
        return Err(Refusal::NoCodeword);
    }
    copy(&found[..rate], message);
    Ok(())
}
