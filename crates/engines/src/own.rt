// Engine and tree on words of the program's own, at every rate: with no blank place, with a third and two thirds of those that may be and
// with as many, and each with no wrong symbol, with T of them, with T + 1 and with all places wrong. A line is the rate and a sign for each
// word: `+` where both have the same codeword, `-` where both have none, `!` where they differ.
ghost use Rattle.std.specs.Prelude.{◌≤◌};

use agreement::compare;
use branches::branch::{branch_in, faded_costs};
use candidate::Word;
use columns::costs::PLACES;
use encoding::{LEAST_RATE, MOST_RATE};
use output::Output;
use refusals::Refusal;
use std::fmt::{self, Write};
use stream::bytes::LENT;

// The bytes of Q.
const Q_BYTES: usize = 98;

// The next of a row of numbers that look random.
fn next(number: u64) -> u64 {
    (number % 2147483648 * 1103515245 + 12345) % 2147483648
}

fn symbol_in(number: u64) -> u8 {
    (number / 65536 % 16) as u8
}

// Another symbol than this one.
fn other_symbol(symbol: u8, number: u64) -> u8 {
    ((symbol as u64 + 1 + number / 65536 % 15) % 16) as u8
}

fn message(from: u64) -> [u8; MOST_RATE] {
    let mut out = [0u8; MOST_RATE];
    let mut number = from;
    for t in 0..MOST_RATE {
        number = next(number);
        out[t] = symbol_in(number);
    }
    out
}

fn sent(rate: usize, from: u64) -> Word
    requires { rate ≤ 52 }
{
    let message = message(from);
    encoding::codeword_of(&message[..rate])
}

// So many places of the list are blank: they rise and are spread over the word.
fn spread(count: usize) -> [u8; PLACES] {
    let mut out = [0u8; PLACES];
    for i in 0..PLACES {
        out[i] = (i * PLACES / (count % PLACES + 1) % PLACES) as u8;
    }
    out
}

// One of the wrong places that are left is taken, unless the place is blank.
fn taken(blank: bool, left: usize) -> usize
    ensures { result ≤ left }
{
    if blank {
        return 0;
    }
    if 0 < left { 1 } else { 0 }
}

// What arrives for a symbol: any at a blank place, another at a wrong one.
fn received(symbol: u8, blank: bool, wrong: usize, number: u64) -> u8 {
    if blank {
        return symbol_in(number);
    }
    if 0 < wrong {
        return other_symbol(symbol, number);
    }
    symbol
}

// The word with so many wrong places, of those that are not blank, and any symbols at these.
fn damaged(word: Word, blanks: &[u8], wrong: usize, from: u64) -> Word {
    let mut out = word;
    let mut left = wrong;
    let mut number = from;
    for i in 0..PLACES {
        let place = i * 27 % PLACES;
        let blank = blanks.contains(&(place as u8));
        number = next(number);
        out[place] = received(word[place], blank, left, number);
        left -= taken(blank, left);
    }
    out
}

fn sign(answer: Result<(), Refusal>, codeword: Word, beside: Result<Word, Refusal>) -> char {
    match (answer, beside) {
        (Ok(()), Ok(found)) if codeword == found => '+',
        (Err(Refusal::NoneNear), Err(Refusal::NoneNear)) if codeword == [LENT; PLACES] => '-',
        _ => '!',
    }
}

// Both calls by name; the tree's columns are the word's, blank at the blank places.
fn compare_word(rate: usize, word: Word, blanks: &[u8]) -> char {
    let mut codeword = [LENT; PLACES];
    let mut q = [LENT; Q_BYTES];
    let costs = faded_costs(&word, blanks);
    let both = compare(rate, &costs, &word, blanks, &mut codeword, &mut q);
    sign(both.answer, codeword, branch_in(both.found))
}

// How many places are wrong, where so many more may be blank than are: T is half of that.
fn wrong_places(spare: usize, turn: usize) -> usize {
    let reach = spare / 2;
    match turn % 4 {
        0 => 0,
        1 => reach,
        2 => reach + 1,
        _ => PLACES,
    }
}

// The word of a turn, with these blank places and so many wrong ones.
fn compare_turn(rate: usize, turn: usize, blanks: &[u8], wrong: usize) -> char
    requires { (rate ≤ 52) × (turn ≤ 16) }
{
    let from = (rate * 16 + turn) as u64;
    let word = damaged(sent(rate, from), blanks, wrong, from + 1000);
    compare_word(rate, word, blanks)
}

// How many places are blank, of so many that may be.
fn blank_places(most: usize, turn: usize) -> usize
    requires { most ≤ 52 }
    ensures { result ≤ most }
{
    match turn / 4 {
        0 => 0,
        1 => most / 3,
        2 => most * 2 / 3,
        _ => most,
    }
}

fn compare_blanks(rate: usize, turn: usize) -> char
    requires { (rate ≤ 52) × (turn ≤ 16) }
{
    let most = MOST_RATE - rate;
    let count = blank_places(most, turn);
    let list = spread(count);
    compare_turn(rate, turn, &list[..count], wrong_places(most - count, turn))
}

fn print_rate(out: &mut Output, rate: usize) -> fmt::Result
    requires { rate ≤ 52 }
{
    write!(out, "{rate} ")?;
    for turn in 0..16 {
        write!(out, "{}", compare_blanks(rate, turn))?;
    }
    writeln!(out)
}

fn print_all(out: &mut Output) -> fmt::Result {
    for rate in LEAST_RATE..=MOST_RATE {
        print_rate(out, rate)?;
    }
    Ok(())
}

pub fn print_own() {
    let _ = print_all(&mut Output);
}
