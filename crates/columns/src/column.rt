// A column's best symbol, second symbol and gap. All are read off the symbols' numbers, the cost sixteen times and the symbol: the least of them is
// the best symbol's, and the next is the second's.
ghost use Rattle.std.specs.Prelude.{◌≡◌, ◌+◌, ◌*◌, ◌/◌, ◌%◌, ◌<◌, min, max};
ghost use Rattle.soft.specs.Column.{symbols, best_of, second_of, gap_of};
ghost use Rattle.columns.specs.Two.{above, TwoOf};

use crate::costs::SYMBOLS;

// Above the numbers of all symbols: 65,536 costs times the symbols.
const ABOVE: u32 = 65536 * SYMBOLS as u32;

// The numbers of the best and of the second symbol.
#[derive(Clone, Copy)]
struct Two {
    best: u32,
    second: u32,
}

// Equal costs are in the order of the symbols.
fn number(cost: u16, symbol: usize) -> u32
    requires { symbol < symbols }
    ensures { (result ≡ cost * symbols + symbol) × (result < above) }
{
    cost as u32 * SYMBOLS as u32 + symbol as u32
}

// The next of some numbers, with one more: of it and the least, the larger one stands behind the other.
fn next_with(next: u32, least: u32, number: u32) -> u32
    ensures { result ≡ min next (max least number) }
{
    next.min(least.max(number))
}

fn two_least(column: [u16; SYMBOLS]) -> Two
    ensures { TwoOf column result }
{
    let mut least = ABOVE;
    let mut next = ABOVE;
    for symbol in 0..SYMBOLS {
        let number = number(column[symbol], symbol);
        next = next_with(next, least, number);
        least = least.min(number);
    }
    Two {
        best: least,
        second: next,
    }
}

// The symbol of a number.
fn symbol_in(number: u32) -> u8
    ensures { result ≡ number % symbols }
{
    (number % SYMBOLS as u32) as u8
}

// The cost of a number.
fn cost_in(number: u32) -> u16
    requires { number < above }
    ensures { result ≡ number / symbols }
{
    (number / SYMBOLS as u32) as u16
}

pub fn best(column: [u16; SYMBOLS]) -> u8
    ensures { result ≡ best_of column }
{
    symbol_in(two_least(column).best)
}

pub fn second(column: [u16; SYMBOLS]) -> u8
    ensures { result ≡ second_of column }
{
    symbol_in(two_least(column).second)
}

pub fn gap(column: [u16; SYMBOLS]) -> u16
    ensures { result ≡ gap_of column }
{
    let found = two_least(column);
    cost_in(found.second) - cost_in(found.best)
}
