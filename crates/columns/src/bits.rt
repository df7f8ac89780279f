// Columns from the demapper's bit values: a signed byte for each bit of a symbol, highest bit first. A byte holds its value in two's complement.
ghost use Rattle.std.specs.Prelude.{◌≡◌, ◌*◌, ◌<◌, length};
ghost use Rattle.lists.specs.Listed.{listed};
ghost use Rattle.soft.specs.Column.{places, symbols};
ghost use Rattle.soft.specs.Bits.{bits, bit_cost, symbol_cost, bit_column, bit_costs, values_at};

use crate::costs::{COSTS, PLACES, SYMBOLS};
use lists::entry_or;

const BITS: usize = 4;

// What a value adds to the cost of a symbol with that bit: a value from 1 to 127 its magnitude to the bit 1, one from 128 on, which is negative, to the bit 0.
// As products, so that nothing branches on the bit.
fn bit_cost(value: u8, bit: usize) -> u16
    requires { bit < 2 }
    ensures { result ≡ bit_cost value bit }
{
    if value < 128 {
        return bit as u16 * value as u16;
    }
    (1 - bit as u16) * (256 - value as u16)
}

fn symbol_cost(values: [u8; BITS], symbol: usize) -> u16
    ensures { result ≡ symbol_cost bits values symbol }
{
    bit_cost(values[0], symbol / 8 % 2)
        + bit_cost(values[1], symbol / 4 % 2)
        + bit_cost(values[2], symbol / 2 % 2)
        + bit_cost(values[3], symbol % 2)
}

// The costs of the symbols from 0 on, as many as there is room for.
fn fill(values: [u8; BITS], out: &mut [u16])
    ensures { out.new ≡ listed (length out.old) (symbol_cost bits values) }
{
    for symbol in 0..out.len() {
        out[symbol] = symbol_cost(values, symbol);
    }
}

// A column from the four values of its symbol.
pub fn column_from_bits(values: [u8; BITS]) -> [u16; SYMBOLS]
    ensures { result ≡ bit_column bits values }
{
    let mut out = [0u16; SYMBOLS];
    fill(values, &mut out);
    out
}

// The four values of a place; what the frame lacks reads as 0.
fn values_at(frame: &[u8], place: usize) -> [u8; BITS]
    requires { place < places }
    ensures { result ≡ values_at bits frame.now place }
{
    let mut out = [0u8; BITS];
    for i in 0..BITS {
        out[i] = entry_or(frame, BITS * place + i, 0);
    }
    out
}

// The columns of all places, one after the other.
fn fill_columns(frame: &[u8], out: &mut [u16])
    requires { length out.old ≡ places * symbols }
    ensures { out.new ≡ bit_costs bits places frame.now }
{
    for place in 0..PLACES {
        let from = SYMBOLS * place;
        fill(values_at(frame, place), &mut out[from..from + SYMBOLS]);
    }
}

// The same into a table that the caller holds, so that no second one lies on its stack.
pub fn fill_table(frame: &[u8], out: &mut [u16; COSTS])
    ensures { out.new ≡ bit_costs bits places frame.now }
{
    fill_columns(frame, out);
}

// The costs of the table that a frame of bit values makes.
pub fn costs_from_bits(frame: &[u8]) -> [u16; COSTS]
    ensures { result ≡ bit_costs bits places frame.now }
{
    let mut out = [0u16; COSTS];
    fill_columns(frame, &mut out);
    out
}
