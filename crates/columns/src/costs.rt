// Costs as bytes, two each and high first, and as a table of sixteen to a place.
ghost use Rattle.std.specs.Prelude.{◌≡◌, ◌+◌, ◌*◌, ◌<◌, ◌≤◌, length, get_or};
ghost use Rattle.soft.specs.Column.{places, symbols, pair_at, costs_from, column_of, cost_of};

use lists::entry_or;

pub const PLACES: usize = 64;

pub const SYMBOLS: usize = 16;

pub const COSTS: usize = 1024;

// The largest cost, which reads 'at least'.
pub const CEILING: u16 = 65535;

// Where the first byte is missing, so is the second, and `at + 1` is not asked for.
fn pair_at(bytes: &[u8], at: usize) -> u16
    ensures { result ≡ pair_at bytes.now at }
{
    if bytes.len() <= at {
        return 0;
    }
    u16::from_be_bytes([entry_or(bytes, at, 0), entry_or(bytes, at + 1, 0)])
}

// Costs one after the other, as many as there is room for. `bits` fills by another rule: as a parameter the rule would be a closure, and what is
// said of each cost a clause on all its calls.
pub fn fill(bytes: &[u8], out: &mut [u16])
    ensures { out.new ≡ costs_from (length out.old) bytes.now }
{
    for i in 0..out.len() {
        out[i] = pair_at(bytes, i * 2);
    }
}

// The costs of a column from its 32 bytes, or those of a table from its 2,048.
pub fn costs_from<const N: usize>(bytes: &[u8]) -> [u16; N]
    ensures { result ≡ costs_from N bytes.now }
{
    let mut out = [0u16; N];
    fill(bytes, &mut out);
    out
}

// The column of a place that has all its costs: they are copied, with no test for each.
fn whole_column(costs: &[u16], place: usize) -> [u16; SYMBOLS]
    requires { place * symbols + symbols ≤ length costs.now }
    ensures { result ≡ column_of symbols costs.now place }
{
    let mut out = [0u16; SYMBOLS];
    for s in 0..SYMBOLS {
        out[s] = costs[place * SYMBOLS + s];
    }
    out
}

// The column of a place that lacks costs: those that it has, and zeros. Past the last costs it has none, and `place * SYMBOLS` is not asked for.
fn part_column(costs: &[u16], place: usize) -> [u16; SYMBOLS]
    requires { length costs.now < place * symbols + symbols }
    ensures { result ≡ column_of symbols costs.now place }
{
    let mut out = [0u16; SYMBOLS];
    if costs.len() / SYMBOLS < place {
        return out;
    }
    for s in 0..costs.len() % SYMBOLS {
        out[s] = costs[place * SYMBOLS + s];
    }
    out
}

// The column of a place.
pub fn column_of(costs: &[u16], place: usize) -> [u16; SYMBOLS]
    ensures { result ≡ column_of symbols costs.now place }
{
    if place < costs.len() / SYMBOLS {
        return whole_column(costs, place);
    }
    part_column(costs, place)
}

// What a symbol costs at a place; there is none above 15, and its cost reads as 0.
pub fn cost_of(costs: &[u16], place: usize, symbol: u8) -> u16
    ensures { result ≡ cost_of (column_of symbols costs.now place) symbol }
{
    if 15 < symbol {
        return 0;
    }
    if costs.len() / SYMBOLS < place {
        return 0;
    }
    entry_or(costs, place * SYMBOLS + symbol as usize, 0)
}
