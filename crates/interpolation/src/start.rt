// The rows and leads before the first place: in each class the power of y of least key, with or without z.
ghost use Rattle.std.specs.Prelude.{◌≡◌, ◌<◌, ◌≤◌, length};
ghost use Rattle.lists.specs.Listed.{listed};
ghost use Rattle.hermitian.specs.Keys.{first};
ghost use Rattle.interpolation.specs.Start.{YPowers, StartRow, Started};

use basis::{CLASSES, Leads, Rows};
use planes::constants::{spread, ys};
use planes::lanes::times;
use planes::rows::{Row, joined};
use planes::words::planes;
use planes::{PLACES, Planes};

// 1, y, y^2 and y^3 at all places.
fn y_powers() -> [Planes; 4]
    ensures { YPowers result }
{
    let y = ys();
    let second = times(y, y);
    let third = times(second, y);
    [spread(1), y, second, third]
}

// The symbols are the word's.
fn start_row(r: usize, m: usize, powers: [Planes; 4], symbols: Planes) -> Row
    requires { (r < 8) × YPowers powers }
    ensures { StartRow m r symbols result }
{
    if r % 2 == 0 {
        return joined(powers[r / 2], [0; 4]);
    }
    let y = powers[(r / 2 + (4 - m % 4)) % 4];
    joined(times(symbols, y), y)
}

// They are laid where the rows stand.
pub fn start_rows(rows: &mut Rows, m: usize, word: [u8; PLACES])
    ensures { Started m word rows.old rows.new }
{
    let powers = y_powers();
    let symbols = planes(word);
    for r in 0..CLASSES {
        rows[r] = start_row(r, m, powers, symbols);
    }
}

fn start_lead(r: usize, m: usize) -> usize
    requires { (r < 8) × (m ≤ 127) }
    ensures { result ≡ first 4 m r }
{
    if r % 2 == 0 {
        return 2 * (r / 2 * 5);
    }
    2 * ((r / 2 + (4 - m % 4)) % 4 * 5 + m) + 1
}

pub fn start_leads(m: usize) -> Leads
    requires { m ≤ 127 }
    ensures { result ≡ listed 8 (first 4 m) }
{
    let mut out = [0usize; CLASSES];
    for r in 0..CLASSES {
        out[r] = start_lead(r, m);
    }
    out
}
