// The basis through all settled places.
ghost use Rattle.std.specs.Prelude.{◌≡◌, ◌<◌, ◌≤◌, length};
ghost use Rattle.values.specs.Settled.{settled};
ghost use Rattle.interpolation.specs.Extending.{Stored, ExtendsIf};

use crate::node::extend_own;
use basis::{CLASSES, Leads, Rows};
use planes::PLACES;

// A place whose flag is not 1 changes nothing.
fn extend_if(rows: &mut Rows, leads: &mut Leads, limit: usize, place: usize, flag: u8)
    requires { (limit ≤ 127) × (place < 64) }
    ensures { ExtendsIf limit place flag rows.old leads.old rows.new leads.new }
{
    if flag == 1 {
        extend_own(rows, leads, limit, place);
    }
}

// In place order, from the start basis: the places with flag 1, each with the word's symbol.
pub fn settle(
    word: [u8; PLACES],
    flags: [u8; PLACES],
    m: usize,
    limit: usize,
    leads: &mut Leads,
) -> Rows
    requires { (m ≤ 127) × (limit ≤ 127) }
    ensures { Stored m word limit (settled word flags 64) result leads.new }
{
    *leads = crate::start::start_leads(m);
    let mut rows = [[0u64; 8]; CLASSES];
    crate::start::start_rows(&mut rows, m, word);
    for place in 0..PLACES {
        extend_if(&mut rows, leads, limit, place, flags[place]);
    }
    rows
}
