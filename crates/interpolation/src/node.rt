// One node more: a place with a symbol there.
ghost use Rattle.std.specs.Prelude.{◌≡◌, ◌<◌, ◌≤◌, length};
ghost use Rattle.interpolation.specs.Extending.{ExtendsOwn, Extends};

use basis::step::{choice, discrepancies, moved_rows, next_rows};
use basis::{Leads, Rows};
use curve::x_at;

// The basis of the polynomials that vanish at a place too, with the word's own symbol there. Rows and leads are changed where they stand.
pub fn extend_own(rows: &mut Rows, leads: &mut Leads, limit: usize, place: usize)
    requires { (limit ≤ 127) × (place < 64) }
    ensures { ExtendsOwn limit place rows.old leads.old rows.new leads.new }
{
    let held = *leads;
    let ds = discrepancies(rows, held, limit, place);
    let Some(at) = choice(ds, held) else {
        return;
    };
    leads[at] = held[at] + 8;
    next_rows(rows, ds, at, x_at(place));
}

// The same with another symbol there, which the word has from then on; the change is the exclusive or of both.
pub fn extend(rows: &mut Rows, leads: &mut Leads, limit: usize, place: usize, change: u8)
    requires { (limit ≤ 127) × (place < 64) }
    ensures { Extends limit place change rows.old leads.old rows.new leads.new }
{
    if change == 0 {
        extend_own(rows, leads, limit, place);
        return;
    }
    moved_rows(rows, place, change);
    extend_own(rows, leads, limit, place);
}
