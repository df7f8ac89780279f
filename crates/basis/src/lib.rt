// The eight rows of a basis, each by its values at the places, and one step of Kötter's algorithm on them. It knows of no rate and no order of
// terms: which polynomials the rows hold, and why a step is right, stands in `values` and `interpolation`.
#![tactic(auto)]

pub mod step;

use planes::rows::Row;

// One row and one lead for each remainder of a key modulo 8.
pub const CLASSES: usize = 8;

pub type Rows = [Row; CLASSES];

pub type Leads = [usize; CLASSES];
