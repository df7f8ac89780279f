// The sum over the powers of x in a function, for each power of y and each x.
ghost use Rattle.evaluation.specs.Evaluating.{PowerSums};

use crate::powers::x_powers;
use coefficients::orders::entry;
use planes::Planes;
use planes::lanes::sum;

// The orders of a function, as a byte: that of a term fits one.
const ORDERS: u8 = 64;

// Each turn takes four terms, one for each power of y; `order` is that of the first. `coefficients` sums over its own table alike, by x: here a
// term is known by its order, which is held in a byte.
pub fn power_sums(function: Planes) -> Planes
    ensures { PowerSums function result }
{
    let powers = x_powers();
    let mut out = [0u64; 4];
    for order in (0..ORDERS).step_by(4) {
        let four = (order / 4) as usize;
        let next = sum(out, entry(function, powers[four], four));
        out = next;
    }
    out
}
