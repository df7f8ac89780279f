// The row of a term: the values of its monomial at the places, and with z the word's symbols times these.
ghost use Rattle.std.specs.Prelude.{◌≡◌, ◌≤◌};
ghost use Rattle.hermitian.specs.Present.{Present};
ghost use Rattle.hermitian.specs.Keys.{IsKey};
ghost use Rattle.planes.specs.Arrays.{Carries};
ghost use Rattle.elimination.specs.Terms.{monomial_at, PowerOf, Tests, TermRow};

use planes::Planes;
use planes::constants::{spread, xs, ys};
use planes::lanes::times;
use planes::rows::{Row, joined};

// The same power of the values at all places.
fn power(base: Planes, n: usize) -> Planes
    ensures { PowerOf base n result }
{
    let mut out = spread(1);
    for i in 0..n {
        let next = times(out, base);
        out = next;
    }
    out
}

// The monomial of a present order: x^i y^j of order 4i + 5j.
fn monomial(order: usize) -> Planes
    requires { Present 4 order }
    ensures { Carries (monomial_at order) result }
{
    let j = order % 4;
    let i = order / 4 - j;
    times(power(xs(), i), power(ys(), j))
}

fn is_present(order: usize) -> bool
    ensures { Tests (Present 4 order) result }
{
    order % 4 <= order / 4
}

// Whether a key is that of a term: even ones without z, odd ones with z, from M on.
pub fn is_term(key: usize, m: usize) -> bool
    ensures { Tests (IsKey 4 m key) result }
{
    let order = key / 2;
    if key % 2 == 0 {
        return is_present(order);
    }
    if order < m {
        return false;
    }
    is_present(order - m)
}

// The symbols are the word's.
pub fn term(key: usize, m: usize, symbols: Planes) -> Row
    requires { IsKey 4 m key }
    ensures { TermRow m key symbols result }
{
    let order = key / 2;
    if key % 2 == 0 {
        return joined(monomial(order), spread(0));
    }
    let values = monomial(order - m);
    joined(times(symbols, values), values)
}
