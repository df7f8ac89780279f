// The division: from the top order down, each coefficient of the quotient takes a multiple of the divisor away.
ghost use Rattle.std.specs.Prelude.{◌≡◌, ◌<◌, ◌-◌, ◌*◌, ◌/◌, ◌%◌, length};
ghost use Rattle.lists.specs.Listed.{listed};
ghost use Rattle.coefficients.specs.Bytes.{plain_width};
ghost use Rattle.division.specs.Dividing.{less_at, next_at, y_powers, Divided};

use galois::{inverse, product};

// The divisor times 1, y, y^2 and y^3.
fn y_powers(c: [u8; 64]) -> [[u8; 64]; 4]
    ensures { result ≡ y_powers c }
{
    let first = crate::leading::times_y(c);
    let second = crate::leading::times_y(first);
    let third = crate::leading::times_y(second);
    [c, first, second, third]
}

// The rest and a multiple of a function moved up by some orders; the rest is changed where it stands. Zero times the function changes nothing.
fn less(rest: &mut [u8; 64], by: u8, function: [u8; 64], up: usize)
    ensures { rest.new ≡ listed plain_width (less_at rest.old by function up) }
{
    if by == 0 {
        return;
    }
    for k in up..64 {
        rest[k] = rest[k] ^ product(function[k - up], by);
    }
}

// The next coefficient of the quotient; none stands at an absent order.
fn next_at(rest: [u8; 64], at: usize, order: usize, by: u8) -> u8
    ensures { result ≡ next_at rest at order by }
{
    if order / 4 < order % 4 {
        return 0;
    }
    if 63 < at {
        return 0;
    }
    product(rest[at], by)
}

// By how many orders the power of x in a monomial moves a function up.
fn x_moves(order: usize) -> usize
    requires { order < plain_width }
    ensures { result ≡ (order / 4 - order % 4) * 4 }
{
    if order / 4 < order % 4 {
        return 0;
    }
    (order / 4 - order % 4) * 4
}

// Q0 divided by Q1: the function of order at most m whose product with Q1 is Q0, if there is one.
pub fn divide(q0: [u8; 64], q1: [u8; 64], m: usize) -> [u8; 64]
    requires { m < plain_width }
    ensures { Divided q0 q1 m result }
{
    let lead = crate::leading::lead(q1);
    let by = inverse(q1[lead]);
    let powers = y_powers(q1);
    let mut rest = q0;
    let mut out = [0u8; 64];
    for left in (0..m + 1).rev() {
        let a = next_at(rest, lead + left, left, by);
        less(&mut rest, a, powers[left % 4], x_moves(left));
        out[left] = a;
    }
    out
}
