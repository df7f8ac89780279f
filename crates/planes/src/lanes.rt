// Sums and products in all lanes, and what one lane holds.
ghost use Rattle.std.specs.Prelude.{◌≡◌, ◌%◌};
ghost use Rattle.planes.specs.Arrays.{sum_of, product_of, symbol_at};

use crate::{PLACES, Planes};

pub fn sum(a: Planes, b: Planes) -> Planes
    ensures { result ≡ sum_of a b }
{
    [a[0] ^ b[0], a[1] ^ b[1], a[2] ^ b[2], a[3] ^ b[3]]
}

// The powers α^4 to α^6 of a product come back by α^4 = α + 1.
pub fn times(a: Planes, b: Planes) -> Planes
    ensures { result ≡ product_of a b }
{
    let a0 = a[0];
    let a1 = a[1];
    let a2 = a[2];
    let a3 = a[3];
    let b0 = b[0];
    let b1 = b[1];
    let b2 = b[2];
    let b3 = b[3];
    let fourth = (a1 & b3) ^ (a2 & b2) ^ (a3 & b1);
    let fifth = (a2 & b3) ^ (a3 & b2);
    let sixth = a3 & b3;
    [
        (a0 & b0) ^ fourth,
        (a0 & b1) ^ (a1 & b0) ^ fourth ^ fifth,
        (a0 & b2) ^ (a1 & b1) ^ (a2 & b0) ^ fifth ^ sixth,
        (a0 & b3) ^ (a1 & b2) ^ (a2 & b1) ^ (a3 & b0) ^ sixth,
    ]
}

// A place number counts modulo 64.
pub fn at(a: Planes, place: usize) -> u8
    ensures { result ≡ symbol_at a (place % 64) }
{
    let p = place % PLACES;
    let eights = (a[3] >> p) % 2;
    let fours = eights * 2 + (a[2] >> p) % 2;
    let twos = fours * 2 + (a[1] >> p) % 2;
    (twos * 2 + (a[0] >> p) % 2) as u8
}
