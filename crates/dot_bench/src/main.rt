// Why there are two products: a thousand dot products of 134 bytes by the table for an argument 'table', by computing for any
// other, and the last of them printed. `bench/products` counts the instructions of each.
#![tactic(auto)]

ghost use Rattle.std.specs.Prelude.{◌≡◌, ℕ};
ghost use Rattle.galois.specs.Gf16.{times};
ghost use Rattle.dot_bench.specs.Dot.{dot};

use output::Output;
use std::fmt::Write;
use std::{env, io};

// The dot product by a function that multiplies.
fn dot<F: Fn(u8, u8) -> u8>(product: F, a: [u8; 134], b: [u8; 134]) -> u8
    requires safe { F.IsAlwaysCallable product }
    requires multiplies { (x y r : ℕ) → F.post product x y r → r ≡ times x y }
    ensures { result ≡ dot 134 a b }
{
    let mut sum = 0;
    for i in 0..134 {
        sum ^= product(a[i], b[i]);
    }
    sum
}

// Each dot product changes both arrays for the next.
fn thousand<F: Fn(u8, u8) -> u8>(product: F) -> u8
    requires safe { F.IsAlwaysCallable product }
    requires multiplies { (x y r : ℕ) → F.post product x y r → r ≡ times x y }
{
    let mut a = [5; 134];
    let mut b = [11; 134];
    let mut last = 0;
    for k in 0..1000 {
        last = dot(&product, a, b);
        a[k % 134] = last;
        b[k * 7 % 134] = last ^ 5;
    }
    last
}

fn main(rt: HostRuntime) -> io::Result<()> {
    for word in env::args(&rt)?.skip(1) {
        let last = if word.starts_with('t') {
            thousand(galois::product_by_table)
        } else {
            thousand(galois::product)
        };
        let _ = writeln!(Output, "{last}");
    }
    Ok(())
}
