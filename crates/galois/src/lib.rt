// The field of sixteen elements: its tables, two products with one contract, and the proof that it is a field. It knows of no
// curve and no code. Every operand is taken mod 16, so that each function is total on bytes.
//
// A constant is built anew at every call of the function that names it: `product_by_table`, `inverse` and `power` are for calls
// that are rare, and inner loops use `product`, which computes (`bench/products` shows the difference).
#![tactic(auto)]

ghost use Rattle.std.specs.Prelude.{◌≡◌};
ghost use Rattle.galois.specs.Gf16.{times, alpha, inverse};
ghost use Rattle.galois.specs.Carryless.{carryless, reduced};

mod tables;

// α^n
pub fn power(n: usize) -> u8
    ensures { result ≡ alpha n }
{
    tables::POWERS[n % 15]
}

pub fn inverse(a: u8) -> u8
    ensures { result ≡ inverse a }
{
    tables::INVERSES[(a % 16) as usize]
}

pub fn product_by_table(a: u8, b: u8) -> u8
    ensures { result ≡ times a b }
{
    tables::PRODUCTS[(a % 16) as usize * 16 + (b % 16) as usize]
}

// The product before its reduction: the bits of b pick 1, 2, 4 and 8 times a. It stays below 128, and so do sums of such products.
pub fn carryless(a: u8, b: u8) -> u8
    ensures { result ≡ carryless a b }
{
    let a1 = a % 16;
    (b % 2 * a1) ^ (b / 2 % 2 * (a1 * 2)) ^ (b / 4 % 2 * (a1 * 4)) ^ (b / 8 % 2 * (a1 * 8))
}

// What passes bit 3 comes back as α^4 = α + 1. A sum of products is reduced once.
pub fn reduced(p: u8) -> u8
    ensures { result ≡ reduced p }
{
    let high = p / 16;
    (p % 16) ^ high ^ (high % 8 * 2)
}

pub fn product(a: u8, b: u8) -> u8
    ensures { result ≡ times a b }
{
    reduced(carryless(a, b))
}
