// Bits of a word of symbols, sixteen symbols at a time. It knows of no field and no planes.
#![tactic(auto)]

ghost use Rattle.std.specs.Prelude.{◌≡◌, ◌<◌, ◌≤◌};
ghost use Rattle.packing.specs.Sixteens.{bits_apart, sixteen_of, joined_of};

// The bits of a symbol, each in a sixteen of its own.
fn bits_apart(symbol: u8) -> u64
    ensures { result ≡ bits_apart symbol }
{
    (((symbol % 16) as u64) * 0x2000_4000_8001) & 0x1_0001_0001_0001
}

// The bits of the sixteen symbols from a place on: those of each plane in a sixteen of its own.
pub fn sixteen(word: [u8; 64], from: usize) -> u64
    requires { from ≤ 48 }
    ensures { result ≡ sixteen_of from word }
{
    let mut out = 0u64;
    for i in (0..16).rev() {
        out = out * 2 + bits_apart(word[from + i]);
    }
    out
}

// The sixteen of one plane, out of four numbers.
pub fn joined(a: u64, b: u64, c: u64, d: u64, bit: usize) -> u64
    requires { bit < 4 }
    ensures { result ≡ joined_of bit a b c d }
{
    let first = (a >> (bit * 16)) % 0x1_0000;
    let second = (b >> (bit * 16)) % 0x1_0000;
    let third = (c >> (bit * 16)) % 0x1_0000;
    let fourth = (d >> (bit * 16)) % 0x1_0000;
    first + second * 0x1_0000 + third * 0x1_0000_0000 + fourth * 0x1_0000_0000_0000
}
