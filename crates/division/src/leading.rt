// The lead of a function, and multiplication by y, by order.
ghost use Rattle.std.specs.Prelude.{◌≡◌, ◌<◌};
ghost use Rattle.lists.specs.Listed.{listed};
ghost use Rattle.coefficients.specs.Bytes.{plain_width};
ghost use Rattle.division.specs.Parts.{y_at, LeadFound};

// The highest order whose coefficient is not zero; 0 where all are.
pub fn lead(c: [u8; 64]) -> usize
    ensures { LeadFound c result }
{
    for n in (0..64).rev() {
        if c[n] % 16 != 0 {
            return n;
        }
    }
    0
}

// y times a function. To an order comes what stands five below: y times a monomial without y^3; what passes order 63 is lost. The orders that
// leave 1 modulo 4 also get what stands ten above: y^4 is x^5 and y, and this is the y. Above order 53 nothing stands there.
pub fn times_y(c: [u8; 64]) -> [u8; 64]
    ensures { result ≡ listed plain_width (y_at c) }
{
    let mut out = [0u8; 64];
    for o in 5..64 {
        out[o] = c[o - 5];
    }
    for folded in (1..54).step_by(4) {
        out[folded] = out[folded] ^ c[folded + 10];
    }
    out
}
