// The two parts of the polynomial Q0 + Q1 z that a row holds, by order.
ghost use Rattle.std.specs.Prelude.{◌≡◌};
ghost use Rattle.parts.specs.Parts.{first_of, second_of};

use coefficients::orders::coefficients;
use planes::PLACES;
use planes::lanes::{sum, times};
use planes::rows::{Row, slope, whole};
use planes::words::planes;

// Q0: the values of Q and the word's symbols times the slopes.
pub fn without_z(row: Row, word: [u8; PLACES]) -> [u8; PLACES]
    ensures { result ≡ first_of word row }
{
    coefficients(sum(whole(row), times(planes(word), slope(row))))
}

// Q1.
pub fn with_z(row: Row) -> [u8; PLACES]
    ensures { result ≡ second_of row }
{
    coefficients(slope(row))
}
