// How seldom noise alone is taken for a codeword, where the rate has no place blank. tests/statement reckons it anew, in whole numbers.
ghost use Rattle.numbers.specs.Chance.{Seldom};
ghost use Rattle.numbers.specs.Most.{Most};

use candidate::rate::Rate;
use encoding::LEAST_RATE;

// From the smallest rate on.
const POWERS_OF_TEN: [usize; 47] = [
    25, 25, 24, 24, 23, 23, 22, 23, 21, 22, 21, 21, 20, 20, 19, 19, 18, 19, 18, 18, 17, 17, 16, 17,
    16, 16, 15, 16, 15, 15, 14, 15, 14, 15, 13, 14, 13, 14, 13, 14, 13, 14, 13, 15, 13, 15, 14,
];

// Of all words of 64 symbols at most one in 10 to this power is within T of a codeword, by the sum of what lies within T of each.
pub fn chance(rate: Rate) -> usize
    ensures { Most (Seldom rate.k) result }
{
    POWERS_OF_TEN[rate.k - LEAST_RATE]
}
