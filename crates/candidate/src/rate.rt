// A rate of the code, and what follows from it and the number of blank places: the orders that a message uses, how far apart codewords are,
// how many places may be blank, how far from a word codewords are looked for, and up to which key rows are kept.
ghost use Rattle.std.specs.Prelude.{true, ◌≡◌, ◌↔◌, ◌-◌, ◌≤◌, IsSome, IfSome};
ghost use Rattle.soft.specs.Column.{places};
ghost use Rattle.code.specs.Encoding.{known_rate};
ghost use Rattle.near.specs.Here.{m_of, blank_limit, reach_of, limit_of};
ghost use Rattle.candidate.specs.Ranged.{Ranged};

use encoding::{MOST_RATE, known_rate, order};
use planes::PLACES;

// The genus of the curve: so many orders are absent.
const GENUS: usize = 6;

// A rate that the code has: messages of k symbols.
#[derive(Clone, Copy)]
pub struct Rate {
    pub k: usize,
    ghost ranged: { Ranged k },
}

impl Rate {
    pub fn new(k: usize) -> Option<Rate>
        ensures known { IsSome result ↔ (known_rate k ≡ true) }
        ensures value { IfSome result (λ rate. rate.k ≡ k) }
    {
        if !known_rate(k) {
            return None;
        }
        Some(Rate { k })
    }

    // k, with its bound said once more: the compiler does not see what a type keeps, and without it divides for the order of each symbol.
    pub fn symbols(self) -> usize
        ensures { result ≡ self.k }
    {
        self.k.min(MOST_RATE)
    }

    // M: a message of k symbols uses the orders up to it.
    pub fn top_order(self) -> usize
        ensures { result ≡ m_of self.k }
    {
        self.k + GENUS - 1
    }

    // Two codewords differ in at least so many places.
    pub fn least_distance(self) -> usize
        ensures { result ≡ places - m_of self.k }
    {
        PLACES - self.top_order()
    }

    // The most places that may be blank: with more there is no T.
    pub fn blank_limit(self) -> usize
        ensures { result ≡ blank_limit self.k }
    {
        self.least_distance() - GENUS - 1
    }

    // T: the largest number of which twice, together with the blank places, is less than the least distance without the genus.
    pub fn reach(self, blanks: usize) -> usize
        requires { blanks ≤ blank_limit self.k }
        ensures { result ≡ reach_of self.k blanks }
    {
        (self.blank_limit() - blanks) / 2
    }

    // 2(o + M) + 1, where o is the order of message symbol T: T places have a locator up to it. The largest key that decoding needs.
    pub fn largest_key(self, blanks: usize) -> usize
        requires { blanks ≤ blank_limit self.k }
        ensures { result ≡ limit_of self.k blanks }
    {
        2 * (order(self.reach(blanks)) + self.top_order()) + 1
    }
}
