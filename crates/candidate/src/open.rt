// The places of a frame that count, at its rate: those that are not blank, of which there are enough for codewords to be looked for.
ghost use Rattle.std.specs.Prelude.{◌≡◌, ◌-◌, ◌≤◌};
ghost use Rattle.soft.specs.Column.{places};
ghost use Rattle.near.specs.Here.{m_of, blank_limit, reach_of, limit_of};

use crate::rate::Rate;
use planes::PLACES;

// A flag of 1 for each place that counts, and how many others there are.
#[derive(Clone, Copy)]
pub struct Open {
    pub rate: Rate,
    pub counts: [u8; PLACES],
    pub blanks: usize,
    ghost allowed: { blanks ≤ blank_limit rate.k },
}

impl Open {
    // T.
    pub fn reach(&self) -> usize
        ensures { result ≡ reach_of self.now.rate.k self.now.blanks }
    {
        self.rate.reach(self.blanks)
    }

    pub fn largest_key(&self) -> usize
        ensures { result ≡ limit_of self.now.rate.k self.now.blanks }
    {
        self.rate.largest_key(self.blanks)
    }

    // Two codewords differ in at least so many of the places that count.
    pub fn least_distance(&self) -> usize
        ensures { result ≡ places - m_of self.now.rate.k - self.now.blanks }
    {
        self.rate.least_distance() - self.blanks
    }
}
