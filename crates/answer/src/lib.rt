// The answer of a decoding with its margin, as documents 01 and 02 have it. No size is in it: it serves every modem.
#![tactic(auto)]

// Document 01's answer: no codeword is near, or the total of the cheapest near one, whose message stands beside it, and its margin to the
// cheapest of the other near ones: how much more that one costs. There is none where no other is near. An enum of its own, and no `Option`:
// document 01 asks for an answer that is an enum, and a definition gives its number and values for each of these cases.
#[derive(Clone, Copy)]
pub enum Answer {
    NoneNear,
    Near { total: u32, margin: Option<u32> },
}
