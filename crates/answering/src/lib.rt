// How a modem's calls come to answer as its book does, for every modem: what decoding, closing, table decoding by doubt and by threshold and
// decoding from bit values know at each step; no code. What a search found, and what a struct holds, is given by its fields.
#![tactic(auto)]
