// The code of document 01: the family's encoding, reading back and nodes at GF(16) with w = 4 under short names, the known rates, and what
// the two calls answer: definitions and laws, no code. It knows of no costs, no doubt and no session.
#![tactic(auto)]
