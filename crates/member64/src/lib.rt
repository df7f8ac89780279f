// GF(64) with w = 8 as a member of the family, by its computed tests. No code.
#![tactic(auto)]
