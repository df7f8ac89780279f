// The algebra that every later proof rests on: fields of characteristic 2, sums, leads, elimination and Kötter's step. It knows of no curve and no code.
#![tactic(auto)]
