// The ring of the curve y^w + y = x^(w+1) over any field of characteristic 2, and why the decoder repairs. It knows of no code, no table and no particular field.
#![tactic(auto)]
