// Elements of any field of numbers in bit planes: bit p of plane b is bit b of the element at lane p. Sums, products and multiples in all lanes, and
// rows of two parts. It knows of no curve and no size.
#![tactic(auto)]
