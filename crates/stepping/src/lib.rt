// One step of Kötter's algorithm on rows of values and their leads as lists, for every member and whatever way the rows are kept: the class chosen,
// the rows after it, one place more, and the start. It knows of no planes.
#![tactic(auto)]
