// Answers calls of the elimination engine on its standard input, one after the other, on its standard output, and what the tree finds
// for each word beside it, so that another decoder can make the same calls and compare. reference/src/engine.rs has the layout.
// The input ends at the first call that is cut short or too long. Without input the program compares the two on words of its own.
#![tactic(auto)]

mod own;

use branches::requests::answer_next;
use own::print_own;

// A proved loop ends, and nothing says that the input does: no run uses up the turns.
fn main() {
    if !answer_next() {
        print_own();
        return;
    }
    for _turn in 0..u64::MAX {
        if !answer_next() {
            return;
        }
    }
}
