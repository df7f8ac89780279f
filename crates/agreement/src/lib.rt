// That the elimination engine and the tree agree on a test word, of both calls by name.
#![tactic(auto)]

ghost use Rattle.agreement.specs.Both.{BothAgree};

use answers::Finding;
use chase::nearest;
use doubt::MOST_DOUBT;
use engine::eliminate;
use refusals::Refusal;

// What the engine answers, and what the tree finds.
#[derive(Clone, Copy)]
pub struct Both {
    pub answer: Result<(), Refusal>,
    pub found: Finding,
}

// The engine on a word, and the tree on columns without doubt.
pub fn compare(
    rate: usize,
    costs: &[u16],
    word: &[u8],
    blanks: &[u8],
    codeword: &mut [u8],
    q: &mut [u8],
) -> Both
    ensures { BothAgree rate costs.now word.now blanks.now codeword.old q.old result
        codeword.new q.new }
{
    let answer = eliminate(rate, word, blanks, codeword, q);
    let found = nearest(rate, costs, [0; MOST_DOUBT], 0);
    Both { answer, found }
}
