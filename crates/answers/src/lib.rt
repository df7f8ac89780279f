// What a search has found: an answer with its message and codeword, and the better of two. It knows nothing of how codewords are found, and
// of no tree, no rows and no costs: a total is a number.
#![tactic(auto)]

ghost use Rattle.std.specs.Prelude.{◌≡◌, ◌+◌, ◌≤◌};
ghost use Rattle.lists.specs.Margin.{lesser};
ghost use Rattle.answer.specs.Margin.{margin_is};
ghost use Rattle.code.specs.Encoding.{most_rate};
ghost use Rattle.answers.specs.Result.{nothing_found};
ghost use Rattle.answers.specs.Answered.{missed_of, told_of};
ghost use Rattle.answers.specs.Better.{better_of};

use answer::Answer;
use candidate::{Message, Word};
use columns::costs::PLACES;
use encoding::MOST_RATE;
use std::cmp::Ordering;

// The message in the first k entries, where k is the rate, and its codeword; and how many test words have a codeword within T. In a search a
// codeword stands beside 'none near' too: one that is known, near or not.
#[derive(Clone, Copy)]
pub struct Finding {
    pub answer: Answer,
    pub message: Message,
    pub codeword: Word,
    pub tests: usize,
}

pub fn none_near() -> Finding
    ensures { result ≡ nothing_found }
{
    Finding {
        answer: Answer::NoneNear,
        message: [0u8; MOST_RATE],
        codeword: [0u8; PLACES],
        tests: 0,
    }
}

// What is found where no codeword is near: the known one still stands beside it.
pub fn missed(known: Finding) -> Finding
    ensures { result ≡ missed_of known }
{
    Finding {
        answer: Answer::NoneNear,
        tests: 0,
        ..known
    }
}

// What a search tells of its finding: beside 'none near' stand zeros.
pub fn told(found: Finding) -> Finding
    ensures { result ≡ told_of found }
{
    match found.answer {
        Answer::NoneNear => none_near(),
        Answer::Near { .. } => found,
    }
}

// The smaller of two margins, where one that is absent is larger than any.
fn lesser(first: Option<u32>, second: Option<u32>) -> Option<u32>
    ensures { margin_is result ≡ lesser (margin_is first) (margin_is second) }
{
    match (first, second) {
        (Some(one), Some(other)) => Some(one.min(other)),
        (None, _) => second,
        (_, None) => first,
    }
}

impl Finding {
    // Beside the same message and codeword another answer and another count.
    fn near(self, total: u32, margin: Option<u32>, tests: usize) -> Finding
        ensures answer { result.answer ≡ Answer.Near total margin }
        ensures message { result.message ≡ self.message }
        ensures codeword { result.codeword ≡ self.codeword }
        ensures tests { result.tests ≡ tests }
    {
        Finding {
            answer: Answer::Near { total, margin },
            tests,
            ..self
        }
    }
}

// Two branches together: the counts add, the cheaper answer wins, equal totals go to the smaller message. The answer that loses is a rival of
// the other; if both are one codeword, a rival in either branch is its rival.
pub fn better(a: Finding, b: Finding, k: usize) -> Finding
    requires { (k ≤ most_rate) × (a.tests + b.tests ≤ 65535) }
    ensures { result ≡ better_of k a b }
{
    let tests = a.tests + b.tests;
    let Answer::Near { total, margin } = a.answer else {
        return Finding { tests, ..b };
    };
    let Answer::Near {
        total: dues,
        margin: spare,
    } = b.answer
    else {
        return Finding { tests, ..a };
    };
    match (total, &a.message[..k]).cmp(&(dues, &b.message[..k])) {
        Ordering::Less => a.near(total, lesser(margin, Some(dues - total)), tests),
        Ordering::Greater => b.near(dues, lesser(spare, Some(total - dues)), tests),
        Ordering::Equal => b.near(dues, lesser(margin, spare), tests),
    }
}
