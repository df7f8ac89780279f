// The mark of a word that no codeword of its rate undercuts, near or not: what it costs over all best costs is no more than the smallest gaps of
// its unchanged places add up to. It knows of no code: how many places another codeword differs in at least is a number. Best costs and gaps come
// from a summary of the columns.
#![tactic(auto)]

ghost use Rattle.std.specs.Prelude.{◌≡◌, cond, List, ℕ, ◌+◌, ◌-◌, ◌*◌, ◌≤◌, eqb, ltb, leb};
ghost use Rattle.lists.specs.Count.{bit};
ghost use Rattle.lists.specs.Listed.{listed};
ghost use Rattle.soft.specs.Column.{places, symbols, column_of};
ghost use Rattle.soft.specs.Blank.{flag_at};
ghost use Rattle.soft.specs.Total.{cost_in};
ghost use Rattle.soft.specs.Mark.{plain_gap, is_marked};
ghost use Rattle.summary.specs.Summary.{SummaryOf};
ghost use Rattle.weighing.specs.Low.{above, excess_by, GapBy, below_by, sum_below};
ghost use Rattle.marks.specs.Low.{Gaps, Splits, LowSum, clear_of, Markable};

use columns::costs::{PLACES, cost_of};
use lists::entry_or;
use summary::Summary;
use totals::total::changed;

// Above all gaps.
const ABOVE: u32 = 65536;

// What a changed place costs over its best cost; nothing where the flag is not 1.
fn over(costs: &[u16], word: &[u8], place: usize, flag: u8, least: u16) -> u32
    ensures { (result ≡ cond (eqb flag 1) (cost_in (column_of symbols costs.now) word.now place - least) 0) × (result ≤ 65535) }
{
    if flag != 1 {
        return 0;
    }
    cost_of(costs, place, entry_or(word, place, 0)).saturating_sub(least) as u32
}

// What the changed places together cost over their best costs.
fn excess(costs: &[u16], word: &[u8], flags: [u8; PLACES], least: [u16; PLACES]) -> u32
    ensures { result ≡ excess_by places (flag_at flags) (column_of symbols costs.now) word.now least }
{
    let mut sum: u32 = 0;
    for place in 0..PLACES {
        sum += over(costs, word, place, flags[place], least[place]);
    }
    sum
}

fn gap_at(gap: u16, flag: u8) -> u32
    ensures { GapBy gap flag result }
{
    if flag == 1 {
        return ABOVE;
    }
    gap as u32
}

// The gaps of the unchanged places; those of the changed ones, whose flag is 1, are above all.
fn gaps(plain: [u16; PLACES], flags: [u8; PLACES]) -> [u32; PLACES]
    ensures { (columns : ℕ → List ℕ) → plain ≡ listed places (plain_gap columns) → Gaps columns flags result }
{
    let mut out = [0u32; PLACES];
    for place in 0..PLACES {
        out[place] = gap_at(plain[place], flags[place]);
    }
    out
}

fn count_below(gaps: [u32; PLACES], limit: u32) -> usize
    ensures { (result ≡ below_by places limit gaps) × (result ≤ places) }
{
    let mut n = 0u32;
    for place in 0..PLACES {
        n += u32::from(gaps[place] < limit);
    }
    n as usize
}

// A gap that counts for a sum of those below a limit.
fn small(gap: u32, limit: u32) -> u32
    requires { limit ≤ above }
    ensures { (result ≡ cond (ltb gap limit) gap 0) × (result ≤ above) }
{
    if gap < limit {
        return gap;
    }
    0
}

fn sum_below(gaps: [u32; PLACES], limit: u32) -> u32
    requires { limit ≤ above }
    ensures { (result ≡ sum_below places limit gaps) × (result ≤ above * places) }
{
    let mut sum: u32 = 0;
    for place in 0..PLACES {
        sum += small(gaps[place], limit);
    }
    sum
}

// Where the search goes on, by how many gaps are below the middle of the part that it is in: the start of the upper half, or of the lower.
fn next_start(below: usize, few: usize, start: u32, half: u32) -> u32
    requires { start + half ≤ above }
    ensures { result ≡ cond (leb below few) (start + half) start }
{
    if few < below {
        return start;
    }
    start + half
}

// And how wide that half is.
fn next_width(below: usize, few: usize, width: u32, half: u32) -> u32
    requires { half ≤ width }
    ensures { result ≡ cond (leb below few) (width - half) half }
{
    if few < below {
        return half;
    }
    width - half
}

// A number that at most so few gaps are below, and at least so few up to: their part of the numbers is halved again and again, so that no index
// is counted.
fn threshold(gaps: [u32; PLACES], few: usize) -> u32
    requires { few ≤ below_by places above gaps }
    ensures { Splits gaps few result }
{
    let mut start: u32 = 0;
    let mut width: u32 = ABOVE;
    while 1 < width {
        let half = width / 2;
        let below = count_below(gaps, start + half);
        start = next_start(below, few, start, half);
        width = next_width(below, few, width, half);
    }
    start
}

// The sum of so few smallest gaps: all that are below a threshold, and the threshold for the rest of them.
fn low_sum(gaps: [u32; PLACES], few: usize) -> u32
    requires { (few ≤ places) × (few ≤ below_by places above gaps) }
    ensures { LowSum gaps few result }
{
    let limit = threshold(gaps, few);
    let rest = few - count_below(gaps, limit);
    sum_below(gaps, limit) + rest as u32 * limit
}

// Whether fewer gaps than so few are below the excess: then one of the so few smallest ones alone makes up for it.
fn is_clear(gaps: [u32; PLACES], due: u32, few: usize) -> bool
    ensures { result ≡ clear_of gaps due few }
{
    if ABOVE <= due {
        return false;
    }
    count_below(gaps, due) < few
}

// 1 for a word whose total, without all best costs, is at most the sum of the smallest gaps of its unchanged places, so many of them as a word
// that differs from it in at least `far` places differs in; otherwise 0. A word without excess is marked at once, and so is one
// whose excess a single gap makes up for.
pub fn mark(costs: &[u16], word: &[u8], flags: [u8; PLACES], far: usize, summary: Summary) -> u8
    requires { Markable (column_of symbols costs.now) word.now flags far × SummaryOf (column_of symbols costs.now) summary }
    ensures { result ≡ bit (is_marked places far (column_of symbols costs.now) word.now) }
{
    let least = summary.least;
    let due = excess(costs, word, flags, least);
    if due == 0 {
        return 1;
    }
    let count = changed(flags) as usize;
    if far <= count {
        return 0;
    }
    let plain = summary.gaps;
    let near = gaps(plain, flags);
    let few = far - count;
    if is_clear(near, due, few) {
        return 1;
    }
    let slack = low_sum(near, few);
    if slack < due {
        return 0;
    }
    1
}
