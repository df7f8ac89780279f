// What a table's columns say of each place, read off them once: the best symbol, its cost, the gap, and whether the place is not blank.
// It knows of no doubtful place, no word and no code.
#![tactic(auto)]

ghost use Rattle.std.specs.Prelude.{cond, ◌≡◌, ◌+◌, ◌*◌, ◌<◌, ◌≤◌, ltb, length};
ghost use Rattle.lists.specs.Count.{bit};
ghost use Rattle.lists.specs.Least.{least_of};
ghost use Rattle.lists.specs.Listed.{listed};
ghost use Rattle.soft.specs.Column.{places, symbols, ceiling, column_of};
ghost use Rattle.soft.specs.Blank.{open_at, flags_of};
ghost use Rattle.soft.specs.Mark.{plain_gap};
ghost use Rattle.summary.specs.Summary.{entry_of, symbol_in, apart, InOrder, HeldTo, SummaryOf};

use columns::blank::is_open;
use columns::costs::{CEILING, COSTS, PLACES, SYMBOLS};
use lists::entry_or;

// By place the best of the symbols passed, its cost, and the next cost.
#[derive(Clone, Copy)]
struct Held {
    best: [u16; PLACES],
    least: [u16; PLACES],
    next: [u16; PLACES],
}

// By place the best symbol, its cost, the plain gap, and a flag of 1 where the place is not blank: an array for each, so that the compiler takes
// several places at a time. Flags are bytes, as the theory has them (`flags_of`), and are summed as they are.
#[derive(Clone, Copy)]
pub struct Summary {
    pub best: [u8; PLACES],
    pub least: [u16; PLACES],
    pub gaps: [u16; PLACES],
    pub counts: [u8; PLACES],
}

// Equal costs are in the order of the symbols.
fn better(best: u16, least: u16, symbol: u16, cost: u16) -> u16
    ensures { result ≡ cond (ltb cost least) symbol best }
{
    if cost < least {
        return symbol;
    }
    best
}

// One symbol more, at all places: the compiler takes several of them at a time.
fn turned(held: Held, costs: &[u16], symbol: usize) -> Held
    requires { (symbol < symbols) × (places * symbols ≤ length costs.now) × HeldTo (column_of symbols costs.now) symbol held.best held.least held.next }
    ensures { HeldTo (column_of symbols costs.now) (symbol + 1) result.best result.least result.next }
{
    let best = held.best;
    let least = held.least;
    let next = held.next;
    let mut bests = [0u16; PLACES];
    let mut leasts = [0u16; PLACES];
    let mut nexts = [0u16; PLACES];
    for place in 0..PLACES {
        let cost = costs[place * SYMBOLS + symbol];
        bests[place] = better(best[place], least[place], symbol as u16, cost);
        leasts[place] = least[place].min(cost);
        nexts[place] = next[place].min(least[place].max(cost));
    }
    Held {
        best: bests,
        least: leasts,
        next: nexts,
    }
}

fn held_of(costs: &[u16]) -> Held
    requires { places * symbols ≤ length costs.now }
    ensures { HeldTo (column_of symbols costs.now) symbols result.best result.least result.next }
{
    let mut held = Held {
        best: [0; PLACES],
        least: [CEILING; PLACES],
        next: [CEILING; PLACES],
    };
    for symbol in 0..SYMBOLS {
        held = turned(held, costs, symbol);
    }
    held
}

fn symbols_of(best: [u16; PLACES]) -> [u8; PLACES]
    ensures { result ≡ listed places (symbol_in best) }
{
    let mut out = [0u8; PLACES];
    for place in 0..PLACES {
        out[place] = (best[place] % SYMBOLS as u16) as u8;
    }
    out
}

fn gaps_of(least: [u16; PLACES], next: [u16; PLACES]) -> [u16; PLACES]
    requires { InOrder least next }
    ensures { result ≡ listed places (apart least next) }
{
    let mut out = [0u16; PLACES];
    for place in 0..PLACES {
        out[place] = next[place] - least[place];
    }
    out
}

// The smallest gap, or the ceiling.
fn smallest(gaps: [u16; PLACES]) -> u16
    ensures { result ≡ least_of ceiling places (entry_of gaps) }
{
    let mut out = CEILING;
    for place in 0..PLACES {
        out = out.min(gaps[place]);
    }
    out
}

// A place with a gap is not blank; only without one are all its costs asked.
fn flag_of(costs: &[u16], place: usize, gap: u16) -> u8
    requires { gap ≡ plain_gap (column_of symbols costs.now) place }
    ensures { result ≡ bit (open_at (column_of symbols costs.now) place) }
{
    if gap != 0 {
        return 1;
    }
    u8::from(is_open(costs, place))
}

// In most tables every place has a gap.
fn flags_of(costs: &[u16], gaps: [u16; PLACES]) -> [u8; PLACES]
    requires { gaps ≡ listed places (plain_gap (column_of symbols costs.now)) }
    ensures { result ≡ flags_of places (column_of symbols costs.now) }
{
    let mut out = [1u8; PLACES];
    if smallest(gaps) != 0 {
        return out;
    }
    for place in 0..PLACES {
        out[place] = flag_of(costs, place, gaps[place]);
    }
    out
}

fn whole_summary(costs: &[u16]) -> Summary
    requires { places * symbols ≤ length costs.now }
    ensures { SummaryOf (column_of symbols costs.now) result }
{
    let held = held_of(costs);
    let best = held.best;
    let least = held.least;
    let next = held.next;
    let gaps = gaps_of(least, next);
    let counts = flags_of(costs, gaps);
    Summary {
        best: symbols_of(best),
        least,
        gaps,
        counts,
    }
}

// A table that lacks costs, with zeros for them.
fn padded(costs: &[u16]) -> [u16; COSTS]
    ensures { result ≡ listed (places * symbols) (entry_of costs.now) }
{
    let mut out = [0u16; COSTS];
    for i in 0..COSTS {
        out[i] = entry_or(costs, i, 0);
    }
    out
}

pub fn summary_of(costs: &[u16]) -> Summary
    ensures { SummaryOf (column_of symbols costs.now) result }
{
    if COSTS <= costs.len() {
        return whole_summary(costs);
    }
    whole_summary(&padded(costs))
}
