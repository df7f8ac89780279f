// The doubtful places of a table: of those that are not blank the ones of smallest gap, as it counts for choosing, so many as are asked for or as
// a threshold takes in. It knows of no word and no code.
#![tactic(auto)]

ghost use Rattle.std.specs.Prelude.{◌≡◌, cond, List, ℕ, ◌+◌, ◌<◌, length, set};
ghost use Rattle.lists.specs.Least.{least_of};
ghost use Rattle.soft.specs.Column.{places, symbols, column_of, counted_gap};
ghost use Rattle.soft.specs.Doubt.{most_doubt, doubtful_of};
ghost use Rattle.soft.specs.Threshold.{closest_of, clamp_of};
ghost use Rattle.weighing.specs.Keys.{Apart, chosen_of, below_by};
ghost use Rattle.weighing.specs.Summed.{KeyBy, KeyedBy};
ghost use Rattle.weighing.specs.Bound.{from_bound, key_from, past_of, Bound};
ghost use Rattle.doubt.specs.Keys.{far};
ghost use Rattle.doubt.specs.Picked.{PickedOf};
ghost use Rattle.summary.specs.Summary.{SummaryOf};

use columns::costs::{CEILING, PLACES};
use summary::{Summary, summary_of};

pub const MOST_DOUBT: usize = 12;

// Above the key of every place that is not blank: 65,536 gaps times the places.
const FAR: u32 = 65536 * PLACES as u32;

// Places from the front of an array, and how many they are: the library has no heap.
#[derive(Clone, Copy)]
pub struct Picked {
    pub places: [u8; MOST_DOUBT],
    pub count: usize,
}

// The gap as it counts for choosing doubtful places, by the best cost and the plain gap: a second cost at the ceiling reads 'at least', so that the
// difference from a lower best only bounds the gap.
fn counted(least: u16, gap: u16) -> u16
    ensures { result ≡ counted_gap least (least + gap) }
{
    if gap == 0 {
        return 0;
    }
    if least as u32 + gap as u32 == CEILING as u32 {
        return CEILING;
    }
    gap
}

// The key of a place puts it in order: by gap, then by place, and a blank place, whose flag is not 1, behind all that are not.
fn key_of(least: u16, gap: u16, flag: u8, place: usize) -> u32
    requires { place < places }
    ensures { KeyBy places far least gap flag place result }
{
    if flag == 1 {
        return (counted(least, gap) as usize * PLACES + place) as u32;
    }
    FAR
}

fn keys_of(least: [u16; PLACES], gaps: [u16; PLACES], counts: [u8; PLACES]) -> [u32; PLACES]
    ensures { KeyedBy places far least gaps counts result }
{
    let mut out = [0u32; PLACES];
    for place in 0..PLACES {
        out[place] = key_of(least[place], gaps[place], counts[place], place);
    }
    out
}

// A key, but that of a blank place where it is below a bound.
fn from_bound(bound: u32, key: u32) -> u32
    ensures { result ≡ from_bound far bound key }
{
    if key < bound {
        return FAR;
    }
    key
}

// The least key that is not below a bound.
fn least_from(keys: [u32; PLACES], bound: u32) -> u32
    ensures { result ≡ least_of far places (key_from far bound keys) }
{
    let mut least = FAR;
    for place in 0..PLACES {
        least = least.min(from_bound(bound, keys[place]));
    }
    least
}

// The bound behind a key.
fn past(key: u32) -> u32
    ensures { result ≡ past_of far key }
{
    if FAR <= key {
        return FAR;
    }
    key + 1
}

// A bound above as many of the least keys as there are doubtful places, by a round for each that puts it behind the next key.
fn bound_of(keys: [u32; PLACES], doubt: usize) -> u32
    requires { Apart places far keys }
    ensures { Bound places far keys doubt result }
{
    let mut bound = 0u32;
    for round in 0..doubt {
        if bound == FAR {
            return bound;
        }
        bound = past(least_from(keys, bound));
    }
    bound
}

// One place more, if it is chosen and there is room.
pub fn with_place(list: &mut [u8; MOST_DOUBT], at: usize, place: u8, chosen: bool)
    ensures { list.new ≡ cond chosen (set list.old at place) list.old }
{
    if chosen {
        if at < MOST_DOUBT {
            list[at] = place;
        }
    }
}

// The places with fewer than so many ahead of them, rising; the most doubt allowed finds room for all.
fn picked_by(keys: [u32; PLACES], doubt: usize) -> Picked
    requires { Apart places far keys }
    ensures { PickedOf (chosen_of places far doubt keys) result }
{
    let bound = bound_of(keys, doubt);
    let mut out = [0u8; MOST_DOUBT];
    let mut found = 0;
    for place in 0..PLACES {
        let taken = keys[place] < bound;
        with_place(&mut out, found, place as u8, taken);
        found += usize::from(taken);
    }
    Picked {
        places: out,
        count: found,
    }
}

// The doubtful places by a summary of the columns.
pub fn doubtful_by(summary: Summary, doubt: usize) -> Picked
    ensures { (columns : ℕ → List ℕ) → SummaryOf columns summary → PickedOf (doubtful_of places doubt columns) result }
{
    if doubt == 0 {
        return Picked {
            places: [0u8; MOST_DOUBT],
            count: 0,
        };
    }
    let least = summary.least;
    let gaps = summary.gaps;
    let counts = summary.counts;
    let keys = keys_of(least, gaps, counts);
    picked_by(keys, doubt)
}

// The doubtful places. They are fewer than the doubt where too few places are not blank.
pub fn doubtful(costs: &[u16], doubt: usize) -> Picked
    ensures { PickedOf (doubtful_of places doubt (column_of symbols costs.now)) result }
{
    doubtful_by(summary_of(costs), doubt)
}

// How many places have a gap below a limit. A key's quotient is the gap; that of a blank place is above all gaps.
fn count_below(keys: [u32; PLACES], limit: u32) -> usize
    ensures { result ≡ below_by places limit keys }
{
    let mut n = 0u32;
    for place in 0..PLACES {
        n += u32::from(keys[place] / (PLACES as u32) < limit);
    }
    n as usize
}

// A number, but one at least and the most at most.
fn clamp(count: usize, most: usize) -> usize
    ensures { result ≡ clamp_of most count }
{
    count.max(1).min(most)
}

// What a threshold makes doubtful, by a summary of the columns.
pub fn doubtful_below_by(summary: Summary, threshold: u16, most: usize) -> Picked
    ensures { (columns : ℕ → List ℕ) → SummaryOf columns summary → PickedOf (closest_of places threshold most columns) result }
{
    let least = summary.least;
    let gaps = summary.gaps;
    let counts = summary.counts;
    let keys = keys_of(least, gaps, counts);
    let below = count_below(keys, threshold as u32);
    picked_by(keys, clamp(below, most))
}

// What a threshold makes doubtful: the front of the order, as long as the number of gaps below the threshold, held between one and the most.
pub fn doubtful_below(costs: &[u16], threshold: u16, most: usize) -> Picked
    ensures { PickedOf (closest_of places threshold most (column_of symbols costs.now)) result }
{
    doubtful_below_by(summary_of(costs), threshold, most)
}
