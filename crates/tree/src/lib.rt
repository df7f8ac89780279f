// The tree of test words: the doubtful places are doubled one after the other, until a row of the basis decides which codeword alone can be
// near the test words below. It knows of no session and no buffers, and not which places are doubtful.
#![tactic(auto)]

ghost use Rattle.std.specs.Prelude.{◌⊎◌, ◌≡◌, ◌<◌, ◌≤◌, length};
ghost use Rattle.basis.specs.Choice.{lead_at};
ghost use Rattle.basis.specs.Step.{classes};
ghost use Rattle.soft.specs.Column.{places, symbols, column_of};
ghost use Rattle.answers.specs.Answered.{Sound};
ghost use Rattle.candidate.specs.OpenFlags.{OpenFlags};
ghost use Rattle.tree.specs.Searching.{Lowest, DecidedOf, SearchOf, BranchOf};

use answer::Answer;
use answers::{Finding, better, missed};
use basis::{CLASSES, Leads, Rows};
use candidate::open::Open;
use candidate::{Candidate, Word, candidate_of};
use columns::column::{best, second};
use columns::costs::{PLACES, column_of};
use interpolation::node::extend;
use known::{Undecided, as_answer_here, governs, tests_within};
use planes::rows::Row;

// A frame to be searched: its costs, and which places of it count, which are those that are not blank.
#[derive(Clone, Copy)]
pub struct Frame<'a> {
    pub costs: &'a [u16],
    pub open: Open,
    ghost flagged: { OpenFlags open.rate.k (column_of symbols costs.now) open.counts open.blanks },
}

// Of two classes the one with the smaller lead.
fn lower(leads: Leads, r: usize, q: usize) -> usize
    requires { (r < classes) × (q < classes) }
    ensures { (result < classes) × (lead_at leads result ≤ lead_at leads r) × (lead_at leads result ≤ lead_at leads q) × ((result ≡ r) ⊎ (result ≡ q)) }
{
    if leads[q] < leads[r] {
        return q;
    }
    r
}

// The class of least lead among every second one from the first on: from 1 the odd ones, whose rows have their lead with z, and from 0 the
// others.
fn least_from(leads: Leads, first: usize) -> usize
    requires { first < 2 }
    ensures { Lowest leads first classes result }
{
    let mut r = first;
    for q in (first..CLASSES).step_by(2) {
        r = lower(leads, r, q);
    }
    r
}

// A node that a row decides: no codeword but the one that the row holds can be within T of a test word below, so they are only counted. Where
// the lead is not with z, none is near.
fn decided(
    row: Row,
    lead: usize,
    word: Word,
    frame: &Frame<'_>,
    undecided: Undecided<'_>,
    known: Finding,
) -> Finding
    requires { Sound frame.now.open.rate.k (column_of symbols frame.now.costs.now) known }
    ensures decided { DecidedOf frame.now.open.rate.k (column_of symbols frame.now.costs.now) word undecided.entry.places.now row lead
        (length undecided.entry.places.now) result }
    ensures sound { Sound frame.now.open.rate.k (column_of symbols frame.now.costs.now) result }
{
    if lead % 2 == 0 {
        return missed(known);
    }
    let Candidate { message, codeword } = candidate_of(row, frame.open.rate, word);
    let tests = tests_within(codeword, word, frame.costs, &frame.open, undecided);
    let only = Finding {
        answer: Answer::NoneNear,
        message,
        codeword,
        tests: 0,
    };
    as_answer_here(only, tests, frame.costs)
}

// One branch of a node: the place is decided with the symbol. Where the known codeword governs it, its test words are only counted.
#[cycle(branch_branches_search)]
fn branch(
    mut rows: Rows,
    mut leads: Leads,
    word: Word,
    place: usize,
    symbol: u8,
    frame: &Frame<'_>,
    undecided: Undecided<'_>,
    known: Finding,
) -> Finding
    requires { (place < places) × Sound frame.now.open.rate.k (column_of symbols frame.now.costs.now) known }
    ensures found { BranchOf frame.now.open.rate.k (column_of symbols frame.now.costs.now) word place symbol undecided.entry.places.now rows leads
        (length undecided.entry.places.now) result }
    ensures sound { Sound frame.now.open.rate.k (column_of symbols frame.now.costs.now) result }
{
    let mut next_word = word;
    next_word[place] = symbol;
    if governs(known, next_word, &frame.open, undecided) {
        let tests = tests_within(
            known.codeword,
            next_word,
            frame.costs,
            &frame.open,
            undecided,
        );
        return as_answer_here(known, tests, frame.costs);
    }
    let limit = frame.open.largest_key();
    let change = word[place] ^ symbol;
    extend(&mut rows, &mut leads, limit, place, change);
    search(&rows, &leads, next_word, frame, undecided, known)
}

// The two branches of a node: its next doubtful place has the best symbol, and then the second. The second branch knows what the first has
// found. Each gets the basis of its node by value.
#[cycle(branch_branches_search)]
fn branches(
    rows: &Rows,
    leads: &Leads,
    word: Word,
    frame: &Frame<'_>,
    undecided: Undecided<'_>,
    known: Finding,
) -> Finding
    requires { Sound frame.now.open.rate.k (column_of symbols frame.now.costs.now) known × (0 < length undecided.places.now) }
    ensures found { SearchOf frame.now.open.rate.k (column_of symbols frame.now.costs.now) word undecided.entry.places.now rows.now leads.now
        (length undecided.entry.places.now) result }
    ensures sound { Sound frame.now.open.rate.k (column_of symbols frame.now.costs.now) result }
{
    let place = undecided.places[0] as usize % PLACES;
    let next = Undecided {
        places: &undecided.places[1..],
    };
    let column = column_of(frame.costs, place);
    let symbol = best(column);
    let other = second(column);
    let first = branch(*rows, *leads, word, place, symbol, frame, next, known);
    let rest = branch(*rows, *leads, word, place, other, frame, next, first);
    better(first, rest, frame.open.rate.k)
}

// The test words below a node. It ends its part of the tree where no codeword can be near, since every odd class is spent, and where one
// alone can be: the weight of the row of least lead, which is half the lead, the places left and T are less than the places that count. Where
// none is left, they always are.
#[cycle(branch_branches_search)]
pub fn search(
    rows: &Rows,
    leads: &Leads,
    word: Word,
    frame: &Frame<'_>,
    undecided: Undecided<'_>,
    known: Finding,
) -> Finding
    requires { Sound frame.now.open.rate.k (column_of symbols frame.now.costs.now) known }
    ensures found { SearchOf frame.now.open.rate.k (column_of symbols frame.now.costs.now) word undecided.entry.places.now rows.now leads.now
        (length undecided.entry.places.now) result }
    ensures sound { Sound frame.now.open.rate.k (column_of symbols frame.now.costs.now) result }
{
    let limit = frame.open.largest_key();
    let odd = least_from(*leads, 1);
    if limit < leads[odd] {
        return missed(known);
    }
    let class = lower(*leads, odd, least_from(*leads, 0));
    let lead = leads[class];
    let left = undecided.places.len();
    if lead / 2 + left + frame.open.reach() < PLACES - frame.open.blanks {
        return decided(rows[class], lead, word, frame, undecided, known);
    }
    branches(rows, leads, word, frame, undecided, known)
}
