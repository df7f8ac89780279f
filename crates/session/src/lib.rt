// A session, which is a value: opening one, and delivering into it one place and its column of sixteen costs, or withdrawing one place.
// It holds the columns by place, and nothing of the order of arrival: sessions from openings that hold the same are equal.
// It knows of no codeword and no interpolant; what a session stands for is its book (specs/View.antt).
#![tactic(auto)]

ghost use Rattle.std.specs.Prelude.{◌≡◌, ◌<◌, []};
ghost use Rattle.lists.specs.Distinct.{among};
ghost use Rattle.soft.specs.Doubt.{most_doubt};
ghost use Rattle.book64.specs.Here.{places, width, fit_places};
ghost use Rattle.session.specs.View.{new_session, with_place, all_taken};
ghost use Rattle.session.specs.Calls.{ended, started, opened_of, Delivery, Withdrawal};

use columns::costs::{COSTS, PLACES, SYMBOLS};
use doubt::MOST_DOUBT;
use lists::padded;
use refusals::Refusal;

// The doubtful list lies in the front of an array, since the library has no heap; theorems on sessions name these fields.
#[derive(Clone, Copy)]
pub struct Session {
    pub rate: u8,
    pub doubt: usize,
    pub doubtful: [u8; MOST_DOUBT],
    pub taken: [bool; PLACES],
    pub costs: [u16; COSTS],
}

// Whether no place is above 63 and each is above the one before it.
pub fn fit_places(list: &[u8]) -> bool
    ensures { result ≡ fit_places list.now }
{
    let mut least: usize = 0;
    for i in 0..list.len() {
        let place = list[i] as usize;
        if PLACES <= place {
            return false;
        }
        if place < least {
            return false;
        }
        least = place + 1;
    }
    true
}

// A new session holds 1,024 costs of zero and no place taken.
fn new_session(rate: u8, list: &[u8]) -> Session
    ensures { result ≡ new_session rate list.now }
{
    let doubtful = padded(list);
    let taken = [false; PLACES];
    let costs = [0u16; COSTS];
    Session {
        rate,
        doubt: list.len(),
        doubtful,
        taken,
        costs,
    }
}

// What an opening answers, and the session that it leaves, of a refused one too.
#[derive(Clone, Copy)]
pub struct Opened {
    pub answer: Result<(), Refusal>,
    pub session: Session,
}

// What a refused opening leaves: a new session of rate 39 with an empty doubtful list.
pub fn fresh() -> Session
    ensures { result ≡ new_session 39 [] }
{
    new_session(39, b"")
}

// For who goes on with an accepted opening alone; `open` hands a session back in any case.
#[tactic(auto, using(crate::proofs::Cases::unknown_first))]
pub fn try_open(rate: usize, doubtful: &[u8]) -> Result<Session, Refusal>
    ensures { started result ≡ opened_of rate doubtful.now }
{
    if !encoding::known_rate(rate) {
        return Err(Refusal::UnknownRate);
    }
    if MOST_DOUBT < doubtful.len() {
        return Err(Refusal::WrongDoubt);
    }
    if !fit_places(doubtful) {
        return Err(Refusal::WrongDoubt);
    }
    Ok(new_session(rate as u8, doubtful))
}

// The session that an opening leaves beside its answer.
pub fn left_by(answer: Result<Session, Refusal>) -> Opened
    ensures { ended result.answer result.session ≡ started answer }
{
    match answer {
        Ok(session) => Opened {
            answer: Ok(()),
            session,
        },
        Err(refusal) => Opened {
            answer: Err(refusal),
            session: fresh(),
        },
    }
}

pub fn open(rate: usize, doubtful: &[u8]) -> Opened
    ensures { ended result.answer result.session ≡ opened_of rate doubtful.now }
{
    left_by(try_open(rate, doubtful))
}

pub fn is_among(place: usize, list: &[u8]) -> bool
    ensures { result ≡ among place list.now }
{
    for i in 0..list.len() {
        if list[i] as usize == place {
            return true;
        }
    }
    false
}

// Sets the flag of a place and its column; all else stays as it was.
fn set_place(session: &mut Session, place: usize, flag: bool, column: [u16; SYMBOLS])
    requires { place < places }
    ensures { session.new ≡ with_place session.old place flag column }
{
    let at = SYMBOLS * place;
    session.taken[place] = flag;
    session.costs[at..at + SYMBOLS].copy_from_slice(&column);
}

// A place is taken if its flag is set. Nothing is read or written here where a field says, so no session record runs past an array.
// A refused delivery leaves the session as it was.
pub fn deliver(session: &mut Session, place: usize, column: [u16; SYMBOLS]) -> Result<(), Refusal>
    ensures { Delivery session.old place column (ended result session.new) }
{
    if PLACES <= place {
        return Err(Refusal::NoPlace);
    }
    if session.taken[place] {
        return Err(Refusal::PlaceTaken);
    }
    set_place(session, place, true, column);
    Ok(())
}

// Undoes the delivery of a place: it becomes free again, and its costs return to zero. A refused withdrawal leaves the session as it was.
pub fn withdraw(session: &mut Session, place: usize) -> Result<(), Refusal>
    ensures { Withdrawal session.old place (ended result session.new) }
{
    if place >= PLACES {
        return Err(Refusal::NoPlace);
    }
    if !session.taken[place] {
        return Err(Refusal::NotTaken);
    }
    set_place(session, place, false, [0; SYMBOLS]);
    Ok(())
}

// Whether no place is missing.
pub fn all_taken(taken: [bool; PLACES]) -> bool
    ensures { result ≡ all_taken taken }
{
    for place in 0..PLACES {
        if !taken[place] {
            return false;
        }
    }
    true
}
