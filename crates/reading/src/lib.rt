// Interpolant reading of a session: the least Q through its settled places, into the caller's 98 bytes.
// It keeps nothing between calls and writes nothing but the buffer; how Q is found is `interpolation`'s.
#![tactic(auto)]

ghost use Rattle.std.specs.Prelude.{◌≡◌};
ghost use Rattle.lists.specs.Listed.{listed};
ghost use Rattle.book64.specs.Here.{places};
ghost use Rattle.refusals.specs.Numbers.{number_of};
ghost use Rattle.session.specs.Answering.{Reading};
ghost use Rattle.reading.specs.Flags.{flag_of, read_flag};

use columns::costs::PLACES;
use doubt::MOST_DOUBT;
use lists::copy;
use parts::READING;
use refusals::Refusal;
use session::Session;

// M above the rate: a message of k symbols uses the orders up to k + 5.
const M_ABOVE_RATE: usize = 5;

// 1 for a settled place that is taken and not blank, else 0.
fn flag(there: bool, doubtful: &[u8], place: usize, counts: u8) -> u8
    ensures { result ≡ flag_of there doubtful.now place counts }
{
    if !there {
        return 0;
    }
    if session::is_among(place, doubtful) {
        return 0;
    }
    if counts != 1 {
        return 0;
    }
    1
}

fn flags(taken: [bool; PLACES], doubtful: &[u8], counts: [u8; PLACES]) -> [u8; PLACES]
    ensures { result ≡ listed places (read_flag taken doubtful.now counts) }
{
    let mut out = [0u8; PLACES];
    for place in 0..PLACES {
        out[place] = flag(taken[place], doubtful, place, counts[place]);
    }
    out
}

// Only a session record that was built by hand meets a refusal after the first.
pub fn read_interpolant(session: Session, out: &mut [u8]) -> Result<(), Refusal>
    ensures { Reading session out.old (number_of result) out.new }
{
    if out.len() != READING {
        return Err(Refusal::WrongSize);
    }
    let rate = session.rate as usize;
    if !encoding::known_rate(rate) {
        return Err(Refusal::UnknownRate);
    }
    let doubt = session.doubt;
    if MOST_DOUBT < doubt {
        return Err(Refusal::WrongDoubt);
    }
    let taken = session.taken;
    let doubtful = session.doubtful;
    let costs = session.costs;
    let word = columns::word::best_word(&costs);
    let counts = columns::blank::open_places(&costs);
    let settled = flags(taken, &doubtful[..doubt], counts);
    let bytes = interpolation::lowest::reading(word, settled, rate + M_ABOVE_RATE);
    copy(&bytes, out);
    Ok(())
}
