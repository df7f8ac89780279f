// One page for a rate. A theorem is named by crate, file and name, as in docs/CLAIMS.md; tests/statement looks each of them up.
#![tactic(auto)]

mod handed;
#[cfg(test)]
mod tests;

use candidate::rate::Rate;
use handed::{Handed, Parts};
use numbers::chance::chance;
use numbers::sums::{bits_within, never_another, sure_doubt, whole_reach};
use output::Bytewise;
use std::{fmt, io};

// The ending of a plural, unless there is one alone.
fn plural(number: usize) -> &'static str {
    if number == 1 { "" } else { "s" }
}

fn print_head(out: &mut impl Parts, rate: Rate) -> fmt::Result {
    let k = rate.k;
    let bits = 4 * k;
    writeln!(
        out,
        "# Rate {k}\n\n\
        The Hermitian code y^4 + y = x^5 over GF(16): 64 symbols of four bits go on air, {k} of them are\n\
        message: {bits} bits of 256. What follows holds of every message and every frame, in whatever order its\n\
        places arrive. It is proved, and each sentence has its theorem behind it, by crate, file and name; what\n\
        is reckoned and not proved says so.\n\n\
        A place is one of the 64 positions of a codeword. It is blank (an erasure) if all its sixteen costs are\n\
        equal, and counts as neither wrong nor doubtful. It is wrong if the sent symbol is not its best one,\n\
        the cheapest. Up to 12 places are doubtful (Chase's least reliable ones): there the second symbol is\n\
        tried too. The others are settled. With no doubtful place decisions are hard. More: docs/WORDS.md.\n"
    )
}

// Without doubt; at the two largest rates T is 0.
fn print_hard(out: &mut impl Parts, rate: Rate) -> fmt::Result {
    let reach = whole_reach(rate);
    if reach == 0 {
        return writeln!(
            out,
            "- Without doubt a frame comes back whose best symbols are all the sent ones, and no other."
        );
    }
    let s = plural(reach);
    writeln!(
        out,
        "- Any {reach} wrong symbol{s}, with no place doubtful and none blank: the sent message comes back."
    )
}

fn print_doubtful(out: &mut impl Parts, rate: Rate) -> fmt::Result {
    let reach = whole_reach(rate);
    let doubt = sure_doubt(rate, 0);
    let never = never_another(rate, 0);
    writeln!(
        out,
        "  [`book` Repairs `always-repaired`; `book` TableRepairs `table-repaired`; `runs` Repaired `run-repaired`]\n\
        - The same with up to {doubt} doubtful places beside, none blank: the sent symbol is best or second at each of\n\
        \x20 them, and best at all settled ones but {reach} at most. No other codeword is near, so that the report has no\n\
        \x20 margin.\n\
        \x20 [`near` Rivals `no-second`; `book` Repairs `always-sure`; `book` TableRepairs `table-sure`, `below-sure`,\n\
        \x20 `bits-sure`; `runs` Repaired `run-sure`]\n\
        - With more doubtful places as many fewer may be wrong: wrong settled and doubtful ones together up to {never},\n\
        \x20 at most {reach} of them settled, none blank, and again no margin.\n\
        \x20 [`book` Repairs `always-alone`; `book` TableRepairs `table-alone`; `runs` Repaired `run-alone`]\n\
        - Beyond that, with up to 12 doubtful places and at most {reach} wrong settled ones, the frame is never refused:\n\
        \x20 the answer is the sent message or one that costs no more.\n\
        \x20 [`book` Repairs `always-found`; `book` TableRepairs `table-found`; `runs` Repaired `run-found`]"
    )
}

fn print_faded(out: &mut impl Parts, rate: Rate) -> fmt::Result {
    let limit = rate.blank_limit();
    if limit == 0 {
        return writeln!(
            out,
            "- No place may be blank: with one the frame is refused. [`book` Table `table-too-blank`]"
        );
    }
    let s = plural(limit);
    writeln!(
        out,
        "- Any {limit} blank place{s}, whatever was sent there, with the sent symbol best at all others.\n\
        \x20 [`book` Repairs `faded-repaired`, `faded-right`; `book` TableRepairs `table-faded`; `runs` Repaired\n\
        \x20 `run-faded`]"
    )
}

fn print_together(out: &mut impl Parts) -> fmt::Result {
    writeln!(
        out,
        "- Blank, wrong and doubtful places together: so many wrong settled places are repaired, with so many\n\
        \x20 doubtful ones beside them; the last number is explained below.\n\
        \x20 [`near` Reach `reach-is`, `reach-only`; `numbers` Most `sure-most`, `sure-few`, `alone-most`]\n\n\
        | blank | wrong | doubtful | never another |\n\
        |---|---|---|---|"
    )
}

// A line for each number of blank places.
fn print_by_blanks(out: &mut impl Parts, rate: Rate) -> fmt::Result {
    for blanks in 0..=rate.blank_limit() {
        let reach = rate.reach(blanks);
        let doubt = sure_doubt(rate, blanks);
        let never = never_another(rate, blanks);
        writeln!(out, "| {blanks} | {reach} | {doubt} | {never} |")?;
    }
    Ok(())
}

fn print_refused(out: &mut impl Parts, rate: Rate) -> fmt::Result {
    let beyond = whole_reach(rate) + 1;
    let never = never_another(rate, 0);
    let limit = rate.blank_limit();
    let s = plural(limit);
    writeln!(
        out,
        "\n## Always refused, and never another message\n\n\
        - {beyond} to {never} wrong symbols, with no place doubtful and none blank: always refused as 'none near' (9), and\n\
        \x20 the buffers stay as they were.\n\
        \x20 [`book` Repairs `always-refused`; `book` TableRepairs `table-refused`; `runs` Repaired `run-refused`]\n\
        - Up to {never} places that are doubtful, or settled and wrong, and none blank: the answer is the sent message\n\
        \x20 or 'none near', and never a message that nobody sent. It does not matter which symbols are best or\n\
        \x20 second at the doubtful places. With blank places: the last number of the table.\n\
        \x20 [`book` Repairs `never-another`; `book` TableRepairs `table-never`, `below-never`, `bits-never`;\n\
        \x20 `runs` Repaired `run-never`]\n\
        - More than {limit} blank place{s}: always refused, with 12.\n\
        \x20 [`book` Table `table-too-blank`, `table-blank-only`; `runs` Demand3 `whole`]\n\
        - Beyond these numbers nothing is promised of a frame by itself: another message may be handed up.\n"
    )
}

// It is known exactly at two rates.
fn print_distance(out: &mut impl Parts, rate: Rate) -> fmt::Result {
    let distance = rate.least_distance();
    writeln!(
        out,
        "## Least distance\n\n\
        - Two codewords differ in at least {distance} places. [`near` LeastDistance `codewords-far`]"
    )?;
    match rate.k {
        39 | 49 => writeln!(
            out,
            "- Some two codewords differ in exactly {distance} places. [`near` Distances `distance-{}`]",
            rate.k
        ),
        _ => Ok(()),
    }
}

fn print_no_bursts(out: &mut impl Parts) -> fmt::Result {
    writeln!(
        out,
        "- At this rate no wrong symbol is repaired without doubt, so that no burst is either.\n\
        \x20 [`superframe` Burst `burst-sharp`]"
    )
}

fn print_bursts(out: &mut impl Parts, rate: Rate) -> fmt::Result {
    let reach = whole_reach(rate);
    let s = plural(reach);
    let bits = bits_within(reach);
    let symbols = 8 * reach;
    let more = symbols + 1;
    let burst = bits_within(symbols);
    writeln!(
        out,
        "- In a superframe, eight codewords interleaved symbol by symbol: any {symbols} altered symbols in a row, and all\n\
        \x20 eight messages come back. [`superframe` Burst `burst`]\n\
        \x20 Any {more} do not always. [`superframe` Burst `burst-sharp`]\n\
        - In bits, with hard decisions and four bits a symbol, by counting the symbols that they touch: any {reach}\n\
        \x20 wrong bit{s} of a codeword; any burst of {bits} bit{s} in a row, in place order; in a superframe any burst of\n\
        \x20 {burst} bits in a row, its symbols sent one after the other. [`numbers` Most `burst-most`]"
    )
}

fn print_burst(out: &mut impl Parts, rate: Rate) -> fmt::Result {
    writeln!(out, "\n## Bursts, and bits\n")?;
    if whole_reach(rate) == 0 {
        return print_no_bursts(out);
    }
    print_bursts(out, rate)
}

fn print_mark(out: &mut impl Parts, rate: Rate) -> fmt::Result {
    let k = rate.k;
    writeln!(
        out,
        "\n## What a mark means\n\n\
        - Where the last byte of the report is 1, none of all 16^{k} codewords, near or not, costs less than the\n\
        \x20 answer: it is a most likely one by the costs. Another may cost the same. A 0 says nothing.\n\
        \x20 [`near` Cheapest `marked-cheapest`; `book` Marked `closing-marked`, `table-marked`;\n\
        \x20 `runs` Marked `run-marked`]\n\
        - Where the report counts pinned places (saturated costs) this is said of the costs as they are summed.\n\
        \x20 [`soft` TotalLaws `pinned-summed`]"
    )
}

// The share of words that are taken for a codeword.
fn print_share(out: &mut impl Parts, rate: Rate) -> fmt::Result {
    let power = chance(rate);
    let reach = whole_reach(rate);
    if reach == 0 {
        return writeln!(
            out,
            "- Reckoned, not proved: of all 16^64 words fewer than one in 10^{power} is a codeword."
        );
    }
    let s = plural(reach);
    let rest = 64 - rate.k;
    writeln!(
        out,
        "- Reckoned, not proved: of all 16^64 words fewer than one in 10^{power} is within {reach} place{s} of a codeword, the\n\
        \x20 sum of C(64, i) 15^i for i up to {reach}, over 16^{rest}: no word is within {reach} of two codewords."
    )
}

fn print_by_chance(out: &mut impl Parts, rate: Rate) -> fmt::Result {
    writeln!(out, "\n## By chance\n")?;
    print_share(out, rate)?;
    writeln!(
        out,
        "\x20 So seldom noise alone is taken for a codeword, if it makes all words alike likely, with hard decisions\n\
        \x20 and no blank place; with d doubtful places at most 2^d times as often."
    )
}

fn print_assumed(out: &mut impl Parts) -> fmt::Result {
    writeln!(
        out,
        "\n## What is assumed\n\n\
        - The conditions above speak of a frame, not of a channel. How often a channel meets them was measured:\n\
        \x20 docs/PERFORMANCE.md.\n\
        - The toolchain is trusted: what reads the source, checks the proofs and writes machine code. A C caller\n\
        \x20 passes pointers that are not null, true lengths, and buffers that do not overlap. Nothing is proved of\n\
        \x20 time or stack. All of it: docs/CLAIMS.md."
    )
}

fn print_repaired(out: &mut impl Parts, rate: Rate) -> fmt::Result {
    writeln!(out, "## Always repaired\n")?;
    print_hard(out, rate)?;
    print_doubtful(out, rate)?;
    print_faded(out, rate)?;
    print_together(out)?;
    print_by_blanks(out, rate)
}

fn print_all(out: &mut impl Parts, rate: Rate) -> fmt::Result {
    print_head(out, rate)?;
    print_repaired(out, rate)?;
    print_refused(out, rate)?;
    print_distance(out, rate)?;
    print_burst(out, rate)?;
    print_mark(out, rate)?;
    print_by_chance(out, rate)?;
    print_assumed(out)
}

// To standard output, a byte at a time; what cannot be written is passed over.
pub fn write_page(rate: Rate) {
    let _ = print_all(&mut Bytewise, rate);
}

// By a handle, one or more lines at a time, up to the first that it refuses; the answer is why.
pub fn print_page(rt: &impl Print, rate: Rate) -> io::Result<()> {
    let mut out = Handed { rt, answer: Ok(()) };
    let _ = print_all(&mut out, rate);
    out.answer
}
