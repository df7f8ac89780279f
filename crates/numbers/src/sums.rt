// The numbers of a statement that are sums of what `candidate` says of a rate: each contract says of what the number is the largest.
ghost use Rattle.std.specs.Prelude.{◌≡◌, ◌≤◌};
ghost use Rattle.near.specs.Here.{blank_limit, reach_of};
ghost use Rattle.numbers.specs.Most.{Most, Sure, Alone, BurstWithin};

use candidate::rate::Rate;

// So many doubtful places beside T wrong ones are always repaired, and no other codeword is near.
pub fn sure_doubt(rate: Rate, blanks: usize) -> usize
    requires { blanks ≤ blank_limit rate.k }
    ensures { Most (Sure rate.k blanks) result }
{
    rate.least_distance() - 1 - 2 * rate.reach(blanks) - blanks
}

// With so many wrong settled and doubtful places together no other message than the sent one is handed up.
pub fn never_another(rate: Rate, blanks: usize) -> usize
    requires { blanks ≤ blank_limit rate.k }
    ensures { Most (Alone rate.k blanks) result }
{
    rate.least_distance() - 1 - rate.reach(blanks) - blanks
}

// So many bits in a row lie within this many symbols, wherever they begin.
pub fn bits_within(symbols: usize) -> usize
    requires { symbols ≤ 512 }
    ensures { Most (BurstWithin symbols) result }
{
    if symbols == 0 {
        return 0;
    }
    4 * symbols - 3
}

// T where no place is blank.
pub fn whole_reach(rate: Rate) -> usize
    ensures { (result ≡ reach_of rate.k 0) × (result ≤ 28) }
{
    rate.reach(0)
}
