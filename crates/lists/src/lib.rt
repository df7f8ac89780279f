// Facts on lists and computed tests that loops and tables of any crate ask for, copying bytes, and an entry that may be missing. It knows of no field,
// no curve and no code.
#![tactic(auto)]

ghost use Rattle.std.specs.Prelude.{◌≡◌, get_or};
ghost use Rattle.lists.specs.Over.{over};
ghost use Rattle.lists.specs.Padded.{padded};

// As many bytes as both have, from the front; the rest stays.
pub fn copy(from: &[u8], into: &mut [u8])
    ensures { into.new ≡ over from.now into.old }
{
    let count = from.len().min(into.len());
    into[..count].copy_from_slice(&from[..count]);
}

// An entry of a list, or what stands for one past its end.
pub fn entry_or<T: Copy>(list: &[T], at: usize, missing: T) -> T
    ensures { result ≡ get_or list.now at missing }
{
    list.get(at).copied().unwrap_or(missing)
}

// A list in an array: its first entries, with zeros behind them where it is shorter.
pub fn padded<const N: usize>(list: &[u8]) -> [u8; N]
    ensures { result ≡ padded N list.now }
{
    let mut out = [0u8; N];
    copy(list, &mut out);
    out
}
