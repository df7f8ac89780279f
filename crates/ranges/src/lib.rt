// What the types say of the elements of a slice, as a fact that a proof can use: a byte is below 256, and a cost of 16 bits below 65536.
// Nothing is computed here, and a call of these functions costs nothing.
#![tactic(auto)]

ghost use Rattle.std.specs.Prelude.{true, ◌≡◌};
ghost use Rattle.lists.specs.Distinct.{below};

// The range of a slice's elements is known where its function calls another one.
fn known() {}

pub fn bytes(list: &[u8])
    ensures { below 256 list.now ≡ true }
{
    known()
}

pub fn costs(list: &[u16])
    ensures { below 65536 list.now ≡ true }
{
    known()
}
