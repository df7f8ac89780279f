// The constant points by place: place 4X + r has x = X and the r-th smallest y on the curve.
#![tactic(auto)]

ghost use Rattle.std.specs.Prelude.{◌≡◌, ◌%◌};
ghost use Rattle.lists.specs.Listed.{listed};
ghost use Rattle.curve.specs.Curve.{x_of, y_of};

// The y of each place. `ys` names the table and proves its rule.
const YS: [u8; 64] = [
    // x = 0
    0, 1, 6, 7,
    // x = 1
    2, 3, 4, 5,
    // x = 2
    10, // place 8 is (2,10), bench sheet C3
    11, 12, 13,
    // x = 3
    10, 11, 12, 13,
    // x = 4
    8, 9, 14, 15,
    // x = 5
    8, 9, 14, 15,
    // x = 6
    8, 9, 14, 15,
    // x = 7
    10, 11, 12, 13,
    // x = 8
    2, 3, 4, 5,
    // x = 9
    8, 9, 14, 15,
    // x = 10
    2, 3, 4, 5,
    // x = 11
    10, 11, 12, 13,
    // x = 12
    2, 3, 4, 5,
    // x = 13
    10, 11, 12, 13,
    // x = 14
    8, 9, 14, 15,
    // x = 15
    2, 3, 4, 5, // place 63 is (15,5), bench sheet C4
];

// A place number counts modulo 64.
pub fn x_at(place: usize) -> u8
    ensures { result ≡ x_of (place % 64) }
{
    (place % 64 / 4) as u8
}

// The y of all places.
pub fn ys() -> [u8; 64]
    ensures { result ≡ listed 64 y_of }
{
    YS
}

// A place number counts modulo 64.
pub fn y_at(place: usize) -> u8
    ensures { result ≡ y_of (place % 64) }
{
    let ys = ys();
    ys[place % 64]
}
