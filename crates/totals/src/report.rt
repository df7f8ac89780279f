// The report's fourteen bytes.
ghost use Rattle.std.specs.Prelude.{◌≡◌};
ghost use Rattle.soft.specs.Total.{margin_bytes, report_of};
ghost use Rattle.answer.specs.Margin.{margin_is};

pub const REPORT_BYTES: usize = 14;

// A byte of 1 and the margin, or zeros where there is none: zero is a margin too.
fn margin_bytes(margin: Option<u32>) -> [u8; 5]
    ensures { result ≡ margin_bytes (margin_is margin) }
{
    let Some(difference) = margin else {
        return [0, 0, 0, 0, 0];
    };
    let [a, b, c, d] = difference.to_be_bytes();
    [1, a, b, c, d]
}

pub fn report(
    total: u32,
    tests: u16,
    pinned: u8,
    changed: u8,
    margin: Option<u32>,
    mark: u8,
) -> [u8; REPORT_BYTES]
    ensures { result ≡ report_of 1 total tests pinned changed (margin_is margin) mark }
{
    let [a, b, c, d] = total.to_be_bytes();
    let [e, f] = tests.to_be_bytes();
    let [given, g, h, i, j] = margin_bytes(margin);
    [a, b, c, d, e, f, pinned, changed, given, g, h, i, j, mark]
}
