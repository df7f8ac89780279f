// What the modem's firmware calls from C, on numbers and byte slices, each returning the refusal or 0. Nothing else stands here.
#![tactic(auto)]

ghost use Rattle.std.specs.Prelude.{◌≡◌};
ghost use Rattle.family.specs.Calls.{outcome};
ghost use Rattle.code.specs.Calls.{encode_call, read_back_call};
ghost use Rattle.book.specs.tables.Table.{closed};
ghost use Rattle.book64.specs.Here.{table_of, bits_of, table_below_of};
ghost use Rattle.superframe.specs.Superframe.{build_of, taken, taken_of};
ghost use Rattle.captures.specs.Calls.{filled, decode_capture_of, sort_capture_of, make_capture_of};

use refusals::number_of;

#[unsafe(no_mangle)]
pub extern "C" fn hermitian_encode(
    rate: usize,
    message: &[u8],
    frame: &mut [u8],
    start: usize,
) -> u8
    ensures { outcome result frame.new ≡ encode_call rate message.now frame.old start }
{
    number_of(encoding::encode(rate, message, frame, start))
}

#[unsafe(no_mangle)]
pub extern "C" fn hermitian_read_back(rate: usize, word: &[u8], message: &mut [u8]) -> u8
    ensures { outcome result message.new ≡ read_back_call rate word.now message.old }
{
    number_of(reading_back::read_back(rate, word, message))
}

#[unsafe(no_mangle)]
pub extern "C" fn hermitian_decode_table(
    rate: usize,
    table: &[u8],
    doubt: usize,
    message: &mut [u8],
    report: &mut [u8],
) -> u8
    ensures { closed result message.new report.new ≡ table_of rate table.now doubt message.old report.old }
{
    number_of(table_decoding::decode_table(rate, table, doubt, message, report))
}

// A signed byte of the frame is its byte in two's complement.
#[unsafe(no_mangle)]
pub extern "C" fn hermitian_decode_bits(
    rate: usize,
    frame: &[u8],
    doubt: usize,
    message: &mut [u8],
    report: &mut [u8],
) -> u8
    ensures { closed result message.new report.new ≡ bits_of rate frame.now doubt message.old report.old }
{
    number_of(bit_decoding::decode_bits(rate, frame, doubt, message, report))
}

#[unsafe(no_mangle)]
pub extern "C" fn hermitian_decode_table_below(
    rate: usize,
    table: &[u8],
    threshold: u16,
    most: usize,
    message: &mut [u8],
    report: &mut [u8],
) -> u8
    ensures { closed result message.new report.new ≡ table_below_of rate table.now threshold most message.old report.old }
{
    number_of(threshold_decoding::decode_table_below(rate, table, threshold, most, message, report))
}

#[unsafe(no_mangle)]
pub extern "C" fn hermitian_build_superframe(rate: usize, messages: &[u8], frame: &mut [u8]) -> u8
    ensures { outcome result frame.new ≡ build_of rate messages.now frame.old }
{
    number_of(superframe::building::build(rate, messages, frame))
}

// The status is written in any case, 0 where the call is refused.
#[unsafe(no_mangle)]
pub extern "C" fn hermitian_take_superframe_apart(
    frame: &[u8],
    messages: &mut [u8],
    status: &mut u8,
) -> u8
    ensures { taken result status.new messages.new ≡ taken_of frame.now messages.old }
{
    let taken = taking_apart::take_apart(frame, messages);
    *status = taken.status;
    number_of(taken.answer)
}

#[unsafe(no_mangle)]
pub extern "C" fn hermitian_decode_capture(
    capture: &[u8],
    message: &mut [u8],
    report: &mut [u8],
) -> u8
    ensures { closed result message.new report.new ≡ decode_capture_of capture.now message.old report.old }
{
    number_of(captures::decode_capture(capture, message, report))
}

#[unsafe(no_mangle)]
pub extern "C" fn hermitian_sort_capture(capture: &[u8], sorted: &mut [u8]) -> u8
    ensures { filled result sorted.new ≡ sort_capture_of capture.now sorted.old }
{
    number_of(captures::sort_capture(capture, sorted))
}

#[unsafe(no_mangle)]
pub extern "C" fn hermitian_make_capture(
    rate: usize,
    doubtful: &[u8],
    table: &[u8],
    capture: &mut [u8],
) -> u8
    ensures { filled result capture.new ≡ make_capture_of rate doubtful.now table.now capture.old }
{
    number_of(captures::make_capture(rate, doubtful, table, capture))
}
