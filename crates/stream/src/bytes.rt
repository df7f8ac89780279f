// Bytes from standard input and to standard output, and buffers to lend. Numbers are two bytes, high first.
// The kit's `io` reads and writes: its calls cannot fail, and no more can `replies::answer`, which hands back a session whatever becomes of a write.
ghost use Rattle.std.specs.Prelude.{◌≡◌, ◌+◌, ◌*◌, length};
ghost use Rattle.io.specs.Counts.{IsPrefixLen};

// The descriptor of standard input.
const STDIN_FILENO: i32 = 0;

// The descriptor of standard output.
const STDOUT_FILENO: i32 = 1;

// No call has more bytes of arguments, and no lent buffer is longer.
pub const MOST_BYTES: usize = 4096;

// How many bytes were read: fewer than there is room for where the input ends.
pub fn read(out: &mut [u8]) -> usize
    ensures { IsPrefixLen result out.new }
{
    io::read_full(STDIN_FILENO, out)
}

pub fn number(high: u8, low: u8) -> usize
    ensures { result ≡ 256 * high + low }
{
    usize::from(u16::from_be_bytes([high, low]))
}

// What lent buffers hold before a call.
pub const LENT: u8 = 0xEE;

// Space for a lent buffer. The `ensures` gives its length, which lending a part of it needs.
pub fn lent() -> [u8; 4096]
    ensures { 4096 ≡ length result }
{
    [LENT; 4096]
}

// Nothing is known of what a write does to standard output, so the writers ensure nothing.
pub fn write(bytes: &[u8]) {
    io::write_all(STDOUT_FILENO, bytes);
}

pub fn write_byte(byte: u8) {
    write(&[byte]);
}
