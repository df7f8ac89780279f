// Standard output as a writer of text: what is written goes there at once, and what cannot be written is passed over, as `stream` does it.
// The runtime's printing answers an error there, which a program would end with, and makes it from the C library's errno.
#![tactic(auto)]

ghost use Rattle.std.specs.Prelude.{IsOk};

use std::fmt;

// The descriptor of standard output.
const STDOUT_FILENO: i32 = 1;

#[derive(Clone, Copy)]
pub struct Output;

impl fmt::Write for Output {
    fn write_str(&mut self, s: &str) -> fmt::Result
        ensures never { IsOk result }
    {
        io::write_all(STDOUT_FILENO, s.as_bytes());
        Ok(())
    }
}

// The same a byte at a time: where standard output takes no more, what it took is a clean beginning of a page.
#[derive(Clone, Copy)]
pub struct Bytewise;

impl fmt::Write for Bytewise {
    fn write_str(&mut self, s: &str) -> fmt::Result
        ensures never { IsOk result }
    {
        for byte in s.as_bytes() {
            io::write_all(STDOUT_FILENO, &[*byte]);
        }
        Ok(())
    }
}
