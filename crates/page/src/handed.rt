// The parts of a page on their way: to standard output, or to a handle, which prints lines and answers for each call.
use output::Bytewise;
use std::fmt::{self, Display, Write};
use std::io;

// Where a page goes, part by part, each with the end of its last line.
pub trait Parts {
    fn write_fmt<D: Display + Drop>(&mut self, part: D) -> fmt::Result;
}

impl Parts for Bytewise {
    fn write_fmt<D: Display + Drop>(&mut self, part: D) -> fmt::Result {
        fmt::Write::write_fmt(self, part)
    }
}

// A handle, and what it answered last.
#[derive(Drop)]
pub struct Handed<'a, R> {
    pub rt: &'a R,
    pub answer: io::Result<()>,
}

impl<R: Print> Parts for Handed<'_, R> {
    fn write_fmt<D: Display + Drop>(&mut self, part: D) -> fmt::Result {
        self.answer = self.rt.println(Unended(part));
        match &self.answer {
            Ok(()) => Ok(()),
            Err(_) => Err(fmt::Error),
        }
    }
}

// A part without the end of its last line, which `println` adds.
#[derive(Drop)]
struct Unended<D>(D);

impl<D: Display> Display for Unended<D> {
    fn fmt<W: fmt::Write>(&self, f: &mut fmt::Formatter<W>) -> fmt::Result {
        let mut held = Held {
            to: f,
            ended: false,
        };
        write!(held, "{}", self.0)
    }
}

// Text on its way, but for a line's end, which waits for what is behind it.
#[derive(Drop)]
struct Held<'a, W> {
    to: &'a mut W,
    ended: bool,
}

impl<W: fmt::Write> fmt::Write for Held<'_, W> {
    fn write_str(&mut self, s: &str) -> fmt::Result {
        if self.ended {
            if s.is_empty() {
                return Ok(());
            }
            self.to.write_str("\n")?;
        }
        let rest = s.strip_suffix('\n').unwrap_or(s);
        self.ended = rest.len() < s.len();
        if self.ended && rest.is_empty() {
            return Ok(());
        }
        self.to.write_str(rest)
    }
}

#[cfg(test)]
mod tests {
    use super::*;
    use std::test::Fail;

    #[test]
    fn the_last_line_end_is_left_out(rt: HostRuntime) -> Result<(), Fail> {
        for (first, second, want) in [
            ("", "", ""),
            ("a", "", "a"),
            ("a\n", "", "a"),
            ("", "\n", ""),
            ("\n", "\n", "\n"),
            ("a\n\n", "", "a\n"),
            ("a\n", "\n", "a\n"),
            ("a\n", "b", "a\nb"),
            ("a\n", "b\n", "a\nb"),
        ] {
            let text = Unended(format_args!("{first}{}{second}", "")).to_string(rt.alloc())?;
            assert_eq!(rt; text.as_str(), want, "{first}|{second}");
        }
        Ok(())
    }
}
