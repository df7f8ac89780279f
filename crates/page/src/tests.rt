// A page by a handle: which text it gets, in how many calls, and what is told of a refusal.
use super::*;
use std::alloc::Global;
use std::cell::Cell;
use std::fmt::Display;
use std::io::ErrorKind;

// A number for a text that others hardly have.
fn sum(behind: u64, text: &str) -> u64 {
    let mut out = behind;
    for byte in text.bytes() {
        out = out.wrapping_mul(31).wrapping_add(byte as u64);
    }
    out
}

// A page's parts, and their text.
#[derive(Drop)]
struct Summed {
    alloc: Global,
    parts: usize,
    sum: u64,
}

impl Parts for Summed {
    fn write_fmt<D: Display + Drop>(&mut self, part: D) -> fmt::Result {
        let Ok(text) = part.to_string(self.alloc) else {
            return Err(fmt::Error);
        };
        self.parts = self.parts.saturating_add(1);
        self.sum = sum(self.sum, text.as_str());
        Ok(())
    }
}

// A handle that takes so many texts, each with a line's end behind it and of at most 1,024 bytes.
#[derive(Drop)]
struct Lines {
    alloc: Global,
    left: Cell<usize>,
    sum: Cell<u64>,
}

impl Print for Lines {
    fn print<D: Display + Drop>(&self, _value: D) -> io::Result<()> {
        Err(io::Error::from(ErrorKind::Unsupported))
    }

    fn println<D: Display + Drop>(&self, value: D) -> io::Result<()> {
        let text = value.to_string(self.alloc)?;
        let left = self.left.get();
        if left == 0 || 1024 < text.len() {
            return Err(io::Error::from(ErrorKind::StorageFull));
        }
        self.left.set(left - 1);
        self.sum.set(sum(sum(self.sum.get(), text.as_str()), "\n"));
        Ok(())
    }

    fn write_all(&self, _bytes: &[u8]) -> io::Result<()> {
        Err(io::Error::from(ErrorKind::Unsupported))
    }
}

#[test]
fn a_page_reaches_its_handle(rt: HostRuntime) {
    for k in [6, 39, 49, 51, 52] {
        let Some(rate) = Rate::new(k) else { continue };
        let mut page = Summed {
            alloc: rt.alloc(),
            parts: 0,
            sum: 0,
        };
        assert!(rt; print_all(&mut page, rate).is_ok(), "rate {k}");
        let enough = Lines {
            alloc: rt.alloc(),
            left: Cell::new(page.parts),
            sum: Cell::new(0),
        };
        assert!(rt; print_page(&enough, rate).is_ok(), "rate {k}");
        assert_eq!(rt; enough.sum.get(), page.sum, "rate {k}");
        let full = Lines {
            alloc: rt.alloc(),
            left: Cell::new(page.parts.saturating_sub(1)),
            sum: Cell::new(0),
        };
        assert!(rt; print_page(&full, rate).is_err(), "rate {k}");
    }
}
