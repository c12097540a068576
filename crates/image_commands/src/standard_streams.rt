//! The standard streams.

use std::cell::Cell;
use std::io;
use std::io::Write;

/// The standard output. It notes that nobody reads it any more.
#[derive(Drop)]
pub struct Reports<'a, W: Write + Drop> {
    pub stream: W,
    pub broken: &'a Cell<bool>,
}

impl<W: Write + Drop> Write for Reports<'_, W> {
    fn write(&mut self, buf: &[u8]) -> io::Result<usize> {
        let written = self.stream.write(buf);
        if let Err(e) = &written {
            note(e, self.broken);
        }
        written
    }

    fn flush(&mut self) -> io::Result<()> {
        self.stream.flush()
    }
}

/// The standard error. It is silent once nobody reads what the program writes elsewhere.
#[derive(Drop)]
pub struct Faults<'a, W: Write + Drop> {
    pub stream: W,
    pub broken: &'a Cell<bool>,
}

impl<W: Write + Drop> Write for Faults<'_, W> {
    fn write(&mut self, buf: &[u8]) -> io::Result<usize> {
        if self.broken.get() {
            return Err(io::Error::from(io::ErrorKind::BrokenPipe));
        }
        self.stream.write(buf)
    }

    fn flush(&mut self) -> io::Result<()> {
        self.stream.flush()
    }
}

/// Notes that nobody reads, if that is the error of a write.
pub fn note(e: &io::Error, broken: &Cell<bool>) {
    if e.kind() == io::ErrorKind::BrokenPipe {
        broken.set(true);
    }
}
