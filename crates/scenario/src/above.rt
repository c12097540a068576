//! The lines above a line, and the processes that they declare.

use std::fmt;

/// The first lines of a text.
#[derive(Clone, Copy)]
pub struct Above<'a> {
    pub(crate) text: &'a str,
    pub(crate) lines: usize,
}

/// The name that a line declares.
pub(crate) fn declared(line: &str) -> Option<&str> {
    let operands = line.strip_prefix("process ")?;
    let (name, _path) = operands.split_once(' ')?;
    Some(name)
}

impl Above<'_> {
    /// Whether one of the lines declares this process.
    pub(crate) fn has_process(self, name: &str) -> bool {
        self.text
            .split('\n')
            .take(self.lines)
            .any(|line| declared(line) == Some(name))
    }

    /// How many processes the lines declare.
    pub(crate) fn processes(self) -> usize {
        self.text
            .split('\n')
            .take(self.lines)
            .filter(|line| declared(line).is_some())
            .count()
    }

    /// Whether one of the lines is an order.
    pub(crate) fn has_order(self) -> bool {
        self.text.split('\n').take(self.lines).any(|line| !line.is_empty()
            && !line.starts_with('#')
            && declared(line).is_none())
    }
}

/// Writes a name, and a comma before it if it isn't the first.
fn push_name<W: fmt::Write>(f: &mut fmt::Formatter<W>, is_first: bool, name: &str) -> fmt::Result {
    f.write_str(if is_first { "" } else { ", " })?;
    f.write_str(name)
}

/// Prints the names that the lines declare, with commas between them.
impl fmt::Display for Above<'_> {
    fn fmt<W: fmt::Write>(&self, f: &mut fmt::Formatter<W>) -> fmt::Result {
        if self.processes() == 0 {
            return f.write_str("none is declared above");
        }
        f.write_str("declared are ")?;
        let mut is_first = true;
        for line in self.text.split('\n').take(self.lines) {
            if let Some(name) = declared(line) {
                push_name(f, is_first, name)?;
                is_first = false;
            }
        }
        Ok(())
    }
}
