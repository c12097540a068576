//! Styles: how a run is printed.

use crate::NamedProcess;
use indexmap::IndexMap;

/// How a run is printed.
#[derive(Clone, Copy)]
pub struct Style<'a> {
    /// As lines of JSON; else as the lines of the trace and the report.
    pub json: bool,
    /// The processes whose names are printed in place of their numbers, if they are.
    pub names: Option<&'a IndexMap<String, NamedProcess>>,
}
