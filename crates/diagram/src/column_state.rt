//! How far the columns of a run have come.

ghost use Rattle.std.specs.Prelude.{◌≤◌};

use crate::columns::Column;
use indexmap::IndexSet;

/// How far the columns of a run have come.
#[derive(Drop)]
pub struct ColumnState {
    /// How many entries came.
    pub place: usize,
    /// How many outputs these showed.
    pub outputs: usize,
    /// The keys of the messages on the wire.
    pub messages: IndexSet<usize>,
    pub columns: Vec<Column>,
    ghost few: { outputs ≤ place },
}
