// The table of a history.
ghost use Rattle.std.specs.Prelude.{◌≡◌};

use crate::rule::{Kept, View};
use crate::told::Told;
use atomic_table::Table;
use audited_volume::Entry;
use std::alloc::Global;

/// A word that never changes: each step on it orders what the passes know.
#[derive(Drop)]
pub struct History {
    pub(crate) table: Table<Told, View, Vec<Entry>, Kept, Global>,
    ghost words: { table.shared.table_id.words ≡ 1 },
}
