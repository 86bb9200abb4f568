// `Seen`: a struct, the tables that a search has been through, so that none is searched twice.

ghost use Rattle.std.specs.Prelude.{◌≡◌, ◌⊎◌, [], IsTrue};
ghost use Rattle.std.specs.List.{Contains};
ghost use Rattle.access_judge.specs.declared.question.Table.{Table};

use crate::question::Table;
use arrayvec::ArrayVec;
use std::marker::Model;

/// So many tables are kept in mind. What a search comes to later is searched as often as it comes there.
const MOST_SEEN: usize = 16;

/// Tables that were searched.
#[derive(Drop)]
pub(crate) struct Seen {
    tables: ArrayVec<Table, MOST_SEEN>,
}

impl Model for Seen {
    ghost use Rattle.std.specs.Prelude.{List};
    ghost use Rattle.access_judge.specs.declared.question.Table.{Table};

    ghost Value = { List Table };

    ghost view = { λ seen. seen.tables.items };
}

impl Seen {
    /// Returns no tables.
    pub fn new() -> Seen
        ensures { result ≡ [] }
    {
        Seen {
            tables: ArrayVec::new(),
        }
    }

    /// Whether a table is among them.
    pub fn has(&self, table: &Table) -> bool
        ensures { IsTrue result → Contains self.now table.now }
    {
        self.tables.as_slice().contains(table)
    }

    /// Adds a table, if there is a place left.
    pub fn add(&mut self, table: &Table)
        ensures { (t : Table) → Contains self.new t → Contains self.old t ⊎ (t ≡ table.now) }
    {
        let _ = self.tables.try_push(*table);
    }
}
