// What a table answers.
ghost use Rattle.std.specs.Prelude.{◌≡◌, ◌<◌, ◌≤◌, length, Decides};
ghost use Rattle.table.specs.View.{view, is_held, kept, kept_row, AllProper};

use crate::table::Table;
use term::TermNode;
use types::TypeNode;

impl Table {
    // How many formulas are filed. In no table is a row that may not be kept: a list that is not lawful, a term that is
    // incomplete or open, a reference to its own number or above.
    pub fn count(&self) -> u16
        ensures rows { result ≡ length (view self.now).rows }
        ensures few { result ≤ 128 }
        ensures proper { AllProper (view self.now) }
    {
        self.count
    }

    // Whether there is a candidate.
    pub fn is_open(&self) -> bool
        ensures { result ≡ is_held (view self.now).candidate }
    {
        self.open
    }

    // Whether there is a row `k`: filed, or the candidate.
    pub fn has_row(&self, k: u16) -> bool
        ensures { Decides result (k < length (kept (view self.now))) }
    {
        self.place(k).is_some()
    }

    // The term of row `k`, without nodes where there is no row. A row has two columns, of two types of nodes: so there are
    // two calls.
    pub fn term(&self, k: u16) -> &[TermNode]
        ensures { result.now ≡ (kept_row (view self.now) k).term }
    {
        let entry = self.place(k).unwrap_or_default();
        entry.term.cut(&self.terms)
    }

    // The type list of row `k`, without nodes where there is no row.
    pub fn list(&self, k: u16) -> &[TypeNode]
        ensures { result.now ≡ (kept_row (view self.now) k).list }
    {
        let entry = self.place(k).unwrap_or_default();
        entry.list.cut(&self.types)
    }
}
