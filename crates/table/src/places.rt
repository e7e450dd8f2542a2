// Where the rows of a table stand, and how far they reach.
ghost use Rattle.std.specs.Prelude.{◌≡◌, ◌<◌, ◌≤◌, length, Decides, is_some, unwrap_or};
ghost use Rattle.table.specs.Entries.{in_use, no_entry};
ghost use Rattle.table.specs.Places.{entries_in_use, Ends, Places};
ghost use Rattle.table.specs.View.{view, kept, term_nodes, list_nodes};

use crate::entry::Entry;
use crate::table::Table;

impl Table {
    // How many rows there are with the candidate.
    pub(crate) fn in_use(&self) -> u16
        ensures { result ≡ in_use self.now.count self.now.«open» }
    {
        if self.open {
            self.count + 1
        } else {
            self.count
        }
    }

    // The entries of all rows: the candidate's is the last.
    fn rows(&self) -> &[Entry]
        ensures { result.now ≡ entries_in_use self.now }
    {
        &self.entries[..self.in_use() as usize]
    }

    // Where the last row stands, if there is one.
    fn last(&self) -> Option<Entry>
        ensures { Ends self.now (unwrap_or result no_entry) }
    {
        self.rows().last().copied()
    }

    // The nodes that the terms of all rows have together. The two columns differ in the field that is read.
    pub fn used_terms(&self) -> u16
        ensures nodes { result ≡ term_nodes (view self.now) }
        ensures within { result ≤ 4096 }
    {
        self.last().unwrap_or_default().term.end() as u16
    }

    // The nodes that the type lists of all rows have together.
    pub fn used_types(&self) -> u16
        ensures nodes { result ≡ list_nodes (view self.now) }
        ensures within { result ≤ 4096 }
    {
        self.last().unwrap_or_default().list.end() as u16
    }

    // Where row `k` stands, if there is one: the candidate's number is the number of rows filed.
    pub(crate) fn place(&self, k: u16) -> Option<Entry>
        ensures there { Decides (is_some result) (k < length (kept (view self.now))) }
        ensures stands { Places self.now k (unwrap_or result no_entry) }
    {
        self.rows().get(k as usize).copied()
    }
}
