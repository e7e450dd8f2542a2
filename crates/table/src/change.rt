// What changes a table.
ghost use Rattle.std.specs.Prelude.{◌≡◌, ◌+◌, ◌<◌, ◌≤◌, false, length};
ghost use Rattle.table.specs.Rows.{row, Proper};
ghost use Rattle.table.specs.View.{view, empty, is_held, term_nodes, list_nodes, with_candidate, filed, dismissed, withdrawn};

use crate::entry::Entry;
use crate::nodes::write;
use crate::table::Table;
use term::TermNode;
use types::TypeNode;

impl Table {
    // A table without rows.
    pub fn new() -> Table
        ensures { view result ≡ empty }
    {
        Table {
            entries: [Entry::default(); 128],
            terms: [TermNode::default(); 4096],
            types: [TypeNode::default(); 4096],
            count: 0,
            open: false,
        }
    }

    // Puts a candidate behind the rows.
    pub fn put(&mut self, term: &[TermNode], list: &[TypeNode])
        requires free { is_held (view self.old).candidate ≡ false }
        requires few { length (view self.old).rows < 128 }
        requires terms { term_nodes (view self.old) + length term.now ≤ 4096 }
        requires lists { list_nodes (view self.old) + length list.now ≤ 4096 }
        requires proper { Proper (length (view self.old).rows) (row term.now list.now) }
        ensures { view self.new ≡ with_candidate (view self.old) (row term.now list.now) }
    {
        let mut next = *self;
        let term = write(term, self.used_terms(), &mut next.terms);
        let list = write(list, self.used_types(), &mut next.types);
        next.entries[self.count as usize] = Entry { term, list };
        next.open = true;
        *self = next;
    }

    // Files the candidate, if there is one: it becomes the last row.
    pub fn file(&mut self)
        ensures { view self.new ≡ filed (view self.old) }
    {
        let mut next = *self;
        next.count = self.in_use();
        next.open = false;
        *self = next;
    }

    // Drops the candidate, if there is one.
    pub fn dismiss(&mut self)
        ensures { view self.new ≡ dismissed (view self.old) }
    {
        let mut kept = *self;
        kept.open = false;
        *self = kept;
    }

    // Drops the last row, if there is one.
    pub fn withdraw(&mut self)
        requires { is_held (view self.old).candidate ≡ false }
        ensures { view self.new ≡ withdrawn (view self.old) }
    {
        let mut next = *self;
        next.count = self.count.saturating_sub(1);
        *self = next;
    }
}
