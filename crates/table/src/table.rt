// The table itself.
ghost use Rattle.std.specs.Prelude.{◌≡◌, ◌≤◌, length};
ghost use Rattle.table.specs.Entries.{in_use, term_span, list_span, end_of, InOrder, RowsPass};

use crate::entry::Entry;
use term::TermNode;
use types::TypeNode;

// The first `count` entries are filed; if it is open, the next one is the candidate. Each entry's nodes begin where those
// of the entry before it end. Arrays and a count, no `ArrayVec`: the table is `Copy`, so that it can be copied out, changed
// and written back whole.
#[derive(Clone, Copy)]
pub struct Table {
    pub(crate) entries: [Entry; 128],
    pub(crate) terms: [TermNode; 4096],
    pub(crate) types: [TypeNode; 4096],
    pub(crate) count: u16,
    // A flag, no `Option<Entry>`: the candidate's entry stands where it is filed, so that filing it moves nothing.
    pub(crate) open: bool,
    ghost entries_long: { length entries ≡ 128 },
    ghost terms_long: { length terms ≡ 4096 },
    ghost types_long: { length types ≡ 4096 },
    ghost few: { in_use count «open» ≤ 128 },
    ghost terms_order: { InOrder term_span entries (in_use count «open») },
    ghost lists_order: { InOrder list_span entries (in_use count «open») },
    ghost terms_within: { end_of term_span entries (in_use count «open») ≤ 4096 },
    ghost lists_within: { end_of list_span entries (in_use count «open») ≤ 4096 },
    ghost rows_pass: { RowsPass entries terms types (in_use count «open») },
}
