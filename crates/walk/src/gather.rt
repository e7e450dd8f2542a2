// The list that the walk found, gathered in three columns of numbers and then written into the memory of type nodes, where
// the graph stands until then.
ghost use Rattle.std.specs.Prelude.{◌≡◌, ℕ, ◌+◌, ◌<◌, ◌≤◌, List, length, if◌then◌else◌, nat_eq, slice_index, slice_index_or};
ghost use Rattle.types.specs.Types.{Ty};
ghost use Rattle.types.specs.Lists.{node, zero_node};
ghost use Rattle.walk.specs.Work.{State};
ghost use Rattle.walk.specs.Listing.{Columns, Narrow};
ghost use Rattle.walk.specs.Lent.{nodes, held, SameMemories, Running};

use crate::walking::Walk;
use types::{TypeNode, VARIABLE};

// The number in a part's record: a variable has the next number, any other part, of whatever kind, what its key says.
fn number_of(key: TypeNode, variables: &mut u32) -> u32
    requires { variables.old < 65536 }
    ensures value { result ≡ (if nat_eq key.kind 0 then variables.old else key.left) }
    ensures count { variables.new ≡ variables.old + (if nat_eq key.kind 0 then 1 else 0) }
{
    if key.kind == VARIABLE {
        let number = *variables;
        *variables = number + 1;
        number
    } else {
        key.left as u32
    }
}

impl Walk<'_> {
    // Puts the kinds of the first `count` records where the origins of their parts stood, and their fields where the
    // chains stood. It goes by numbers: what is written through zipped iterators is not known afterwards.
    pub fn gather(&mut self, count: u32)
        requires running { Running self.old }
        requires within { count ≤ self.old.count }
        ensures same { SameMemories self.old self.new }
        ensures narrow { Narrow count self.new.origins.now self.new.heads.now self.new.nexts.now }
        ensures columns { (ps : List Ty) → State (nodes self.old) (held self.old) ps → Columns ps count self.new.origins.now self.new.heads.now self.new.nexts.now }
    {
        let mut variables: u32 = 0;
        for p in 0..count as usize {
            let key = self.key_at(self.origins[p] as u16);
            self.heads[p] = number_of(key, &mut variables);
            self.nexts[p] = key.right as u32;
            self.origins[p] = key.kind as u32;
        }
    }
}

// Writes the records from their columns, by numbers for the same reason.
pub fn write_rows(rows: &mut [TypeNode], kinds: &[u32], lefts: &[u32], rights: &[u32])
    requires first { length rows.old ≤ length kinds.now }
    requires second { length rows.old ≤ length lefts.now }
    requires third { length rows.old ≤ length rights.now }
    requires narrow { Narrow (length rows.old) kinds.now lefts.now rights.now }
    ensures { (p : ℕ) → p < length rows.old → slice_index_or rows.new p zero_node ≡ node (slice_index kinds.now p) (slice_index lefts.now p) (slice_index rights.now p) }
{
    for (p, row) in rows.iter_mut().enumerate() {
        *row = TypeNode {
            kind: kinds[p] as u8,
            left: lefts[p] as u16,
            right: rights[p] as u16,
        };
    }
}
