// The filed type lists as a source of copies.
ghost use Rattle.std.specs.Prelude.{◌≡◌};
ghost use Rattle.table.specs.Filed.{filed_list, filed_lawful};

use crate::nodes::node_at;
use crate::table::Table;
use copy::Source;
use types::TypeNode;

impl Table {
    // The type list of filed row `k`, without nodes where there is no such row.
    fn filed(&self, k: u16) -> &[TypeNode]
        ensures { result.now ≡ filed_list self.now k }
    {
        if k < self.count { self.list(k) } else { &[] }
    }
}

// The candidate's list is not among them.
impl Source for Table {
    ghost list = { λ t k. filed_list t k };

    ghost lawful = { λ t k h. filed_lawful t k h };

    fn nodes(&self, k: u16) -> u16 {
        self.filed(k).len() as u16
    }

    fn node(&self, k: u16, i: u16) -> TypeNode {
        node_at(self.filed(k), i)
    }
}
