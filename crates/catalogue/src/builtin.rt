// The built-in catalogue: eight primitives of pay formulas, each with a normal list.
ghost use Rattle.std.specs.Prelude.{◌≡◌, ℕ, ◌≤◌, length, slice_index_or};
ghost use Rattle.catalogue.specs.Entries.{no_entry, list_of};
ghost use Rattle.catalogue.specs.Table.{builtin as the_table};
ghost use Rattle.catalogue.specs.Lawfulness.{table_few, table_lawful};

use crate::interface::Catalogue;
use crate::names::same_name;
use types::{ARROW, BASE, TypeNode, VARIABLE};

#[derive(Clone, Copy)]
struct Row {
    name: &'static [u8],
    list: &'static [TypeNode],
}

// A constant calls no function, so the nodes are written out.
const HOURS: TypeNode = TypeNode {
    kind: BASE,
    left: 0,
    right: 0,
};

const RATE: TypeNode = TypeNode {
    kind: BASE,
    left: 1,
    right: 0,
};

const GROSS: TypeNode = TypeNode {
    kind: BASE,
    left: 2,
    right: 0,
};

const NET: TypeNode = TypeNode {
    kind: BASE,
    left: 3,
    right: 0,
};

const PAID: TypeNode = TypeNode {
    kind: BASE,
    left: 4,
    right: 0,
};

const FLAG: TypeNode = TypeNode {
    kind: BASE,
    left: 5,
    right: 0,
};

const ROWS: [Row; 8] = [
    Row {
        name: b"gross_of",
        list: &[
            HOURS,
            RATE,
            GROSS,
            TypeNode {
                kind: ARROW,
                left: 1,
                right: 2,
            },
            TypeNode {
                kind: ARROW,
                left: 0,
                right: 3,
            },
        ],
    },
    Row {
        name: b"add",
        list: &[
            GROSS,
            TypeNode {
                kind: ARROW,
                left: 0,
                right: 0,
            },
            TypeNode {
                kind: ARROW,
                left: 0,
                right: 1,
            },
        ],
    },
    Row {
        name: b"net_of",
        list: &[
            GROSS,
            NET,
            TypeNode {
                kind: ARROW,
                left: 0,
                right: 1,
            },
        ],
    },
    Row {
        name: b"paid_of",
        list: &[
            NET,
            PAID,
            TypeNode {
                kind: ARROW,
                left: 0,
                right: 1,
            },
        ],
    },
    Row {
        name: b"over",
        list: &[
            HOURS,
            FLAG,
            TypeNode {
                kind: ARROW,
                left: 0,
                right: 1,
            },
            TypeNode {
                kind: ARROW,
                left: 0,
                right: 2,
            },
        ],
    },
    Row {
        name: b"choose",
        list: &[
            FLAG,
            TypeNode {
                kind: VARIABLE,
                left: 0,
                right: 0,
            },
            TypeNode {
                kind: ARROW,
                left: 1,
                right: 1,
            },
            TypeNode {
                kind: ARROW,
                left: 1,
                right: 2,
            },
            TypeNode {
                kind: ARROW,
                left: 0,
                right: 3,
            },
        ],
    },
    Row {
        name: b"std_hours",
        list: &[HOURS],
    },
    Row {
        name: b"base_rate",
        list: &[RATE],
    },
];

#[derive(Clone, Copy)]
pub struct Builtin;

impl Catalogue for Builtin {
    ghost entries = { λ _. the_table };

    ghost few = { λ _. table_few };

    ghost lawful = { λ _. table_lawful };

    fn count(&self) -> u16 {
        ROWS.len() as u16
    }

    fn find(&self, name: &[u8]) -> Option<u16> {
        (0..self.count()).find(|k| same_name(self.name(*k), name))
    }

    fn nodes(&self, k: u16) -> u16 {
        self.list(k).len() as u16
    }

    fn node(&self, k: u16, i: u16) -> TypeNode {
        self.list(k).get(i as usize).copied().unwrap_or_default()
    }
}

impl Builtin {
    // The name of entry k, empty where there is no entry k.
    pub fn name(&self, k: u16) -> &'static [u8]
        ensures { result.now ≡ (slice_index_or the_table k no_entry).name }
    {
        ROWS.get(k as usize).map_or(&[], |row| row.name)
    }

    // The list of entry k, empty where there is no entry k.
    fn list(&self, k: u16) -> &'static [TypeNode]
        ensures { result.now ≡ list_of the_table k }
    {
        ROWS.get(k as usize).map_or(&[], |row| row.list)
    }
}
