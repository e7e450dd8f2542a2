// A formula that comes and goes.
use crate::nodes::node_at;
use crate::table::Table;
use copy::Source;
use term::TermNode;
use types::TypeNode;

// The nodes are written out, for a constant calls no function.
const IDENTITY: [TermNode; 2] = [
    TermNode { kind: 1, number: 0 },
    TermNode { kind: 0, number: 0 },
];

const VARIABLE: TypeNode = TypeNode {
    kind: 0,
    left: 0,
    right: 0,
};

const ARROW: TypeNode = TypeNode {
    kind: 2,
    left: 0,
    right: 0,
};

// A table whose only row is a candidate.
fn with_identity() -> Table {
    let mut table = Table::new();
    table.put(&IDENTITY, &[VARIABLE, ARROW]);
    table
}

#[test]
fn what_is_freed_serves_again(rt: HostRuntime) {
    let mut table = with_identity();
    assert_eq!(rt; table.used_terms(), 2);
    table.file();
    assert_eq!(rt; table.count(), 1);
    assert_eq!(rt; node_at(table.list(0), 1), ARROW);
    table.withdraw();
    assert_eq!(rt; table.used_types(), 0);
    assert_eq!(rt; table.count(), 0);
}

#[test]
fn a_candidate_is_no_source(rt: HostRuntime) {
    let mut table = with_identity();
    assert_eq!(rt; table.list(0).len(), 2);
    assert_eq!(rt; table.nodes(0), 0);
    table.dismiss();
    assert_eq!(rt; table.list(0).len(), 0);
}
