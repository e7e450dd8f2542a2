// Small terms, typed and derived: what the memories hold then, and which terms have no type.
use super::*;
use copy::nothing::Nothing;
use term::Symbol::{self, Abstraction, Application, Variable};
use term::TermNode;

// What the memories held before.
const HELD: TypeNode = TypeNode {
    kind: 7,
    left: 7,
    right: 7,
};

fn nodes<const N: usize>(symbols: [Symbol; N]) -> [TermNode; N] {
    let mut nodes = [TermNode::default(); N];
    for (node, symbol) in nodes.iter_mut().zip(symbols.iter()) {
        *node = TermNode::from(*symbol);
    }
    nodes
}

// A term that asks for no lists.
fn alone(nodes: &[TermNode]) -> Term<'_, Nothing, Nothing> {
    Term {
        entries: &Nothing,
        kept: &Nothing,
        nodes,
    }
}

// The reply in memories that held something.
fn reply<const N: usize>(symbols: [Symbol; N]) -> Result<usize, TypesFault> {
    let mut types = [HELD; 10];
    let mut numbers = [7u32; 144];
    let nodes = nodes(symbols);
    type_term(&alone(&nodes), &mut types, &mut numbers)
}

#[test]
fn identity_in_32_numbers(rt: HostRuntime) {
    let mut types = [HELD; 3];
    let mut short = [7u32; 31];
    let mut numbers = [7u32; 32];
    let terms = nodes([Abstraction, Variable(0)]);
    assert_eq!(rt;
        type_term(&alone(&terms), &mut types, &mut short),
        Err(TypesFault::NoNumberRoom)
    );
    assert_eq!(rt; short[30], 7);
    assert_eq!(rt; type_term(&alone(&terms), &mut types, &mut numbers), Ok(2));
    assert_eq!(rt;
        types,
        [
            TypeNode::default(),
            TypeNode::arrow(0, 0),
            TypeNode::default()
        ]
    );
    assert_eq!(rt; numbers[31], 0);
}

#[test]
fn self_application_has_no_type(rt: HostRuntime) {
    assert_eq!(rt;
        reply([Abstraction, Application, Variable(0), Variable(0)]),
        Err(TypesFault::NoType)
    );
    assert_eq!(rt;
        reply([
            Application,
            Abstraction,
            Application,
            Variable(0),
            Variable(0),
            Abstraction,
            Variable(0),
        ],),
        Err(TypesFault::NoType)
    );
}

#[test]
fn loop_that_the_root_does_not_reach(rt: HostRuntime) {
    assert_eq!(rt;
        reply([
            Application,
            Abstraction,
            Abstraction,
            Variable(0),
            Abstraction,
            Application,
            Variable(0),
            Variable(0),
        ],),
        Err(TypesFault::NoType)
    );
}

#[test]
fn composition_is_derived(rt: HostRuntime) {
    let mut types = [HELD; 10];
    let mut places = [7u16; 9];
    let mut numbers = [7u32; 144];
    let symbols = [
        Abstraction,
        Abstraction,
        Abstraction,
        Application,
        Variable(2),
        Application,
        Variable(1),
        Variable(0),
    ];
    let terms = nodes(symbols);
    assert_eq!(rt; reply(symbols), Ok(8));
    assert_eq!(rt;
        derive(&alone(&terms), &mut types, &mut places, &mut numbers,),
        Ok(8)
    );
    assert_eq!(rt; places, [7, 6, 5, 1, 2, 0, 4, 3, 0]);
    assert_eq!(rt; types[6], TypeNode::arrow(4, 5));
    assert_eq!(rt; types[7], TypeNode::arrow(2, 6));
}

#[test]
fn places_are_asked_before_numbers(rt: HostRuntime) {
    let mut types = [HELD; 2];
    let mut short = [7u16; 1];
    let mut places = [7u16; 2];
    let mut numbers = [7u32; 31];
    let terms = nodes([Abstraction, Variable(0)]);
    assert_eq!(rt;
        derive(&alone(&terms), &mut types, &mut short, &mut numbers,),
        Err(DeriveFault::NoPlaceRoom)
    );
    assert_eq!(rt;
        derive(&alone(&terms), &mut types, &mut places, &mut numbers,),
        Err(DeriveFault::NoNumberRoom)
    );
}
