// Small derivations: which pass, and where others fail.
ghost use Rattle.std.specs.Prelude.{[], ◌∷◌};
ghost use Rattle.types.specs.Lists.{node};
ghost use Rattle.types.proofs.Tested.{passed_lawful};

use super::*;
use copy::nothing::Nothing;
use refusal::{Layer, Refusal};
use term::Symbol::{Abstraction, Application, Primitive, Reference, Variable};
use term::TermNode;

// Every list is that of the base with the code 0.
struct Bases;

impl Source for Bases {
    ghost list = { λ _ _. node 1 0 0 ∷ [] };

    ghost lawful = { λ _ _ _. passed_lawful (node 1 0 0 ∷ []) tt };

    fn nodes(&self, _k: u16) -> u16 {
        1
    }

    fn node(&self, _k: u16, i: u16) -> TypeNode {
        if i == 0 {
            TypeNode::base(0)
        } else {
            TypeNode::variable(0)
        }
    }
}

// The check over the bases for primitives, and nothing for references.
fn judged(terms: &[TermNode], list: &[TypeNode], places: &[u16]) -> Result<(), CheckFault> {
    let term = Term {
        entries: &Bases,
        kept: &Nothing,
        nodes: terms,
    };
    check(&term, list, places)
}

#[test]
fn identity(rt: HostRuntime) {
    let terms = [TermNode::from(Abstraction), TermNode::from(Variable(0))];
    let list = [
        TypeNode::variable(0),
        TypeNode::variable(1),
        TypeNode::arrow(0, 0),
        TypeNode::arrow(0, 1),
    ];
    assert_eq!(rt; judged(&terms, &list, &[2, 0]), Ok(()));
    assert_eq!(rt; judged(&terms, &list, &[2, 1]), Err(CheckFault::Step(0)));
    assert_eq!(rt; judged(&terms, &list, &[3, 1]), Err(CheckFault::Step(1)));
}

#[test]
fn application_of_the_identity(rt: HostRuntime) {
    let terms = [
        TermNode::from(Application),
        TermNode::from(Abstraction),
        TermNode::from(Variable(0)),
        TermNode::from(Primitive(9)),
    ];
    let list = [TypeNode::base(0), TypeNode::arrow(0, 0)];
    assert_eq!(rt; judged(&terms, &list, &[0, 1, 0, 0]), Ok(()));
    assert_eq!(rt;
        judged(&terms, &list, &[1, 1, 0, 0]),
        Err(CheckFault::Step(0))
    );
    assert_eq!(rt;
        judged(&terms[0..3], &list, &[0, 1, 0]),
        Err(CheckFault::Step(0))
    );
}

#[test]
fn nodes_without_a_step(rt: HostRuntime) {
    let list = [TypeNode::base(0), TypeNode::arrow(0, 0)];
    assert_eq!(rt;
        judged(&[TermNode::from(Variable(0))], &list, &[0]),
        Err(CheckFault::Step(0))
    );
    assert_eq!(rt;
        judged(&[TermNode::from(Abstraction)], &list, &[1]),
        Err(CheckFault::Step(0))
    );
    assert_eq!(rt;
        judged(&[TermNode::from(Primitive(0))], &list, &[1]),
        Err(CheckFault::Step(0))
    );
    assert_eq!(rt;
        judged(&[TermNode::from(Reference(0))], &list, &[0]),
        Err(CheckFault::Step(0))
    );
    assert_eq!(rt;
        judged(&[TermNode { kind: 5, number: 0 }], &list, &[0]),
        Err(CheckFault::Step(0))
    );
}

#[test]
fn questions_in_order(rt: HostRuntime) {
    let terms = [TermNode::from(Primitive(0))];
    assert_eq!(rt; judged(&terms, &[], &[]), Err(CheckFault::Length));
    assert_eq!(rt;
        judged(&terms, &[TypeNode::arrow(0, 0), TypeNode::arrow(0, 0)], &[]),
        Err(CheckFault::Unlawful)
    );
    assert_eq!(rt;
        judged(&terms, &[TypeNode::base(0), TypeNode::base(0)], &[]),
        Err(CheckFault::Equal)
    );
    assert_eq!(rt;
        judged(&terms, &[TypeNode::base(0)], &[]),
        Err(CheckFault::Places)
    );
    assert_eq!(rt;
        judged(&terms, &[TypeNode::base(0)], &[1]),
        Err(CheckFault::Places)
    );
    assert_eq!(rt;
        Refusal::from(CheckFault::Step(7)),
        Refusal::new(84, Layer::Book, 7)
    );
}
