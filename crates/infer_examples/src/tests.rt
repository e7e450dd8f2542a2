// Small terms, run: what is recorded, and which nodes are refused.
ghost use Rattle.std.specs.Prelude.{◌≡◌};

use copy::nothing::Nothing;
use infer::Term;
use term::{Symbol, TermNode};
use types::TypeNode;

const LAMBDA: Symbol = Symbol::Abstraction;

const APPLY: Symbol = Symbol::Application;

const INNERMOST: Symbol = Symbol::Variable(0);

// A term that asks for no lists.
fn alone(nodes: &[TermNode]) -> Term<'_, Nothing, Nothing>
    ensures { result.nodes.now ≡ nodes.now }
{
    Term {
        entries: &Nothing,
        kept: &Nothing,
        nodes,
    }
}

#[test]
fn identity_is_an_arrow_of_its_binder(rt: HostRuntime) {
    let mut binders = [0u32; 2];
    let mut places = [0u32; 2];
    let mut seen = [0u32; 2];
    let mut memory = [TypeNode::default(); 2];
    let nodes = [LAMBDA, INNERMOST].map(TermNode::from);
    let used = alone(&nodes).infer(&mut binders, &mut places, &mut seen, &mut memory);
    assert_eq!(rt; used, Some(2));
    assert_eq!(rt; places, [1, 0]);
    assert_eq!(rt; memory[1], TypeNode::arrow(0, 0));
}

#[test]
fn nodes_behind_a_term_are_refused(rt: HostRuntime) {
    let mut binders = [0u32; 3];
    let mut places = [0u32; 3];
    let mut seen = [0u32; 2];
    let mut memory = [TypeNode::default(); 2];
    let nodes = [LAMBDA, INNERMOST, INNERMOST].map(TermNode::from);
    let used = alone(&nodes).infer(&mut binders, &mut places, &mut seen, &mut memory);
    assert_eq!(rt; used, None);
}

#[test]
fn need_is_two_for_each_abstraction_and_application(rt: HostRuntime) {
    let nodes = [APPLY, LAMBDA, INNERMOST, LAMBDA, INNERMOST].map(TermNode::from);
    assert_eq!(rt; alone(&nodes).needed(), 6);
}
