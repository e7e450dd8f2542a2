// The check of a typing derivation: every node of a term against the types that a list of types gives the nodes.
#![tactic(auto)]

ghost use Rattle.std.specs.Prelude.{◌≡◌, length, MatchResult};
ghost use Rattle.derivation_check.specs.Steps.{StepsAreTypings};
ghost use Rattle.derivation_check.specs.Checking.{Judged, Checked, Refuses};
ghost use Rattle.derivation_check.specs.Arrows.{type_of};
ghost use Rattle.derivation_check.specs.Faults.{says};

use crate::ends::Prefix;
use crate::fault::CheckFault;
use crate::node_types::NodeTypes;
use crate::steps::Derivation;
use copy::Source;
use infer::Term;
use types::TypeNode;

mod ends;
pub mod fault;
mod node_types;
mod steps;

// For how many nodes it is noted where their terms end. What stands behind them is walked over anew for each question,
// so that a longer list of nodes is answered too, if not as fast.
const NOTED: usize = 1024;

// The first node without its typing step.
fn judge<'a, E: Source, K: Source>(term: &Term<'a, E, K>, types: NodeTypes<'a>) -> Option<usize>
    requires { length types.places.now ≡ length term.now.nodes.now }
    ensures { Judged (E.Source.list term.now.entries.now) (K.Source.list term.now.kept.now) term.now.nodes.now (type_of types.entry) result }
{
    let mut sizes = [0usize; NOTED];
    let noted = term.nodes.len().min(NOTED);
    let derivation = Derivation {
        entries: term.entries,
        kept: term.kept,
        term: Prefix::new(term.nodes, &mut sizes[..noted]),
        types,
    };
    derivation.first_failing()
}

// Whether a list of types, with a place in it for each term node, is a typing derivation: if each node's step is a typing
// step. It reads only.
pub fn check<E: Source, K: Source>(
    term: &Term<E, K>,
    list: &[TypeNode],
    places: &[u16],
) -> Result<(), CheckFault>
    ensures answer { MatchResult result (λ _. Checked (E.Source.list term.now.entries.now) (K.Source.list term.now.kept.now) term.now.nodes.now list.now places.now) (λ f. Refuses (E.Source.list term.now.entries.now) (K.Source.list term.now.kept.now) term.now.nodes.now list.now places.now (says f)) }
    ensures typings { StepsAreTypings }
{
    let types = NodeTypes::new(list, places, term.nodes.len())?;
    // A match, as a node that is found is the fault here, and none the success.
    match judge(term, types) {
        None => Ok(()),
        Some(at) => Err(CheckFault::Step(at)),
    }
}

#[cfg(test)]
mod tests;
