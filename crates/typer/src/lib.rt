// The most general type of a term, and its derivation, over memories that are passed in.
#![tactic(auto)]

ghost use Rattle.std.specs.Prelude.{◌≡◌, ℕ, ◌<◌, ◌≤◌, length, IfOk, IfNone, MatchResult};
ghost use Rattle.infer.specs.Heads.{need};
ghost use Rattle.typer.specs.Faults.{says, derive_says};
ghost use Rattle.typer.specs.Answers.{Zeros, Typed, Refuses, OneTypeList, OneTypingList};
ghost use Rattle.typer.specs.Derivations.{Holds, Derived, DerivedNodes, Underived};
ghost use Rattle.typer.specs.Nodes.{Listing};
ghost use Rattle.typer.specs.Questions.{Serves};

use crate::fault::{DeriveFault, TypesFault};
use crate::nodes::{clear, list_nodes};
use crate::question::{ask, ask_derivation};
use copy::Source;
use infer::Term;
use types::TypeNode;

pub mod fault;
mod nodes;
pub mod question;

// The lists that are answered do not hang on what the memories held, or how long they are.
pub fn one_answer_stands()
    ensures types { OneTypeList }
    ensures typings { OneTypingList }
{}

// The work on a term that needs `records` records, in memories that serve: the types of its first nodes are listed in the
// type memory, with zero nodes behind the list, and where they stand in the places. The numbers are zeros then, and where
// the term has no type, the rest too.
fn work<E: Source, K: Source>(
    term: &Term<E, K>,
    records: usize,
    types: &mut [TypeNode],
    places: &mut [u16],
    numbers: &mut [u32],
) -> Option<usize>
    requires is { records ≡ need (E.Source.list term.now.entries.now) (K.Source.list term.now.kept.now) term.now.nodes.now }
    requires serves { Serves records (length term.now.nodes.now) (length types.old) (length numbers.old) }
    requires nodes { 0 < length term.now.nodes.now → length places.old ≤ length term.now.nodes.now }
    ensures listing { Listing (E.Source.list term.now.entries.now) (K.Source.list term.now.kept.now) term.now.nodes.now places.new types.new result }
    ensures places { IfNone result (Zeros places.new) }
    ensures zeros { Zeros numbers.new }
{
    let found = list_nodes(term, &mut types[..records], places, numbers);
    clear(&mut types[records..]);
    numbers.fill(0);
    if found.is_none() {
        places.fill(0);
    }
    found
}

// The most general type of a term over the lists of a catalogue and of kept formulas: its normal list is written to the
// type memory, with zero nodes behind it, and the number of its records answered. The numbers are zeros then. A refusal
// before the work leaves both memories as they are; that there is no type leaves zeros in both.
pub fn type_term<E: Source, K: Source>(
    term: &Term<E, K>,
    types: &mut [TypeNode],
    numbers: &mut [u32],
) -> Result<usize, TypesFault>
    ensures answer { MatchResult result (λ n. Typed (E.Source.list term.now.entries.now) (K.Source.list term.now.kept.now) term.now.nodes.now types.new numbers.new n) (λ f. Refuses (E.Source.list term.now.entries.now) (K.Source.list term.now.kept.now) term.now.nodes.now types.old types.new numbers.old numbers.new (says f)) }
    ensures served { IfOk result (λ _. Serves (need (E.Source.list term.now.entries.now) (K.Source.list term.now.kept.now) term.now.nodes.now) (length term.now.nodes.now) (length types.old) (length numbers.old)) }
{
    let records = ask(term, types.len(), numbers.len())?;
    let mut root = [0u16];
    work(term, records, types, &mut root, numbers).ok_or(TypesFault::NoType)
}

// The derivation of a term's most general type: the normal list of the types of its nodes, in their order, is written to
// the type memory, with zero nodes behind it, and for each node where its type stands to the place memory, with zeros
// behind; the number of the list's records is answered. The numbers are zeros then. A refusal before the work leaves the
// memories as they are; that there is no type leaves zeros in all three.
pub fn derive<E: Source, K: Source>(
    term: &Term<E, K>,
    types: &mut [TypeNode],
    places: &mut [u16],
    numbers: &mut [u32],
) -> Result<usize, DeriveFault>
    ensures answer { MatchResult result (λ n. Derived (E.Source.list term.now.entries.now) (K.Source.list term.now.kept.now) term.now.nodes.now types.new places.new numbers.new n) (λ f. Underived (E.Source.list term.now.entries.now) (K.Source.list term.now.kept.now) term.now.nodes.now types.old types.new places.old places.new numbers.old numbers.new (derive_says f)) }
    ensures held { IfOk result (λ _. Holds (need (E.Source.list term.now.entries.now) (K.Source.list term.now.kept.now) term.now.nodes.now) (length term.now.nodes.now) (length types.old) (length places.old) (length numbers.old)) }
    ensures nodes { IfOk result (λ n. DerivedNodes (E.Source.list term.now.entries.now) (K.Source.list term.now.kept.now) term.now.nodes.now types.new places.new numbers.new n) }
{
    let records = ask_derivation(term, types.len(), places.len(), numbers.len())?;
    let (own, rest) = places.split_at_mut(term.nodes.len());
    rest.fill(0);
    work(term, records, types, own, numbers).ok_or(DeriveFault::NoType)
}

#[cfg(test)]
mod tests;
