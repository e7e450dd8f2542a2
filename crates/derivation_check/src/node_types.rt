// The types that a list of types gives to nodes.
ghost use Rattle.std.specs.Prelude.{◌≡◌, ℕ, ◌<◌, List, length, Decides, MatchResult, slice_index};
ghost use Rattle.types.specs.Types.{Ty, arrow};
ghost use Rattle.types.specs.Lists.{Lawful};
ghost use Rattle.term.specs.declared.TermNode.{TermNode as Symbols};
ghost use Rattle.copy.specs.Instances.{Lists};
ghost use Rattle.instance.specs.Once.{Once};
ghost use Rattle.derivation_check.specs.Checking.{Placed, Refuses};
ghost use Rattle.derivation_check.specs.Faults.{says};

use crate::fault::CheckFault;
use instance::is_once;
use types::{MOST_NODES, Shape, TypeNode, is_lawful};

// A lawful list of types without equal records, with a place in it for each node.
#[derive(Clone, Copy)]
pub struct NodeTypes<'a> {
    pub list: &'a [TypeNode],
    pub places: &'a [u16],
    ghost lawful: { Lawful list.now },
    ghost once: { Once list.now },
    ghost inside: { (i : ℕ) → i < length places.now → slice_index places.now i < length list.now },
}

// Whether there are just `count` places, all of them below `nodes`.
fn are_places(places: &[u16], count: usize, nodes: usize) -> bool
    ensures { Decides result (Placed places.now count nodes) }
{
    places.len() == count && places.iter().all(|place| (*place as usize) < nodes)
}

impl<'a> NodeTypes<'a> {
    ghost use Rattle.derivation_check.specs.Arrows.{type_of, Parts};

    // The types of `count` nodes, or the first question about the list and the places that is answered with no.
    pub fn new(list: &'a [TypeNode], places: &'a [u16], count: usize) -> Result<Self, CheckFault>
        ensures { MatchResult result (λ t. (t.list.now ≡ list.now) × (t.places.now ≡ places.now) × (length places.now ≡ count)) (λ f. (E K : Lists) (ts : List Symbols) → length ts ≡ count → Refuses E K ts list.now places.now (says f)) }
    {
        if list.is_empty() || list.len() > MOST_NODES {
            return Err(CheckFault::Length);
        }
        if !is_lawful(list) {
            return Err(CheckFault::Unlawful);
        }
        if !is_once(list) {
            return Err(CheckFault::Equal);
        }
        if !are_places(places, count, list.len()) {
            return Err(CheckFault::Places);
        }
        Ok(NodeTypes { list, places })
    }

    // The places of the two parts of the type of node `i`, if it is an arrow.
    fn parts(&self, i: usize) -> Option<(u16, u16)>
        requires { i < length self.now.places.now }
        ensures { Parts self.now.list.now (type_of self.now i) result }
    {
        match self.list[self.places[i] as usize].shape() {
            Some(Shape::Arrow(from, to)) => Some((from, to)),
            _ => None,
        }
    }

    // Whether node `i` has an arrow from the type of node `from`.
    pub fn is_from(&self, i: usize, from: usize) -> bool
        requires whole { i < length self.now.places.now }
        requires part { from < length self.now.places.now }
        ensures { Decides result ((τ : Ty) × (type_of self.now i ≡ arrow (type_of self.now from) τ)) }
    {
        match self.parts(i) {
            Some((place, _)) => place == self.places[from],
            None => false,
        }
    }

    // Whether node `i` has an arrow to the type of node `to`.
    pub fn is_to(&self, i: usize, to: usize) -> bool
        requires whole { i < length self.now.places.now }
        requires part { to < length self.now.places.now }
        ensures { Decides result ((α : Ty) × (type_of self.now i ≡ arrow α (type_of self.now to))) }
    {
        match self.parts(i) {
            Some((_, place)) => place == self.places[to],
            None => false,
        }
    }

    // Whether node `i` has the arrow from the type of node `from` to the type of node `to`.
    pub fn is_arrow(&self, i: usize, from: usize, to: usize) -> bool
        requires whole { i < length self.now.places.now }
        requires from { from < length self.now.places.now }
        requires to { to < length self.now.places.now }
        ensures { Decides result (type_of self.now i ≡ arrow (type_of self.now from) (type_of self.now to)) }
    {
        self.parts(i) == Some((self.places[from], self.places[to]))
    }
}
