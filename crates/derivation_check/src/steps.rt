// The typing step of a term node, judged by places in a type list without equal records.
ghost use Rattle.std.specs.Prelude.{◌≡◌, ℕ, ◌<◌, ◌≤◌, length, take, Decides};
ghost use Rattle.types.specs.Types.{Ty};
ghost use Rattle.types.specs.Lists.{Lawful, type_at};
ghost use Rattle.instance.specs.Once.{Once};
ghost use Rattle.copy.specs.Instances.{OfList};
ghost use Rattle.derivation_check.specs.Steps.{Step};
ghost use Rattle.derivation_check.specs.Checking.{Judged};

use crate::ends::Prefix;
use crate::node_types::NodeTypes;
use copy::Source;
use copy::load::load;
use instance::fits;
use term::Symbol;
use types::{MOST_NODES, TypeNode};

// Whether the type at a place is an instance of the type that list `k` means.
fn is_of_list<S: Source>(source: &S, k: u16, types: &[TypeNode], place: u16) -> bool
    requires lawful { Lawful types.now }
    requires once { Once types.now }
    requires place { place < length types.now }
    ensures { Decides result (OfList (S.list source.now k) (type_at types.now place)) }
{
    let mut general = [TypeNode::default(); MOST_NODES];
    let n = load(source, k, &mut general);
    if n == 0 {
        return false;
    }
    fits(&general[..n], types, place)
}

// Term nodes over the lists of a catalogue and of kept formulas, with types for the nodes.
#[derive(Drop)]
pub struct Derivation<'a, 's, E: Source, K: Source> {
    pub entries: &'a E,
    pub kept: &'a K,
    pub term: Prefix<'a, 's>,
    pub types: NodeTypes<'a>,
    ghost one_each: { length types.places.now ≡ length term.terms.now },
}

impl<E: Source, K: Source> Derivation<'_, '_, E, K> {
    ghost use Rattle.derivation_check.specs.Arrows.{type_of};

    // Whether the node `i` has its typing step.
    fn has_step(&self, i: usize) -> bool
        requires { i < length self.now.term.terms.now }
        ensures { Decides result (Step (E.Source.list self.now.entries.now) (K.Source.list self.now.kept.now) self.now.term.terms.now (type_of self.now.types) i) }
    {
        let types = self.types;
        match self.term.terms[i].symbol() {
            None => false,
            Some(Symbol::Variable(n)) => match self.term.find_binder(i, n) {
                Some(b) => types.is_from(b, i),
                None => false,
            },
            Some(Symbol::Abstraction) => i + 1 < self.term.terms.len() && types.is_to(i, i + 1),
            Some(Symbol::Application) => {
                let argument = self.term.end_at(i + 1);
                argument < self.term.terms.len() && types.is_arrow(i + 1, argument, i)
            }
            Some(Symbol::Primitive(n)) => is_of_list(self.entries, n, types.list, types.places[i]),
            Some(Symbol::Reference(n)) => is_of_list(self.kept, n, types.list, types.places[i]),
        }
    }

    // The first node without its typing step.
    pub fn first_failing(&self) -> Option<usize>
        ensures { Judged (E.Source.list self.now.entries.now) (K.Source.list self.now.kept.now) self.now.term.terms.now (type_of self.now.types) result }
    {
        (0..self.term.terms.len()).find(|i| !self.has_step(*i))
    }
}
