// Copies of lists of type nodes at the end of a type graph: each copy is an instance of its own.
#![tactic(auto)]

ghost use Rattle.std.specs.Prelude.{◌≡◌, ℕ, ◌+◌, ◌<◌, ◌≤◌, List, length, Decides, slice_index_or};
ghost use Rattle.types.specs.Lists.{Lawful, zero_node};
ghost use Rattle.types.specs.declared.TypeNode.{TypeNode as Record};
ghost use Rattle.graph.specs.Graph.{view, Sound};
ghost use Rattle.graph.specs.Memory.{nodes, InPlace};
ghost use Rattle.copy.specs.Copies.{IsVariable, First, StandsBelow, Noted, Fresh, Copied};

use graph::{Graph, Node};
use std::marker::Model;
use types::{Shape, TypeNode};

pub mod load;
pub mod nothing;

// Lists of type nodes by number, as a catalogue and a table of kept lists have them.
pub trait Source {
    ghost list: { Self → ℕ → List Record };

    // A list that is there is lawful.
    ghost lawful: { (s : Self) (k : ℕ) → 0 < length (list s k) → Lawful (list s k) };

    // How many nodes list `k` has, 0 where there is no such list.
    fn nodes(&self, k: u16) -> u16
        ensures { result ≡ length (list self.now k) };

    // Node `i` of list `k`, the zero node where there is no such node.
    fn node(&self, k: u16, i: u16) -> TypeNode
        ensures { result ≡ slice_index_or (list self.now k) i zero_node };
}

// One of the lists.
#[derive(Drop)]
struct Listed<'a, S: Source> {
    source: &'a S,
    k: u16,
}

impl<'a, S: Source> Model for Listed<'a, S> {
    ghost Value = { List Record };

    ghost view = { λ l. S.list l.source.now l.k };
}

impl<S: Source> Listed<'_, S> {
    fn len(&self) -> u16
        ensures { result ≡ length self.now }
    {
        self.source.nodes(self.k)
    }

    fn node(&self, i: u16) -> TypeNode
        ensures { result ≡ slice_index_or self.now i zero_node }
    {
        self.source.node(self.k, i)
    }

    // Whether the variable of that number stands at place `i`.
    fn has_variable(&self, i: u16, number: u16) -> bool
        ensures { Decides result (IsVariable (slice_index_or self.now i zero_node) number) }
    {
        self.node(i).shape() == Some(Shape::Variable(number))
    }

    // The first place of the variable that stands at place `i`, looked for from the front.
    fn search(&self, i: u16, number: u16) -> u16
        requires is { IsVariable (slice_index_or self.now i zero_node) number }
        ensures low { result ≤ i }
        ensures first { First self.now number result }
    {
        (0..i).find(|j| self.has_variable(*j, number)).unwrap_or(i)
    }

    // Whether the variable stands at the place `j`, below `i`.
    fn stands_below(&self, i: u16, number: u16, j: u32) -> bool
        ensures { Decides result (StandsBelow self.now i number j) }
    {
        j < i as u32 && self.has_variable(j as u16, number)
    }

    // The first place of the variable that stands at place `i`. `seen` has the first place of each variable before `i`
    // whose number is below its length; what else it holds does not matter.
    fn first(&self, i: u16, number: u16, seen: &mut [u32]) -> u16
        requires is { IsVariable (slice_index_or self.now i zero_node) number }
        requires noted { Noted self.now i seen.old }
        ensures low { result ≤ i }
        ensures first { First self.now number result }
        ensures noted { Noted self.now (i + 1) seen.new }
    {
        let at = number as usize;
        match seen.get(at) {
            None => self.search(i, number),
            Some(j) if self.stands_below(i, number, *j) => *j as u16,
            Some(_) => {
                seen[at] = i as u32;
                i
            }
        }
    }

    // Node `i` for a copy that stands at `by`.
    fn fresh(&self, i: u16, by: u16, seen: &mut [u32]) -> TypeNode
        requires within { i < length self.now }
        requires lawful { Lawful self.now }
        requires small { by + i < 65536 }
        requires noted { Noted self.now i seen.old }
        ensures fresh { Fresh self.now by i (view result) }
        ensures noted { Noted self.now (i + 1) seen.new }
    {
        match self.node(i).shape() {
            Some(Shape::Variable(number)) => {
                let j = self.first(i, number, seen);
                if j < i {
                    TypeNode::from(Node::Link(by + j))
                } else {
                    TypeNode::variable(0)
                }
            }
            Some(Shape::Base(code)) => TypeNode::base(code),
            Some(Shape::Arrow(left, right)) => TypeNode::arrow(by + left, by + right),
            None => unreachable(),
        }
    }
}

// A copy of list `k` at the end of the graph, and the place of its root; none of a list without nodes. `seen` is
// scratch: with room for the numbers of the list's variables the work is linear.
pub fn copy<S: Source>(source: &S, k: u16, seen: &mut [u32], graph: &mut Graph) -> Option<u16>
    requires sound { Sound (nodes graph.old) }
    requires room { graph.old.used + length (S.list source.now k) ≤ length graph.old.memory.now }
    requires small { graph.old.used + length (S.list source.now k) ≤ 65536 }
    ensures kept { InPlace graph.old graph.new }
    ensures used { graph.new.used ≡ graph.old.used + length (S.list source.now k) }
    ensures copied { Copied (S.list source.now k) (nodes graph.old) (nodes graph.new) result }
{
    let list = Listed { source, k };
    let n = list.len();
    if n == 0 {
        return None;
    }
    let by = graph.used as u16;
    // A source is asked for each node by its number.
    for i in 0..n {
        graph.push(list.fresh(i, by, seen));
    }
    Some(by + (n - 1))
}
