// The types of a term: a pass over its nodes in prefix order builds a type graph, whose solutions are the typings.
#![tactic(auto)]

ghost use Rattle.std.specs.Prelude.{◌≡◌, ◌+◌, ◌-◌, ◌<◌, ◌≤◌, ◌++◌, ◌∷◌, [], length, take, drop, slice_index, MatchOption};
ghost use Rattle.graph.specs.Graph.{Sound};
ghost use Rattle.graph.specs.Memory.{nodes, InPlace};
ghost use Rattle.infer.specs.Heads.{head_of, head_need, need};
ghost use Rattle.infer.specs.Scopes.{held, AsBefore, Scoped};
ghost use Rattle.infer.specs.Passes.{Called, Passed, Answered};

use copy::{Source, copy};
use graph::Graph;
use term::{Symbol, TermNode};
use types::TypeNode;

// The binders around a place of the term: the graph nodes of the first `depth`, the innermost last, in a lent memory.
#[derive(Drop)]
struct Scope<'a> {
    binders: &'a mut [u32],
    depth: usize,
}

impl Scope<'_> {
    // Goes below a binder.
    fn enter(&mut self, binder: u16)
        requires room { self.old.depth < length self.old.binders.now }
        ensures kept { AsBefore self.old self.new }
        ensures depth { self.new.depth ≡ self.old.depth + 1 }
        ensures held { held self.new ≡ held self.old ++ binder ∷ [] }
    {
        self.binders[self.depth] = binder as u32;
        self.depth += 1;
    }

    // Leaves the innermost binder.
    fn leave(&mut self)
        requires some { 0 < self.old.depth }
        ensures kept { AsBefore self.old self.new }
        ensures depth { self.new.depth ≡ self.old.depth - 1 }
        ensures held { held self.new ≡ take (self.old.depth - 1) (held self.old) }
    {
        self.depth -= 1;
    }

    // The graph node of a variable's binder, if it has one: variables count from the innermost.
    fn binder(&self, n: u16) -> Option<u16>
        requires deep { self.now.depth ≤ length self.now.binders.now }
        requires small { Scoped (held self.now) 65536 }
        ensures { MatchOption result (length (held self.now) ≤ n) (λ a. (n < length (held self.now)) × (a ≡ slice_index (held self.now) (length (held self.now) - 1 - n))) }
    {
        let at = self.depth.checked_sub(n as usize + 1)?;
        Some(self.binders[at] as u16)
    }
}

// The graph node of a subterm, and the place after it.
#[derive(Clone, Copy)]
struct Found {
    node: u16,
    next: usize,
}

// The type of the result of `function` at `argument`.
fn call(graph: &mut Graph, function: u16, argument: u16) -> Option<u16>
    requires sound { Sound (nodes graph.old) }
    requires small { graph.old.used + 2 ≤ 65536 }
    requires room { graph.old.used + 2 ≤ length graph.old.memory.now }
    requires first { function < graph.old.used }
    requires second { argument < graph.old.used }
    ensures kept { InPlace graph.old graph.new }
    ensures used { graph.new.used ≡ graph.old.used + 2 }
    ensures called { Called (nodes graph.old) (nodes graph.new) function argument result }
{
    let result = graph.push(TypeNode::variable(0));
    let whole = graph.push(TypeNode::arrow(argument, result));
    graph.unify(function, whole).ok()?;
    Some(result)
}

// A term by its nodes, and the lists that its primitives and its references stand for.
#[derive_where(Clone, Copy)]
pub struct Term<'a, E: Source, K: Source> {
    pub entries: &'a E,
    pub kept: &'a K,
    pub nodes: &'a [TermNode],
}

impl<E: Source, K: Source> Term<'_, E, K> {
    // How many graph records a term node needs.
    pub fn need_of(&self, node: TermNode) -> u16
        ensures { result ≡ head_need (E.Source.list self.now.entries.now) (K.Source.list self.now.kept.now) (head_of node) }
    {
        match node.symbol() {
            None => 0,
            Some(Symbol::Variable(_)) => 0,
            Some(Symbol::Abstraction) => 2,
            Some(Symbol::Application) => 2,
            Some(Symbol::Primitive(k)) => self.entries.nodes(k),
            Some(Symbol::Reference(n)) => self.kept.nodes(n),
        }
    }

    // Builds the graph of the term at `at`, and records the graph node of each of its term nodes in `places`; none where
    // the term has no typing.
    fn pass(
        &self,
        at: usize,
        scope: &mut Scope,
        places: &mut [u32],
        seen: &mut [u32],
        graph: &mut Graph,
    ) -> Option<Found>
        requires deep { scope.old.depth ≤ length scope.old.binders.now }
        requires sound { Sound (nodes graph.old) }
        requires room { graph.old.used + need (E.Source.list self.now.entries.now) (K.Source.list self.now.kept.now) (drop at self.now.nodes.now) ≤ length graph.old.memory.now }
        requires small { graph.old.used + need (E.Source.list self.now.entries.now) (K.Source.list self.now.kept.now) (drop at self.now.nodes.now) ≤ 65536 }
        requires inner { scope.old.depth + (length self.now.nodes.now - at) ≤ length scope.old.binders.now }
        requires placed { length self.now.nodes.now ≤ length places.old }
        requires scoped { Scoped (held scope.old) graph.old.used }
        ensures graph { InPlace graph.old graph.new }
        ensures scope { AsBefore scope.old scope.new }
        ensures passed { Passed (E.Source.list self.now.entries.now) (K.Source.list self.now.kept.now) self.now.nodes.now at scope.old scope.new places.old places.new graph.old graph.new result }
    {
        let symbol = self.nodes.get(at)?.symbol()?;
        let next = at + 1;
        let found = match symbol {
            Symbol::Variable(n) => Found {
                node: scope.binder(n)?,
                next,
            },
            Symbol::Abstraction => {
                let binder = graph.push(TypeNode::variable(0));
                scope.enter(binder);
                let body = self.pass(next, scope, places, seen, graph)?;
                scope.leave();
                Found {
                    node: graph.push(TypeNode::arrow(binder, body.node)),
                    next: body.next,
                }
            }
            Symbol::Application => {
                let f = self.pass(next, scope, places, seen, graph)?;
                let x = self.pass(f.next, scope, places, seen, graph)?;
                Found {
                    node: call(graph, f.node, x.node)?,
                    next: x.next,
                }
            }
            Symbol::Primitive(k) => Found {
                node: copy(self.entries, k, seen, graph)?,
                next,
            },
            Symbol::Reference(n) => Found {
                node: copy(self.kept, n, seen, graph)?,
                next,
            },
        };
        places[at] = found.node as u32;
        Some(found)
    }

    // How many graph records the term needs.
    pub fn needed(&self) -> usize
        requires few { length self.now.nodes.now ≤ 65536 }
        ensures { result ≡ need (E.Source.list self.now.entries.now) (K.Source.list self.now.kept.now) self.now.nodes.now }
    {
        self.nodes
            .iter()
            .map(|node| self.need_of(*node) as usize)
            .sum()
    }

    // Builds the graph of the term, if it is closed, from the start of the memory, and records the graph node of each of
    // its nodes in `places`. It answers how many records are used, or none where the term has no type. `binders` and
    // `seen` are scratch.
    pub fn infer(
        &self,
        binders: &mut [u32],
        places: &mut [u32],
        seen: &mut [u32],
        memory: &mut [TypeNode],
    ) -> Option<usize>
        requires room { need (E.Source.list self.now.entries.now) (K.Source.list self.now.kept.now) self.now.nodes.now ≤ length memory.old }
        requires small { need (E.Source.list self.now.entries.now) (K.Source.list self.now.kept.now) self.now.nodes.now ≤ 65536 }
        requires inner { length self.now.nodes.now ≤ length binders.old }
        requires placed { length self.now.nodes.now ≤ length places.old }
        ensures { Answered (E.Source.list self.now.entries.now) (K.Source.list self.now.kept.now) self.now.nodes.now places.new memory.new result }
    {
        let mut scope = Scope { binders, depth: 0 };
        let mut graph = Graph { memory, used: 0 };
        let found = self.pass(0, &mut scope, places, seen, &mut graph)?;
        (found.next == self.nodes.len()).then_some(graph.used)
    }
}
