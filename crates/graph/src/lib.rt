// Type graphs in a lent memory of type nodes: classes of nodes that have the same type, and their unification.
#![tactic(auto)]

ghost use Rattle.std.specs.Prelude.{◌≡◌, ℕ, ◌+◌, ◌<◌, ◌≤◌, map, [], ◌∷◌, ◌++◌, length, slice_index_or};
ghost use Rattle.graph.specs.Graph.{view, record_of, Solves, Sound, alive, Kept, Always, Still};
ghost use Rattle.graph.specs.Memory.{nodes, InPlace};
ghost use Rattle.graph.specs.Unifying.{compared, Merged, Unified};
ghost use Rattle.types.specs.Lists.{zero_node};
ghost use Rattle.types.specs.Types.{Ty};

use std::cmp::Ordering;
use types::{BASE, TypeNode, VARIABLE};

// What a record of the memory says: a variable, a base by its code, a branch of some kind with the places of its two
// parts, or a link to a lower place, whose type it has.
#[derive(Clone, Copy, Debug, PartialEq)]
pub enum Node {
    Var,
    Base(u16),
    Branch(u8, u16, u16),
    Link(u16),
}

// The kind of a record that is a link.
const LINK: u8 = 255;

// What a record says.
impl From<TypeNode> for Node {
    ghost from_gives = { λ t n. n ≡ view t };

    fn from(record: TypeNode) -> Node {
        match record.kind {
            VARIABLE => Node::Var,
            BASE => Node::Base(record.left),
            LINK => Node::Link(record.left),
            _ => Node::Branch(record.kind, record.left, record.right),
        }
    }
}

// The record that says it. A branch whose kind is another node's is read as that one.
impl From<Node> for TypeNode {
    ghost from_gives = { λ n t. t ≡ record_of n };

    fn from(node: Node) -> TypeNode {
        match node {
            Node::Var => TypeNode::variable(0),
            Node::Base(code) => TypeNode::base(code),
            Node::Branch(kind, left, right) => TypeNode { kind, left, right },
            Node::Link(next) => TypeNode {
                kind: LINK,
                left: next,
                right: 0,
            },
        }
    }
}

// Lets the link at `at`, which goes to `next`, skip a link that stands there.
fn shorten(nodes: &mut [TypeNode], at: u16, next: u16)
    requires within { at < length nodes.old }
    requires below { next < length nodes.old }
    requires sound { Sound (map view nodes.old) }
    requires link { view (slice_index_or nodes.old at zero_node) ≡ Node.Link next }
    ensures kept { Kept (map view nodes.old) (map view nodes.new) Always Always }
    ensures still { Still (map view nodes.old) (map view nodes.new) }
{
    let there = nodes[next as usize];
    if let Node::Link(_) = Node::from(there) {
        nodes[at as usize] = there;
    }
}

// The representative of the class of `start`; links on the way to it become shorter.
pub fn find_root(nodes: &mut [TypeNode], start: u16) -> u16
    requires inside { start < length nodes.old }
    requires sound { Sound (map view nodes.old) }
    ensures inside { result < length nodes.old }
    ensures root { alive (view (slice_index_or nodes.new result zero_node)) ≡ 1 }
    ensures kept { Kept (map view nodes.old) (map view nodes.new) Always Always }
    ensures still { Still (map view nodes.old) (map view nodes.new) }
    ensures same { (v : ℕ → Ty) → Solves v (map view nodes.old) → v start ≡ v result }
{
    let mut at = start;
    while let Node::Link(next) = Node::from(nodes[at as usize]) {
        shorten(nodes, at, next);
        at = next;
    }
    at
}

// Two nodes that no types make alike.
#[derive(Clone, Copy, Debug, PartialEq)]
pub struct Clash;

// The left parts of two branches, and the right ones: two pairs of nodes that are to be made alike.
#[derive(Clone, Copy, Debug, PartialEq)]
struct Parts {
    left: (u16, u16),
    right: (u16, u16),
}

// The parts that are alike where two representatives are, if they have any.
fn compare(low: Node, high: Node) -> Result<Option<Parts>, Clash>
    ensures { result ≡ compared low high }
{
    match (low, high) {
        (Node::Var, _) | (_, Node::Var) => Ok(None),
        (Node::Base(p), Node::Base(q)) if p == q => Ok(None),
        (Node::Branch(j, l, r), Node::Branch(k, m, s)) if j == k => Ok(Some(Parts {
            left: (l, m),
            right: (r, s),
        })),
        _ => Err(Clash),
    }
}

// Merges two classes, given by their representatives: the higher becomes a link to the lower, which takes over what the
// higher one said where it said nothing itself. It answers which parts are still to be made alike.
fn merge(nodes: &mut [TypeNode], low: u16, high: u16) -> Result<Option<Parts>, Clash>
    requires sound { Sound (map view nodes.old) }
    requires order { low < high }
    requires within { high < length nodes.old }
    requires lower { alive (view (slice_index_or nodes.old low zero_node)) ≡ 1 }
    requires upper { alive (view (slice_index_or nodes.old high zero_node)) ≡ 1 }
    ensures { Merged (map view nodes.old) (map view nodes.new) low high result }
{
    let upper = nodes[high as usize];
    let said = Node::from(nodes[low as usize]);
    let parts = compare(said, Node::from(upper))?;
    if let Node::Var = said {
        nodes[low as usize] = upper;
    }
    nodes[high as usize] = TypeNode::from(Node::Link(low));
    Ok(parts)
}

// Merges the classes of `a` and `b`.
fn join(nodes: &mut [TypeNode], a: u16, b: u16) -> Result<Option<Parts>, Clash>
    requires sound { Sound (map view nodes.old) }
    requires first { a < length nodes.old }
    requires second { b < length nodes.old }
    ensures { Merged (map view nodes.old) (map view nodes.new) a b result }
{
    let x = find_root(nodes, a);
    let y = find_root(nodes, b);
    match x.cmp(&y) {
        Ordering::Less => merge(nodes, x, y),
        Ordering::Equal => Ok(None),
        Ordering::Greater => merge(nodes, y, x),
    }
}

// Gives `a` and `b` one type, with whatever follows from it, or says that no types do. Loops among the classes are not
// looked for. Each call of itself has fewer classes before it.
pub fn unify(nodes: &mut [TypeNode], a: u16, b: u16) -> Result<(), Clash>
    requires sound { Sound (map view nodes.old) }
    requires first { a < length nodes.old }
    requires second { b < length nodes.old }
    ensures { Unified (map view nodes.old) (map view nodes.new) a b result }
{
    if let Some(
        Parts {
            left: (l, m),
            right: (r, s),
        },
    ) = join(nodes, a, b)?
    {
        unify(nodes, l, m)?;
        unify(nodes, r, s)?;
    }
    Ok(())
}

// A graph in the front of a lent memory, with room for more nodes behind it. What its nodes ask stands in the clauses of
// what takes it: a ghost field beside a `&mut` gets no proof.
#[derive(Drop)]
pub struct Graph<'a> {
    pub memory: &'a mut [TypeNode],
    pub used: usize,
}

impl Graph<'_> {
    // Adds a record; the answer is its place.
    pub fn push(&mut self, node: TypeNode) -> u16
        requires room { self.old.used < length self.old.memory.now }
        requires small { self.old.used < 65536 }
        ensures kept { InPlace self.old self.new }
        ensures place { result ≡ self.old.used }
        ensures used { self.new.used ≡ self.old.used + 1 }
        ensures nodes { nodes self.new ≡ nodes self.old ++ view node ∷ [] }
    {
        let place = self.used;
        self.memory[place] = node;
        self.used += 1;
        place as u16
    }

    // Gives two nodes one type, as `unify` does.
    pub fn unify(&mut self, a: u16, b: u16) -> Result<(), Clash>
        requires fits { self.old.used ≤ length self.old.memory.now }
        requires sound { Sound (nodes self.old) }
        requires first { a < self.old.used }
        requires second { b < self.old.used }
        ensures kept { InPlace self.old self.new }
        ensures used { self.new.used ≡ self.old.used }
        ensures unified { Unified (nodes self.old) (nodes self.new) a b result }
    {
        unify(&mut self.memory[..self.used], a, b)
    }
}
