// The walk over a type graph, which lists the parts of the types that its nodes stand for.
ghost use Rattle.std.specs.Prelude.{◌≡◌, ℕ, ◌+◌, ◌-◌, ◌<◌, ◌≤◌, List, [], length, MatchOption, ◌≢◌, slice_index, slice_index_or, slice_set};
ghost use Rattle.types.specs.Types.{Ty};
ghost use Rattle.graph.specs.Graph.{alive};
ghost use Rattle.graph.specs.declared.Node.TheVariants.{Var};
ghost use Rattle.walk.specs.Reads.{root, Flat};
ghost use Rattle.walk.specs.Table.{bucket};
ghost use Rattle.walk.specs.Work.{written_as, key_of, part, Marked, Origin, State, Complete, Closed, Outcome};
ghost use Rattle.walk.specs.Listing.{Shut, Roots, Rest};
ghost use Rattle.walk.specs.Lent.{nodes, held, SameMemories, Running};

use crate::{Looped, places};
use graph::Node;
use types::TypeNode;

// What is known of a class: it is not entered yet, open, or done with its type at a place of the list.
#[derive(Clone, Copy, Debug, PartialEq)]
pub enum Mark {
    New,
    Open,
    Done(u16),
}

// A mark as the lent memory holds it.
impl From<Mark> for u32 {
    ghost from_gives = { λ mark number. number ≡ written_as mark };

    fn from(mark: Mark) -> u32 {
        match mark {
            Mark::New => 0,
            Mark::Open => 1,
            Mark::Done(place) => place as u32 + 2,
        }
    }
}

// A graph, and in lent memories what a walk has found: a mark for each class, by the node that stands for it; for each
// place the node that first had the type there; the chains of the places, by the keys of their types; and how many
// places there are. The chains are no struct in this one: what that would have written is not known once this is dropped.
#[derive(Drop)]
pub struct Walk<'a> {
    pub graph: &'a [TypeNode],
    pub marks: &'a mut [u32],
    pub origins: &'a mut [u32],
    pub heads: &'a mut [u32],
    pub nexts: &'a mut [u32],
    pub count: u32,
}

impl<'a> Walk<'a> {
    // Forgets what the memories hold.
    pub fn clear(&mut self)
        requires flat { Flat (nodes self.old) }
        requires few { length self.old.graph.now ≤ 65536 }
        requires first { length self.old.marks.now ≡ length self.old.graph.now }
        requires second { length self.old.origins.now ≡ length self.old.graph.now }
        requires third { length self.old.heads.now ≡ length self.old.graph.now }
        requires fourth { length self.old.nexts.now ≡ length self.old.graph.now }
        ensures same { SameMemories self.old self.new }
        ensures running { Running self.new }
        ensures start { State (nodes self.new) (held self.new) [] }
        ensures shut { Shut self.new.marks.now }
    {
        self.marks.fill(0);
        self.heads.fill(0);
        self.count = 0;
    }

    // The node that stands for the class of `at`.
    fn root(&self, at: u16) -> u16
        requires { at < length self.now.graph.now }
        ensures { result ≡ root (nodes self.now) at }
    {
        match Node::from(self.graph[at as usize]) {
            Node::Link(next) => next,
            _ => at,
        }
    }

    // What is known of a class, by the node that stands for it.
    fn mark(&self, i: u16) -> Mark
        requires inside { i < length self.now.marks.now }
        requires few { slice_index self.now.marks.now i < 65538 }
        ensures { written_as result ≡ slice_index self.now.marks.now i }
    {
        match self.marks[i as usize] {
            0 => Mark::New,
            1 => Mark::Open,
            number => Mark::Done((number - 2) as u16),
        }
    }

    // Where the type of `at` stands, whose class is done.
    fn place_of(&self, at: u16) -> u16
        requires inside { at < length self.now.graph.now }
        requires known { root (nodes self.now) at < length self.now.marks.now }
        requires done { 2 ≤ slice_index self.now.marks.now (root (nodes self.now) at) }
        requires few { slice_index self.now.marks.now (root (nodes self.now) at) < 65538 }
        ensures { result ≡ slice_index self.now.marks.now (root (nodes self.now) at) - 2 }
    {
        match self.mark(self.root(at)) {
            Mark::Done(place) => place,
            _ => unreachable(),
        }
    }

    // What tells the type of the node `i`, which is done and stands for its class, among the parts listed so far.
    pub fn key_at(&self, i: u16) -> TypeNode
        requires flat { Flat (nodes self.now) }
        requires long { length self.now.marks.now ≡ length self.now.graph.now }
        requires few { length self.now.graph.now ≤ 65536 }
        requires origin { Origin (nodes self.now) self.now.marks.now i (slice_index self.now.marks.now i - 2) }
        requires marked { (ps : List Ty) × (length ps ≤ length self.now.graph.now) × Marked (nodes self.now) self.now.marks.now ps }
        ensures { (ps : List Ty) → Marked (nodes self.now) self.now.marks.now ps → result ≡ key_of ps (part ps (slice_index self.now.marks.now i - 2)) }
    {
        match Node::from(self.graph[i as usize]) {
            Node::Var => TypeNode::variable(i),
            Node::Base(c) => TypeNode::base(c),
            Node::Branch(kind, l, r) => TypeNode {
                kind,
                left: self.place_of(l),
                right: self.place_of(r),
            },
            Node::Link(_) => unreachable(),
        }
    }

    // The key of the part at a place.
    fn part_key(&self, place: u16) -> TypeNode
        requires running { Running self.now }
        requires listed { place < self.now.count }
        ensures { (ps : List Ty) → State (nodes self.now) (held self.now) ps → result ≡ key_of ps (part ps place) }
    {
        self.key_at(self.origins[place as usize] as u16)
    }

    // The place of the part with the key `x`.
    fn find(&self, x: TypeNode) -> Option<u16>
        requires running { Running self.now }
        requires some { 0 < length self.now.graph.now }
        ensures { (ps : List Ty) → State (nodes self.now) (held self.now) ps → MatchOption result ((k : ℕ) → k < self.now.count → key_of ps (part ps k) ≢ x) (λ p. (p < self.now.count) × (key_of ps (part ps p) ≡ x)) }
    {
        places::chain_of(self.heads, self.nexts, x).find(|place| self.part_key(*place) == x)
    }

    // Puts a part with the key `x` behind the others, with the node `i` as its origin.
    fn append(&mut self, i: u16, x: TypeNode) -> u16
        requires inside { i < length self.old.marks.now }
        requires some { 0 < length self.old.heads.now }
        requires origin { self.old.count < length self.old.origins.now }
        requires next { self.old.count < length self.old.nexts.now }
        requires few { self.old.count < 65536 }
        ensures same { SameMemories self.old self.new }
        ensures place { result ≡ self.old.count }
        ensures count { self.new.count ≡ self.old.count + 1 }
        ensures marks { self.new.marks.now ≡ slice_set self.old.marks.now i (self.old.count + 2) }
        ensures origins { self.new.origins.now ≡ slice_set self.old.origins.now self.old.count i }
        ensures heads { self.new.heads.now ≡ slice_set self.old.heads.now (bucket (length self.old.heads.now) x) (self.old.count + 1) }
        ensures nexts { self.new.nexts.now ≡ slice_set self.old.nexts.now self.old.count (slice_index self.old.heads.now (bucket (length self.old.heads.now) x)) }
    {
        let place = self.count;
        places::enter(self.heads, self.nexts, place, x);
        self.marks[i as usize] = u32::from(Mark::Done(place as u16));
        self.origins[place as usize] = i as u32;
        self.count = place + 1;
        place as u16
    }

    // Finds the part with the key `x`, the type of the node `i`, or puts it behind the others; the node is then done.
    fn close(&mut self, i: u16, x: TypeNode) -> u16
        requires running { Running self.old }
        requires inside { i < length self.old.graph.now }
        requires stands { alive (slice_index_or (nodes self.old) i Var) ≡ 1 }
        requires opened { slice_index self.old.marks.now i ≡ 1 }
        requires complete { Complete (nodes self.old) self.old.marks.now i }
        requires fits { self.old.count < length self.old.graph.now }
        ensures same { SameMemories self.old self.new }
        ensures closed { Closed (nodes self.old) (held self.old) (held self.new) i x result }
    {
        match self.find(x) {
            Some(place) => {
                self.marks[i as usize] = u32::from(Mark::Done(place));
                place
            }
            None => self.append(i, x),
        }
    }

    // Lists the type of the node `at`, its left part before its right one and both before itself, and says where it
    // stands. A class that is done is not walked again; one that is met while it is open is a loop.
    fn walk(&mut self, at: u16) -> Result<u16, Looped>
        requires running { Running self.old }
        requires inside { at < length self.old.graph.now }
        ensures same { SameMemories self.old self.new }
        ensures outcome { Outcome (nodes self.old) (held self.old) (held self.new) at result }
    {
        let i = self.root(at);
        match self.mark(i) {
            Mark::New => (),
            Mark::Open => return Err(Looped),
            Mark::Done(place) => return Ok(place),
        }
        self.marks[i as usize] = u32::from(Mark::Open);
        match Node::from(self.graph[i as usize]) {
            Node::Var => Ok(self.close(i, TypeNode::variable(i))),
            Node::Base(c) => Ok(self.close(i, TypeNode::base(c))),
            Node::Branch(kind, l, r) => {
                let left = self.walk(l)?;
                let right = self.walk(r)?;
                Ok(self.close(i, TypeNode { kind, left, right }))
            }
            Node::Link(_) => unreachable(),
        }
    }

    // Lists the types of the roots, one after the other, and writes for each where it stands; says how many places
    // there are.
    pub fn list_roots(&mut self, roots: &mut [u32]) -> Result<u32, Looped>
        requires running { Running self.old }
        requires inside { (k : ℕ) → k < length roots.old → slice_index roots.old k < length self.old.graph.now }
        requires start { State (nodes self.old) (held self.old) [] }
        requires shut { Shut self.old.marks.now }
        ensures same { SameMemories self.old self.new }
        ensures listed { Roots (nodes self.old) (held self.new) roots.old roots.new result }
    {
        for root in roots.iter_mut() {
            *root = self.walk(*root as u16)? as u32;
        }
        Ok(self.count)
    }

    // Lists the types of all nodes, behind what is listed. The walk takes a node by its number.
    pub fn list_rest(&mut self) -> Result<(), Looped>
        requires running { Running self.old }
        requires shut { Shut self.old.marks.now }
        ensures same { SameMemories self.old self.new }
        ensures listed { Rest (nodes self.old) (held self.old) (held self.new) result }
    {
        for at in 0..self.graph.len() {
            self.walk(at as u16)?;
        }
        Ok(())
    }
}
