// The walk over a type graph to the normal list of the types that its nodes stand for.
#![tactic(auto)]

ghost use Rattle.std.specs.Prelude.{◌≡◌, ℕ, ◌+◌, ◌-◌, ◌<◌, ◌≤◌, map, length, slice_index};
ghost use Rattle.graph.specs.Graph.{view, graph, Sound, Kept, Always};
ghost use Rattle.walk.specs.Reads.{Straight, Flat};
ghost use Rattle.types.specs.Lists.{Lawful};
ghost use Rattle.walk.specs.Copies.{Normalized, Enough, Normalizing};
ghost use Rattle.walk.specs.Listing.{SimpleGraph, Gathering, Listing, OneList};

use graph::Node;
use types::TypeNode;
use walking::Walk;

mod copying;
mod gather;
mod places;
mod walking;

// No types solve the graph: a class would be a part of itself.
#[derive(Clone, Copy, Debug, PartialEq, Eq)]
pub struct Looped;

// Lets a link at `i` go where the link goes that it leads to.
fn straighten(graph: &mut [TypeNode], i: usize)
    requires within { i < length graph.old }
    requires sound { Sound (map view graph.old) }
    requires below { (k : ℕ) → k < i → Straight (map view graph.old) k }
    ensures kept { Kept (map view graph.old) (map view graph.new) Always Always }
    ensures straight { (k : ℕ) → k < i + 1 → Straight (map view graph.new) k }
    ensures simple { SimpleGraph (map view graph.old) → SimpleGraph (map view graph.new) }
{
    if let Node::Link(next) = Node::from(graph[i]) {
        let there = graph[next as usize];
        if let Node::Link(_) = Node::from(there) {
            graph[i] = there;
        }
    }
}

// Lets every link go straight to the node that stands for its class, from the lowest on. It goes by numbers, since a step
// reads what the steps before it have written.
fn flatten(graph: &mut [TypeNode])
    requires { Sound (map view graph.old) }
    ensures kept { Kept (map view graph.old) (map view graph.new) Always Always }
    ensures flat { Flat (map view graph.new) }
    ensures simple { SimpleGraph (map view graph.old) → SimpleGraph (map view graph.new) }
{
    for i in 0..graph.len() {
        straighten(graph, i);
    }
}

// Why a list was not brought to its normal form: it means no type, or a memory is shorter than it.
#[derive(Clone, Copy, Debug, PartialEq, Eq)]
pub enum Refused {
    Unlawful,
    ShortMemory,
    ShortNumbers,
}

// Walks the roots and then all nodes, and gathers the normal list of the roots' types in the last three memories of
// numbers; says how many records it has.
fn walk_all(
    graph: &[TypeNode],
    roots: &mut [u32],
    marks: &mut [u32],
    origins: &mut [u32],
    heads: &mut [u32],
    nexts: &mut [u32],
) -> Result<u32, Looped>
    requires inside { (k : ℕ) → k < length roots.old → slice_index roots.old k < length graph.now }
    requires flat { Flat (map view graph.now) }
    requires few { length graph.now ≤ 65536 }
    requires first { length marks.old ≡ length graph.now }
    requires second { length origins.old ≡ length graph.now }
    requires third { length heads.old ≡ length graph.now }
    requires fourth { length nexts.old ≡ length graph.now }
    ensures { Gathering (map view graph.now) roots.old roots.new origins.new heads.new nexts.new result }
{
    let mut walk = Walk {
        graph,
        marks,
        origins,
        heads,
        nexts,
        count: 0,
    };
    walk.clear();
    let wanted = walk.list_roots(roots)?;
    walk.list_rest()?;
    walk.gather(wanted);
    Ok(wanted)
}

// The list that is found does not hang on the solution that is taken.
pub fn one_list_stands()
    ensures { OneList }
{}

// Puts the normal list of the types of the roots in place of the graph that stands in the first `used` records of the
// memory, with zero nodes behind it, and in place of each root where its type stands in the list; says how many records
// the list has. The four memories of numbers are room to work in. Where no types solve the graph, the memory is cleared.
pub fn list_types(
    memory: &mut [TypeNode],
    used: usize,
    roots: &mut [u32],
    marks: &mut [u32],
    origins: &mut [u32],
    heads: &mut [u32],
    nexts: &mut [u32],
) -> Result<usize, Looped>
    requires fits { used ≤ length memory.old }
    requires few { used ≤ 65536 }
    requires sound { Sound (graph memory.old used) }
    requires inside { (k : ℕ) → k < length roots.old → slice_index roots.old k < used }
    requires first { used ≤ length marks.old }
    requires second { used ≤ length origins.old }
    requires third { used ≤ length heads.old }
    requires fourth { used ≤ length nexts.old }
    ensures { Listing (graph memory.old used) roots.old roots.new memory.new result }
{
    let graph = &mut memory[..used];
    flatten(graph);
    let marks = &mut marks[..used];
    let origins = &mut origins[..used];
    let heads = &mut heads[..used];
    let nexts = &mut nexts[..used];
    match walk_all(graph, roots, marks, origins, heads, nexts) {
        Ok(count) => {
            let count = count as usize;
            let (rows, rest) = memory.split_at_mut(count);
            gather::write_rows(rows, origins, heads, nexts);
            rest.fill(TypeNode::default());
            Ok(count)
        }
        Err(Looped) => {
            memory.fill(TypeNode::default());
            Err(Looped)
        }
    }
}

// The normal list of what a lawful list means, with memories that suffice.
fn normalize_lawful(
    list: &[TypeNode],
    memory: &mut [TypeNode],
    marks: &mut [u32],
    origins: &mut [u32],
    heads: &mut [u32],
    nexts: &mut [u32],
) -> usize
    requires lawful { Lawful list.now }
    requires fits { length list.now ≤ length memory.old }
    requires enough { Enough list.now marks.old origins.old heads.old nexts.old }
    ensures { Normalized list.now memory.new result }
{
    let used = list.len();
    copying::copy(list, memory, &mut heads[..used], &mut nexts[..used]);
    let mut roots = [used as u32 - 1];
    match list_types(memory, used, &mut roots, marks, origins, heads, nexts) {
        Ok(count) => count,
        Err(Looped) => unreachable(),
    }
}

// Puts the normal list of the type that a list means into the memory, with zero nodes behind it, and says how many
// records it has. The four memories of numbers are room to work in; a refusal leaves the memory as it is.
pub fn normalize(
    list: &[TypeNode],
    memory: &mut [TypeNode],
    marks: &mut [u32],
    origins: &mut [u32],
    heads: &mut [u32],
    nexts: &mut [u32],
) -> Result<usize, Refused>
    ensures { Normalizing list.now memory.old memory.new marks.old origins.old heads.old nexts.old result }
{
    if !types::is_lawful(list) {
        return Err(Refused::Unlawful);
    }
    let used = list.len();
    if memory.len() < used {
        return Err(Refused::ShortMemory);
    }
    if marks.len() < used || origins.len() < used || heads.len() < used || nexts.len() < used {
        return Err(Refused::ShortNumbers);
    }
    Ok(normalize_lawful(list, memory, marks, origins, heads, nexts))
}
