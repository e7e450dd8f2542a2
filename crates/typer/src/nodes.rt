// The normal list of the types of a term's first nodes, by inference and a walk over the graph.
ghost use Rattle.std.specs.Prelude.{◌≡◌, ℕ, ◌+◌, ◌*◌, ◌<◌, ◌≤◌, length, slice_index};
ghost use Rattle.infer.specs.Heads.{need};
ghost use Rattle.typer.specs.Answers.{Cleared};
ghost use Rattle.typer.specs.Nodes.{Listing};
ghost use Rattle.typer.specs.Parts.{Cut};

use copy::Source;
use infer::Term;
use types::TypeNode;
use walk::list_types;

pub fn clear(memory: &mut [TypeNode])
    ensures { Cleared memory.new }
{
    memory.fill(TypeNode::default());
}

// Writes numbers below 65,536 into as many places.
fn narrow(numbers: &[u32], places: &mut [u16])
    requires long { length numbers.now ≡ length places.old }
    requires small { (k : ℕ) → k < length numbers.now → slice_index numbers.now k < 65536 }
    ensures { (k : ℕ) → k < length places.new → slice_index places.new k ≡ slice_index numbers.now k }
{
    // By the index: of a `zip` over `iter_mut` no proof knows what the places hold afterwards.
    for (k, place) in places.iter_mut().enumerate() {
        *place = numbers[k] as u16;
    }
}

// The parts of a number memory that the work takes: two as long as the term, and four as long as the type memory.
#[derive(Drop)]
struct Parts<'a> {
    binders: &'a mut [u32],
    roots: &'a mut [u32],
    marks: &'a mut [u32],
    origins: &'a mut [u32],
    heads: &'a mut [u32],
    nexts: &'a mut [u32],
}

impl<'a> Parts<'a> {
    fn split(numbers: &'a mut [u32], nodes: usize, records: usize) -> Self
        requires { 4 * records + 2 * nodes ≤ length numbers.old }
        ensures { Cut nodes records result }
    {
        let (binders, rest) = numbers.split_at_mut(nodes);
        let (roots, rest) = rest.split_at_mut(nodes);
        let (marks, rest) = rest.split_at_mut(records);
        let (origins, rest) = rest.split_at_mut(records);
        let (heads, rest) = rest.split_at_mut(records);
        let (nexts, _) = rest.split_at_mut(records);
        Parts {
            binders,
            roots,
            marks,
            origins,
            heads,
            nexts,
        }
    }

    // The work on a term that has nodes.
    fn list<E: Source, K: Source>(
        self,
        term: &Term<E, K>,
        memory: &mut [TypeNode],
        places: &mut [u16],
    ) -> Option<usize>
        requires some { 0 < length term.now.nodes.now }
        requires records { length memory.old ≡ need (E.Source.list term.now.entries.now) (K.Source.list term.now.kept.now) term.now.nodes.now }
        requires few { length memory.old ≤ 4096 }
        requires nodes { length places.old ≤ length term.now.nodes.now }
        requires cut { Cut (length term.now.nodes.now) (length memory.old) self }
        ensures { Listing (E.Source.list term.now.entries.now) (K.Source.list term.now.kept.now) term.now.nodes.now places.new memory.new result }
    {
        let Parts {
            binders,
            roots,
            marks,
            origins,
            heads,
            nexts,
        } = self;
        let Some(used) = term.infer(binders, roots, marks, memory) else {
            clear(memory);
            return None;
        };
        let wanted = &mut roots[..places.len()];
        let Ok(count) = list_types(memory, used, wanted, marks, origins, heads, nexts) else {
            return None;
        };
        narrow(wanted, places);
        Some(count)
    }
}

// Puts the normal list of the types of a term's first nodes, as many as there are places, into the memory, which has as
// many records as the term needs, and where each of these types stands into the places; none where the term has no type.
// The numbers are room to work in: two parts as long as the term, and four as long as the memory.
pub fn list_nodes<E: Source, K: Source>(
    term: &Term<E, K>,
    memory: &mut [TypeNode],
    places: &mut [u16],
    numbers: &mut [u32],
) -> Option<usize>
    requires records { length memory.old ≡ need (E.Source.list term.now.entries.now) (K.Source.list term.now.kept.now) term.now.nodes.now }
    requires few { length memory.old ≤ 4096 }
    requires nodes { 0 < length term.now.nodes.now → length places.old ≤ length term.now.nodes.now }
    requires room { 4 * length memory.old + 2 * length term.now.nodes.now ≤ length numbers.old }
    ensures { Listing (E.Source.list term.now.entries.now) (K.Source.list term.now.kept.now) term.now.nodes.now places.new memory.new result }
{
    if term.nodes.is_empty() {
        clear(memory);
        return None;
    }
    let parts = Parts::split(numbers, term.nodes.len(), memory.len());
    parts.list(term, memory, places)
}
