// A list of type nodes copied into a graph memory, in which nodes of equal records, as those of one variable, are one class.
ghost use Rattle.std.specs.Prelude.{◌≡◌, ℕ, ◌<◌, ◌≤◌, length, MatchOption, ◌≢◌, slice_index_or};
ghost use Rattle.types.specs.Lists.{zero_node};
ghost use Rattle.graph.specs.Graph.{view};
ghost use Rattle.walk.specs.Copies.{Copy, ByRecord};

use crate::places;
use graph::Node;
use types::TypeNode;

// The latest of the first `count` places of the list that has the record `x`.
fn find_equal(
    list: &[TypeNode],
    heads: &[u32],
    nexts: &[u32],
    count: usize,
    x: TypeNode,
) -> Option<u16>
    requires { ByRecord list.now count heads.now nexts.now }
    ensures { MatchOption result ((k : ℕ) → k < count → slice_index_or list.now k zero_node ≢ x) (λ q. (q < count) × (slice_index_or list.now q zero_node ≡ x)) }
{
    places::chain_of(heads, nexts, x).find(|place| list[*place as usize] == x)
}

// What stands at a place of the copy: the record, or a link to an equal one before it.
fn copy_at(list: &[TypeNode], heads: &[u32], nexts: &[u32], place: usize) -> TypeNode
    requires within { place < length list.now }
    requires entered { ByRecord list.now place heads.now nexts.now }
    ensures { Copy list.now place (view result) }
{
    let x = list[place];
    match find_equal(list, heads, nexts, place, x) {
        Some(equal) => TypeNode::from(Node::Link(equal)),
        None => x,
    }
}

// Copies the list into the beginning of the memory. The two memories of numbers are room to work in.
pub fn copy(list: &[TypeNode], memory: &mut [TypeNode], heads: &mut [u32], nexts: &mut [u32])
    requires fits { length list.now ≤ length memory.old }
    requires few { length list.now ≤ 65536 }
    requires first { length heads.old ≡ length list.now }
    requires second { length nexts.old ≡ length list.now }
    ensures { (p : ℕ) → p < length list.now → Copy list.now p (view (slice_index_or memory.new p zero_node)) }
{
    heads.fill(0);
    for (place, x) in list.iter().enumerate() {
        memory[place] = copy_at(list, heads, nexts, place);
        places::enter(heads, nexts, place as u32, *x);
    }
}
