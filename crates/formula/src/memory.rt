// The term memory: nodes written where there is room, moved up for an application, and cleared.
ghost use Rattle.std.specs.Prelude.{◌≡◌, ℕ, ◌+◌, ◌-◌, ◌<◌, ◌≤◌, ◌∷◌, ◌++◌, length, take, drop, replicate, slice_set};
ghost use Rattle.term.specs.Terms.{node, zero_node};
ghost use Rattle.term.specs.Symbols.{node_of};

use term::{Symbol, TermNode};

// Writes a node at the front, where there is room.
pub fn put(out: &mut [TermNode], symbol: Symbol)
    ensures { 0 < length out.old → out.new ≡ slice_set out.old 0 (node_of symbol) }
{
    if let [first, ..] = out {
        *first = TermNode::from(symbol);
    }
}

// Puts the node of an application before the first `count` nodes, which move up by one, where there is room.
pub fn lift(out: &mut [TermNode], count: usize)
    ensures { count < length out.old → out.new ≡ node 2 0 ∷ (take count out.old ++ drop (count + 1) out.old) }
{
    if count < out.len() {
        out.copy_within(..count, 1);
        put(out, Symbol::Application);
    }
}

// Clears what lies behind the first `count` nodes.
pub fn clear(memory: &mut [TermNode], count: usize)
    requires { count ≤ length memory.old }
    ensures { memory.new ≡ take count memory.old ++ replicate (length memory.old - count) zero_node }
{
    memory[count..].fill(TermNode::default());
}
