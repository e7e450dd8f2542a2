// A list copied out of its source.
ghost use Rattle.std.specs.Prelude.{◌≡◌, ◌≤◌, length, take};

use crate::Source;
use types::TypeNode;

// Copies list `k` to the front of the memory; the answer is its length.
pub fn load<S: Source>(source: &S, k: u16, memory: &mut [TypeNode]) -> usize
    requires room { length (S.list source.now k) ≤ length memory.old }
    ensures length { result ≡ length (S.list source.now k) }
    ensures few { result ≤ 4096 }
    ensures same { take result memory.new ≡ S.list source.now k }
{
    // A source is asked for each node by its number.
    let count = source.nodes(k);
    for i in 0..count {
        memory[i as usize] = source.node(k, i);
    }
    count as usize
}
