// Rows of nodes: read, and copied into a memory.
ghost use Rattle.std.specs.Prelude.{◌≡◌, ◌+◌, ◌<◌, ◌≤◌, length, slice_index_or};
ghost use Rattle.table.specs.Nodes.{overlaid, Written};

use crate::entry::Span;

// Node `i` of a row, the zero node where there is none.
pub fn node_at<N: Copy + Default>(row: &[N], i: u16) -> N
    ensures there { i < length row.now → (d : N) → result ≡ slice_index_or row.now i d }
    ensures past { length row.now ≤ i → N.is_default result }
{
    row.get(i as usize).copied().unwrap_or_default()
}

// Copies a row to the front of `out`, as much of it as there is room for.
pub fn overlay<N: Copy>(row: &[N], out: &mut [N])
    ensures { out.new ≡ overlaid row.now out.old }
{
    let n = row.len().min(out.len());
    out[..n].copy_from_slice(&row[..n]);
}

// Writes a row into a memory from `start` on, and answers where it then stands.
pub(crate) fn write<N: Copy>(row: &[N], start: u16, memory: &mut [N]) -> Span
    requires room { start + length row.now ≤ length memory.old }
    requires few { length row.now < 65536 }
    ensures { Written row.now memory.old memory.new start result }
{
    let at = start as usize;
    memory[at..at + row.len()].copy_from_slice(row);
    Span {
        start,
        length: row.len() as u16,
    }
}
