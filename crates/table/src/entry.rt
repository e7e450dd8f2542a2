// Where a kept formula stands in the table's two memories.
ghost use Rattle.std.specs.Prelude.{◌≡◌, ◌+◌, ◌≤◌, length};
ghost use Rattle.table.specs.Entries.{part};

// `length` nodes of a memory from `start` on.
#[derive(Clone, Copy, Debug, Default, PartialEq, Eq)]
pub struct Span {
    pub start: u16,
    pub length: u16,
}

impl Span {
    // The place behind its last node.
    pub fn end(self) -> usize
        ensures { result ≡ self.start + self.length }
    {
        self.start as usize + self.length as usize
    }

    // Its nodes in a memory.
    pub fn cut<N>(self, nodes: &[N]) -> &[N]
        requires { self.start + self.length ≤ length nodes.now }
        ensures { result.now ≡ part self.start self.length nodes.now }
    {
        &nodes[self.start as usize..self.end()]
    }
}

// Where its term stands in the one memory, and its type list in the other.
#[derive(Clone, Copy, Debug, Default, PartialEq, Eq)]
pub struct Entry {
    pub term: Span,
    pub list: Span,
}
