// Layouts of catalogue files: where the numbers stand, and how much a file may hold.
#[derive(Clone, Copy)]
pub struct Layout {
    // How many bytes stand before the count, and the number that they write.
    pub front: usize,
    pub mark: usize,
    // How many bytes a number has: the count, and the offset and the length of an entry.
    pub width: usize,
    // The least and the most bytes of a file.
    pub least: usize,
    pub most: usize,
    // The most entries of a file, and the most nodes of an entry.
    pub entries: usize,
    pub nodes: usize,
}

// The layout with numbers of 16 bits.
pub const SHORT: Layout = Layout {
    front: 0,
    mark: 0,
    width: 2,
    least: 2,
    most: 65535,
    entries: 256,
    nodes: 64,
};
