// Brings lists of the greatest length to their normal lists: types whose trees have up to 2^4095 leaves.
#![tactic(auto)]

ghost use Rattle.std.specs.Prelude.{◌≡◌, true};

use std::{fmt, io};
use types::{BASE, MOST_NODES, TypeNode};
use walk::{Looped, Refused};

// A list of the greatest length, and numbers to work with.
#[derive(Drop)]
struct Desk {
    list: [TypeNode; MOST_NODES],
    marks: [u32; MOST_NODES],
    origins: [u32; MOST_NODES],
    heads: [u32; MOST_NODES],
    nexts: [u32; MOST_NODES],
}

impl Desk {
    fn new(list: [TypeNode; MOST_NODES]) -> Self {
        Desk {
            list,
            marks: [7; MOST_NODES],
            origins: [7; MOST_NODES],
            heads: [7; MOST_NODES],
            nexts: [7; MOST_NODES],
        }
    }

    fn normalize(&mut self, memory: &mut [TypeNode]) -> Result<usize, Refused> {
        walk::normalize(
            &self.list,
            memory,
            &mut self.marks,
            &mut self.origins,
            &mut self.heads,
            &mut self.nexts,
        )
    }
}

// A node as it is printed.
#[derive(Drop)]
struct Row(TypeNode);

impl fmt::Display for Row {
    fn fmt<W: fmt::Write>(&self, f: &mut fmt::Formatter<W>) -> fmt::Result {
        let Row(node) = self;
        write!(f, "{} {} {}", node.kind, node.left, node.right)
    }
}

// Each node an arrow from the node before it to the same.
fn doubling() -> [TypeNode; MOST_NODES] {
    let mut list = [TypeNode::default(); MOST_NODES];
    for i in 1..MOST_NODES as u16 {
        list[i as usize] = TypeNode::arrow(i - 1, i - 1);
    }
    list
}

// Every node twice, with a variable of the same number at the bottom of both.
fn twice() -> [TypeNode; MOST_NODES] {
    let mut list = [TypeNode::variable(4095); MOST_NODES];
    for i in 1..MOST_NODES as u16 / 2 {
        let (left, right) = (2 * i - 2, 2 * i - 1);
        list[2 * i as usize] = TypeNode::arrow(left, right);
        list[2 * i as usize + 1] = TypeNode::arrow(right, left);
    }
    list
}

// Whether the graph of one node, an arrow from itself to itself, has no solution.
fn self_arrow_loops() -> bool
    ensures { result ≡ true }
{
    let mut memory = [TypeNode::arrow(0, 0)];
    let mut roots = [0];
    let mut marks = [0];
    let mut origins = [0];
    let mut heads = [0];
    let mut nexts = [0];
    match walk::list_types(
        &mut memory,
        1,
        &mut roots,
        &mut marks,
        &mut origins,
        &mut heads,
        &mut nexts,
    ) {
        Ok(_) => false,
        Err(Looped) => true,
    }
}

fn main(rt: HostRuntime) -> io::Result<()> {
    let mut memory = [TypeNode {
        kind: BASE,
        left: 9,
        right: 9,
    }; MOST_NODES];
    if let Ok(count) = Desk::new(doubling()).normalize(&mut memory) {
        println!(rt;
            "doubling: {} records, at 4095: {}",
            count,
            Row(memory[4095])
        )?;
    }
    let mut desk = Desk::new(twice());
    if let Ok(count) = desk.normalize(&mut memory) {
        println!(rt;
            "twice: {} records, at 2047: {}, at 2048: {}",
            count,
            Row(memory[2047]),
            Row(memory[2048])
        )?;
    }
    if self_arrow_loops() {
        println!(rt; "an arrow from itself: a loop")?;
    }
    // a node that is no type, and a memory that is too short
    desk.list[17] = TypeNode::arrow(17, 0);
    if desk.normalize(&mut memory) == Err(Refused::Unlawful) {
        println!(rt; "unlawful, memory kept: {}", Row(memory[1]))?;
    }
    desk.list[17] = TypeNode::default();
    if desk.normalize(&mut memory[..1]) == Err(Refused::ShortMemory) {
        println!(rt; "short memory")?;
    }
    Ok(())
}
