// The bytes of one entry: its name, and its nodes.
ghost use Rattle.std.specs.Prelude.{◌≡◌, ◌+◌, ◌*◌, ◌<◌, ◌≤◌, [], ◌∷◌, length, Decides, slice_index, slice_index_or};
ghost use Rattle.types.specs.Lists.{Lawful, zero_node};
ghost use Rattle.catalogue_file.specs.Numbers.{number};
ghost use Rattle.catalogue_file.specs.Parts.{name_of, rest_of, nodes_of, Formed};

use text::classes::Classes;
use text::words::is_name;
use types::{MOST_NODES, TypeNode, is_lawful_node};

// How many bytes a node has.
const NODE_BYTES: usize = 5;

// The name of an entry, and what stands behind it.
pub fn split(part: &[u8]) -> (&[u8], &[u8])
    ensures name { result.0.now ≡ name_of part.now }
    ensures rest { result.1.now ≡ rest_of part.now }
{
    match part {
        [] => (part, part),
        [length, rest @ ..] => rest.split_at((*length as usize).min(rest.len())),
    }
}

// How many whole nodes there are.
pub fn node_count(rest: &[u8]) -> usize
    ensures value { result ≡ length (nodes_of rest.now) }
    ensures inside { 5 * result ≤ length rest.now }
{
    rest.len() / NODE_BYTES
}

// Node i, or else the zero node.
pub fn node_at(rest: &[u8], i: u16) -> TypeNode
    ensures { result ≡ slice_index_or (nodes_of rest.now) i zero_node }
{
    match rest.get(NODE_BYTES * i as usize..).unwrap_or(&[]) {
        [kind, a, b, c, d, ..] => TypeNode {
            kind: *kind,
            left: u16::from_le_bytes([*a, *b]),
            right: u16::from_le_bytes([*c, *d]),
        },
        _ => TypeNode::default(),
    }
}

// Whether an entry is a lawful name, and behind it 1 to `most` whole nodes.
pub fn is_formed(classes: &Classes, most: usize, part: &[u8]) -> bool
    ensures { Decides result (Formed most part.now) }
{
    let (name, rest) = split(part);
    let count = node_count(rest);
    part.first()
        .is_some_and(|length| (*length as usize) < part.len())
        && is_name(classes, name)
        && rest.len() == NODE_BYTES * count
        && (1..=most).contains(&count)
}

// Whether the nodes are a lawful list.
pub fn are_lawful(rest: &[u8]) -> bool
    ensures { Decides result (Lawful (nodes_of rest.now)) }
{
    let count = node_count(rest);
    (1..=MOST_NODES).contains(&count)
        && (0..count as u16).all(|place| is_lawful_node(node_at(rest, place), place as usize))
}
