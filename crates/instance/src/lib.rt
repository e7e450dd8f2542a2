// Whether one type is an instance of another, decided on lists of type nodes.
#![tactic(auto)]

ghost use Rattle.std.specs.Prelude.{◌≡◌, ◌<◌, true, length, Decides, []};
ghost use Rattle.types.specs.Types.{Instance};
ghost use Rattle.types.specs.Lists.{Lawful, LawfulNode, type_at, meaning};
ghost use Rattle.instance.specs.Once.{Found, Once, PlacesAreTypes};
ghost use Rattle.instance.specs.Merging.{moved, Keeps, Merged};
ghost use Rattle.instance.specs.Deciding.{Answered};

mod matching;

use arrayvec::ArrayVec;
use matching::Matching;
use types::{MOST_NODES, Shape, TypeNode, is_lawful};

// Which of the two lists means no type; the first is asked first.
#[derive(Clone, Copy, Debug, PartialEq, Eq)]
pub enum InstanceFault {
    UnlawfulGeneral,
    UnlawfulSpecial,
}

// A place of a record in a list.
fn find(list: &[TypeNode], node: TypeNode) -> Option<usize>
    ensures { Found list.now node result }
{
    list.iter().position(|other| *other == node)
}

// Whether no two records of a list are equal; in a lawful list its places then stand for types.
pub fn is_once(list: &[TypeNode]) -> bool
    ensures once { Decides result (Once list.now) }
    ensures places { Lawful list.now → result ≡ true → PlacesAreTypes list.now }
{
    for (place, node) in list.iter().enumerate() {
        if list[..place].contains(node) {
            return false;
        }
    }
    true
}

// Whether the type at a place of the special list is an instance of the general list's type. The time is for the nodes of
// the general list, however long the special one is.
pub fn fits(general: &[TypeNode], special: &[TypeNode], place: u16) -> bool
    requires general { Lawful general.now }
    requires special { Lawful special.now }
    requires once { Once special.now }
    requires place { place < length special.now }
    ensures { Decides result (Instance (meaning general.now) (type_at special.now place)) }
{
    let mut matching = Matching::new(general, special, place);
    // A step changes the tables, and a closure that does is not for `all`.
    for at in (0..general.len()).rev() {
        if !matching.step(at) {
            return false;
        }
    }
    true
}

// A record with new places for its parts.
fn with_places(node: TypeNode, places: &[u16]) -> TypeNode
    requires { LawfulNode (length places.now) node }
    ensures { result ≡ moved node places.now }
{
    match node.shape() {
        Some(Shape::Arrow(left, right)) => {
            TypeNode::arrow(places[left as usize], places[right as usize])
        }
        _ => node,
    }
}

// The place of a record in a list; a new one is put last.
fn keep(merged: &mut ArrayVec<TypeNode, MOST_NODES>, node: TypeNode) -> usize
    requires { length merged.old.items < 4096 }
    ensures { Keeps merged.old.items merged.new.items node result }
{
    match find(merged.as_slice(), node) {
        Some(place) => place,
        None => {
            merged.push(node);
            merged.len() - 1
        }
    }
}

// Brings a list into one without equal records, and notes each node's place there.
fn merge(
    list: &[TypeNode],
    merged: &mut ArrayVec<TypeNode, MOST_NODES>,
    places: &mut ArrayVec<u16, MOST_NODES>,
)
    requires lawful { Lawful list.now }
    requires merged { merged.old.items ≡ [] }
    requires places { places.old.items ≡ [] }
    ensures { Merged list.now merged.new.items places.new.items (length list.now) }
{
    for node in list {
        let moved = with_places(*node, places.as_slice());
        let place = keep(merged, moved);
        places.push(place as u16);
    }
}

// Whether the second list's type is an instance of the first's.
pub fn is_instance(general: &[TypeNode], special: &[TypeNode]) -> Result<bool, InstanceFault>
    ensures { Answered general.now special.now result }
{
    if !is_lawful(general) {
        return Err(InstanceFault::UnlawfulGeneral);
    }
    if !is_lawful(special) {
        return Err(InstanceFault::UnlawfulSpecial);
    }
    let mut merged = ArrayVec::new();
    let mut places = ArrayVec::new();
    merge(special, &mut merged, &mut places);
    let place = places[special.len() - 1];
    Ok(fits(general, merged.as_slice(), place))
}

#[cfg(test)]
mod tests;
