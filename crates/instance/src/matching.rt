// A special list's type matched against a general list's, node by node.
ghost use Rattle.std.specs.Prelude.{◌≡◌, ◌+◌, ◌-◌, ◌<◌, length, Some, None, slice_set, replicate};
ghost use Rattle.types.specs.Lists.{Lawful};
ghost use Rattle.instance.specs.Once.{Once};
ghost use Rattle.instance.specs.Matching.{Given};
ghost use Rattle.instance.specs.Slots.{place_of, places};

use types::{MOST_NODES, Shape, TypeNode};

// An entry of a table in two bytes: one more than the place that it has, or zero where it has none.
#[derive(Clone, Copy, Default)]
pub(crate) struct Slot(u16);

impl Slot {
    // An entry with a place.
    fn of(place: u16) -> Slot
        requires { place < 65535 }
        ensures { place_of result ≡ Some place }
    {
        Slot(place + 1)
    }

    // The place that an entry has.
    fn place(self) -> Option<u16>
        ensures { result ≡ place_of self }
    {
        self.0.checked_sub(1)
    }
}

// What is asked of the general list's nodes, and of its variables: the place of the special list whose type each becomes.
#[derive(Drop)]
pub(crate) struct Matching<'a> {
    general: &'a [TypeNode],
    special: &'a [TypeNode],
    nodes: [Slot; MOST_NODES],
    variables: [Slot; MOST_NODES],
    ghost general_lawful: { Lawful general.now },
    ghost special_lawful: { Lawful special.now },
    ghost special_once: { Once special.now },
}

// Gives an entry of a table a place, unless it has another.
fn give(table: &mut [Slot], entry: u16, place: u16) -> bool
    requires inside { entry < length table.old }
    requires small { place < 65535 }
    ensures { Given (places table.old) (places table.new) entry place result }
{
    match table[entry as usize].place() {
        Some(other) => other == place,
        None => {
            table[entry as usize] = Slot::of(place);
            true
        }
    }
}

impl<'a> Matching<'a> {
    ghost use Rattle.instance.specs.Steps.{Inside, Steps};

    // The last node of the general list shall become the type at a place of the special one.
    pub(crate) fn new(general: &'a [TypeNode], special: &'a [TypeNode], place: u16) -> Self
        requires general { Lawful general.now }
        requires special { Lawful special.now }
        requires once { Once special.now }
        requires small { place < 65535 }
        ensures general { result.general.now ≡ general.now }
        ensures special { result.special.now ≡ special.now }
        ensures nodes { places result.nodes ≡ slice_set (replicate 4096 None) (length general.now - 1) (Some place) }
        ensures variables { places result.variables ≡ replicate 4096 None }
    {
        let mut matching = Matching {
            general,
            special,
            nodes: [Slot::default(); MOST_NODES],
            variables: [Slot::default(); MOST_NODES],
        };
        matching.nodes[general.len() - 1] = Slot::of(place);
        matching
    }

    // Asks of the parts of a node of the general list what is asked of the node.
    pub(crate) fn step(&mut self, at: usize) -> bool
        requires here { at < length self.old.general.now }
        requires within { Inside self.old (at + 1) }
        ensures general { self.new.general ≡ self.old.general }
        ensures special { self.new.special ≡ self.old.special }
        ensures stepped { Steps self.old self.new at result }
    {
        let Some(place) = self.nodes[at].place() else {
            return true;
        };
        let has = self.special[place as usize];
        match self.general[at].shape() {
            Some(Shape::Variable(number)) => give(&mut self.variables, number, place),
            Some(Shape::Base(code)) => has.shape() == Some(Shape::Base(code)),
            Some(Shape::Arrow(left, right)) => match has.shape() {
                Some(Shape::Arrow(has_left, has_right)) => {
                    give(&mut self.nodes, left, has_left) && give(&mut self.nodes, right, has_right)
                }
                _ => false,
            },
            None => unreachable!(),
        }
    }
}
