// The calls on a desk: it is scribbled on, and what a submit left there is found out.
ghost use Rattle.std.specs.Prelude.{length, IfOk, Decides};
ghost use Rattle.book_desk.specs.Desks.{TermsAre, TypesAre, NumbersAre, Holds, Finds, Scribbled};

use crate::desk::{Desk, Left, Room};
use std::alloc::{AllocError, Global};
use term::TermNode;
use types::TypeNode;

// What a trial writes into a memory before it is passed on.
const SCRIBBLED_TERM: TermNode = TermNode { kind: 9, number: 9 };

const SCRIBBLED_TYPE: TypeNode = TypeNode {
    kind: 9,
    left: 9,
    right: 9,
};

const SCRIBBLED_NUMBER: u32 = 9;

impl Desk {
    // A desk with memories of these lengths, none of them clear.
    pub fn new(heap: Global, room: Room) -> Result<Desk, AllocError>
        ensures { IfOk result (λ d. Scribbled room.terms room.types room.numbers d) }
    {
        let terms = vec![in heap; SCRIBBLED_TERM; room.terms]?;
        let types = vec![in heap; SCRIBBLED_TYPE; room.types]?;
        let numbers = vec![in heap; SCRIBBLED_NUMBER; room.numbers]?;
        Ok(Desk {
            terms,
            types,
            numbers,
        })
    }

    // Writes over all memories.
    pub fn scribble(&mut self)
        ensures { Scribbled (length self.old.terms.items) (length self.old.types.items) (length self.old.numbers.items) self.new }
    {
        self.terms.fill(SCRIBBLED_TERM);
        self.types.fill(SCRIBBLED_TYPE);
        self.numbers.fill(SCRIBBLED_NUMBER);
    }

    // Whether the fields of all nodes, and all numbers, are the same.
    fn holds(&self, value: u8) -> bool
        ensures { Decides result (Holds self.now value) }
    {
        terms_are(&self.terms, value)
            && types_are(&self.types, value)
            && numbers_are(&self.numbers, value)
    }

    // What is in the memories of a desk that was scribbled on.
    pub fn left(&self) -> Left
        ensures { Finds self.now result }
    {
        if self.holds(9) {
            return Left::Kept;
        }
        if self.holds(0) {
            return Left::Zeros;
        }
        Left::Mixed
    }
}

// One chain for each memory: a generic one would compare by `==`, and say less than that the nodes are these.
fn terms_are(terms: &[TermNode], value: u8) -> bool
    ensures { Decides result (TermsAre terms.now value) }
{
    let node = TermNode {
        kind: value,
        number: value as u16,
    };
    terms.iter().all(|term| *term == node)
}

fn types_are(types: &[TypeNode], value: u8) -> bool
    ensures { Decides result (TypesAre types.now value) }
{
    let node = TypeNode {
        kind: value,
        left: value as u16,
        right: value as u16,
    };
    types.iter().all(|record| *record == node)
}

fn numbers_are(numbers: &[u32], value: u8) -> bool
    ensures { Decides result (NumbersAre numbers.now value) }
{
    numbers.iter().all(|number| *number == value as u32)
}
