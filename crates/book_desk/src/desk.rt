// The memories that trials work in.
ghost use Rattle.std.specs.Prelude.{◌≡◌, Some};
ghost use Rattle.book_desk.specs.Desks.{word as word_of};

use std::fmt;
use term::TermNode;
use types::TypeNode;

// How long the memories are.
#[derive(Clone, Copy)]
pub struct Room {
    pub terms: usize,
    pub types: usize,
    pub numbers: usize,
}

// Room for every formula.
pub const FULL_ROOM: Room = Room {
    terms: 1024,
    types: 4096,
    numbers: 40960,
};

#[derive(Drop)]
pub struct Desk {
    pub terms: Vec<TermNode>,
    pub types: Vec<TypeNode>,
    pub numbers: Vec<u32>,
}

// What a call left on a desk that was scribbled on: what was there, zeros, or neither.
#[derive(Clone, Copy)]
pub enum Left {
    Kept,
    Zeros,
    Mixed,
}

impl Left {
    // A word for what was left.
    pub fn word(&self) -> &'static str
        ensures { result.now ≡ word_of self.now }
    {
        match *self {
            Left::Kept => "kept",
            Left::Zeros => "zeros",
            Left::Mixed => "mixed",
        }
    }
}

impl fmt::Display for Left {
    ghost output = { λ l. Some (word_of l) };

    fn fmt<W: fmt::Write>(&self, f: &mut fmt::Formatter<W>) -> fmt::Result {
        f.write_str(self.word())
    }
}
