// A book over a catalogue without entries.
ghost use Rattle.book_trials.specs.Empty.{nothing, nothing_few, nothing_lawful};

use book::book::Book;
use book_desk::desk::Desk;
use book_desk::telling::attempt;
use catalogue::interface::Catalogue;
use std::io;
use types::TypeNode;

#[derive(Clone, Copy)]
pub struct Empty;

impl Catalogue for Empty {
    ghost entries = { λ _. nothing };

    ghost few = { λ _. nothing_few };

    ghost lawful = { λ _. nothing_lawful };

    fn count(&self) -> u16 {
        0
    }

    fn find(&self, _name: &[u8]) -> Option<u16> {
        None
    }

    fn nodes(&self, _k: u16) -> u16 {
        0
    }

    fn node(&self, _k: u16, _i: u16) -> TypeNode {
        TypeNode::default()
    }
}

// Formulas without primitives have their types as ever, and every name of a primitive is unbound.
pub fn without_primitives<C: Catalogue>(
    rt: &HostRuntime,
    book: &mut Book<C>,
    desk: &mut Desk,
) -> io::Result<()> {
    attempt(rt, book, "nothing in the catalogue, \\x.x", b"\\x.x", desk)?;
    attempt(rt, book, "nothing in the catalogue, #0 #0", b"#0 #0", desk)?;
    attempt(
        rt,
        book,
        "nothing in the catalogue, gross_of",
        b"gross_of",
        desk,
    )
}
