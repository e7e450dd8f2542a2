// Memories that are just long enough, and one short.
ghost use Rattle.std.specs.Prelude.{IfOk, Ok};
ghost use Rattle.ledger.specs.Calls.{show as to_show, line as to_line, derive as to_derive};
ghost use Rattle.book.specs.History.{Does};
ghost use Rattle.book.specs.Replies.{reply_show, reply_line, reply_derive};

use book::book::Book;
use book::fault::BookFault;
use book_desk::desk::{Desk, FULL_ROOM, Room};
use book_desk::telling::{attempt, tell_length};
use catalogue::interface::Catalogue;
use std::alloc::{AllocError, Global};
use std::io;
use types::TypeNode;

// Submits the identity, which has 2 term nodes and needs 2 type records and 32 numbers, in memories of these lengths.
fn attempt_in<C: Catalogue>(
    rt: &HostRuntime,
    book: &mut Book<C>,
    name: &str,
    room: Room,
) -> io::Result<()> {
    let mut desk = Desk::new(rt.alloc(), room)?;
    attempt(rt, book, name, b"\\x.x", &mut desk)
}

// Memories that serve the identity, and those with one memory short.
pub fn short_memories<C: Catalogue>(rt: &HostRuntime, book: &mut Book<C>) -> io::Result<()> {
    let just = Room {
        terms: 2,
        types: 2,
        numbers: 32,
    };
    attempt_in(rt, book, "just enough", just)?;
    attempt_in(
        rt,
        book,
        "1 term node",
        Room {
            terms: 1,
            ..FULL_ROOM
        },
    )?;
    attempt_in(
        rt,
        book,
        "1 type node",
        Room {
            types: 1,
            ..FULL_ROOM
        },
    )?;
    attempt_in(
        rt,
        book,
        "31 numbers",
        Room {
            numbers: 31,
            ..FULL_ROOM
        },
    )
}

// How many records the derivation of formula 0 has, in memories of these lengths.
fn derived<C: Catalogue>(
    heap: Global,
    book: &Book<C>,
    types: usize,
    places: usize,
    numbers: usize,
) -> Result<Result<usize, BookFault>, AllocError>
    ensures { IfOk result (λ a. Does C.entries book.now (to_derive 0 types places numbers) (reply_derive a) book.now) }
{
    let mut types = vec![in heap; TypeNode::default(); types]?;
    let mut places = vec![in heap; 0u16; places]?;
    let mut numbers = vec![in heap; 0u32; numbers]?;
    Ok(book.derive(0, &mut types, &mut places, &mut numbers))
}

// Derivations of the identity in just enough memory, and in less.
fn short_derivations<C: Catalogue>(rt: &HostRuntime, book: &Book<C>) -> io::Result<()> {
    let heap = rt.alloc();
    tell_length(rt, "derived in just enough", derived(heap, book, 2, 2, 32)?)?;
    tell_length(rt, "derived, 1 type node", derived(heap, book, 1, 2, 32)?)?;
    tell_length(rt, "derived, 1 place", derived(heap, book, 2, 1, 32)?)?;
    tell_length(rt, "derived, 31 numbers", derived(heap, book, 2, 2, 31)?)
}

// How long the line of formula 0 is, in so much room.
fn line_in<C: Catalogue>(
    heap: Global,
    book: &Book<C>,
    room: usize,
) -> Result<Result<usize, BookFault>, AllocError>
    ensures { IfOk result (λ a. Does C.entries book.now (to_line (Ok 0) room) (reply_line a) book.now) }
{
    let mut out = vec![in heap; 0u8; room]?;
    Ok(book.line(Ok(0), &mut out))
}

// How long the type of formula 0 is, in so much room: a function of its own, for it promises another call.
fn show_in<C: Catalogue>(
    heap: Global,
    book: &Book<C>,
    room: usize,
) -> Result<Result<usize, BookFault>, AllocError>
    ensures { IfOk result (λ a. Does C.entries book.now (to_show 0 room) (reply_show a) book.now) }
{
    let mut out = vec![in heap; 0u8; room]?;
    Ok(book.show(0, &mut out))
}

// Looks at the identity in just enough memory, and in less.
pub fn short_looks<C: Catalogue>(
    rt: &HostRuntime,
    book: &mut Book<C>,
    desk: &mut Desk,
) -> io::Result<()> {
    attempt(rt, book, "the identity", b"\\x.x", desk)?;
    short_derivations(rt, book)?;
    let heap = rt.alloc();
    tell_length(rt, "a line in 4,104 bytes", line_in(heap, book, 4104)?)?;
    tell_length(rt, "a line in 4,103 bytes", line_in(heap, book, 4103)?)?;
    tell_length(rt, "shown in 6 bytes", show_in(heap, book, 6)?)?;
    tell_length(rt, "shown in 5 bytes", show_in(heap, book, 5)?)
}
