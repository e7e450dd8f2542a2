// A candidate that is left open for a while.
ghost use Rattle.std.specs.Prelude.{◌≡◌};
ghost use Rattle.book.specs.History.{EveryRun};
ghost use Rattle.book_desk.specs.Represented.{Open};

use book::book::Book;
use book::ticket::Ticket;
use book_desk::desk::Desk;
use book_desk::fresh::on_a_new_book;
use book_desk::opened::refused_withdrawal;
use book_desk::telling::{tell_fault, tell_length, tell_passed};
use catalogue::builtin::Builtin;
use catalogue::interface::Catalogue;
use std::io;
use types::TypeNode;

// The candidate's type is shown; it has no line and no derivation yet.
fn look<C: Catalogue>(rt: &HostRuntime, book: &Book<C>, number: u16) -> io::Result<()> {
    let mut out = vec![in rt.alloc(); 0u8; 4104]?;
    tell_length(rt, "the candidate shown", book.show(number, &mut out))?;
    tell_length(rt, "number 1 shown", book.show(1, &mut out))?;
    tell_length(rt, "number 65,535 shown", book.show(65535, &mut out))?;
    let line = book.line(Ok(number), &mut out);
    tell_length(rt, "the candidate's line", line)
}

// The derivation of a candidate is neither made nor checked.
fn look_for_derivation<C: Catalogue>(
    rt: &HostRuntime,
    book: &Book<C>,
    number: u16,
) -> io::Result<()> {
    let mut types = [TypeNode::default(); 2];
    let mut places = [0u16; 2];
    let mut numbers = [0u32; 32];
    let derived = book.derive(number, &mut types, &mut places, &mut numbers);
    tell_length(rt, "the candidate's derivation", derived)?;
    let checked = book.check(number, &types, &places);
    tell_passed(rt, "a check of it", checked)
}

// What is refused while a candidate is open; at the end it is dismissed.
fn while_open<C: Catalogue>(
    rt: &HostRuntime,
    book: &mut Book<C>,
    ticket: Ticket,
    desk: &mut Desk,
) -> io::Result<()>
    requires { Open C.entries book.old }
{
    desk.scribble();
    let second = desk.refused_submit(book, b"\\x.\\y.y");
    let withdrawal = refused_withdrawal(book);
    let looked = look(rt, book, ticket.number());
    let sought = look_for_derivation(rt, book, ticket.number());
    book.dismiss(ticket).unwrap();
    looked?;
    sought?;
    let left = desk.left();
    print!(rt; "submitted while a candidate is open ({left}): ")?;
    tell_fault(rt, second)?;
    print!(rt; "withdrawn while a candidate is open: ")?;
    tell_fault(rt, withdrawal)
}

// Leaves the candidate of a new book open for a while.
fn leave_open<C: Catalogue>(rt: &HostRuntime, book: &mut Book<C>, desk: &mut Desk) -> io::Result<()>
    requires { EveryRun C.entries book.old }
{
    match desk.submit(book, b"\\x.x") {
        Ok(ticket) => while_open(rt, book, ticket, desk),
        Err(fault) => tell_fault(rt, fault),
    }
}

pub fn open_candidate(rt: &HostRuntime, desk: &mut Desk) -> io::Result<()> {
    on_a_new_book(Builtin, |book| leave_open(rt, book, desk))
}
