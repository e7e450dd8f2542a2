// Two books, and what tickets do on the other one.
ghost use Rattle.std.specs.Prelude.{◌≡◌, true};
ghost use Rattle.ledger.specs.Calls.{dismiss as to_dismiss, dismissed as is_dismissed};
ghost use Rattle.book.specs.History.{Does};
ghost use Rattle.book.specs.Replies.{has_candidate};

use crate::tickets::{file_crosswise, file_in_either};
use book::book::Book;
use book::fault::BookFault;
use book::ticket::Ticket;
use book_desk::desk::Desk;
use book_desk::fresh::on_a_new_book;
use book_desk::telling::{tell, tell_fault, tell_number, tell_passed};
use catalogue::builtin::Builtin;
use catalogue::interface::Catalogue;
use std::io;

// Prints where a ticket was spent.
fn tell_spent(rt: &HostRuntime, spent: Result<u16, (BookFault, u16)>) -> io::Result<()> {
    match spent {
        Ok(number) => println!(rt; "filed in the other book: #{number}"),
        Err((fault, number)) => {
            print!(rt; "no candidate in the other book: ")?;
            tell_fault(rt, fault)?;
            println!(rt; "the ticket came back, and filed in its own book: #{number}")
        }
    }
}

// Tries the ticket of the second book on the first.
fn try_elsewhere<C: Catalogue>(
    rt: &HostRuntime,
    here: &mut Book<C>,
    there: &mut Book<C>,
    desk: &mut Desk,
) -> io::Result<()> {
    match desk.submit(there, b"\\x.x") {
        Ok(ticket) => tell_spent(rt, file_in_either(here, there, ticket)),
        Err(fault) => tell_fault(rt, fault),
    }
}

// A book without a candidate hands back the ticket of another.
pub fn another_books_ticket(rt: &HostRuntime, desk: &mut Desk) -> io::Result<()> {
    on_a_new_book(Builtin, |here| {
        on_a_new_book(Builtin, |there| try_elsewhere(rt, here, there, desk))
    })
}

// Dismisses the candidate that a book has open.
fn dismiss_open<C: Catalogue>(book: &mut Book<C>, ticket: Ticket)
    requires { has_candidate book.old ≡ true }
    ensures { Does C.entries book.old to_dismiss is_dismissed book.new }
{
    book.dismiss(ticket).unwrap();
}

// Submits a formula to the second book, and files in both by the ticket of the other.
fn exchange<C: Catalogue>(
    rt: &HostRuntime,
    here: &mut Book<C>,
    there: &mut Book<C>,
    mine: Ticket,
    desk: &mut Desk,
) -> io::Result<()>
    requires { has_candidate here.old ≡ true }
{
    match desk.submit(there, b"net_of") {
        Ok(yours) => {
            let (first, second) = file_crosswise(here, there, mine, yours);
            print!(rt; "filed by the other's ticket: ")?;
            tell(rt, here, Ok(first))?;
            print!(rt; "filed by the other's ticket: ")?;
            tell(rt, there, Ok(second))
        }
        Err(fault) => {
            dismiss_open(here, mine);
            tell_fault(rt, fault)
        }
    }
}

// Submits a formula to each of two books, and files in both.
fn submit_to_both<C: Catalogue>(
    rt: &HostRuntime,
    here: &mut Book<C>,
    there: &mut Book<C>,
    desk: &mut Desk,
) -> io::Result<()> {
    match desk.submit(here, b"\\x.x") {
        Ok(mine) => exchange(rt, here, there, mine, desk),
        Err(fault) => tell_fault(rt, fault),
    }
}

// A ticket files the candidate of whichever book it is spent on.
pub fn exchanged_tickets(rt: &HostRuntime, desk: &mut Desk) -> io::Result<()> {
    on_a_new_book(Builtin, |here| {
        on_a_new_book(Builtin, |there| submit_to_both(rt, here, there, desk))
    })
}

// What is dismissed or withdrawn leaves its number to the next.
fn leave_numbers<C: Catalogue>(
    rt: &HostRuntime,
    book: &mut Book<C>,
    desk: &mut Desk,
) -> io::Result<()> {
    tell_number(rt, "withdrawn from a new book", book.withdraw())?;
    tell_passed(rt, "dismissed", desk.submit_and_dismiss(book, b"\\x.x"))?;
    tell_number(
        rt,
        "filed after that",
        desk.submit_and_file(book, b"net_of"),
    )?;
    tell_number(rt, "withdrawn", book.withdraw())?;
    tell_number(rt, "withdrawn again", book.withdraw())?;
    tell_number(
        rt,
        "filed after that",
        desk.submit_and_file(book, b"paid_of"),
    )
}

pub fn dismissed_and_withdrawn(rt: &HostRuntime, desk: &mut Desk) -> io::Result<()> {
    on_a_new_book(Builtin, |book| leave_numbers(rt, book, desk))
}
