// Trials of tickets: a candidate left open, and tickets tried on another book.
#![tactic(auto)]

mod crossing;
mod opening;
mod tickets;

use book_desk::desk::{Desk, FULL_ROOM};
use crossing::{another_books_ticket, dismissed_and_withdrawn, exchanged_tickets};
use opening::open_candidate;
use std::io;

fn main(rt: HostRuntime) -> io::Result<()> {
    let mut desk = Desk::new(rt.alloc(), FULL_ROOM)?;
    open_candidate(&rt, &mut desk)?;
    another_books_ticket(&rt, &mut desk)?;
    exchanged_tickets(&rt, &mut desk)?;
    dismissed_and_withdrawn(&rt, &mut desk)
}
