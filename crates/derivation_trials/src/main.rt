// Trials of derivations: those that the book makes are passed by its check, and others are refused.
#![tactic(auto)]

mod changes;
mod lists;

use book::book::Book;
use book_desk::desk::{Desk, FULL_ROOM};
use book_desk::fresh::on_a_new_book;
use catalogue::builtin::Builtin;
use changes::derivations;
use lists::other_lists;
use std::io;

fn perform(rt: &HostRuntime, book: &mut Book<Builtin>, desk: &mut Desk) -> io::Result<()> {
    derivations(rt, book, desk)?;
    other_lists(rt, book)
}

fn main(rt: HostRuntime) -> io::Result<()> {
    let mut desk = Desk::new(rt.alloc(), FULL_ROOM)?;
    on_a_new_book(Builtin, |book| perform(&rt, book, &mut desk))
}
