// Trials of the book: each prints its name, what a submit left in the memories, and the line of its outcome.
#![tactic(auto)]

mod empty;
mod formulas;
mod limits;
mod memories;

use book_desk::desk::{Desk, FULL_ROOM};
use book_desk::fresh::on_a_new_book;
use catalogue::builtin::Builtin;
use empty::{Empty, without_primitives};
use formulas::{doubling, formulas};
use limits::{great_needs, long_texts, many_formulas, many_term_nodes, many_type_nodes};
use memories::{short_looks, short_memories};
use std::io;

fn main(rt: HostRuntime) -> io::Result<()> {
    let mut desk = Desk::new(rt.alloc(), FULL_ROOM)?;
    on_a_new_book(Builtin, |book| formulas(&rt, book, &mut desk))?;
    on_a_new_book(Builtin, |book| doubling(&rt, book, &mut desk))?;
    on_a_new_book(Builtin, |book| long_texts(&rt, book, &mut desk))?;
    on_a_new_book(Builtin, |book| many_formulas(&rt, book, &mut desk))?;
    on_a_new_book(Builtin, |book| many_term_nodes(&rt, book, &mut desk))?;
    on_a_new_book(Builtin, |book| many_type_nodes(&rt, book, &mut desk))?;
    on_a_new_book(Builtin, |book| great_needs(&rt, book, &mut desk))?;
    on_a_new_book(Builtin, |book| short_memories(&rt, book))?;
    on_a_new_book(Builtin, |book| short_looks(&rt, book, &mut desk))?;
    on_a_new_book(Empty, |book| without_primitives(&rt, book, &mut desk))
}
