// What a trial prints: its name, what is left in the memories, and the line of its outcome.
use crate::desk::Desk;
use book::book::Book;
use book::fault::BookFault;
use book::outcome::Outcome;
use catalogue::interface::Catalogue;
use refusal::Refusal;
use std::io::Write;
use std::{fmt, io};

// Room for a line.
const LINE: usize = 4104;

// A formula's number, as it is written in formulas.
#[derive(Clone, Copy)]
struct Number(u16);

impl fmt::Display for Number {
    fn fmt<W: fmt::Write>(&self, f: &mut fmt::Formatter<W>) -> fmt::Result {
        write!(f, "#{}", self.0)
    }
}

// Prints the line of an outcome.
pub fn tell<C: Catalogue>(rt: &HostRuntime, book: &Book<C>, outcome: Outcome) -> io::Result<()> {
    let mut out = vec![in rt.alloc(); 0u8; LINE]?;
    match book.line(outcome, &mut out) {
        Ok(length) => {
            let mut to = rt.stdout();
            to.write_all(out.get(0..length).unwrap_or(&out))
        }
        Err(fault) => tell_fault(rt, fault),
    }
}

// Prints a refusal.
pub fn tell_fault(rt: &HostRuntime, fault: BookFault) -> io::Result<()> {
    println!(rt; "{}", Refusal::from(fault))
}

// Prints what an answer says, or the refusal.
fn tell_answer<T: fmt::Display + Drop>(
    rt: &HostRuntime,
    name: &str,
    answer: Result<T, BookFault>,
) -> io::Result<()> {
    print!(rt; "{name}: ")?;
    match answer {
        Ok(said) => println!(rt; "{said}"),
        Err(fault) => tell_fault(rt, fault),
    }
}

// Prints how long an answer is, or the refusal.
pub fn tell_length(
    rt: &HostRuntime,
    name: &str,
    answer: Result<usize, BookFault>,
) -> io::Result<()> {
    tell_answer(rt, name, answer)
}

// Prints a formula's number, or the refusal.
pub fn tell_number(rt: &HostRuntime, name: &str, answer: Result<u16, BookFault>) -> io::Result<()> {
    tell_answer(rt, name, answer.map(Number))
}

// Prints that something was done, or the refusal.
pub fn tell_passed(rt: &HostRuntime, name: &str, answer: Result<(), BookFault>) -> io::Result<()> {
    tell_answer(rt, name, answer.map(|()| "passed"))
}

// Submits a formula, files it if it is taken up, and prints what came of it. The book is lent by the one who made it, and
// the desk by another: a struct of both would be made anew for each trial.
pub fn attempt<C: Catalogue>(
    rt: &HostRuntime,
    book: &mut Book<C>,
    name: &str,
    text: &[u8],
    desk: &mut Desk,
) -> io::Result<()> {
    desk.scribble();
    let outcome = desk.submit_and_file(book, text);
    let left = desk.left();
    print!(rt; "{name} ({left}): ")?;
    tell(rt, book, outcome)
}
