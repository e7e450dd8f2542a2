// Formulas from an input, one to a line, submitted and filed in one book; what became of each is printed.
use crate::plan::{outcome, plan};
use book::book::Book;
use book::carrying::keep_book;
use book::dealing::Answer;
use book::fault::BookFault;
use catalogue::interface::Catalogue;
pub use cutting::read_input;
use std::io;
use std::io::Write;
use term::TermNode;
use types::TypeNode;

// Room for the largest formula, and for the longest line.
const TERMS: usize = 1024;

const TYPES: usize = 4096;

const NUMBERS: usize = 40960;

const BYTES: usize = 4104;

// Prints a line for each two answers: to a submit, and to the filing after it.
fn print_outcomes<C: Catalogue>(
    rt: &HostRuntime,
    book: &Book<C>,
    answers: &[Result<Answer, BookFault>],
    out: &mut [u8],
) -> io::Result<()> {
    let mut to = rt.stdout();
    'answers: for pair in answers.chunks(2) {
        if let [submitted, filed] = pair {
            if let Ok(length) = book.line(outcome(*submitted, *filed), out) {
                to.write_all(out.get(0..length).unwrap_or(out))?;
            }
        }
    }
    Ok(())
}

// Submits each line to a new book over the catalogue, files what is accepted, and prints what became of it.
pub fn serve<C: Catalogue + Drop>(rt: &HostRuntime, catalogue: C, input: &[u8]) -> io::Result<()> {
    let heap = rt.alloc();
    let dealings = plan(heap, input)?;
    let mut answers = vec![in heap; Ok(Answer::Passed); dealings.len()]?;
    let mut terms = vec![in heap; TermNode::default(); TERMS]?;
    let mut types = vec![in heap; TypeNode::default(); TYPES]?;
    let mut numbers = vec![in heap; 0u32; NUMBERS]?;
    let mut out = vec![in heap; 0u8; BYTES]?;
    let book = keep_book(
        catalogue,
        &dealings,
        input,
        &mut terms,
        &mut types,
        &mut numbers,
        &mut [],
        &mut out,
        &mut answers,
    );
    let printed = print_outcomes(rt, &book, &answers, &mut out);
    let _ = book.close();
    printed
}
