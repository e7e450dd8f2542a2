// Formulas and their types, or why they are refused.
use book::book::Book;
use book_desk::desk::Desk;
use book_desk::telling::attempt;
use catalogue::interface::Catalogue;
use std::io;

// Submits each text, which is its own name.
fn attempt_each<C: Catalogue>(
    rt: &HostRuntime,
    book: &mut Book<C>,
    texts: &[&str],
    desk: &mut Desk,
) -> io::Result<()> {
    for text in texts {
        attempt(rt, book, text, text.as_bytes(), desk)?;
    }
    Ok(())
}

// Formulas in the order in which they are submitted; those that are filed are numbered from 0.
const FORMULAS: [&str; 18] = [
    "#0",
    "\\x.x",
    "#0 #0",
    "\\x.x x",
    "(\\i.i i) (\\x.x)",
    "(\\x.\\y.y) (\\z.z z)",
    "choose",
    "\\h.\\r.paid_of (net_of (gross_of h r))",
    "\\h.\\r.paid_of (gross_of h r)",
    "\\f.\\g.\\x.f (g x)",
    "",
    "x \\y.y",
    "\\x.y",
    "#4 net_of #0",
    "#5 paid_of",
    "#6",
    "choose #6 #9",
    "#6 (\\x.y)",
];

pub fn formulas<C: Catalogue>(
    rt: &HostRuntime,
    book: &mut Book<C>,
    desk: &mut Desk,
) -> io::Result<()> {
    attempt_each(rt, book, &FORMULAS, desk)
}

// Formulas whose types double in size, while their lists grow by a few nodes.
const DOUBLING: [&str; 4] = [
    "\\x.\\f.f x x",
    "\\x.#0 (#0 x)",
    "\\x.#1 (#1 x)",
    "\\x.#2 (#2 (#2 (#2 x)))",
];

pub fn doubling<C: Catalogue>(
    rt: &HostRuntime,
    book: &mut Book<C>,
    desk: &mut Desk,
) -> io::Result<()> {
    attempt_each(rt, book, &DOUBLING, desk)
}
