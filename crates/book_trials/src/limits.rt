// Texts, books and formulas at their greatest sizes, and one above.
ghost use Rattle.std.specs.Prelude.{◌≡◌, ◌+◌, ◌*◌, length, IfOk, vec_len};

use book::book::Book;
use book_desk::desk::Desk;
use book_desk::telling::{attempt, tell_fault, tell_number};
use catalogue::interface::Catalogue;
use std::alloc::{AllocError, Global};
use std::io;

const MOST_FORMULAS: u16 = 128;

// A text: a head, and then a piece so many times.
fn repeated(heap: Global, head: &[u8], piece: &[u8], times: u16) -> Result<Vec<u8>, AllocError>
    ensures { IfOk result (λ v. vec_len v ≡ length head.now + times * length piece.now) }
{
    let mut text = head.to_vec(heap)?;
    for turn in 0..times {
        text.extend_from_slice(piece)?;
    }
    Ok(text)
}

// Submits a text of a head and a repeated piece.
fn attempt_repeated<C: Catalogue>(
    rt: &HostRuntime,
    book: &mut Book<C>,
    name: &str,
    parts: (&[u8], &[u8], u16),
    desk: &mut Desk,
) -> io::Result<()> {
    let (head, piece, times) = parts;
    let text = repeated(rt.alloc(), head, piece, times)?;
    attempt(rt, book, name, &text, desk)
}

// Texts of the greatest length, and terms with the most nodes.
pub fn long_texts<C: Catalogue>(
    rt: &HostRuntime,
    book: &mut Book<C>,
    desk: &mut Desk,
) -> io::Result<()> {
    attempt_repeated(rt, book, "4,096 spaces", (b"", b" ", 4096), desk)?;
    attempt_repeated(rt, book, "4,097 spaces", (b"", b" ", 4097), desk)?;
    attempt_repeated(
        rt,
        book,
        "1,024 nodes without a type",
        (b"\\x.", b" x", 512),
        desk,
    )?;
    attempt_repeated(rt, book, "1,026 nodes", (b"\\x.", b" x", 513), desk)
}

// Files 128 formulas, and prints the number of the last.
fn fill<C: Catalogue>(rt: &HostRuntime, book: &mut Book<C>, desk: &mut Desk) -> io::Result<()> {
    let mut last = 0;
    for _ in 0..MOST_FORMULAS {
        match desk.submit_and_file(book, b"\\x.x") {
            Ok(number) => last = number,
            Err(fault) => return tell_fault(rt, fault),
        }
    }
    println!(rt; "the last of 128: #{last}")
}

// A book with 128 formulas takes up no other, until one is withdrawn.
pub fn many_formulas<C: Catalogue>(
    rt: &HostRuntime,
    book: &mut Book<C>,
    desk: &mut Desk,
) -> io::Result<()> {
    fill(rt, book, desk)?;
    attempt(rt, book, "the 129th", b"\\x.x", desk)?;
    attempt(rt, book, "no formula, but the 129th", b"%", desk)?;
    tell_number(rt, "withdrawn", book.withdraw())?;
    attempt(rt, book, "in its place", b"\\x.\\y.x", desk)
}

// Filed terms of 4,096 nodes in all.
pub fn many_term_nodes<C: Catalogue>(
    rt: &HostRuntime,
    book: &mut Book<C>,
    desk: &mut Desk,
) -> io::Result<()> {
    attempt(rt, book, "2 nodes", b"\\x.x", desk)?;
    for _ in 0..3 {
        attempt_repeated(rt, book, "1,024 nodes", (b"\\x.", b"#0 ", 512), desk)?;
    }
    attempt_repeated(
        rt,
        book,
        "1,023 nodes, 4,097 in all",
        (b"", b"#0 ", 512),
        desk,
    )?;
    attempt_repeated(
        rt,
        book,
        "1,022 nodes, 4,096 in all",
        (b"\\x.", b"#0 ", 511),
        desk,
    )?;
    attempt(rt, book, "1 node, 4,097 in all", b"std_hours", desk)
}

// Kept lists of 4,096 nodes in all.
pub fn many_type_nodes<C: Catalogue>(
    rt: &HostRuntime,
    book: &mut Book<C>,
    desk: &mut Desk,
) -> io::Result<()> {
    let text = repeated(rt.alloc(), b"", b"\\x.", 1022)?;
    for _ in 0..2 {
        attempt_repeated(
            rt,
            book,
            "a list of 2,046 nodes",
            (&text, b"\\x.x", 1),
            desk,
        )?;
    }
    attempt(rt, book, "5 nodes, 4,097 in all", b"choose", desk)?;
    attempt(rt, book, "4 nodes, 4,096 in all", b"over", desk)?;
    attempt(rt, book, "1 node, 4,097 in all", b"std_hours", desk)
}

// Formulas that need 4,096 type records, and 4,097.
pub fn great_needs<C: Catalogue>(
    rt: &HostRuntime,
    book: &mut Book<C>,
    desk: &mut Desk,
) -> io::Result<()> {
    let text = repeated(rt.alloc(), b"", b"\\x.", 1022)?;
    attempt_repeated(
        rt,
        book,
        "a list of 2,046 nodes",
        (&text, b"\\x.x", 1),
        desk,
    )?;
    attempt(rt, book, "a need of 4,097", b"#0 #0 std_hours", desk)?;
    attempt(rt, book, "a need of 4,096", b"\\y.#0 #0", desk)
}
