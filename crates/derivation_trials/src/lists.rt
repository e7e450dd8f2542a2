// Lists and places that are no derivation of the identity, which is formula 0.
use book::book::Book;
use book_desk::telling::tell_passed;
use catalogue::interface::Catalogue;
use std::io;
use types::{ARROW, BASE, TypeNode, VARIABLE};

// The nodes are written out, for a constant calls no function.
const A: TypeNode = TypeNode {
    kind: VARIABLE,
    left: 0,
    right: 0,
};

const HOURS: TypeNode = TypeNode {
    kind: BASE,
    left: 0,
    right: 0,
};

// The arrow from the list's first node to itself.
const FROM_FIRST: TypeNode = TypeNode {
    kind: ARROW,
    left: 0,
    right: 0,
};

// An arrow that may not stand at place 1.
const TO_ITSELF: TypeNode = TypeNode {
    kind: ARROW,
    left: 0,
    right: 1,
};

// Lists that are no derivation of it, whatever the places.
fn unfit_lists<C: Catalogue>(rt: &HostRuntime, book: &Book<C>) -> io::Result<()> {
    tell_passed(rt, "an empty list", book.check(0, &[], &[1, 0]))?;
    let long = vec![in rt.alloc(); A; 4097]?;
    tell_passed(rt, "4,097 nodes", book.check(0, &long, &[1, 0]))?;
    tell_passed(
        rt,
        "an unlawful node",
        book.check(0, &[A, TO_ITSELF], &[1, 0]),
    )?;
    tell_passed(
        rt,
        "two equal records",
        book.check(0, &[A, FROM_FIRST, A], &[1, 0]),
    )
}

pub fn other_lists<C: Catalogue>(rt: &HostRuntime, book: &Book<C>) -> io::Result<()> {
    println!(rt; "lists and places for #0")?;
    unfit_lists(rt, book)?;
    tell_passed(
        rt,
        "a place too many",
        book.check(0, &[A, FROM_FIRST], &[1, 0, 0]),
    )?;
    tell_passed(rt, "a place too few", book.check(0, &[A, FROM_FIRST], &[1]))?;
    tell_passed(
        rt,
        "a place outside",
        book.check(0, &[A, FROM_FIRST], &[2, 0]),
    )?;
    tell_passed(
        rt,
        "an instance",
        book.check(0, &[HOURS, FROM_FIRST], &[1, 0]),
    )?;
    tell_passed(
        rt,
        "a formula that is not filed",
        book.check(6, &[A, FROM_FIRST], &[1, 0]),
    )
}
