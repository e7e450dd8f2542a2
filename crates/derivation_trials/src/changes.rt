// Derivations that the book makes, as they are and with one place changed.
ghost use Rattle.std.specs.Prelude.{◌≡◌, ◌≢◌};

use book::book::Book;
use book_desk::desk::Desk;
use book_desk::telling::{tell_fault, tell_passed};
use catalogue::interface::Catalogue;
use std::io;
use types::TypeNode;

// A formula, and how many nodes its term has.
#[derive(Clone, Copy)]
struct Formula {
    text: &'static str,
    nodes: usize,
}

const FORMULAS: [Formula; 6] = [
    Formula {
        text: "\\x.x",
        nodes: 2,
    },
    Formula {
        text: "#0 #0",
        nodes: 3,
    },
    Formula {
        text: "choose",
        nodes: 1,
    },
    Formula {
        text: "\\h.\\r.gross_of h r",
        nodes: 7,
    },
    Formula {
        text: "\\f.\\g.\\x.f (g x)",
        nodes: 8,
    },
    Formula {
        text: "(\\x.\\y.y) (\\z.z)",
        nodes: 6,
    },
];

// Another place of a list.
fn other(place: u16) -> u16
    ensures { result ≢ place }
{
    if place == 0 { 1 } else { 0 }
}

// Checks the derivation once for each node with that node's place changed.
fn changed_places<C: Catalogue>(
    rt: &HostRuntime,
    book: &Book<C>,
    number: u16,
    list: &[TypeNode],
    places: &mut [u16],
) -> io::Result<()> {
    // Each check is of all places, of which one is changed for a while: so they are written by their numbers.
    for node in 0..places.len() {
        let place = places[node];
        places[node] = other(place);
        print!(rt;
            "  the place of node {node} from {place} to {}",
            other(place)
        )?;
        tell_passed(rt, "", book.check(number, list, places))?;
        places[node] = place;
    }
    Ok(())
}

// Derives a filed formula, and checks what was derived.
fn derive_and_check<C: Catalogue>(
    rt: &HostRuntime,
    book: &Book<C>,
    number: u16,
    nodes: usize,
    desk: &mut Desk,
) -> io::Result<()> {
    let mut places = vec![in rt.alloc(); 0u16; nodes]?;
    match book.derive(number, &mut desk.types, &mut places, &mut desk.numbers) {
        Ok(records) => {
            let list = desk.types.get(..records).unwrap_or(&desk.types);
            tell_passed(rt, "  as derived", book.check(number, list, &places))?;
            changed_places(rt, book, number, list, &mut places)
        }
        Err(fault) => tell_fault(rt, fault),
    }
}

// Files each formula, derives it, and checks derivations of it.
pub fn derivations<C: Catalogue>(
    rt: &HostRuntime,
    book: &mut Book<C>,
    desk: &mut Desk,
) -> io::Result<()> {
    for Formula { text, nodes } in FORMULAS {
        println!(rt; "{text}")?;
        match desk.submit_and_file(book, text.as_bytes()) {
            Ok(number) => derive_and_check(rt, book, number, nodes, desk)?,
            Err(fault) => tell_fault(rt, fault)?,
        }
    }
    Ok(())
}
