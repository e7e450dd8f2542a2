// What a text comes to as a formula, found out before the book is changed.
ghost use Rattle.std.specs.Prelude.{◌≡◌, ℕ, ◌≤◌, true, false, length, MatchResult};
ghost use Rattle.ledger.specs.Ledger.{Ledger};
ghost use Rattle.ledger.specs.Submitting.{Unsubmitted};
ghost use Rattle.table.specs.View.{view};
ghost use Rattle.book.specs.Faults.{says};
ghost use Rattle.book.specs.Judging.{Admits, NotAdmitted, Listed, NotListed, Keepable, Found};
ghost use Rattle.book.specs.Memories.{kept_lists, unread, submission};
ghost use Rattle.book.specs.Standing.{Stands};

use crate::fault::BookFault;
use catalogue::interface::Catalogue;
use copy::Source;
use formula::reader::read;
use infer::Term;
use sources::Entries;
use table::table::Table;
use term::TermNode;
use typer::question::ask;
use typer::type_term;
use types::TypeNode;

// The most formulas that are filed.
const MOST_FORMULAS: u16 = 128;

// The most bytes of a text.
const MOST_BYTES: usize = 4096;

// The most term nodes that a book holds.
const MOST_TERM_NODES: usize = 4096;

// The most type nodes that a book holds.
const MOST_TYPE_NODES: usize = 4096;

// A formula's term and the list of its type, as they stand in the memories.
#[derive(Clone, Copy)]
pub struct Judged<'a> {
    pub term: &'a [TermNode],
    pub list: &'a [TypeNode],
}

// The questions before the text is read.
pub(crate) fn admit(table: &Table, text: &[u8]) -> Result<(), BookFault>
    ensures { MatchResult result (λ _. Admits (view table.now) (length text.now)) (λ f. NotAdmitted (view table.now) (length text.now) (says f) × (unread f ≡ true)) }
{
    if table.is_open() {
        return Err(BookFault::Busy);
    }
    if table.count() >= MOST_FORMULAS {
        return Err(BookFault::Full);
    }
    if text.len() > MOST_BYTES {
        return Err(BookFault::TooManyBytes);
    }
    Ok(())
}

// The list of the most general type of a term that was read, and how many records it has.
fn list_type<E: Source>(
    term: &Term<E, Table>,
    types: &mut [TypeNode],
    numbers: &mut [u32],
) -> Result<usize, BookFault>
    ensures { MatchResult result (λ n. Listed (E.list term.now.entries.now) (kept_lists (view term.now.kept.now)) (view term.now.kept.now) term.now.nodes.now (length types.old) (length numbers.old) types.new numbers.new n) (λ f. NotListed (E.list term.now.entries.now) (kept_lists (view term.now.kept.now)) (view term.now.kept.now) term.now.nodes.now (length types.old) (length numbers.old) (says f) × (unread f ≡ false)) }
{
    let table = term.kept;
    let _ = ask(term, types.len(), numbers.len())?;
    if table.used_terms() as usize + term.nodes.len() > MOST_TERM_NODES {
        return Err(BookFault::NoTermSpace);
    }
    let records = type_term(term, types, numbers)?;
    if table.used_types() as usize + records > MOST_TYPE_NODES {
        return Err(BookFault::NoListSpace);
    }
    Ok(records)
}

// Reads a text as a formula and types it: its term and the list of its type then stand at the fronts of the memories.
// These are lent one by one, for reading asks for the first alone and typing for the other two.
pub(crate) fn judge<'a, C: Catalogue>(
    catalogue: &C,
    table: &Table,
    text: &[u8],
    terms: &'a mut [TermNode],
    types: &'a mut [TypeNode],
    numbers: &mut [u32],
) -> Result<Judged<'a>, BookFault>
    requires { Admits (view table.now) (length text.now) }
    ensures keeps { MatchResult result (λ j. Keepable (view table.now) j.term.now j.list.now) (λ f. unread f ≡ false) }
    ensures ledger { (l : Ledger) → Stands (C.entries catalogue.now) (view table.now) l → MatchResult result (λ j. Found (C.entries catalogue.now) l (submission text.now terms.old types.old numbers.old) j.term.now j.list.now) (λ f. Unsubmitted (C.entries catalogue.now) l (submission text.now terms.old types.old numbers.old) (says f)) }
{
    let nodes = read(catalogue, table.count(), text, terms)?;
    let term = &terms[..nodes];
    let read = Term {
        entries: &Entries { catalogue },
        kept: table,
        nodes: term,
    };
    let records = list_type(&read, types, numbers)?;
    let list = &types[..records];
    Ok(Judged { term, list })
}
