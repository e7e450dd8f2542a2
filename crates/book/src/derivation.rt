// Derivations of filed formulas, made and checked.
ghost use Rattle.std.specs.Prelude.{length, MatchResult};
ghost use Rattle.derivation_check.specs.Checking.{Checked};
ghost use Rattle.ledger.specs.Calls.{derive as to_derive, check as to_check};
ghost use Rattle.ledger.specs.Ledger.{entered};
ghost use Rattle.table.specs.View.{view, kept_row};
ghost use Rattle.typer.specs.Derivations.{Derived};
ghost use Rattle.book.specs.Faults.{says};
ghost use Rattle.book.specs.History.{Does};
ghost use Rattle.book.specs.Memories.{kept_lists, NotDerived, NotChecked};
ghost use Rattle.book.specs.Replies.{reply_derive, reply_check};

use crate::book::Book;
use crate::fault::BookFault;
use catalogue::interface::Catalogue;
use derivation_check::check as check_derivation;
use infer::Term;
use sources::Entries;
use typer::derive as derive_term;
use types::TypeNode;

impl<C: Catalogue> Book<C> {
    // Writes the typing of a filed formula of which all its typings are instances: the list of the types of its nodes, in
    // their order, with zero nodes behind it, and for each node where its type stands, with zeros behind; answers how
    // many records the list has. The numbers are zeros then. A refusal leaves the memories as they were.
    pub fn derive(
        &self,
        number: u16,
        types: &mut [TypeNode],
        places: &mut [u16],
        numbers: &mut [u32],
    ) -> Result<usize, BookFault>
        ensures done { Does C.entries self.now (to_derive number (length types.old) (length places.old) (length numbers.old)) (reply_derive result) self.now }
        ensures typing { MatchResult result (λ n. Derived (entered (C.entries self.now.catalogue)) (kept_lists (view self.now.table)) (kept_row (view self.now.table) number).term types.new places.new numbers.new n) (λ f. NotDerived (entered (C.entries self.now.catalogue)) (kept_lists (view self.now.table)) (view self.now.table) number types.old types.new places.old places.new numbers.old numbers.new (says f)) }
    {
        if number >= self.table.count() {
            return Err(BookFault::NotFiled);
        }
        let nodes = self.table.term(number);
        let term = Term {
            entries: &Entries {
                catalogue: &self.catalogue,
            },
            kept: &self.table,
            nodes,
        };
        Ok(derive_term(&term, types, places, numbers)?)
    }

    // Whether a list of types, with a place in it for each node of a filed formula, is a typing derivation of it.
    pub fn check(&self, number: u16, list: &[TypeNode], places: &[u16]) -> Result<(), BookFault>
        ensures done { Does C.entries self.now (to_check number list.now places.now) (reply_check result) self.now }
        ensures steps { MatchResult result (λ _. Checked (entered (C.entries self.now.catalogue)) (kept_lists (view self.now.table)) (kept_row (view self.now.table) number).term list.now places.now) (λ f. NotChecked (entered (C.entries self.now.catalogue)) (kept_lists (view self.now.table)) (view self.now.table) number list.now places.now (says f)) }
    {
        if number >= self.table.count() {
            return Err(BookFault::NotFiled);
        }
        let formula = self.table.term(number);
        let term = Term {
            entries: &Entries {
                catalogue: &self.catalogue,
            },
            kept: &self.table,
            nodes: formula,
        };
        Ok(check_derivation(&term, list, places)?)
    }
}
