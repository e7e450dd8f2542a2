// Formulas that are submitted, and at once filed or dismissed: in any memories, and in those of a desk.
ghost use Rattle.std.specs.Prelude.{◌≡◌};
ghost use Rattle.ledger.specs.Calls.{submit as to_submit, file as to_file, dismiss as to_dismiss, filed as is_filed, dismissed as is_dismissed};
ghost use Rattle.book.specs.History.{Does};
ghost use Rattle.book.specs.Memories.{submission, untouched, Leaves};
ghost use Rattle.book.specs.Replies.{reply_submit, Unspent, Opens, RefusalKeeps, has_candidate};
ghost use Rattle.book_desk.specs.Desks.{submission_on};
ghost use Rattle.book_desk.specs.Filing.{Ends};

use crate::desk::Desk;
use book::book::Book;
use book::fault::BookFault;
use book::ticket::Ticket;
use catalogue::interface::Catalogue;
use term::TermNode;
use types::TypeNode;

// Submits a formula and files it, and answers its number.
pub fn submit_and_file<C: Catalogue>(
    book: &mut Book<C>,
    text: &[u8],
    terms: &mut [TermNode],
    types: &mut [TypeNode],
    numbers: &mut [u32],
) -> Result<u16, BookFault>
    ensures { Ends C.entries book.old (submission text.now terms.old types.old numbers.old) to_file (λ n. is_filed n) book.new result }
{
    let ticket = book.submit(text, terms, types, numbers)?;
    match book.file(ticket) {
        Ok(number) => Ok(number),
        Err(_) => unreachable(),
    }
}

// Submits a formula and dismisses it. What files and what dismisses is one call each, so there is nothing to share.
pub fn submit_and_dismiss<C: Catalogue>(
    book: &mut Book<C>,
    text: &[u8],
    terms: &mut [TermNode],
    types: &mut [TypeNode],
    numbers: &mut [u32],
) -> Result<(), BookFault>
    ensures { Ends C.entries book.old (submission text.now terms.old types.old numbers.old) to_dismiss (λ _. is_dismissed) book.new result }
{
    let ticket = book.submit(text, terms, types, numbers)?;
    match book.dismiss(ticket) {
        Ok(()) => Ok(()),
        Err(_) => unreachable(),
    }
}

impl Desk {
    // Submits a formula, as the book does in the desk's memories.
    pub fn submit<C: Catalogue>(
        &mut self,
        book: &mut Book<C>,
        text: &[u8],
    ) -> Result<Ticket, BookFault>
        ensures done { Does C.entries book.old (to_submit (submission_on self.old text.now)) (reply_submit result) book.new }
        ensures memories { Leaves (untouched result) self.old.terms.items self.new.terms.items self.old.types.items self.new.types.items self.old.numbers.items self.new.numbers.items }
        ensures ticket { Unspent result }
        ensures kept { RefusalKeeps result book.old book.new }
        ensures candidate { Opens (has_candidate book.new) result }
    {
        book.submit(text, &mut self.terms, &mut self.types, &mut self.numbers)
    }

    // Submits a formula and files it, and answers its number.
    pub fn submit_and_file<C: Catalogue>(
        &mut self,
        book: &mut Book<C>,
        text: &[u8],
    ) -> Result<u16, BookFault>
        ensures { Ends C.entries book.old (submission_on self.old text.now) to_file (λ n. is_filed n) book.new result }
    {
        submit_and_file(
            book,
            text,
            &mut self.terms,
            &mut self.types,
            &mut self.numbers,
        )
    }

    // Submits a formula and dismisses it.
    pub fn submit_and_dismiss<C: Catalogue>(
        &mut self,
        book: &mut Book<C>,
        text: &[u8],
    ) -> Result<(), BookFault>
        ensures { Ends C.entries book.old (submission_on self.old text.now) to_dismiss (λ _. is_dismissed) book.new result }
    {
        submit_and_dismiss(
            book,
            text,
            &mut self.terms,
            &mut self.types,
            &mut self.numbers,
        )
    }
}
