// A list of dealings, carried out on a new book.
ghost use Rattle.std.specs.Prelude.{◌≡◌, length, take};
ghost use Rattle.ledger.specs.Calls.{submit as to_submit, file as to_file, dismiss as to_dismiss};
ghost use Rattle.book.specs.Dealing.{reply_of, CarriedOut, Carries, rooms_of};
ghost use Rattle.book.specs.History.{Link};
ghost use Rattle.book.specs.Memories.{submission};
ghost use Rattle.book.specs.Dealing.{part as cut};

use crate::book::Book;
use crate::dealing::{Answer, Dealing};
use crate::fault::BookFault;
use crate::ticket::Ticket;
use catalogue::interface::Catalogue;
use term::TermNode;
use types::TypeNode;

// The bytes from one place to another, or none where there are no such places.
fn part(texts: &[u8], from: usize, to: usize) -> &[u8]
    ensures { result.now ≡ cut texts.now from to }
{
    texts.get(from..to).unwrap_or(&[])
}

// The first n of a list, or all.
fn front<T>(items: &[T], n: usize) -> &[T]
    ensures { result.now ≡ take n items.now }
{
    items.get(..n).unwrap_or(items)
}

// The fault of a refusal; the ticket that came back with it is spent.
fn without_ticket(refused: (BookFault, Ticket)) -> BookFault
    ensures { result ≡ refused.0 }
{
    let (fault, ticket) = refused;
    ticket.spend();
    fault
}

// Tickets are plain numbers, and a list of dealings says itself when one is spent: so the ticket of a submit is spent at
// once, and for each file and dismiss there is one to present.
impl<C: Catalogue> Book<C> {
    fn submit_text(
        &mut self,
        text: &[u8],
        terms: &mut [TermNode],
        types: &mut [TypeNode],
        numbers: &mut [u32],
    ) -> Result<Answer, BookFault>
        ensures { Link C.entries self.old (to_submit (submission text.now terms.old types.old numbers.old)) (reply_of result) self.new }
    {
        let ticket = self.submit(text, terms, types, numbers)?;
        Ok(Answer::Opened(ticket.spend()))
    }

    fn file_candidate(&mut self) -> Result<Answer, BookFault>
        ensures { Link C.entries self.old to_file (reply_of result) self.new }
    {
        self.file(Ticket::new(0))
            .map(Answer::Filed)
            .map_err(without_ticket)
    }

    fn dismiss_candidate(&mut self) -> Result<Answer, BookFault>
        ensures { Link C.entries self.old to_dismiss (reply_of result) self.new }
    {
        self.dismiss(Ticket::new(0))
            .map(|()| Answer::Dismissed)
            .map_err(without_ticket)
    }

    // Carries out one dealing. Dealings are values that the statement over all runs speaks of, so they are told apart here
    // and are no closures.
    pub fn carry_out(
        &mut self,
        dealing: Dealing,
        texts: &[u8],
        terms: &mut [TermNode],
        types: &mut [TypeNode],
        numbers: &mut [u32],
        places: &mut [u16],
        out: &mut [u8],
    ) -> Result<Answer, BookFault>
        ensures { Carries C.entries self.old texts.now (rooms_of terms.old types.old numbers.old places.old out.old) dealing result self.new }
    {
        match dealing {
            Dealing::Submit(from, to) => {
                self.submit_text(part(texts, from, to), terms, types, numbers)
            }
            Dealing::File => self.file_candidate(),
            Dealing::Dismiss => self.dismiss_candidate(),
            Dealing::Withdraw => self.withdraw().map(Answer::Withdrawn),
            Dealing::Show(number) => self.show(number, out).map(Answer::Shown),
            Dealing::Line(outcome) => self.line(outcome, out).map(Answer::Lined),
            Dealing::Derive(number) => self
                .derive(number, types, places, numbers)
                .map(Answer::Derived),
            Dealing::Check(number, records, count) => self
                .check(number, front(types, records), front(places, count))
                .map(|()| Answer::Passed),
        }
    }
}

// Carries out the dealings on a new book in their order, as far as there is room for the answers.
pub fn keep_book<C: Catalogue>(
    catalogue: C,
    dealings: &[Dealing],
    texts: &[u8],
    terms: &mut [TermNode],
    types: &mut [TypeNode],
    numbers: &mut [u32],
    places: &mut [u16],
    out: &mut [u8],
    answers: &mut [Result<Answer, BookFault>],
) -> Book<C>
    ensures { CarriedOut C.entries (C.entries catalogue) texts.now (rooms_of terms.old types.old numbers.old places.old out.old) (take (length answers.old) dealings.now) (take (length dealings.now) answers.new) result }
{
    let mut book = Book::new(catalogue);
    let answered = front(dealings, answers.len());
    // Answers are written by their numbers: what is written through zipped iterators is not known afterwards.
    'dealings: for (i, dealing) in answered.iter().enumerate() {
        answers[i] = book.carry_out(*dealing, texts, terms, types, numbers, places, out);
    }
    book
}
