// Calls that are refused because a candidate is open.
ghost use Rattle.std.specs.Prelude.{◌≡◌};
ghost use Rattle.refusal.specs.Saying.{saying};
ghost use Rattle.refusal.specs.declared.Layer.TheVariants.{Book as of_the_book};
ghost use Rattle.book.specs.Faults.{says};
ghost use Rattle.book_desk.specs.Represented.{Open};

use crate::desk::Desk;
use book::book::Book;
use book::fault::BookFault;
use catalogue::interface::Catalogue;
use term::TermNode;
use types::TypeNode;

// Submits a formula while a candidate is open, and answers the refusal.
pub fn refused_submit<C: Catalogue>(
    book: &mut Book<C>,
    text: &[u8],
    terms: &mut [TermNode],
    types: &mut [TypeNode],
    numbers: &mut [u32],
) -> BookFault
    requires { Open C.entries book.old }
    ensures refusal { says result ≡ saying 10 of_the_book 0 }
    ensures still { Open C.entries book.new }
{
    book.submit(text, terms, types, numbers).unwrap_err()
}

impl Desk {
    // The same in the desk's memories.
    pub fn refused_submit<C: Catalogue>(&mut self, book: &mut Book<C>, text: &[u8]) -> BookFault
        requires { Open C.entries book.old }
        ensures refusal { says result ≡ saying 10 of_the_book 0 }
        ensures still { Open C.entries book.new }
    {
        let Desk {
            terms,
            types,
            numbers,
        } = self;
        refused_submit(book, text, terms, types, numbers)
    }
}

// Withdraws while a candidate is open, and answers the refusal.
pub fn refused_withdrawal<C: Catalogue>(book: &mut Book<C>) -> BookFault
    requires { Open C.entries book.old }
    ensures refusal { says result ≡ saying 62 of_the_book 0 }
    ensures still { Open C.entries book.new }
{
    book.withdraw().unwrap_err()
}
