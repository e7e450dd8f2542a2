// Tickets that are tried on another book than the one that gave them.
ghost use Rattle.std.specs.Prelude.{◌≡◌, true};
ghost use Rattle.ledger.specs.Calls.{file as to_file, filed as is_filed};
ghost use Rattle.book.specs.History.{Does};
ghost use Rattle.book.specs.Replies.{has_candidate};
ghost use Rattle.ticket_trials.specs.Spending.{Filed};

use book::book::Book;
use book::fault::BookFault;
use book::ticket::Ticket;
use catalogue::interface::Catalogue;

// Files by a ticket in the first book, and answers the number; or else in the second, and answers the refusal of the
// first and the number.
pub fn file_in_either<C: Catalogue>(
    here: &mut Book<C>,
    there: &mut Book<C>,
    ticket: Ticket,
) -> Result<u16, (BookFault, u16)>
    requires { has_candidate there.old ≡ true }
    ensures { Filed C.entries here.old here.new there.old there.new result }
{
    match here.file(ticket) {
        Ok(number) => Ok(number),
        Err((fault, ticket)) => Err((fault, there.file(ticket).unwrap())),
    }
}

// Files in each of two books by the ticket of the other, and answers both numbers.
pub fn file_crosswise<C: Catalogue>(
    here: &mut Book<C>,
    there: &mut Book<C>,
    mine: Ticket,
    yours: Ticket,
) -> (u16, u16)
    requires here { has_candidate here.old ≡ true }
    requires there { has_candidate there.old ≡ true }
    ensures { Does C.entries here.old to_file (is_filed result.0) here.new × Does C.entries there.old to_file (is_filed result.1) there.new }
{
    let first = here.file(yours).unwrap();
    let second = there.file(mine).unwrap();
    (first, second)
}
