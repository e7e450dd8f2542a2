// The calls that file, dismiss and withdraw formulas.
ghost use Rattle.std.specs.Prelude.{◌≡◌};
ghost use Rattle.ledger.specs.Calls.{file as to_file, dismiss as to_dismiss, withdraw as to_withdraw};
ghost use Rattle.book.specs.History.{Does, EveryRun};
ghost use Rattle.book.specs.Replies.{reply_file, reply_dismiss, reply_withdraw, ComesBack, WhereOpen, RefusalKeeps, has_candidate};

use crate::book::Book;
use crate::fault::BookFault;
use crate::ticket::Ticket;
use catalogue::interface::Catalogue;
use table::table::Table;

impl<C: Catalogue> Book<C> {
    // A book without formulas over a catalogue, which it keeps for life. Of every list of dealings with it the whole
    // statement holds.
    pub fn new(catalogue: C) -> Book<C>
        ensures given { result.catalogue ≡ catalogue }
        ensures every { EveryRun C.entries result }
    {
        Book {
            catalogue,
            table: Table::new(),
        }
    }

    // Files the candidate, and answers its number: how many formulas were filed before. The ticket is spent then; if no
    // candidate is open, it comes back.
    pub fn file(&mut self, ticket: Ticket) -> Result<u16, (BookFault, Ticket)>
        ensures done { Does C.entries self.old to_file (reply_file result) self.new }
        ensures back { ComesBack ticket result }
        ensures answered { WhereOpen (has_candidate self.old) result }
        ensures kept { RefusalKeeps result self.old self.new }
    {
        if !self.table.is_open() {
            return Err((BookFault::NoCandidate, ticket));
        }
        let number = self.table.count();
        self.table.file();
        ticket.spend();
        Ok(number)
    }

    // Drops the candidate. The ticket is spent then; if no candidate is open, it comes back.
    pub fn dismiss(&mut self, ticket: Ticket) -> Result<(), (BookFault, Ticket)>
        ensures done { Does C.entries self.old to_dismiss (reply_dismiss result) self.new }
        ensures back { ComesBack ticket result }
        ensures answered { WhereOpen (has_candidate self.old) result }
        ensures kept { RefusalKeeps result self.old self.new }
    {
        if !self.table.is_open() {
            return Err((BookFault::NoCandidate, ticket));
        }
        self.table.dismiss();
        ticket.spend();
        Ok(())
    }

    // Drops the newest filed formula, and answers its number.
    pub fn withdraw(&mut self) -> Result<u16, BookFault>
        ensures done { Does C.entries self.old to_withdraw (reply_withdraw result) self.new }
        ensures kept { RefusalKeeps result self.old self.new }
    {
        if self.table.is_open() {
            return Err(BookFault::CandidateOpen);
        }
        let count = self.table.count();
        if count == 0 {
            return Err(BookFault::NothingFiled);
        }
        self.table.withdraw();
        Ok(count - 1)
    }

    // The catalogue back; the formulas are gone.
    pub fn close(self) -> C
        ensures { result ≡ self.catalogue }
    {
        let Book {
            catalogue,
            table: _,
        } = self;
        catalogue
    }
}
