// The call that submits a formula.
ghost use Rattle.std.specs.Prelude.{◌≡◌, ℕ, true, false, length, MatchResult};
ghost use Rattle.ledger.specs.Calls.{submit as to_submit, opened as it_opens};
ghost use Rattle.table.specs.View.{view};
ghost use Rattle.book.specs.History.{Link, Does};
ghost use Rattle.book.specs.Judging.{Admits};
ghost use Rattle.book.specs.Memories.{untouched, unread, Leaves, submission};
ghost use Rattle.book.specs.Replies.{numbered, reply_submit, Unspent, Opens, RefusalKeeps, has_candidate};

use crate::book::Book;
use crate::fault::BookFault;
use crate::judging::{admit, judge};
use crate::ticket::Ticket;
use catalogue::interface::Catalogue;
use term::TermNode;
use types::TypeNode;

impl<C: Catalogue> Book<C> {
    // Makes a text that may be submitted the candidate, and answers the number that it would be filed under.
    fn open_candidate(
        &mut self,
        text: &[u8],
        terms: &mut [TermNode],
        types: &mut [TypeNode],
        numbers: &mut [u32],
    ) -> Result<u16, BookFault>
        requires { Admits (view self.old.table) (length text.now) }
        ensures link { Link C.entries self.old (to_submit (submission text.now terms.old types.old numbers.old)) (numbered it_opens result) self.new }
        ensures work { untouched result ≡ false }
        ensures kept { RefusalKeeps result self.old self.new }
        ensures candidate { Opens (has_candidate self.new) result }
    {
        let judged = judge(&self.catalogue, &self.table, text, terms, types, numbers)?;
        let number = self.table.count();
        self.table.put(judged.term, judged.list);
        Ok(number)
    }

    // Makes a formula the open candidate, and answers a ticket for it. The three memories are room to work in: after a
    // refusal before the text is read they are as they were, after any other reply they hold zeros. A refusal leaves the
    // book as it was.
    pub fn submit(
        &mut self,
        text: &[u8],
        terms: &mut [TermNode],
        types: &mut [TypeNode],
        numbers: &mut [u32],
    ) -> Result<Ticket, BookFault>
        ensures done { Does C.entries self.old (to_submit (submission text.now terms.old types.old numbers.old)) (reply_submit result) self.new }
        ensures memories { Leaves (untouched result) terms.old terms.new types.old types.new numbers.old numbers.new }
        ensures ticket { Unspent result }
        ensures kept { RefusalKeeps result self.old self.new }
        ensures candidate { Opens (has_candidate self.new) result }
    {
        admit(&self.table, text)?;
        let opened = self.open_candidate(text, terms, types, numbers);
        terms.fill(TermNode::default());
        types.fill(TypeNode::default());
        numbers.fill(0);
        opened.map(Ticket::new)
    }
}
