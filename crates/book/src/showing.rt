// A formula's type shown, and the line of an outcome.
ghost use Rattle.std.specs.Prelude.{◌≡◌, length, MatchResult};
ghost use Rattle.ledger.specs.Calls.{show as to_show, line as to_line};
ghost use Rattle.lines.specs.Lines.{Lined};
ghost use Rattle.printing.specs.Writing.{Printed};
ghost use Rattle.table.specs.View.{view, kept_row};
ghost use Rattle.book.specs.History.{Does};
ghost use Rattle.book.specs.Memories.{outcome_of, outcome_line};
ghost use Rattle.book.specs.Replies.{reply_show, reply_line};

use crate::book::Book;
use crate::fault::BookFault;
use crate::outcome::Outcome;
use catalogue::interface::Catalogue;
use lines::{LINE_ROOM, write_filed, write_refused};
use printing::{ShowFault, show as show_list};
use refusal::Refusal;

impl<C: Catalogue> Book<C> {
    // Writes the type of a formula, filed or the candidate, and answers the text's length; what lies beyond it in `out`,
    // and on a refusal all of it, is as it was.
    pub fn show(&self, number: u16, out: &mut [u8]) -> Result<usize, BookFault>
        ensures done { Does C.entries self.now (to_show number (length out.old)) (reply_show result) self.now }
        ensures text { MatchResult result (λ n. Printed (kept_row (view self.now.table) number).list out.old out.new n) (λ _. out.new ≡ out.old) }
    {
        if !self.table.has_row(number) {
            return Err(BookFault::NotFiled);
        }
        match show_list(self.table.list(number), out) {
            Ok(length) => Ok(length),
            Err(ShowFault::TooLong) => Err(BookFault::TooLong),
            // The list of a row is lawful.
            Err(ShowFault::Unlawful) => unreachable(),
        }
    }

    // Writes the line of an outcome, `#n : TYPE` or `refused N at P`, with its end, and answers its length; what lies beyond
    // it in `out`, and on a refusal all of it, is as it was.
    pub fn line(&self, outcome: Outcome, out: &mut [u8]) -> Result<usize, BookFault>
        ensures done { Does C.entries self.now (to_line (outcome_of outcome) (length out.old)) (reply_line result) self.now }
        ensures text { MatchResult result (λ n. Lined (outcome_line (view self.now.table) outcome) out.old out.new n) (λ _. out.new ≡ out.old) }
    {
        if out.len() < LINE_ROOM {
            return Err(BookFault::NoLineRoom);
        }
        match outcome {
            Ok(number) => {
                if number >= self.table.count() {
                    return Err(BookFault::NotFiled);
                }
                Ok(write_filed(number, self.table.list(number), out))
            }
            Err(fault) => Ok(write_refused(Refusal::from(fault), out)),
        }
    }
}
