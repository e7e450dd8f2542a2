// Trials that each have a new book.
ghost use Rattle.std.specs.Fn.{FnOnceReturnsAtMut};
ghost use Rattle.book.specs.History.{EveryRun};
ghost use Rattle.book.specs.declared.book.Book.{Book};

use book::book::Book;
use catalogue::interface::Catalogue;

// Does something with a new book over a catalogue.
pub fn on_a_new_book<C: Catalogue + Drop, T, F: FnOnce(&mut Book<C>) -> T>(
    catalogue: C,
    trial: F,
) -> T
    requires { (b : _) → EveryRun C.entries b.now → F.pre trial b }
    ensures { (b : _) × (b' : _) × EveryRun C.entries b × FnOnceReturnsAtMut F.FnOnce trial b result b' }
{
    let mut book = Book::new(catalogue);
    let done = trial(&mut book);
    let _ = book.close();
    done
}
