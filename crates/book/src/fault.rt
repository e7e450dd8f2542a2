// Why a dealing with a book is refused.
ghost use Rattle.std.specs.Prelude.{◌≡◌};
ghost use Rattle.book.specs.Faults.{says};
ghost use Rattle.book.specs.declared.fault.BookFault.TheVariants.{Formula, Types, Derivation, Check};

use derivation_check::fault::CheckFault;
use formula::fault::FormulaFault;
use refusal::{Layer, Refusal};
use typer::fault::{DeriveFault, TypesFault};

#[derive(Clone, Copy, Debug)]
pub enum BookFault {
    // A candidate is open already.
    Busy,
    // 128 formulas are filed.
    Full,
    // The text has more than 4,096 bytes.
    TooManyBytes,
    // The text is no formula.
    Formula(FormulaFault),
    // The formula has no type, or cannot be typed in the memories given.
    Types(TypesFault),
    // The filed terms and this one have more than 4,096 nodes.
    NoTermSpace,
    // The kept lists and this one have more than 4,096 nodes.
    NoListSpace,
    // No candidate is open.
    NoCandidate,
    // A candidate is open, so nothing is withdrawn.
    CandidateOpen,
    // No formula is filed.
    NothingFiled,
    // There is no formula of that number.
    NotFiled,
    // The printed type is too long, for the memory or at all.
    TooLong,
    // The memory is too short for a line.
    NoLineRoom,
    // The memories have no room for the derivation.
    Derivation(DeriveFault),
    // What was to be checked is no derivation.
    Check(CheckFault),
}

impl From<BookFault> for Refusal {
    ghost from_gives = { λ f r. r ≡ says f };

    fn from(fault: BookFault) -> Refusal {
        match fault {
            BookFault::Busy => Refusal::new(10, Layer::Book, 0),
            BookFault::Full => Refusal::new(11, Layer::Book, 0),
            BookFault::TooManyBytes => Refusal::new(12, Layer::Book, 0),
            BookFault::Formula(fault) => Refusal::from(fault),
            BookFault::Types(fault) => Refusal::from(fault),
            BookFault::NoTermSpace => Refusal::new(33, Layer::Book, 0),
            BookFault::NoListSpace => Refusal::new(41, Layer::Book, 0),
            BookFault::NoCandidate => Refusal::new(60, Layer::Book, 0),
            BookFault::CandidateOpen => Refusal::new(62, Layer::Book, 0),
            BookFault::NothingFiled => Refusal::new(63, Layer::Book, 0),
            BookFault::NotFiled => Refusal::new(70, Layer::Book, 0),
            BookFault::TooLong => Refusal::new(71, Layer::Book, 0),
            BookFault::NoLineRoom => Refusal::new(72, Layer::Book, 0),
            BookFault::Derivation(fault) => Refusal::from(fault),
            BookFault::Check(fault) => Refusal::from(fault),
        }
    }
}

impl From<FormulaFault> for BookFault {
    ghost from_gives = { λ e r. r ≡ Formula e };

    fn from(fault: FormulaFault) -> BookFault {
        BookFault::Formula(fault)
    }
}

impl From<TypesFault> for BookFault {
    ghost from_gives = { λ e r. r ≡ Types e };

    fn from(fault: TypesFault) -> BookFault {
        BookFault::Types(fault)
    }
}

impl From<DeriveFault> for BookFault {
    ghost from_gives = { λ e r. r ≡ Derivation e };

    fn from(fault: DeriveFault) -> BookFault {
        BookFault::Derivation(fault)
    }
}

impl From<CheckFault> for BookFault {
    ghost from_gives = { λ e r. r ≡ Check e };

    fn from(fault: CheckFault) -> BookFault {
        BookFault::Check(fault)
    }
}
