// Why a line gets no type.
ghost use Rattle.std.specs.Prelude.{◌≡◌, MatchResult};
ghost use Rattle.paycheck.specs.Faults.{says};
ghost use Rattle.paycheck.specs.declared.fault.LineFault.TheVariants.{Formula, Types};

use formula::fault::FormulaFault;
use refusal::{Layer, Refusal};
use typer::fault::TypesFault;

#[derive(Clone, Copy)]
pub enum LineFault {
    // The line has more than 4,096 bytes.
    TooManyBytes,
    // The line is no formula.
    Formula(FormulaFault),
    // The formula has no type, or is too large to be typed.
    Types(TypesFault),
    // The type is too long to be printed.
    TooLong,
}

impl From<LineFault> for Refusal {
    ghost from_gives = { λ f r. r ≡ says f };

    fn from(fault: LineFault) -> Refusal {
        match fault {
            LineFault::TooManyBytes => Refusal::new(12, Layer::Book, 0),
            LineFault::Formula(fault) => Refusal::from(fault),
            LineFault::Types(fault) => Refusal::from(fault),
            LineFault::TooLong => Refusal::new(71, Layer::Book, 0),
        }
    }
}

impl From<FormulaFault> for LineFault {
    ghost from_gives = { λ e r. r ≡ Formula e };

    fn from(fault: FormulaFault) -> LineFault {
        LineFault::Formula(fault)
    }
}

impl From<TypesFault> for LineFault {
    ghost from_gives = { λ e r. r ≡ Types e };

    fn from(fault: TypesFault) -> LineFault {
        LineFault::Types(fault)
    }
}
