// Why a text is not taken for a formula.
ghost use Rattle.std.specs.Prelude.{◌≡◌};
ghost use Rattle.formula.specs.Faults.{says};
ghost use Rattle.formula.specs.declared.fault.FormulaFault.TheVariants.{Text};

use refusal::{Layer, Refusal};
use text::fault::TextFault;

#[derive(Clone, Copy, Debug)]
pub enum FormulaFault {
    // The text is no expression.
    Text(TextFault),
    // The term has more than 1,024 nodes.
    TooManyNodes,
    // The term memory has fewer records than the term has nodes.
    NoRoom,
    // A name that is neither bound nor in the catalogue, at its offset.
    Unknown(usize),
    // A reference to a number that is not filed, at its offset.
    NotFiled(usize),
}

impl From<FormulaFault> for Refusal {
    ghost from_gives = { λ f r. r ≡ says f };

    fn from(fault: FormulaFault) -> Refusal {
        match fault {
            FormulaFault::Text(fault) => Refusal::from(fault),
            FormulaFault::TooManyNodes => Refusal::new(22, Layer::Formula, 0),
            FormulaFault::NoRoom => Refusal::new(23, Layer::Formula, 0),
            FormulaFault::Unknown(at) => Refusal::new(24, Layer::Formula, at),
            FormulaFault::NotFiled(at) => Refusal::new(25, Layer::Formula, at),
        }
    }
}

impl From<TextFault> for FormulaFault {
    ghost from_gives = { λ e r. r ≡ Text e };

    fn from(fault: TextFault) -> FormulaFault {
        FormulaFault::Text(fault)
    }
}
