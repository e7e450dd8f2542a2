// Why a text is no expression.
ghost use Rattle.std.specs.Prelude.{◌≡◌};
ghost use Rattle.text.specs.Faults.{says};

use refusal::{Layer, Refusal};

#[derive(Clone, Copy, Debug, PartialEq)]
pub enum TextFault {
    // A byte or a run that is no token, at its offset.
    Stray(usize),
    // A token that cannot follow, at its offset, or the length of a text that stops short.
    Misplaced(usize),
}

impl From<TextFault> for Refusal {
    ghost from_gives = { λ f r. r ≡ says f };

    fn from(fault: TextFault) -> Refusal {
        match fault {
            TextFault::Stray(at) => Refusal::new(20, Layer::Text, at),
            TextFault::Misplaced(at) => Refusal::new(21, Layer::Text, at),
        }
    }
}
