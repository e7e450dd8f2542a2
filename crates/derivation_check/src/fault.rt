// Why a typing derivation is refused.
ghost use Rattle.std.specs.Prelude.{◌≡◌};
ghost use Rattle.derivation_check.specs.Faults.{says};

use refusal::{Layer, Refusal};

#[derive(Clone, Copy, Debug, PartialEq)]
pub enum CheckFault {
    // The type list has no node, or more than 4,096.
    Length,
    // A node of the type list is not lawful where it stands.
    Unlawful,
    // Two records of the type list are equal.
    Equal,
    // There are not just as many places as term nodes, or one is outside the type list.
    Places,
    // The first term node whose step is no typing step.
    Step(usize),
}

impl From<CheckFault> for Refusal {
    ghost from_gives = { λ f r. r ≡ says f };

    fn from(fault: CheckFault) -> Refusal {
        match fault {
            CheckFault::Length => Refusal::new(80, Layer::Book, 0),
            CheckFault::Unlawful => Refusal::new(81, Layer::Book, 0),
            CheckFault::Equal => Refusal::new(82, Layer::Book, 0),
            CheckFault::Places => Refusal::new(83, Layer::Book, 0),
            CheckFault::Step(at) => Refusal::new(84, Layer::Book, at),
        }
    }
}
