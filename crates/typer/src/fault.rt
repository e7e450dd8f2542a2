// Why a term is not typed, or its derivation not given.
ghost use Rattle.std.specs.Prelude.{◌≡◌};
ghost use Rattle.typer.specs.Faults.{says, derive_says};

use refusal::{Layer, Refusal};

#[derive(Clone, Copy, Debug, PartialEq)]
pub enum TypesFault {
    // The term needs more than 4,096 records.
    TooMuch,
    // The type memory has fewer records than the term needs.
    NoTypeRoom,
    // The number memory has fewer numbers than the work needs.
    NoNumberRoom,
    // The term has no type.
    NoType,
}

impl From<TypesFault> for Refusal {
    ghost from_gives = { λ f r. r ≡ says f };

    fn from(fault: TypesFault) -> Refusal {
        match fault {
            TypesFault::TooMuch => Refusal::new(30, Layer::Types, 0),
            TypesFault::NoTypeRoom => Refusal::new(31, Layer::Types, 0),
            TypesFault::NoNumberRoom => Refusal::new(32, Layer::Types, 0),
            TypesFault::NoType => Refusal::new(40, Layer::Types, 0),
        }
    }
}

#[derive(Clone, Copy, Debug, PartialEq)]
pub enum DeriveFault {
    // The type memory has fewer records than the term needs, or more than 4,096 are needed.
    NoTypeRoom,
    // The place memory has fewer places than the term has nodes.
    NoPlaceRoom,
    // The number memory has fewer numbers than the work needs.
    NoNumberRoom,
    // The term has no type.
    NoType,
}

impl From<DeriveFault> for Refusal {
    ghost from_gives = { λ f r. r ≡ derive_says f };

    fn from(fault: DeriveFault) -> Refusal {
        match fault {
            DeriveFault::NoTypeRoom => Refusal::new(73, Layer::Book, 0),
            DeriveFault::NoPlaceRoom => Refusal::new(74, Layer::Book, 0),
            DeriveFault::NoNumberRoom => Refusal::new(75, Layer::Book, 0),
            DeriveFault::NoType => Refusal::new(40, Layer::Types, 0),
        }
    }
}
