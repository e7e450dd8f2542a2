// A numbered refusal: what every layer's fault comes down to for the reader of an answer.
#![tactic(auto)]

ghost use Rattle.std.specs.Prelude.{◌≡◌, Some};
ghost use Rattle.refusal.specs.Saying.{saying};
ghost use Rattle.refusal.specs.Text.{text};

use std::fmt;

// The layer that a refusal comes from.
#[derive(Clone, Copy, Debug, PartialEq, Eq)]
pub enum Layer {
    Text,
    Formula,
    Types,
    Book,
    File,
}

// A refusal's number, the layer that it comes from, and the place that it speaks of.
#[derive(Clone, Copy, Debug, PartialEq, Eq)]
pub struct Refusal {
    pub number: u16,
    pub layer: Layer,
    pub place: usize,
}

impl Refusal {
    pub fn new(number: u16, layer: Layer, place: usize) -> Self
        ensures { result ≡ saying number layer place }
    {
        Refusal {
            number,
            layer,
            place,
        }
    }
}

// `refused N at P`.
impl fmt::Display for Refusal {
    ghost output = { λ r. Some (text r) };

    fn fmt<W: fmt::Write>(&self, f: &mut fmt::Formatter<W>) -> fmt::Result {
        let number = self.number;
        let place = self.place;
        write!(f, "refused {number} at {place}")
    }
}
