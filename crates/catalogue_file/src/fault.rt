// Why a catalogue file is refused.
ghost use Rattle.std.specs.Prelude.{◌≡◌};
ghost use Rattle.catalogue_file.specs.Faults.{says};

use refusal::{Layer, Refusal};

#[derive(Clone, Copy, Debug, PartialEq)]
pub enum FileFault {
    // The file has too few bytes, or too many.
    Length,
    // There are too many entries, or their pairs reach beyond the file.
    Count,
    // An entry does not start where it is due, or the last does not end with the file.
    Gap,
    // The first entry that is not a lawful name and whole nodes, not too many of them.
    Malformed(usize),
    // The first entry whose nodes are not lawful.
    Unlawful(usize),
    // The first entry whose name an earlier one bears.
    Repeated(usize),
}

impl From<FileFault> for Refusal {
    ghost from_gives = { λ f r. r ≡ says f };

    fn from(fault: FileFault) -> Refusal {
        match fault {
            FileFault::Length => Refusal::new(90, Layer::File, 0),
            FileFault::Count => Refusal::new(91, Layer::File, 0),
            FileFault::Gap => Refusal::new(92, Layer::File, 0),
            FileFault::Malformed(at) => Refusal::new(93, Layer::File, at),
            FileFault::Unlawful(at) => Refusal::new(94, Layer::File, at),
            FileFault::Repeated(at) => Refusal::new(95, Layer::File, at),
        }
    }
}
