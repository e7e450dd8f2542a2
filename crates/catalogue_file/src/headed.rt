// A file that begins as its layout wants it: the pairs of its entries.
ghost use Rattle.std.specs.Prelude.{◌≡◌, ◌<◌, ◌^◌};
ghost use Rattle.std.specs.Result.{MatchResult};
ghost use Rattle.catalogue_file.specs.Files.{count, offset, size};
ghost use Rattle.catalogue_file.specs.Questions.{Headed, Laid};
ghost use Rattle.catalogue_file.specs.Checking.{Refuses};
ghost use Rattle.catalogue_file.specs.Faults.{says};

use crate::fault::FileFault;
use crate::laid::LaidFile;
use crate::sized::SizedFile;

#[derive(Clone, Copy)]
pub struct HeadedFile<'a> {
    pub sized: SizedFile<'a>,
    ghost headed: { ∥ Headed sized.layout sized.bytes.now ∥₁ },
}

impl<'a> HeadedFile<'a> {
    // Where entry k starts, and how many bytes it has.
    pub fn pair(&self, k: usize) -> (usize, usize)
        requires { k < count self.now.sized.layout self.now.sized.bytes.now }
        ensures offset { result.0 ≡ offset self.now.sized.layout self.now.sized.bytes.now k }
        ensures size { result.1 ≡ size self.now.sized.layout self.now.sized.bytes.now k }
        ensures low { result.0 < 2 ^ 32 }
        ensures small { result.1 < 2 ^ 32 }
    {
        let at = self.sized.pair_start(k);
        (
            self.sized.field(at),
            self.sized.field(at + self.sized.layout.width),
        )
    }

    // Asks whether each entry starts where it is due, and the last ends with the file.
    pub fn laid(self) -> Result<LaidFile<'a>, FileFault>
        ensures { MatchResult result
            (λ file. file.headed ≡ self.entry)
            (λ f. (Laid self.entry.sized.layout self.entry.sized.bytes.now → ⊥) × Refuses self.entry.sized.layout self.entry.sized.bytes.now (says f)) }
    {
        // A `for`, since where an entry is due hangs on the one before it.
        let count = self.sized.count();
        let mut due = self.sized.pair_start(count);
        for k in 0..count {
            let (offset, size) = self.pair(k);
            if offset != due {
                return Err(FileFault::Gap);
            }
            due = offset + size;
        }
        if due == self.sized.bytes.len() {
            Ok(LaidFile { headed: self })
        } else {
            Err(FileFault::Gap)
        }
    }
}
