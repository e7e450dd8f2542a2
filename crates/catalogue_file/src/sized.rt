// A file whose length is one of its layout's: its count, and where its pairs stand.
ghost use Rattle.std.specs.Prelude.{◌≡◌, ◌+◌, ◌^◌, ◌<◌, ◌≤◌, length};
ghost use Rattle.std.specs.Result.{MatchResult};
ghost use Rattle.catalogue_file.specs.Layouts.{Fit, pair_place};
ghost use Rattle.catalogue_file.specs.Files.{field, count as count_of};
ghost use Rattle.catalogue_file.specs.Questions.{Sized, Headed};
ghost use Rattle.catalogue_file.specs.Checking.{Refuses};
ghost use Rattle.catalogue_file.specs.Faults.{says};

use crate::fault::FileFault;
use crate::headed::HeadedFile;
use crate::layout::Layout;
use crate::numbers::read_number;

// That the layout can be read and the length is one of its is known (`∥ ∥₁`: by some proof).
#[derive(Clone, Copy)]
pub struct SizedFile<'a> {
    pub layout: Layout,
    pub bytes: &'a [u8],
    ghost fit: { ∥ Fit layout ∥₁ },
    ghost sized: { ∥ Sized layout bytes.now ∥₁ },
}

impl<'a> SizedFile<'a> {
    // Asks whether a file is neither too short nor too long.
    pub fn new(layout: Layout, bytes: &'a [u8]) -> Result<Self, FileFault>
        requires { Fit layout }
        ensures { MatchResult result
            (λ file. (file.layout ≡ layout) × (file.bytes.now ≡ bytes.now))
            (λ f. (Sized layout bytes.now → ⊥) × Refuses layout bytes.now (says f)) }
    {
        if layout.least <= bytes.len() && bytes.len() <= layout.most {
            Ok(SizedFile { layout, bytes })
        } else {
            Err(FileFault::Length)
        }
    }

    // The number at an offset.
    pub fn field(&self, at: usize) -> usize
        requires { at + self.now.layout.width ≤ length self.now.bytes.now }
        ensures value { result ≡ field self.now.layout self.now.bytes.now at }
        ensures small { result < 2 ^ 32 }
    {
        read_number(&self.bytes[at..at + self.layout.width])
    }

    // How many entries the file says that it has.
    pub fn count(&self) -> usize
        ensures value { result ≡ count_of self.now.layout self.now.bytes.now }
        ensures small { result < 2 ^ 32 }
    {
        self.field(self.layout.front)
    }

    // Where pair k starts; with k the count, where the entries start.
    pub fn pair_start(&self, k: usize) -> usize
        requires { k ≤ 65535 }
        ensures value { result ≡ pair_place self.now.layout k }
        ensures small { result < 2 ^ 32 }
    {
        let Layout { front, width, .. } = self.layout;
        front + width + 2 * width * k
    }

    // Asks whether a file begins with the mark, and has few enough entries, all pairs inside.
    pub fn headed(self) -> Result<HeadedFile<'a>, FileFault>
        ensures { MatchResult result
            (λ file. file.sized ≡ self.entry)
            (λ f. (Headed self.entry.layout self.entry.bytes.now → ⊥) × Refuses self.entry.layout self.entry.bytes.now (says f)) }
    {
        let layout = self.layout;
        let count = self.count();
        if read_number(&self.bytes[..layout.front]) == layout.mark
            && count <= layout.entries
            && self.pair_start(count) <= self.bytes.len()
        {
            Ok(HeadedFile { sized: self })
        } else {
            Err(FileFault::Count)
        }
    }
}
