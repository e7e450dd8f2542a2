// A file whose entries stand one behind the other: the bytes of each, and what is asked of each.
ghost use Rattle.std.specs.Prelude.{◌≡◌, ℕ, ◌<◌, Decides};
ghost use Rattle.std.specs.Result.{MatchResult};
ghost use Rattle.catalogue_file.specs.Files.{count, part as part_of};
ghost use Rattle.catalogue_file.specs.Questions.{Laid, FormedAt, LawfulAt, FreshAt};
ghost use Rattle.catalogue_file.specs.Checking.{Each, Refuses, Sound};
ghost use Rattle.catalogue_file.specs.Faults.{says};
ghost use Rattle.catalogue_file.specs.Firsts.{Answered};

use crate::fault::FileFault;
use crate::file::FileCatalogue;
use crate::headed::HeadedFile;
use crate::parts::{are_lawful, is_formed, split};
use catalogue::names::same_name;
use text::classes::Classes;

#[derive(Clone, Copy)]
pub struct LaidFile<'a> {
    pub headed: HeadedFile<'a>,
    ghost laid: { ∥ Laid headed.sized.layout headed.sized.bytes.now ∥₁ },
}

impl<'a> LaidFile<'a> {
    // The bytes of entry k.
    pub fn part(&self, k: usize) -> &'a [u8]
        requires { let f = self.now.headed.sized in k < count f.layout f.bytes.now }
        ensures { let f = self.now.headed.sized in result.now ≡ part_of f.layout f.bytes.now k }
    {
        let (offset, size) = self.headed.pair(k);
        &self.headed.sized.bytes[offset..offset + size]
    }

    // Whether no earlier entry bears the name of entry k.
    fn is_fresh(&self, k: usize) -> bool
        requires { let f = self.now.headed.sized in k < count f.layout f.bytes.now }
        ensures { let f = self.now.headed.sized in Decides result (FreshAt f.layout f.bytes.now k) }
    {
        let (name, _) = split(self.part(k));
        (0..k).all(|j| !same_name(split(self.part(j)).0, name))
    }

    // The first entry that answers a question with no.
    fn first_failing<F: Fn(usize) -> bool>(&self, holds: F) -> Option<usize>
        requires { let f = self.now.headed.sized in (k : ℕ) → k < count f.layout f.bytes.now → F.pre holds k }
        ensures { let f = self.now.headed.sized in Answered (F.post holds) (count f.layout f.bytes.now) result }
    {
        // A `for` is plainer: a `find` needs a closure around `holds`, with a contract of its own.
        for k in 0..self.headed.sized.count() {
            if !holds(k) {
                return Some(k);
            }
        }
        None
    }

    // Asks whether each entry is a lawful name and whole nodes.
    fn formed(&self) -> Result<(), FileFault>
        ensures { let f = self.now.headed.sized in MatchResult result
            (λ _. Each f.layout f.bytes.now FormedAt)
            (λ e. Refuses f.layout f.bytes.now (says e)) }
    {
        let classes = Classes::new();
        let most = self.headed.sized.layout.nodes;
        match self.first_failing(|k| is_formed(&classes, most, self.part(k))) {
            None => Ok(()),
            Some(k) => Err(FileFault::Malformed(k)),
        }
    }

    // Asks whether the nodes of each entry are lawful.
    fn lawful(&self) -> Result<(), FileFault>
        ensures { let f = self.now.headed.sized in MatchResult result
            (λ _. Each f.layout f.bytes.now LawfulAt)
            (λ e. Each f.layout f.bytes.now FormedAt → Refuses f.layout f.bytes.now (says e)) }
    {
        match self.first_failing(|k| are_lawful(split(self.part(k)).1)) {
            None => Ok(()),
            Some(k) => Err(FileFault::Unlawful(k)),
        }
    }

    // Asks whether no entry bears the name of an earlier one.
    fn fresh(&self) -> Result<(), FileFault>
        ensures { let f = self.now.headed.sized in MatchResult result
            (λ _. Each f.layout f.bytes.now FreshAt)
            (λ e. Each f.layout f.bytes.now FormedAt → Each f.layout f.bytes.now LawfulAt → Refuses f.layout f.bytes.now (says e)) }
    {
        match self.first_failing(|k| self.is_fresh(k)) {
            None => Ok(()),
            Some(k) => Err(FileFault::Repeated(k)),
        }
    }

    // Puts the questions that are asked of each entry, each to the whole file before the next.
    pub fn sound(self) -> Result<FileCatalogue<'a>, FileFault>
        ensures { let f = self.entry.headed.sized in MatchResult result
            (λ c. (c.laid ≡ self.entry) × Sound f.layout f.bytes.now)
            (λ e. Refuses f.layout f.bytes.now (says e)) }
    {
        self.formed()?;
        self.lawful()?;
        self.fresh()?;
        Ok(FileCatalogue { laid: self })
    }
}
