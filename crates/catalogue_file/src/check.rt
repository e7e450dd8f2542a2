// The check of a catalogue file.
ghost use Rattle.std.specs.Result.{MatchResult};
ghost use Rattle.catalogue_file.specs.Layouts.{Fit, short};
ghost use Rattle.catalogue_file.specs.Checking.{Sound, Refuses};
ghost use Rattle.catalogue_file.specs.Faults.{says};
ghost use Rattle.catalogue_file.specs.Contents.{Means};

use crate::fault::FileFault;
use crate::file::FileCatalogue;
use crate::layout::{Layout, SHORT};
use crate::sized::SizedFile;

// Puts the questions of a layout to a file, and answers the catalogue of its entries.
pub(crate) fn check_in(layout: Layout, bytes: &[u8]) -> Result<FileCatalogue<'_>, FileFault>
    requires { Fit layout }
    ensures { MatchResult result (λ c. Means layout bytes.now c) (λ f. Refuses layout bytes.now (says f)) }
{
    SizedFile::new(layout, bytes)?.headed()?.laid()?.sound()
}

// Whether the bytes are a catalogue file: accepted exactly when all questions are answered with yes, else refused by the
// first that is not. It reads only.
pub fn check_file(bytes: &[u8]) -> Result<(), FileFault>
    ensures { MatchResult result (λ _. Sound short bytes.now) (λ f. Refuses short bytes.now (says f)) }
{
    check_in(SHORT, bytes)?;
    Ok(())
}
