// A catalogue over the bytes of an accepted file.
ghost use Rattle.catalogue_file.specs.Checking.{Sound};

use crate::laid::LaidFile;

// The bytes are borrowed, and read anew for each question. That the file is sound is known (`∥ ∥₁`: by some proof), so each
// part that is read lies inside it.
#[derive(Clone, Copy)]
pub struct FileCatalogue<'a> {
    pub(crate) laid: LaidFile<'a>,
    ghost sound: { ∥ Sound laid.headed.sized.layout laid.headed.sized.bytes.now ∥₁ },
}
