// The answers of the catalogue over an accepted file.
ghost use Rattle.std.specs.Prelude.{◌≡◌, get_or, slice_index_or};
ghost use Rattle.catalogue.specs.Entries.{no_entry};
ghost use Rattle.catalogue_file.specs.Parts.{entry_in};
ghost use Rattle.catalogue_file.specs.Contents.{contents, contents_few, contents_lawful};

use crate::file::FileCatalogue;
use crate::parts::{node_at, node_count, split};
use catalogue::interface::Catalogue;
use catalogue::names::same_name;
use types::TypeNode;

impl<'a> FileCatalogue<'a> {
    // The bytes of entry k, none where there is no entry k.
    fn part(&self, k: u16) -> &'a [u8]
        ensures { entry_in result.now ≡ slice_index_or (contents self.now) k no_entry }
    {
        if k < self.count() {
            self.laid.part(k as usize)
        } else {
            b""
        }
    }

    // The name of entry k, empty where there is no entry k.
    pub fn name(&self, k: u16) -> &'a [u8]
        ensures { result.now ≡ (get_or (contents self.now) k no_entry).name }
    {
        split(self.part(k)).0
    }
}

impl<'a> Catalogue for FileCatalogue<'a> {
    ghost entries = { contents };

    ghost few = { contents_few };

    ghost lawful = { contents_lawful };

    fn count(&self) -> u16 {
        self.laid.headed.sized.count() as u16
    }

    // As the built-in catalogue does: of the names of entries the interface says nothing.
    fn find(&self, name: &[u8]) -> Option<u16> {
        (0..self.count()).find(|k| same_name(self.name(*k), name))
    }

    fn nodes(&self, k: u16) -> u16 {
        node_count(split(self.part(k)).1) as u16
    }

    fn node(&self, k: u16, i: u16) -> TypeNode {
        node_at(split(self.part(k)).1, i)
    }
}
