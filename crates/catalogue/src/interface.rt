// What every catalogue promises, by the list of entries that it means.
ghost use Rattle.std.specs.Prelude.{◌≡◌, ℕ, ◌≤◌, List, length, slice_index_or};
ghost use Rattle.types.specs.Lists.{zero_node};
ghost use Rattle.catalogue.specs.Entries.{Entry, AllLawful, Least, list_of};

use types::TypeNode;

pub trait Catalogue {
    // The entries, each a name and a list of type nodes.
    ghost entries: { Self → List Entry };

    ghost few: { (c : Self) → length (entries c) ≤ 65535 };

    ghost lawful: { (c : Self) → AllLawful (entries c) };

    // How many entries there are.
    fn count(&self) -> u16
        ensures { result ≡ length (entries self.now) };

    // The least number whose entry bears the name, if any.
    fn find(&self, name: &[u8]) -> Option<u16>
        ensures { Least (entries self.now) name.now result };

    // How many nodes the list of entry k has; 0 where there is no entry k.
    fn nodes(&self, k: u16) -> u16
        ensures { result ≡ length (list_of (entries self.now) k) };

    // Node i of entry k, or else the zero node.
    fn node(&self, k: u16, i: u16) -> TypeNode
        ensures { result ≡ slice_index_or (list_of (entries self.now) k) i zero_node };
}
