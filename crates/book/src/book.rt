// The book itself.
use catalogue::interface::Catalogue;
use table::table::Table;

// A book of formulas over the catalogue that it was made with.
pub struct Book<C: Catalogue> {
    pub(crate) catalogue: C,
    pub(crate) table: Table,
}
