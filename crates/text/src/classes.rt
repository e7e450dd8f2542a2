// The table of classes, made once and looked up for each byte.
ghost use Rattle.std.specs.Prelude.{◌≡◌, ℕ, ◌<◌, length, slice_index_or};
ghost use Rattle.text.specs.Bytes.{class_of};
ghost use Rattle.text.specs.declared.bytes.Class.TheVariants.{Other};

use crate::bytes::{Class, classes};

#[derive(Drop)]
pub struct Classes {
    table: [Class; 256],
    ghost long: { length table ≡ 256 },
    ghost each: { (b : ℕ) → b < 256 → slice_index_or table b Other ≡ class_of b },
}

impl Classes {
    pub fn new() -> Self {
        Classes { table: classes() }
    }

    pub fn of(&self, byte: u8) -> Class
        ensures { result ≡ class_of byte }
    {
        self.table[byte as usize]
    }
}
