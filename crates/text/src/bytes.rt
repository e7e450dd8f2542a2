// The class of each byte.
ghost use Rattle.std.specs.Prelude.{◌≡◌, ℕ, ◌<◌, ◌≤◌, ◌&&◌, if◌then◌else◌, length, nat_le, slice_index_or};
ghost use Rattle.text.specs.Bytes.{class_of, in_name};

#[derive(Clone, Copy, Debug, PartialEq, Eq, Hash)]
pub enum Class {
    Other,
    Letter,
    Digit,
    Underscore,
    Space,
    Mark,
}

impl Class {
    // Whether a byte of this class may stand in a name.
    pub fn is_in_name(self) -> bool
        ensures { result ≡ in_name self }
    {
        matches!(self, Class::Letter | Class::Digit | Class::Underscore)
    }
}

// Gives a class to each byte from `first` to `last`.
fn give(table: &mut [Class; 256], first: u8, last: u8, class: Class)
    requires { first ≤ last }
    ensures { (b : ℕ) → slice_index_or table.new b Class.Other ≡ (if nat_le first b && nat_le b last then class else slice_index_or table.old b Class.Other) }
{
    table[first as usize..=last as usize].fill(class);
}

// The class of each of the 256 byte values: all other at first, then letters, digits, the underscore, space and marks.
pub(crate) fn classes() -> [Class; 256]
    ensures long { length result ≡ 256 }
    ensures each { (b : ℕ) → b < 256 → slice_index_or result b Class.Other ≡ class_of b }
{
    let mut table = [Class::Other; 256];
    give(&mut table, b'a', b'z', Class::Letter);
    give(&mut table, b'0', b'9', Class::Digit);
    give(&mut table, b'_', b'_', Class::Underscore);
    give(&mut table, b' ', b' ', Class::Space);
    for mark in b"\\.()#" {
        give(&mut table, *mark, *mark, Class::Mark);
    }
    table
}
