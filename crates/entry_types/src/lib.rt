// The types of a catalogue's entries, as text.
#![tactic(auto)]

ghost use Rattle.std.specs.Prelude.{◌≡◌, MatchOption, OnOk};
ghost use Rattle.std.specs.Io.KnownBytes.{Appends};
ghost use Rattle.entry_types.specs.Types.{Typed, line};

use catalogue::interface::Catalogue;
use copy::load::load;
use printing::show;
use sources::Entries;
use std::io;
use std::io::Write;
use types::{MOST_NODES, TypeNode};

// Writes the text of the type of entry k, and answers its length; nothing where it is too long or there is no entry k.
pub fn type_of<C: Catalogue>(catalogue: &C, k: u16, out: &mut [u8]) -> Option<usize>
    ensures { MatchOption result (out.new ≡ out.old) (λ n. Typed (C.entries catalogue.now) k out.old out.new n) }
{
    if k >= catalogue.count() {
        return None;
    }
    let mut memory = [TypeNode::default(); MOST_NODES];
    let entries = Entries { catalogue };
    let count = load(&entries, k, &mut memory);
    show(&memory[..count], out).ok()
}

// Writes a line: the name of an entry and the text of its type.
pub fn write_entry<W: Write>(to: &mut W, name: &[u8], text: &[u8]) -> io::Result<()>
    ensures { OnOk result (Appends (W.contents to.old) (W.contents to.new) (line name.now text.now)) }
{
    to.write_all(name)?;
    to.write_all(b" : ")?;
    to.write_all(text)?;
    to.write_all(b"\n")
}
