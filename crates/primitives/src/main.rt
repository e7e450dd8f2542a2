// Prints the built-in primitives with their types, one to a line.
#![tactic(auto)]

ghost use Rattle.std.specs.Prelude.{◌≡◌, length, MatchOption};
ghost use Rattle.catalogue.specs.Table.{builtin as the_table};
ghost use Rattle.entry_types.specs.Types.{Typed};
ghost use Rattle.primitives.specs.Types.{RowsAreNormal};

use catalogue::builtin::Builtin;
use catalogue::interface::Catalogue;
use entry_types::{type_of, write_entry};
use printing::MOST_BYTES;
use std::io;

// How many primitives there are. Each row of the table is the normal list of its type.
fn count() -> u16
    ensures count { result ≡ length the_table }
    ensures normal { RowsAreNormal }
{
    Builtin.count()
}

// Writes the text of the type of primitive k, and answers its length; nothing where it is too long or there is none.
fn type_of_primitive(k: u16, out: &mut [u8]) -> Option<usize>
    ensures { MatchOption result (out.new ≡ out.old) (λ n. Typed the_table k out.old out.new n) }
{
    type_of(&Builtin, k, out)
}

// One primitive: its name and its type.
fn say(rt: &HostRuntime, k: u16) -> io::Result<()> {
    let mut out = [0; MOST_BYTES];
    match type_of_primitive(k, &mut out) {
        Some(length) => write_entry(&mut rt.stdout(), Builtin.name(k), &out[..length]),
        None => Ok(()),
    }
}

fn main(rt: HostRuntime) -> io::Result<()> {
    for k in 0..count() {
        say(&rt, k)?;
    }
    Ok(())
}
