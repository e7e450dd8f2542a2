// The reply to a line: the most general type of the formula that it is.
ghost use Rattle.std.specs.Prelude.{◌≡◌, ℕ, length, MatchResult};
ghost use Rattle.paycheck.specs.Faults.{says};
ghost use Rattle.paycheck.specs.Replies.{Types, Refused};

use crate::fault::LineFault;
use catalogue::builtin::Builtin;
use copy::nothing::Nothing;
use formula::reader::read;
use infer::Term;
use printing::{ShowFault, show};
use sources::Entries;
use term::TermNode;
use typer::type_term;
use types::TypeNode;

const LONGEST_TEXT: usize = 4096;

// Writes the text of the most general type of a line over the built-in catalogue, with nothing filed, and answers its
// length; a refusal leaves `out` as it was. The other memories are room to work in.
pub fn reply(
    line: &[u8],
    terms: &mut [TermNode],
    types: &mut [TypeNode],
    numbers: &mut [u32],
    out: &mut [u8],
) -> Result<usize, LineFault>
    ensures { MatchResult result (λ n. Types line.now out.old out.new n) (λ f. Refused line.now (length terms.old) (length types.old) (length numbers.old) (length out.old) (says f) × (out.new ≡ out.old)) }
{
    if line.len() > LONGEST_TEXT {
        return Err(LineFault::TooManyBytes);
    }
    let count = read(&Builtin, 0, line, terms)?;
    let term = Term {
        entries: &Entries {
            catalogue: &Builtin,
        },
        kept: &Nothing,
        nodes: &terms[..count],
    };
    let records = type_term(&term, types, numbers)?;
    match show(&types[..records], out) {
        Ok(length) => Ok(length),
        Err(ShowFault::TooLong) => Err(LineFault::TooLong),
        // The list of a type is lawful.
        Err(ShowFault::Unlawful) => unreachable(),
    }
}
