// The reader of formulas: each question is put to the whole text before the next.
ghost use Rattle.std.specs.Prelude.{◌≡◌, ℕ, min, length, replicate, MatchResult};
ghost use Rattle.term.specs.Terms.{zero_node};
ghost use Rattle.formula.specs.Faults.{says};
ghost use Rattle.formula.specs.Parsing.{Drafted, Parsed, InRoom, NotParsed};
ghost use Rattle.formula.specs.Reading.{Accepted, Refuses};

use crate::fault::FormulaFault;
use crate::memory::clear;
use crate::parser::{Reach, Reader};
use catalogue::interface::Catalogue;
use term::TermNode;
use text::fault::TextFault;
use text::lexer::Lexer;

// The most nodes that a term may have.
const MOST_NODES: usize = 1024;

// Reads the text as an expression, and writes its term as far as there is room.
fn parse<'a, C: Catalogue>(
    catalogue: &'a C,
    filed: u16,
    text: &'a [u8],
    memory: &mut [TermNode],
) -> Result<Reach, TextFault>
    ensures { MatchResult result (InRoom (min (length memory.old) 1024) (Parsed text.now (C.entries catalogue.now) filed memory.old memory.new)) (λ f. NotParsed text.now f) }
{
    let reader = Reader {
        lexer: Lexer::new(text),
        catalogue,
        filed,
    };
    let room = memory.len().min(MOST_NODES);
    reader.whole(&mut memory[..room])
}

// Reads the text as a formula, whose term then stands at the front of the memory.
fn draft<C: Catalogue>(
    catalogue: &C,
    filed: u16,
    text: &[u8],
    memory: &mut [TermNode],
) -> Result<usize, FormulaFault>
    ensures { MatchResult result (λ n. Drafted (C.entries catalogue.now) filed text.now memory.new n) (λ f. Refuses (C.entries catalogue.now) filed text.now (length memory.old) (says f)) }
{
    let whole = parse(catalogue, filed, text, memory)?;
    if whole.count > MOST_NODES {
        return Err(FormulaFault::TooManyNodes);
    }
    if whole.count > memory.len() {
        return Err(FormulaFault::NoRoom);
    }
    if let Some(at) = whole.unknown {
        return Err(FormulaFault::Unknown(at));
    }
    if let Some(at) = whole.unfiled {
        return Err(FormulaFault::NotFiled(at));
    }
    Ok(whole.count)
}

// Reads a text as a formula over a catalogue, while `filed` formulas are filed: its term is written to the memory, with
// zeros behind it, and the number of its nodes answered. A refusal leaves zeros in all of the memory.
pub fn read<C: Catalogue>(
    catalogue: &C,
    filed: u16,
    text: &[u8],
    memory: &mut [TermNode],
) -> Result<usize, FormulaFault>
    ensures { MatchResult result (λ n. Accepted (C.entries catalogue.now) filed text.now memory.new n) (λ f. Refuses (C.entries catalogue.now) filed text.now (length memory.old) (says f) × (memory.new ≡ replicate (length memory.old) zero_node)) }
{
    let read = draft(catalogue, filed, text, memory);
    clear(memory, read.unwrap_or(0));
    read
}
