// The questions that are put before a term is typed.
ghost use Rattle.std.specs.Prelude.{◌≡◌, ℕ, ◌<◌, ◌≤◌, length, MatchOption, MatchResult};
ghost use Rattle.infer.specs.Heads.{need};
ghost use Rattle.typer.specs.Faults.{says, derive_says, of_derivation};
ghost use Rattle.typer.specs.Derivations.{Fits, NotFits, Roomy, Roomless};
ghost use Rattle.typer.specs.declared.fault.TypesFault.TheVariants.{NoNumberRoom};
ghost use Rattle.typer.specs.Questions.{numbers_for, Few, Served, Unserved};

use crate::fault::{DeriveFault, TypesFault};
use copy::Source;
use infer::Term;
use types::MOST_NODES;

// How many numbers the work takes on a term of `nodes` nodes that needs `records` type records.
pub fn numbers_needed(records: usize, nodes: usize) -> u128
    ensures { result ≡ numbers_for records nodes }
{
    8 * (records as u128 + nodes as u128)
}

// How many type records a term needs, if they are at most 4,096.
pub fn few_records<E: Source, K: Source>(term: &Term<E, K>) -> Option<usize>
    ensures { MatchOption result (4096 < need (E.Source.list term.now.entries.now) (K.Source.list term.now.kept.now) term.now.nodes.now) (λ n. Few (need (E.Source.list term.now.entries.now) (K.Source.list term.now.kept.now) term.now.nodes.now) n) }
{
    let mut sum = 0;
    for node in term.nodes {
        sum += term.need_of(*node) as usize;
        if sum > MOST_NODES {
            return None;
        }
    }
    Some(sum)
}

// How many records a term needs, if a type memory of `types` records has as many.
fn ask_records<E: Source, K: Source>(term: &Term<E, K>, types: usize) -> Result<usize, TypesFault>
    ensures { MatchResult result (λ n. (n ≡ need (E.Source.list term.now.entries.now) (K.Source.list term.now.kept.now) term.now.nodes.now) × Fits (need (E.Source.list term.now.entries.now) (K.Source.list term.now.kept.now) term.now.nodes.now) types) (λ f. NotFits (need (E.Source.list term.now.entries.now) (K.Source.list term.now.kept.now) term.now.nodes.now) types f) }
{
    let records = few_records(term).ok_or(TypesFault::TooMuch)?;
    if types < records {
        return Err(TypesFault::NoTypeRoom);
    }
    Ok(records)
}

// Whether a number memory of `numbers` numbers has as many as the work takes.
fn ask_numbers(records: usize, nodes: usize, numbers: usize) -> Result<(), TypesFault>
    ensures { MatchResult result (λ _. numbers_for records nodes ≤ numbers) (λ f. (f ≡ NoNumberRoom) × (numbers < numbers_for records nodes)) }
{
    if (numbers as u128) < numbers_needed(records, nodes) {
        return Err(TypesFault::NoNumberRoom);
    }
    Ok(())
}

// Whether a term can be typed in a type memory of `types` records and a number memory of `numbers` numbers: how many
// records it needs, or the first question that is answered with no.
pub fn ask<E: Source, K: Source>(
    term: &Term<E, K>,
    types: usize,
    numbers: usize,
) -> Result<usize, TypesFault>
    ensures { MatchResult result (λ n. Served (need (E.Source.list term.now.entries.now) (K.Source.list term.now.kept.now) term.now.nodes.now) (length term.now.nodes.now) types numbers n) (λ f. Unserved (need (E.Source.list term.now.entries.now) (K.Source.list term.now.kept.now) term.now.nodes.now) (length term.now.nodes.now) types numbers (says f)) }
{
    let records = ask_records(term, types)?;
    ask_numbers(records, term.nodes.len(), numbers)?;
    Ok(records)
}

// The same answer, said of a derivation.
impl From<TypesFault> for DeriveFault {
    ghost from_gives = { λ f d. d ≡ of_derivation f };

    fn from(fault: TypesFault) -> DeriveFault {
        match fault {
            TypesFault::TooMuch | TypesFault::NoTypeRoom => DeriveFault::NoTypeRoom,
            TypesFault::NoNumberRoom => DeriveFault::NoNumberRoom,
            TypesFault::NoType => DeriveFault::NoType,
        }
    }
}

// Whether the derivation of a term has room in memories of so many records, places and numbers: how many records it
// needs, or the first question that is answered with no.
pub fn ask_derivation<E: Source, K: Source>(
    term: &Term<E, K>,
    types: usize,
    places: usize,
    numbers: usize,
) -> Result<usize, DeriveFault>
    ensures { MatchResult result (λ n. Roomy (need (E.Source.list term.now.entries.now) (K.Source.list term.now.kept.now) term.now.nodes.now) (length term.now.nodes.now) types places numbers n) (λ f. Roomless (need (E.Source.list term.now.entries.now) (K.Source.list term.now.kept.now) term.now.nodes.now) (length term.now.nodes.now) types places numbers (derive_says f)) }
{
    let records = ask_records(term, types)?;
    if places < term.nodes.len() {
        return Err(DeriveFault::NoPlaceRoom);
    }
    ask_numbers(records, term.nodes.len(), numbers)?;
    Ok(records)
}
