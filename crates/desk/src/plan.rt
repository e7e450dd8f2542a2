// What is done with the lines of an input, and what became of each.
ghost use Rattle.std.specs.Prelude.{◌≡◌, IfOk};
ghost use Rattle.desk.specs.Plans.{Planned, filed_number, came_to};

use book::dealing::{Answer, Dealing};
use book::fault::BookFault;
use book::outcome::Outcome;
use cutting::lines;
use std::alloc::{AllocError, Global};

// Each line is submitted, and then filed.
pub fn plan(heap: Global, input: &[u8]) -> Result<Vec<Dealing>, AllocError>
    ensures { IfOk result (λ v. Planned input.now v.items) }
{
    let mut dealings = Vec::new(heap);
    'lines: for line in lines(input) {
        dealings.push(Dealing::Submit(line.from, line.to))?;
        dealings.push(Dealing::File)?;
    }
    Ok(dealings)
}

// The number that filing answered.
fn filing(filed: Answer) -> Outcome
    ensures { result ≡ filed_number filed }
{
    match filed {
        Answer::Filed(number) => Ok(number),
        _ => Err(BookFault::NoCandidate),
    }
}

// What became of a line that was submitted and then filed with these answers.
pub fn outcome(submitted: Result<Answer, BookFault>, filed: Result<Answer, BookFault>) -> Outcome
    ensures { result ≡ came_to submitted filed }
{
    let _ = submitted?;
    filing(filed?)
}
