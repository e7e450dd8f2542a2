// Reads formulas from standard input, one to a line, files what is accepted in one book over the built-in catalogue, and
// prints the number and type of each, or which refusal it gets and at which place.
#![tactic(auto)]

use catalogue::builtin::Builtin;
use desk::serve::{read_input, serve};
use std::io;

fn main(rt: HostRuntime) -> io::Result<()> {
    let input = read_input(&rt)?;
    serve(&rt, Builtin, &input)
}
