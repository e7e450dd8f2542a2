// Reads lines of text from standard input, and prints the most general type of each formula, or which refusal a line gets
// and at which place.
#![tactic(auto)]

mod fault;
mod reply;

use cutting::{lines, read_input};
use fault::LineFault;
use refusal::Refusal;
use reply::reply as type_of;
use std::io;
use std::io::Write;
use term::TermNode;
use types::TypeNode;

// Room for the numbers that the largest formula needs.
const NUMBERS: usize = 40960;

// Prints a type, or why there is none.
fn say(rt: &HostRuntime, reply: Result<usize, LineFault>, out: &[u8]) -> io::Result<()> {
    match reply {
        Ok(length) => {
            let mut to = rt.stdout();
            to.write_all(out.get(0..length).unwrap_or(out))?;
            to.write_all(b"\n")
        }
        Err(LineFault::TooLong) => println!(rt; "too long"),
        Err(fault) => println!(rt; "{}", Refusal::from(fault)),
    }
}

fn main(rt: HostRuntime) -> io::Result<()> {
    let input = read_input(&rt)?;
    let mut terms = vec![in rt.alloc(); TermNode::default(); 1024]?;
    let mut types = vec![in rt.alloc(); TypeNode::default(); 4096]?;
    let mut numbers = vec![in rt.alloc(); 0u32; NUMBERS]?;
    let mut out = vec![in rt.alloc(); 0u8; 4096]?;
    for line in lines(&input) {
        let reply = type_of(line.text, &mut terms, &mut types, &mut numbers, &mut out);
        say(&rt, reply, &out)?;
    }
    Ok(())
}
