// The lines of an input: each ends at byte 10; a last one without it counts unless it is empty. And the input itself,
// read from the standard input.
#![tactic(auto)]

ghost use Rattle.std.specs.Prelude.{◌≡◌, ◌-◌, ◌≤◌, ◌==◌, length, MatchOption};
ghost use Rattle.std.specs.Iterator.{at_most};
ghost use Rattle.std.specs.List.{position};
ghost use Rattle.cutting.specs.Lines.{EndsAt, Cut, Begins, Gives};

use std::io;
use std::io::Read;

// The most bytes of input that are read.
const MOST_BYTES: u64 = 65536;

// The standard input, as much of it as is read.
pub fn read_input(rt: &HostRuntime) -> io::Result<Vec<u8>> {
    let mut input = Vec::new(rt.alloc());
    let _ = rt.stdin().take(MOST_BYTES).read_to_end(&mut input)?;
    Ok(input)
}

// A line's text, where it begins and ends, and where the next one begins.
#[derive(Clone, Copy)]
pub struct Line<'a> {
    pub text: &'a [u8],
    pub from: usize,
    pub to: usize,
    pub next: usize,
}

// Cuts an input into its lines, from its front on.
#[derive(Clone, Copy)]
pub struct Cutter<'a> {
    pub(crate) input: &'a [u8],
    pub(crate) at: usize,
}

// The lines of an input, in their order.
pub fn lines(input: &[u8]) -> Cutter<'_>
    ensures { Begins input.now result }
{
    Cutter { input, at: 0 }
}

impl<'a> Iterator for Cutter<'a> {
    type Item = Line<'a>;

    ghost next_gives = { Gives };

    ghost remaining = { λ s. at_most (length s.input.now - s.at) };

    fn next(&mut self) -> Option<Line<'a>> {
        let line = next_line(self.input, self.at)?;
        self.at = line.next;
        Some(line)
    }
}

// The line that begins at `from`, if there is one.
pub fn next_line(input: &[u8], from: usize) -> Option<Line<'_>>
    ensures { MatchOption result (length input.now ≤ from) (λ l. Cut input.now from l) }
{
    if from >= input.len() {
        return None;
    }
    let to = line_end(input, from);
    let text = &input[from..to];
    let next = if to < input.len() { to + 1 } else { to };
    Some(Line {
        text,
        from,
        to,
        next,
    })
}

// The first place from `from` on at which a byte 10 stands, or the end.
fn line_end(input: &[u8], from: usize) -> usize
    requires { from ≤ length input.now }
    ensures { EndsAt input.now from result }
{
    let rest = &input[from..];
    from + newline(rest).unwrap_or(rest.len())
}

// Where the first byte 10 stands.
fn newline(bytes: &[u8]) -> Option<usize>
    ensures { result ≡ position (λ b. b == 10) bytes.now }
{
    bytes.iter().position(|b| *b == b'\n')
}
