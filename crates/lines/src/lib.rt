// The line that a program prints for a formula that it was given.
#![tactic(auto)]

ghost use Rattle.std.specs.Prelude.{◌≡◌, ◌+◌, ◌<◌, ◌≤◌, ◌++◌, length, decimal};
ghost use Rattle.arrayvec.specs.ArrayString.{array_string_len};
ghost use Rattle.types.specs.Lists.{Lawful, meaning};
ghost use Rattle.printing.specs.Text.{text};
ghost use Rattle.printing.specs.Writing.{Wrote};
ghost use Rattle.lines.specs.Lines.{line_room, line_end, head_room, filed_head, refused_head, if_short, filed_line, refused_line, Lined};

use arrayvec::ArrayString;
use itoa::Buffer;
use printing::{put, show};
use refusal::Refusal;
use types::TypeNode;

// The most bytes of a line.
pub const LINE_ROOM: usize = 4104;

// The most bytes of what stands before the type in a line, or before the end of one that has none: `refused 65535 at
// 18446744073709551615`.
const HEAD_ROOM: usize = 37;

// What a line begins with. It is put together by `push_str`, since no clause says that a `write!` succeeds.
type Head = ArrayString<HEAD_ROOM>;

// Puts a number in decimal behind what a line begins with.
fn push_number(head: &mut Head, number: usize)
    requires { array_string_len head.old + length (decimal number) ≤ head_room }
    ensures bytes { head.new.bytes ≡ head.old.bytes ++ decimal number }
    ensures len { array_string_len head.new ≡ array_string_len head.old + length (decimal number) }
{
    let mut digits = Buffer::new();
    head.push_str(digits.format(number));
}

// What the line of a formula that was filed begins with.
fn start_filed(number: u16) -> Head
    requires { number < 128 }
    ensures { result.bytes ≡ filed_head number }
{
    let mut head = Head::new();
    head.push_str("#");
    push_number(&mut head, number as usize);
    head.push_str(" : ");
    head
}

// What the line of a formula that was refused begins with.
fn start_refused(refusal: Refusal) -> Head
    ensures { result.bytes ≡ refused_head refusal }
{
    let mut head = Head::new();
    head.push_str("refused ");
    push_number(&mut head, refusal.number as usize);
    head.push_str(" at ");
    push_number(&mut head, refusal.place);
    head
}

// Writes the text of a type from a place on, if it is short enough, and answers where it ends.
fn put_type(out: &mut [u8], at: usize, list: &[TypeNode]) -> usize
    requires lawful { Lawful list.now }
    requires room { at + 4096 ≤ length out.old }
    ensures { Wrote out.old out.new at (if_short (text (meaning list.now))) result }
{
    match show(list, &mut out[at..]) {
        Ok(bytes) => at + bytes,
        Err(_) => put(out, at, b"too long"),
    }
}

// Ends a line at a place, and answers its length.
fn end_line(out: &mut [u8], at: usize) -> usize
    requires { at < length out.old }
    ensures { Wrote out.old out.new at line_end result }
{
    put(out, at, b"\n")
}

// Writes the line of a formula that was filed under a number with the list of its type, and answers its length.
pub fn write_filed(number: u16, list: &[TypeNode], out: &mut [u8]) -> usize
    requires filed { number < 128 }
    requires lawful { Lawful list.now }
    requires room { line_room ≤ length out.old }
    ensures { Lined (filed_line number list.now) out.old out.new result }
{
    let head = start_filed(number);
    let start = put(out, 0, head.as_str().as_bytes());
    let end = put_type(out, start, list);
    end_line(out, end)
}

// Writes the line of a formula that was refused, and answers its length.
pub fn write_refused(refusal: Refusal, out: &mut [u8]) -> usize
    requires { line_room ≤ length out.old }
    ensures { Lined (refused_line refusal) out.old out.new result }
{
    let head = start_refused(refusal);
    let end = put(out, 0, head.as_str().as_bytes());
    end_line(out, end)
}

#[cfg(test)]
mod tests;
