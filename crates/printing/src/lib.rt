// The printed text of a type.
#![tactic(auto)]

ghost use Rattle.std.specs.Prelude.{◌≡◌, ◌+◌, ◌-◌, ◌<◌, ◌≤◌, ◌++◌, min, length, slice_index};
ghost use Rattle.arrayvec.specs.ArrayString.{array_string_len};
ghost use Rattle.types.specs.Lists.{Lawful, type_at, meaning};
ghost use Rattle.printing.specs.Text.{letters, left_part, is_arrow, text};
ghost use Rattle.printing.specs.Writing.{Wrote, capped, Measured, LengthFound, arrow_text, Spelled, Shown};
ghost use Rattle.printing.specs.declared.ShowFault.TheVariants.{TooLong};

use arrayvec::{ArrayString, CapacityError};
use itoa::Buffer;
use types::{MOST_NODES, Shape, TypeNode, is_lawful};

// The most bytes that a printed type may have.
pub const MOST_BYTES: usize = 4096;

// The most nodes of a list whose lengths are kept in a small table.
const FEW_NODES: usize = 64;

// The names of the bases, by their codes.
const BASE_NAMES: [&str; 6] = ["hours", "rate", "gross", "net", "paid", "flag"];

// The text of a type, in a memory of its own.
pub type TypeText = ArrayString<MOST_BYTES>;

// Why a list is not printed.
#[derive(Clone, Copy, Debug, PartialEq, Eq)]
pub enum ShowFault {
    // It means no type.
    Unlawful,
    // Its text has more than 4,096 bytes, or more than there is room for.
    TooLong,
}

// A text that is full is that of a type whose text is too long: for callers that put such texts together.
impl<T: Drop> From<CapacityError<T>> for ShowFault {
    ghost from_gives = { λ _ fault. fault ≡ TooLong };

    fn from(_full: CapacityError<T>) -> ShowFault {
        ShowFault::TooLong
    }
}

// Writes bytes from a place on, and answers where they end.
pub fn put(out: &mut [u8], at: usize, bytes: &[u8]) -> usize
    requires { at + length bytes.now ≤ length out.old }
    ensures { Wrote out.old out.new at bytes.now result }
{
    let end = at + bytes.len();
    out[at..end].copy_from_slice(bytes);
    end
}

// Whether the type at a place is an arrow, and stands in brackets as the left part of one.
fn needs_brackets(list: &[TypeNode], place: u16) -> bool
    requires { place < length list.now }
    ensures { result ≡ is_arrow (type_at list.now place) }
{
    matches!(list[place as usize].shape(), Some(Shape::Arrow(_, _)))
}

// How many bytes the letters of a variable take.
fn letters_length(number: u16) -> u16
    requires { number ≤ 4095 }
    ensures counted { result ≡ length (letters number) }
    ensures short { result ≤ 4 }
{
    match number {
        0..=25 => 1,
        26..=259 => 2,
        260..=2599 => 3,
        _ => 4,
    }
}

// The length of the text at a place, or one more than the most, by the lengths at lower places.
fn length_at(list: &[TypeNode], lengths: &[u16], place: usize) -> u16
    requires lawful { Lawful list.now }
    requires here { place < length list.now }
    requires room { length list.now ≤ length lengths.now }
    requires known { Measured list.now lengths.now place }
    ensures { result ≡ capped list.now place }
{
    match list[place].shape() {
        Some(Shape::Variable(number)) => letters_length(number),
        Some(Shape::Base(code)) => BASE_NAMES[code as usize].len() as u16,
        Some(Shape::Arrow(left, right)) => arrow_length(list, lengths, left, right),
        None => unreachable!(),
    }
}

// The length of the text of the arrow between two places, or one more than the most, by the lengths there.
fn arrow_length(list: &[TypeNode], lengths: &[u16], left: u16, right: u16) -> u16
    requires left { left < length list.now }
    requires right { right < length list.now }
    requires room { length list.now ≤ length lengths.now }
    requires left_known { slice_index lengths.now left ≡ capped list.now left }
    requires right_known { slice_index lengths.now right ≡ capped list.now right }
    ensures { result ≡ min (length (arrow_text list.now left right)) 4097 }
{
    let brackets = if needs_brackets(list, left) { 2 } else { 0 };
    let whole = lengths[left as usize] + brackets + 4 + lengths[right as usize];
    whole.min(MOST_BYTES as u16 + 1)
}

// The lengths of the texts at all places; the answer is the last.
fn find_lengths(list: &[TypeNode], lengths: &mut [u16]) -> u16
    requires lawful { Lawful list.now }
    requires room { length list.now ≤ length lengths.old }
    ensures { result ≡ capped list.now (length list.now - 1) }
{
    for place in 0..list.len() {
        let here = length_at(list, lengths, place);
        lengths[place] = here;
    }
    lengths[list.len() - 1]
}

// The length of the text of the list's type, or one more than the most, by a table with room for so many lengths.
fn find_length<const ROOM: usize>(list: &[TypeNode]) -> u16
    requires table { ROOM ≤ 4096 }
    requires lawful { Lawful list.now }
    requires room { length list.now ≤ ROOM }
    ensures { result ≡ capped list.now (length list.now - 1) }
{
    let mut lengths = [0u16; ROOM];
    find_lengths(list, &mut lengths)
}

// The length of the text of the list's type, worked out before anything is spelled.
fn text_length(list: &[TypeNode]) -> Result<usize, ShowFault>
    ensures { LengthFound list.now result }
{
    if !is_lawful(list) {
        return Err(ShowFault::Unlawful);
    }
    let bytes = if list.len() <= FEW_NODES {
        find_length::<FEW_NODES>(list) as usize
    } else {
        find_length::<MOST_NODES>(list) as usize
    };
    if bytes > MOST_BYTES {
        return Err(ShowFault::TooLong);
    }
    Ok(bytes)
}

// Puts the letters of a variable behind a text.
fn push_letters(out: &mut TypeText, number: u16)
    requires { array_string_len out.old + length (letters number) ≤ 4096 }
    ensures { out.new.bytes ≡ out.old.bytes ++ letters number }
{
    out.push(char::from(b'a' + (number % 26) as u8));
    if number >= 26 {
        let mut digits = Buffer::new();
        out.push_str(digits.format(number / 26));
    }
}

// Puts the text at a place behind a text.
#[cycle(push_type)]
fn push_type(out: &mut TypeText, list: &[TypeNode], place: u16)
    requires lawful { Lawful list.now }
    requires here { place < length list.now }
    requires room { array_string_len out.old + length (text (type_at list.now place)) ≤ 4096 }
    ensures { out.new.bytes ≡ out.old.bytes ++ text (type_at list.now place) }
{
    match list[place as usize].shape() {
        Some(Shape::Variable(number)) => push_letters(out, number),
        Some(Shape::Base(code)) => out.push_str(BASE_NAMES[code as usize]),
        Some(Shape::Arrow(left, right)) => push_arrow(out, list, left, right),
        None => unreachable!(),
    }
}

// Puts the text of the arrow between two places behind a text.
#[cycle(push_type)]
fn push_arrow(out: &mut TypeText, list: &[TypeNode], left: u16, right: u16)
    requires lawful { Lawful list.now }
    requires left { left < length list.now }
    requires right { right < length list.now }
    requires room { array_string_len out.old + length (arrow_text list.now left right) ≤ 4096 }
    ensures { out.new.bytes ≡ out.old.bytes ++ arrow_text list.now left right }
{
    let in_brackets = needs_brackets(list, left);
    push_left(out, list, left, in_brackets);
    out.push_str(" -> ");
    push_type(out, list, right)
}

// Puts the text at a place behind a text, in brackets or without.
#[cycle(push_type)]
fn push_left(out: &mut TypeText, list: &[TypeNode], place: u16, in_brackets: bool)
    requires lawful { Lawful list.now }
    requires here { place < length list.now }
    requires room { array_string_len out.old + length (left_part in_brackets (text (type_at list.now place))) ≤ 4096 }
    ensures { out.new.bytes ≡ out.old.bytes ++ left_part in_brackets (text (type_at list.now place)) }
{
    if !in_brackets {
        return push_type(out, list, place);
    }
    out.push_str("(");
    push_type(out, list, place);
    out.push_str(")");
}

// Puts the text of the list's type behind a text.
fn spell(list: &[TypeNode], out: &mut TypeText)
    requires lawful { Lawful list.now }
    requires room { array_string_len out.old + length (text (meaning list.now)) ≤ 4096 }
    ensures { out.new.bytes ≡ out.old.bytes ++ text (meaning list.now) }
{
    push_type(out, list, list.len() as u16 - 1)
}

// The text of the list's type.
pub fn text_of(list: &[TypeNode]) -> Result<TypeText, ShowFault>
    ensures { Spelled list.now result }
{
    text_length(list)?;
    let mut out = TypeText::new();
    spell(list, &mut out);
    Ok(out)
}

// Writes the text of the list's type at the front of the memory, and answers its length.
pub fn show(list: &[TypeNode], out: &mut [u8]) -> Result<usize, ShowFault>
    ensures { Shown list.now out.old out.new result }
{
    let bytes = text_length(list)?;
    if bytes > out.len() {
        return Err(ShowFault::TooLong);
    }
    let mut text = TypeText::new();
    spell(list, &mut text);
    out[..bytes].copy_from_slice(text.as_str().as_bytes());
    Ok(bytes)
}

#[cfg(test)]
mod tests;
