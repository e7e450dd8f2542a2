// Which runs of name bytes are names, and which are the numbers of references.
ghost use Rattle.std.specs.Prelude.{◌≡◌, ℕ, ◌-◌, ◌<◌, length, Decides, MatchOption, ◌≢◌};
ghost use Rattle.text.specs.Bytes.{class_of};
ghost use Rattle.text.specs.Words.{IsName, IsNumber};

use crate::bytes::Class;
use crate::classes::Classes;

pub const LONGEST_NAME: usize = 31;

pub const MOST_DIGITS: usize = 3;

// Whether a word is a name: a letter, then letters, digits and underscores, 31 bytes at most.
pub fn is_name(classes: &Classes, word: &[u8]) -> bool
    ensures { Decides result (IsName word.now) }
{
    word.len() <= LONGEST_NAME
        && word
            .first()
            .is_some_and(|first| classes.of(*first) == Class::Letter)
        && word.iter().all(|byte| classes.of(*byte).is_in_name())
}

// The value of a digit.
fn digit(byte: u8) -> Option<u16>
    ensures { MatchOption result (class_of byte ≢ Class.Digit) (λ d. (class_of byte ≡ Class.Digit) × (d ≡ byte - 48)) }
{
    let value = (byte as char).to_digit(10)?;
    Some(value as u16)
}

// The number that a word of one to three digits writes, with no leading zero but for zero itself.
pub fn number(word: &[u8]) -> Option<u16>
    ensures { MatchOption result ((n : ℕ) → IsNumber word.now n → ⊥) (λ n. IsNumber word.now n) }
{
    if word.is_empty() || word.len() > MOST_DIGITS {
        return None;
    }
    if word[0] == b'0' && word.len() > 1 {
        return None;
    }
    let mut n = 0;
    for byte in word {
        n = 10 * n + digit(*byte)?;
    }
    Some(n)
}
