// The lexer: cuts a text into tokens, one after the other.
ghost use Rattle.std.specs.Prelude.{◌≡◌, ℕ, ◌+◌, ◌<◌, ◌≤◌, true, List, length, drop, MatchResult, ◌≢◌, slice_index};
ghost use Rattle.text.specs.Bytes.{class_of, in_name};
ghost use Rattle.text.specs.Words.{lead};
ghost use Rattle.text.specs.Tokens.{Scans, Tokens};
ghost use Rattle.text.specs.Lexing.{Next, Passed, Run, Scanned, Starts};

use crate::bytes::Class;
use crate::classes::Classes;
use crate::fault::TextFault;
use crate::token::{Lexeme, Token, single};
use crate::words::{is_name, number};

// A text, with the classes of bytes by which it is cut.
#[derive(Drop)]
pub struct Lexer<'a> {
    classes: Classes,
    pub text: &'a [u8],
}

impl<'a> Lexer<'a> {
    pub fn new(text: &'a [u8]) -> Self
        ensures { result.text.now ≡ text.now }
    {
        Lexer {
            classes: Classes::new(),
            text,
        }
    }

    // Where the bytes end that begin at `from` and are of classes that go on.
    fn run<F: Fn(Class) -> bool>(&self, from: usize, goes_on: F) -> usize
        requires inside { from ≤ length self.now.text.now }
        requires callable { (f : F) (c : _) → F.pre f c }
        ensures within { result ≤ length self.now.text.now }
        ensures counts { Run (F.post goes_on) self.now.text.now from result }
    {
        from + self.text[from..]
            .iter()
            .take_while(|byte| goes_on(self.classes.of(**byte)))
            .count()
    }

    // The first offset from `from` on at which no space stands.
    fn pass_spaces(&self, from: usize) -> usize
        requires { from ≤ length self.now.text.now }
        ensures { Passed self.now.text.now from result }
    {
        self.run(from, |class| class == Class::Space)
    }

    // Where the run of name bytes that begins at `from` ends.
    fn run_end(&self, from: usize) -> usize
        requires { from ≤ length self.now.text.now }
        ensures within { result ≤ length self.now.text.now }
        ensures whole { result ≡ from + lead (drop from self.now.text.now) }
    {
        self.run(from, |class| class.is_in_name())
    }

    // The next three ask for a byte at `at`: a type for such a place would have to hold the text too, and be no plainer.
    // The name that begins at `at`.
    fn name_at(&self, at: usize) -> Result<Lexeme<'a>, TextFault>
        requires { (at < length self.now.text.now) × (in_name (class_of (slice_index self.now.text.now at)) ≡ true) }
        ensures { Starts self.now.text.now at result }
    {
        let end = self.run_end(at);
        let word = &self.text[at..end];
        if !is_name(&self.classes, word) {
            return Err(TextFault::Stray(at));
        }
        Ok(Lexeme {
            token: Token::Name(word),
            at,
            end,
        })
    }

    // The reference whose `#` stands at `at`.
    fn reference_at(&self, at: usize) -> Result<Lexeme<'a>, TextFault>
        requires { (at < length self.now.text.now) × (slice_index self.now.text.now at ≡ 35) }
        ensures { Starts self.now.text.now at result }
    {
        let end = self.run_end(at + 1);
        let n = number(&self.text[at + 1..end]).ok_or(TextFault::Stray(at))?;
        Ok(Lexeme {
            token: Token::Reference(n),
            at,
            end,
        })
    }

    // The token that begins at `at`, where no space stands.
    fn token_at(&self, at: usize) -> Result<Lexeme<'a>, TextFault>
        requires { (at < length self.now.text.now) × ((class_of (slice_index self.now.text.now at) ≢ Class.Space)) }
        ensures { Starts self.now.text.now at result }
    {
        let byte = self.text[at];
        if let Some(token) = single(byte as char) {
            return Ok(Lexeme {
                token,
                at,
                end: at + 1,
            });
        }
        match self.classes.of(byte) {
            Class::Letter | Class::Digit | Class::Underscore => self.name_at(at),
            Class::Mark => self.reference_at(at),
            Class::Other | Class::Space => Err(TextFault::Stray(at)),
        }
    }

    // The next token from the offset `from` on, if there is one; what is no token is refused.
    pub fn next(&self, from: usize) -> Result<Option<Lexeme<'a>>, TextFault>
        ensures { Next self.now.text.now from result }
    {
        if from > self.text.len() {
            return Ok(None);
        }
        let at = self.pass_spaces(from);
        if at == self.text.len() {
            return Ok(None);
        }
        self.token_at(at).map(Some)
    }

    // Whether the whole text is tokens and spaces; if not, the first byte or run that is none is refused.
    pub fn scan(&self) -> Result<(), TextFault>
        ensures { Scanned self.now.text.now result }
    {
        let mut at = 0;
        while let Some(found) = self.next(at)? {
            at = found.end;
        }
        Ok(())
    }
}
