// Tokens, as they are cut from a text.
ghost use Rattle.std.specs.Prelude.{◌≡◌, Option};
ghost use Rattle.text.specs.Lexing.{Single};

// A token; that of a name borrows the bytes that spell it.
#[derive(Clone, Copy, Debug)]
pub enum Token<'a> {
    Lambda,
    Dot,
    Open,
    Close,
    Name(&'a [u8]),
    Reference(u16),
}

// A token with the offset at which it stands, and the one at which it ends.
#[derive(Clone, Copy, Debug)]
pub struct Lexeme<'a> {
    pub token: Token<'a>,
    pub at: usize,
    pub end: usize,
}

// A mark that is a token by itself.
pub fn single(c: char) -> Option<Token<'static>>
    ensures { Single c result }
{
    match c {
        '\\' => Some(Token::Lambda),
        '.' => Some(Token::Dot),
        '(' => Some(Token::Open),
        ')' => Some(Token::Close),
        _ => None,
    }
}
