// The tokens that the grammar expects at a place: the head of an abstraction, another atom, a closing bracket.
ghost use Rattle.formula.specs.Parsing.{Expected, Taken, Bindered, Headed, Follows, Closed};

use text::fault::TextFault;
use text::lexer::Lexer;
use text::token::{Lexeme, Token};

// The head of an abstraction: the name that it binds, and where its body begins.
#[derive(Clone, Copy)]
pub struct Head<'a> {
    pub name: &'a [u8],
    pub end: usize,
}

// The token that has to stand here, where the text may not end.
pub fn expected<'a>(lexer: &Lexer<'a>, from: usize) -> Result<Lexeme<'a>, TextFault>
    ensures { Expected lexer.now.text.now from result }
{
    lexer
        .next(from)?
        .ok_or(TextFault::Misplaced(lexer.text.len()))
}

// What `wanted` makes of the token here, and where that token ends; one of which it makes nothing is misplaced.
fn take<'a, T: Drop, F: FnOnce(Token<'a>) -> Option<T>>(
    lexer: &Lexer<'a>,
    from: usize,
    wanted: F,
) -> Result<(T, usize), TextFault>
    requires { F.IsAlwaysCallable wanted }
    ensures { Taken (F.post wanted) lexer.now.text.now from result }
{
    let found = expected(lexer, from)?;
    let made = wanted(found.token).ok_or(TextFault::Misplaced(found.at))?;
    Ok((made, found.end))
}

// The name and the dot of a binder, whose `\` has been read.
fn binder<'a>(lexer: &Lexer<'a>, from: usize) -> Result<Head<'a>, TextFault>
    ensures { Bindered lexer.now.text.now from result }
{
    let (name, dot) = take(lexer, from, |token| match token {
        Token::Name(name) => Some(name),
        _ => None,
    })?;
    let (_, end) = take(lexer, dot, |token| match token {
        Token::Dot => Some(()),
        _ => None,
    })?;
    Ok(Head { name, end })
}

// The head of an abstraction, if one begins here.
pub fn abstraction_head<'a>(lexer: &Lexer<'a>, from: usize) -> Result<Option<Head<'a>>, TextFault>
    ensures { Headed lexer.now.text.now from result }
{
    let Some(found) = lexer.next(from)? else {
        return Ok(None);
    };
    let Token::Lambda = found.token else {
        return Ok(None);
    };
    let head = binder(lexer, found.end)?;
    Ok(Some(head))
}

// Whether another atom of an application follows.
pub fn follows(lexer: &Lexer, from: usize) -> Result<bool, TextFault>
    ensures { Follows lexer.now.text.now from result }
{
    let Some(found) = lexer.next(from)? else {
        return Ok(false);
    };
    match found.token {
        Token::Close => Ok(false),
        _ => Ok(true),
    }
}

// The bracket that closes an expression: where it ends.
pub fn closing(lexer: &Lexer, from: usize) -> Result<usize, TextFault>
    ensures { Closed lexer.now.text.now from result }
{
    let (_, end) = take(lexer, from, |token| match token {
        Token::Close => Some(()),
        _ => None,
    })?;
    Ok(end)
}
