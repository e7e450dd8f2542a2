// The grammar of formulas read in one pass: expression, application and atom call each other, the unread part of the
// text falling. The pass counts nodes, settles names and references, and writes the term where there is room.
ghost use Rattle.std.specs.Prelude.{◌≡◌, ℕ, ◌+◌, ◌*◌, ◌^◌, ◌<◌, ◌≤◌, List, length, None, MatchOption, MatchResult};
ghost use Rattle.catalogue.specs.Names.{Name};
ghost use Rattle.catalogue.specs.Entries.{Entry};
ghost use Rattle.formula.specs.Names.{Known};
ghost use Rattle.formula.specs.Parsing.{names_in, Leaf, Settled, Unfiled, Ended, Covered, InRoom, BlamesExpression, BlamesApplication, BlamesNext, Parsed, NotParsed};
ghost use Rattle.grammar.specs.Grammar.{expression as anExpression, application as anApplication, atom as anAtom};

use crate::expected::{abstraction_head, closing, expected, follows};
use crate::memory::{lift, put};
use crate::names::Scope;
use catalogue::interface::Catalogue;
use term::{Symbol, TermNode};
use text::fault::TextFault;
use text::lexer::Lexer;
use text::token::Token;

// What was read: where it ends, how many nodes it has, and the offsets of the first unknown name and of the first
// reference that is not filed.
#[derive(Clone, Copy)]
pub struct Reach {
    pub end: usize,
    pub count: usize,
    pub unknown: Option<usize>,
    pub unfiled: Option<usize>,
}

// A text with what its names and references may mean.
#[derive(Drop)]
pub struct Reader<'a, C> {
    pub lexer: Lexer<'a>,
    pub catalogue: &'a C,
    pub filed: u16,
    ghost short: { 2 * length lexer.text.now < 2 ^ 64 },
}

impl<'a, C: Catalogue> Reader<'a, C> {
    // What a name means: its binder, or else the catalogue's entry.
    fn leaf(&self, scope: &Scope, name: &[u8]) -> Option<Symbol>
        ensures { Leaf (C.entries self.now.catalogue.now) (names_in scope.now) name.now result }
    {
        if let Some(k) = scope.index(name) {
            return Some(Symbol::Variable(k));
        }
        let k = self.catalogue.find(name)?;
        Some(Symbol::Primitive(k))
    }

    // Writes the node of a name, or answers its place where it is unknown.
    fn settle(
        &self,
        scope: &Scope,
        name: &[u8],
        place: usize,
        out: &mut [TermNode],
    ) -> Option<usize>
        ensures { Settled (C.entries self.now.catalogue.now) (names_in scope.now) name.now place out.old out.new result }
    {
        let Some(symbol) = self.leaf(scope, name) else {
            return Some(place);
        };
        put(out, symbol);
        None
    }

    // Settles a name where there is room for its node. Where there is none, the name isn't looked up: the text is refused,
    // for its size if not for its form, and the names looked up and the binders around them stay few.
    fn settle_in_room(
        &self,
        scope: &Scope,
        name: &[u8],
        place: usize,
        out: &mut [TermNode],
    ) -> Option<usize>
        ensures settled { 0 < length out.old → Settled (C.entries self.now.catalogue.now) (names_in scope.now) name.now place out.old out.new result }
        ensures unasked { length out.old ≡ 0 → result ≡ None }
    {
        if out.is_empty() {
            return None;
        }
        self.settle(scope, name, place, out)
    }

    // The place of a reference that is not filed.
    fn unfiled(&self, number: u16, place: usize) -> Option<usize>
        ensures { Unfiled self.now.filed number place result }
    {
        (number >= self.filed).then_some(place)
    }

    #[cycle(application_atom_expression)]
    pub fn expression(
        &self,
        from: usize,
        scope: &Scope<'_, 'a>,
        out: &mut [TermNode],
    ) -> Result<Reach, TextFault>
        ensures { MatchResult result (InRoom (length out.old) (Ended anExpression self.now.lexer.text.now (C.entries self.now.catalogue.now) self.now.filed (names_in scope.now) out.old out.new from)) (λ f. BlamesExpression self.now.lexer.text.now from f) }
    {
        let Some(head) = abstraction_head(&self.lexer, from)? else {
            return self.application(from, &*scope, out);
        };
        put(out, Symbol::Abstraction);
        let inner = scope.under(head.name);
        let start = out.len().min(1);
        let body = self.expression(head.end, &inner, &mut out[start..])?;
        Ok(Reach {
            count: body.count + 1,
            ..body
        })
    }

    #[cycle(application_atom_expression)]
    fn application(
        &self,
        from: usize,
        scope: &Scope<'_, 'a>,
        out: &mut [TermNode],
    ) -> Result<Reach, TextFault>
        ensures { MatchResult result (InRoom (length out.old) (Ended anApplication self.now.lexer.text.now (C.entries self.now.catalogue.now) self.now.filed (names_in scope.now) out.old out.new from)) (λ f. BlamesApplication self.now.lexer.text.now from f) }
    {
        let mut reach = self.atom(from, &*scope, &mut *out)?;
        'atoms: while follows(&self.lexer, reach.end)? {
            lift(out, reach.count);
            let start = out.len().min(reach.count + 1);
            let next = self.atom(reach.end, &*scope, &mut out[start..])?;
            reach = Reach {
                end: next.end,
                count: reach.count + next.count + 1,
                unknown: reach.unknown.or(next.unknown),
                unfiled: reach.unfiled.or(next.unfiled),
            };
        }
        Ok(reach)
    }

    #[cycle(application_atom_expression)]
    fn atom(
        &self,
        from: usize,
        scope: &Scope<'_, 'a>,
        out: &mut [TermNode],
    ) -> Result<Reach, TextFault>
        ensures { MatchResult result (InRoom (length out.old) (Covered anAtom self.now.lexer.text.now (C.entries self.now.catalogue.now) self.now.filed (names_in scope.now) out.old out.new from)) (λ f. BlamesApplication self.now.lexer.text.now from f × BlamesNext self.now.lexer.text.now from f) }
    {
        let found = expected(&self.lexer, from)?;
        match found.token {
            Token::Name(name) => {
                let unknown = self.settle_in_room(scope, name, found.at, out);
                Ok(Reach {
                    end: found.end,
                    count: 1,
                    unknown,
                    unfiled: None,
                })
            }
            Token::Reference(number) => {
                put(out, Symbol::Reference(number));
                let unfiled = self.unfiled(number, found.at);
                Ok(Reach {
                    end: found.end,
                    count: 1,
                    unknown: None,
                    unfiled,
                })
            }
            Token::Open => {
                let inner = self.expression(found.end, &*scope, out)?;
                let end = closing(&self.lexer, inner.end)?;
                Ok(Reach { end, ..inner })
            }
            _ => Err(TextFault::Misplaced(found.at)),
        }
    }

    // The whole text as one expression.
    pub fn whole(&self, out: &mut [TermNode]) -> Result<Reach, TextFault>
        ensures { MatchResult result (InRoom (length out.old) (Parsed self.now.lexer.text.now (C.entries self.now.catalogue.now) self.now.filed out.old out.new)) (λ f. NotParsed self.now.lexer.text.now f) }
    {
        self.lexer.scan()?;
        let all = self.expression(0, &Scope::Top, out)?;
        match self.lexer.next(all.end)? {
            Some(found) => Err(TextFault::Misplaced(found.at)),
            None => Ok(all),
        }
    }
}
