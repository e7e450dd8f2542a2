// Where the subterms of a list of term nodes in prefix order end, and which abstraction a variable means.
ghost use Rattle.std.specs.Prelude.{◌≡◌, ℕ, ◌<◌, ◌≤◌, length, drop, slice_index};
ghost use Rattle.term.specs.Symbols.{symbol_of};
ghost use Rattle.derivation_check.specs.Prefixes.{arity, span, end, opens, binder};

use term::{Symbol, TermNode};

// How many parts a node has: an abstraction one, an application two.
fn parts_of(node: TermNode) -> usize
    ensures { result ≡ arity (symbol_of node) }
{
    match node.symbol() {
        Some(Symbol::Abstraction) => 1,
        Some(Symbol::Application) => 2,
        _ => 0,
    }
}

// How many nodes the first term of a list takes, by a walk over them.
fn walk(terms: &[TermNode]) -> usize
    ensures few { result ≤ length terms.now }
    ensures is { result ≡ span 1 terms.now }
{
    let mut missing = 1;
    for (next, term) in terms.iter().enumerate() {
        if missing == 0 {
            return next;
        }
        missing = missing - 1 + parts_of(*term);
    }
    terms.len()
}

// Term nodes in prefix order, with the sizes of the terms that begin at the first of them.
#[derive(Clone, Copy)]
pub struct Prefix<'t, 's> {
    pub terms: &'t [TermNode],
    sizes: &'s [usize],
    ghost known: { (k : ℕ) → k < length sizes.now → slice_index sizes.now k ≡ span 1 (drop k terms.now) },
}

impl<'t, 's> Prefix<'t, 's> {
    // Notes the sizes of the terms that begin at the first nodes, from right to left.
    pub fn new(terms: &'t [TermNode], sizes: &'s mut [usize]) -> Self
        requires { length sizes.old ≤ length terms.now }
        ensures terms { result.terms.now ≡ terms.now }
        ensures noted { length result.sizes.now ≡ length sizes.old }
    {
        for i in (0..sizes.len()).rev() {
            let rest = Prefix {
                terms: &terms[i + 1..],
                sizes: &sizes[i + 1..],
            };
            let size = 1 + rest.span(parts_of(terms[i]));
            sizes[i] = size;
        }
        Prefix { terms, sizes }
    }

    // The place after the term that begins at `at`: by its size if it is noted, else by a walk.
    pub fn end_at(&self, at: usize) -> usize
        requires { at ≤ length self.now.terms.now }
        ensures { result ≡ end self.now.terms.now at }
    {
        let rest = &self.terms[at..];
        match self.sizes.get(at) {
            Some(size) => at + *size,
            None => at + walk(rest),
        }
    }

    // How many nodes the first `count` terms take.
    fn span(&self, count: usize) -> usize
        ensures few { result ≤ length self.now.terms.now }
        ensures is { result ≡ span count self.now.terms.now }
    {
        let mut at = 0;
        for _ in 0..count {
            at = self.end_at(at);
        }
        at
    }

    // Whether the node `b` is an abstraction around the node `i`.
    fn is_around(&self, i: usize, b: usize) -> bool
        requires { b < length self.now.terms.now }
        ensures { result ≡ opens self.now.terms.now i b }
    {
        self.terms[b].symbol() == Some(Symbol::Abstraction) && i < self.end_at(b)
    }

    // The abstraction that a variable with the number `number` at `i` means.
    pub fn find_binder(&self, i: usize, number: u16) -> Option<usize>
        requires { i < length self.now.terms.now }
        ensures { result ≡ binder self.now.terms.now i i number }
    {
        (0..i)
            .rev()
            .filter(|b| self.is_around(i, *b))
            .nth(number as usize)
    }
}
