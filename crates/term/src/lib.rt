// The nodes of a formula's term, as they stand in a memory: in prefix order, function before argument.
#![tactic(auto)]

ghost use Rattle.std.specs.Prelude.{◌≡◌};
ghost use Rattle.term.specs.Symbols.{node_of, symbol_of};

// Kind 0 is a variable, its number counting the binders between it and its own; kinds 1 and 2, with number 0, are
// abstraction and application; kind 3 is a primitive by its number in the catalogue, kind 4 a reference by the number
// of the filed formula.
#[derive(Clone, Copy, Debug, Default, PartialEq, Eq)]
pub struct TermNode {
    pub kind: u8,
    pub number: u16,
}

// The kinds, as they stand in the records.
const VARIABLE: u8 = 0;

const ABSTRACTION: u8 = 1;

const APPLICATION: u8 = 2;

const PRIMITIVE: u8 = 3;

const REFERENCE: u8 = 4;

// What a term node says.
#[derive(Clone, Copy, Debug, PartialEq, Eq)]
pub enum Symbol {
    Variable(u16),
    Abstraction,
    Application,
    Primitive(u16),
    Reference(u16),
}

impl From<Symbol> for TermNode {
    ghost from_gives = { λ s n. n ≡ node_of s };

    fn from(symbol: Symbol) -> TermNode {
        match symbol {
            Symbol::Variable(number) => TermNode {
                kind: VARIABLE,
                number,
            },
            Symbol::Abstraction => TermNode {
                kind: ABSTRACTION,
                number: 0,
            },
            Symbol::Application => TermNode {
                kind: APPLICATION,
                number: 0,
            },
            Symbol::Primitive(number) => TermNode {
                kind: PRIMITIVE,
                number,
            },
            Symbol::Reference(number) => TermNode {
                kind: REFERENCE,
                number,
            },
        }
    }
}

impl TermNode {
    // What the node says, if its kind is one of a term's. An abstraction or an application is told by its kind alone.
    pub fn symbol(self) -> Option<Symbol>
        ensures { result ≡ symbol_of self }
    {
        match self.kind {
            VARIABLE => Some(Symbol::Variable(self.number)),
            ABSTRACTION => Some(Symbol::Abstraction),
            APPLICATION => Some(Symbol::Application),
            PRIMITIVE => Some(Symbol::Primitive(self.number)),
            REFERENCE => Some(Symbol::Reference(self.number)),
            _ => None,
        }
    }
}
