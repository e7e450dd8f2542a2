// Type nodes, and the lists of them that mean a type.
#![tactic(auto)]

ghost use Rattle.std.specs.Prelude.{◌≡◌, ℕ, ◌<◌, length, Decides};
ghost use Rattle.types.specs.Lists.{Lawful, LawfulNode, node};
ghost use Rattle.types.specs.Shapes.{node_of, shape_of};

// Kind 0 is a variable with its number in `left`, kind 1 a base with its code in `left`, both with 0 in `right`; kind 2
// is an arrow, whose fields are the places of its two parts, lower in the list.
#[derive(Clone, Copy, Debug, Default, PartialEq, Eq)]
pub struct TypeNode {
    pub kind: u8,
    pub left: u16,
    pub right: u16,
}

pub const VARIABLE: u8 = 0;

pub const BASE: u8 = 1;

pub const ARROW: u8 = 2;

// What a type node says.
#[derive(Clone, Copy, Debug, PartialEq, Eq)]
pub enum Shape {
    Variable(u16),
    Base(u16),
    // From the type at one place to the type at another.
    Arrow(u16, u16),
}

impl From<Shape> for TypeNode {
    ghost from_gives = { λ s n. n ≡ node_of s };

    fn from(shape: Shape) -> TypeNode {
        match shape {
            Shape::Variable(number) => TypeNode::variable(number),
            Shape::Base(code) => TypeNode::base(code),
            Shape::Arrow(left, right) => TypeNode::arrow(left, right),
        }
    }
}

impl TypeNode {
    pub fn variable(number: u16) -> Self
        ensures { result ≡ node 0 number 0 }
    {
        TypeNode {
            kind: VARIABLE,
            left: number,
            right: 0,
        }
    }

    pub fn base(code: u16) -> Self
        ensures { result ≡ node 1 code 0 }
    {
        TypeNode {
            kind: BASE,
            left: code,
            right: 0,
        }
    }

    pub fn arrow(left: u16, right: u16) -> Self
        ensures { result ≡ node 2 left right }
    {
        TypeNode {
            kind: ARROW,
            left,
            right,
        }
    }

    // What the node says, if its kind is one of a type's.
    pub fn shape(self) -> Option<Shape>
        ensures { result ≡ shape_of self }
    {
        match self.kind {
            VARIABLE => Some(Shape::Variable(self.left)),
            BASE => Some(Shape::Base(self.left)),
            ARROW => Some(Shape::Arrow(self.left, self.right)),
            _ => None,
        }
    }
}

// The greatest number of a variable, the greatest code of a base, and the most nodes of a list.
pub const LAST_VARIABLE: u16 = 4095;

pub const LAST_BASE: u16 = 5;

pub const MOST_NODES: usize = 4096;

// Whether a node may stand at a place of a list.
pub fn is_lawful_node(node: TypeNode, place: usize) -> bool
    ensures { Decides result (LawfulNode place node) }
{
    match node.kind {
        VARIABLE => node.left <= LAST_VARIABLE && node.right == 0,
        BASE => node.left <= LAST_BASE && node.right == 0,
        ARROW => (node.left as usize) < place && (node.right as usize) < place,
        _ => false,
    }
}

// Whether a list of nodes means a type.
pub fn is_lawful(list: &[TypeNode]) -> bool
    ensures { Decides result (Lawful list.now) }
{
    if list.len() == 0 || list.len() > MOST_NODES {
        return false;
    }
    for (place, node) in list.iter().enumerate() {
        if !is_lawful_node(*node, place) {
            return false;
        }
    }
    true
}
