// A source without lists.
ghost use Rattle.std.specs.Prelude.{[]};
ghost use Rattle.std.proofs.Common.{lt_irrefl};

use crate::Source;
use types::TypeNode;

#[derive(Clone, Copy)]
pub struct Nothing;

impl Source for Nothing {
    ghost list = { λ _ _. [] };

    ghost lawful = { λ _ _ h. absurd (lt_irrefl 0 h) };

    fn nodes(&self, _k: u16) -> u16 {
        0
    }

    fn node(&self, _k: u16, _i: u16) -> TypeNode {
        TypeNode::default()
    }
}
