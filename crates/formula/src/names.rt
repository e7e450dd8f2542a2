// What a name means: the innermost binder around it that bears it.
ghost use Rattle.std.specs.Prelude.{◌≡◌, ℕ, ◌≤◌, ◌∷◌, MatchOption, Decides};
ghost use Rattle.catalogue.specs.Names.{Same};
ghost use Rattle.formula.specs.Names.{Bound};
ghost use Rattle.formula.specs.Parsing.{names_in};

use catalogue::names::same_name;

// Whether a binder bears a name. Most others differ in their length or first byte already.
fn bears(binder: &[u8], name: &[u8]) -> bool
    ensures { Decides result (Same binder.now name.now) }
{
    let alike = binder.len() == name.len() && (name.is_empty() || binder[0] == name[0]);
    alike && same_name(binder, name)
}

// The binders around a place, the innermost first: a chain with two in most links, so that the way outwards takes half as
// many steps.
#[derive(Clone, Copy)]
pub enum Scope<'s, 'a> {
    Top,
    One(&'a [u8], &'s Scope<'s, 'a>),
    Two(&'a [u8], &'a [u8], &'s Scope<'s, 'a>),
}

impl<'s, 'a> Scope<'s, 'a> {
    // The binders around a place under one binder more.
    pub fn under<'t>(&'t self, binder: &'a [u8]) -> Scope<'t, 'a>
        ensures { names_in result ≡ binder.now ∷ names_in self.now }
    {
        match self {
            Scope::One(next, outer) => Scope::Two(binder, next, outer),
            _ => Scope::One(binder, self),
        }
    }

    // How many binders stand between a name and the innermost that bears it, if one does; 65,535 stands for more too.
    pub fn index(&self, name: &[u8]) -> Option<u16>
        ensures { MatchOption result ((i : ℕ) → Bound (names_in self.now) name.now i → ⊥) (λ k. (i : ℕ) × Bound (names_in self.now) name.now i × (i ≤ 65535 → k ≡ i)) }
    {
        // No iterator's `position`, which would ask that a usize can number all binders.
        let mut scope = self;
        let mut between = 0u16;
        'links: loop {
            match scope {
                Scope::Top => return None,
                Scope::One(binder, outer) => {
                    if bears(binder, name) {
                        return Some(between);
                    }
                    between = between.saturating_add(1);
                    scope = outer;
                }
                Scope::Two(binder, next, outer) => {
                    if bears(binder, name) {
                        return Some(between);
                    }
                    if bears(next, name) {
                        return Some(between.saturating_add(1));
                    }
                    between = between.saturating_add(2);
                    scope = outer;
                }
            }
        }
    }
}
