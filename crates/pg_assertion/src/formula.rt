//! Formulas over atoms of any kind. `Boxed` is a `Box` that contracts see as what it holds.

ghost use Rattle.std.specs.Prelude.{◌≡◌, ◌<◌, ◌^◌, IfOk};
ghost use Rattle.pg_assertion.specs.Formula.{plain, nodes, neg, both, either, implies};

use sqlite_items::Boxed;
use std::alloc::{AllocError, Global};

/// A formula. Contracts see it as the data of `specs/Formula.antt`, by `plain`.
#[derive(Drop)]
pub enum Formula<T> {
    True,
    False,
    Atom(T),
    Not(Boxed<Formula<T>>),
    And(Boxed<Formula<T>>, Boxed<Formula<T>>),
    Or(Boxed<Formula<T>>, Boxed<Formula<T>>),
    Implies(Boxed<Formula<T>>, Boxed<Formula<T>>),
}

impl<T: Drop> Formula<T> {
    /// `!f`.
    pub fn not(alloc: Global, f: Formula<T>) -> Result<Formula<T>, AllocError>
        ensures { IfOk result (λ h. plain h ≡ neg (plain f)) }
    {
        Ok(Formula::Not(Boxed::new(alloc, f)?))
    }

    /// `f & g`.
    pub fn and(alloc: Global, f: Formula<T>, g: Formula<T>) -> Result<Formula<T>, AllocError>
        ensures { IfOk result (λ h. plain h ≡ both (plain f) (plain g)) }
    {
        let (f, g) = boxed(alloc, f, g)?;
        Ok(Formula::And(f, g))
    }

    /// `f | g`.
    pub fn or(alloc: Global, f: Formula<T>, g: Formula<T>) -> Result<Formula<T>, AllocError>
        ensures { IfOk result (λ h. plain h ≡ either (plain f) (plain g)) }
    {
        let (f, g) = boxed(alloc, f, g)?;
        Ok(Formula::Or(f, g))
    }

    /// `f -> g`.
    pub fn implies(alloc: Global, f: Formula<T>, g: Formula<T>) -> Result<Formula<T>, AllocError>
        ensures { IfOk result (λ h. plain h ≡ implies (plain f) (plain g)) }
    {
        let (f, g) = boxed(alloc, f, g)?;
        Ok(Formula::Implies(f, g))
    }
}

impl<T> Formula<T> {
    /// How many nodes it has: each constant, atom and connective is one.
    pub fn nodes(&self) -> u64
        requires { nodes (plain self.now) < 2 ^ 64 }
        ensures { result ≡ nodes (plain self.now) }
    {
        match self {
            Formula::True | Formula::False | Formula::Atom(_) => 1,
            Formula::Not(f) => 1 + f.get().nodes(),
            Formula::And(f, g) | Formula::Or(f, g) | Formula::Implies(f, g) => {
                1 + f.get().nodes() + g.get().nodes()
            }
        }
    }
}

/// Two formulas, each in a box.
fn boxed<T: Drop>(
    alloc: Global,
    f: Formula<T>,
    g: Formula<T>,
) -> Result<(Boxed<Formula<T>>, Boxed<Formula<T>>), AllocError>
    ensures { IfOk result (λ p. (p.0 ≡ f) × (p.1 ≡ g)) }
{
    let f = Boxed::new(alloc, f)?;
    Ok((f, Boxed::new(alloc, g)?))
}
