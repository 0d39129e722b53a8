//! That something has exactly one value: a location its last one, a scalar its own, an expression its result.

ghost use Rattle.std.specs.Prelude.{◌≡◌, ℕ, ◌++◌, ◌∷◌, [], map};
ghost use Rattle.pg_assertion.specs.Layout.{values};
ghost use Rattle.pg_assertion.specs.StepAtom.{IsStepAtom};
ghost use Rattle.pg_assertion.specs.declared.step_atom.StepAtom.{StepAtom};
ghost use Rattle.pg_tables.specs.Clause.{implies};
ghost use Rattle.pg_tables.specs.Table.{exactly_one, IsOneOf};

use crate::clause::{Clause, Setting, implies};
use crate::table::{PerValue, Rows, Then, WhereLess};
use pg_assertion::StepAtom;
use pg_region::ClauseSink;

/// An atom for each value, at an index.
pub trait HasValues<I> {
    /// The atom that says that it has this value.
    ghost atom_for: { Self → I → ℕ → StepAtom };

    /// The atom that says that it has this value.
    fn atom_for(&self, i: I, v: u8) -> StepAtom
        ensures { result ≡ atom_for self.now i v };
}

/// Some value has its atom, and of no two values both have.
#[derive(Drop)]
pub struct ExactlyOne<A>(pub A);

impl<I: Copy, A: HasValues<I> + Copy> Rows<I> for ExactlyOne<A> {
    ghost rows = { λ l c i. exactly_one l (A.atom_for c.0 i) };

    ghost fits = { λ s c i. (v : ℕ) → IsOneOf 0 s.layout.domain v → IsStepAtom s.layout (A.atom_for c.0 i v) };

    fn offer_at<S: ClauseSink>(
        &self,
        i: I,
        setting: &Setting,
        into: &mut S,
    ) -> Result<(), S::Fault> {
        let of = self.0;
        Then(SomeValue(of), PerValue(PerValue(WhereLess(NotBoth(of))))).offer_at(i, setting, into)
    }
}

// Some value has its atom.
#[derive(Drop)]
struct SomeValue<A>(A);

impl<I: Copy, A: HasValues<I>> Rows<I> for SomeValue<A> {
    ghost rows = { λ l c i. implies [] (map (A.atom_for c.0 i) (values l)) ∷ [] };

    ghost fits = { λ s c i. (v : ℕ) → IsOneOf 0 s.layout.domain v → IsStepAtom s.layout (A.atom_for c.0 i v) };

    fn offer_at<S: ClauseSink>(
        &self,
        i: I,
        setting: &Setting,
        into: &mut S,
    ) -> Result<(), S::Fault> {
        let mut clause = Clause::empty();
        for v in 0..setting.layout.domain() as u8 {
            clause = clause.with(self.0.atom_for(i, v), true);
        }
        clause.offer(setting, into)
    }
}

// Of two values not both have their atoms.
#[derive(Drop)]
struct NotBoth<A>(A);

impl<I: Copy, A: HasValues<I>> Rows<((I, u8), u8)> for NotBoth<A> {
    ghost rows = { λ l c i. implies (A.atom_for c.0 i.0.0 i.0.1 ∷ A.atom_for c.0 i.0.0 i.1 ∷ []) [] ∷ [] };

    ghost fits = { λ s c i. IsStepAtom s.layout (A.atom_for c.0 i.0.0 i.0.1) × IsStepAtom s.layout (A.atom_for c.0 i.0.0 i.1) };

    fn offer_at<S: ClauseSink>(
        &self,
        i: ((I, u8), u8),
        setting: &Setting,
        into: &mut S,
    ) -> Result<(), S::Fault> {
        let ((at, v), w) = i;
        let one = self.0.atom_for(at, v);
        let other = self.0.atom_for(at, w);
        [implies(&[one, other], &[])].offer_at((), setting, into)
    }
}
