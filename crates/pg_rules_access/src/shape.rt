//! Rows of one shape: how an atom after the step comes of others.

ghost use Rattle.std.specs.Prelude.{◌≡◌, ◌∷◌, [], None, List};
ghost use Rattle.pg_assertion.specs.declared.atom.ViewAtom.{ViewAtom};
ghost use Rattle.pg_assertion.specs.Layout.{Sizes, IsAtom};
ghost use Rattle.pg_tables.specs.declared.clause.StepLiteral.{StepLiteral};
ghost use Rattle.pg_tables.specs.Clause.{implies};
ghost use Rattle.pg_tables.specs.Shapes.{before, after};
ghost use Rattle.pg_rules_access.specs.Shape.{row_of, AreInShape, cas_row_of, AreInCasShape};

use crate::store::store_twice;
use pg_assertion::{Layout, StepAtom, ViewAtom};
use pg_region::ClauseSink;
use pg_tables::{
    Case, Clause, Rows, Setting, Then, Under, after, always, becomes, becomes_both, before, frame,
    gains, gains_both, implies, never, only_where,
};

/// What the atom after the step is.
#[derive(Clone, Copy)]
pub enum Shape {
    /// True.
    Always,
    /// False.
    Never,
    /// What it was before the step.
    Frame,
    /// True only where the other is.
    OnlyWhere(StepAtom),
    /// What the other is.
    Becomes(StepAtom),
    /// What two others are together.
    BecomesBoth(StepAtom, StepAtom),
    /// What it was, or the other.
    Gains(StepAtom),
    /// No less than it was.
    Keeps,
    /// What it was, or two others together.
    GainsBoth(StepAtom, StepAtom),
    /// No more than it was, and that where the other is.
    Loses(StepAtom),
    /// No less than it was, and that where the other is.
    Grows(StepAtom),
    /// What it was, or the stored value read second, after what could be read, or twice.
    Twice(StepAtom, u8, u8),
}

impl Rows<ViewAtom> for Shape {
    ghost rows = { λ l c i. row_of c i };

    ghost fits = { λ s c i. IsAtom s.layout i × AreInShape s.layout c };

    fn offer_at<S: ClauseSink>(
        &self,
        i: ViewAtom,
        setting: &Setting,
        into: &mut S,
    ) -> Result<(), S::Fault> {
        let (is, was) = (after(i), before(i));
        match *self {
            Shape::Always => always(is).offer_at((), setting, into),
            Shape::Never => never(is).offer_at((), setting, into),
            Shape::Frame => frame(i).offer_at((), setting, into),
            Shape::OnlyWhere(b) => only_where(is, b).offer_at((), setting, into),
            Shape::Becomes(b) => becomes(is, b).offer_at((), setting, into),
            Shape::BecomesBoth(b, c) => becomes_both(is, b, c).offer_at((), setting, into),
            Shape::Gains(b) => gains(is, was, b).offer_at((), setting, into),
            Shape::GainsBoth(b, c) => gains_both(is, was, b, c).offer_at((), setting, into),
            Shape::Keeps => only_where(was, is).offer_at((), setting, into),
            Shape::Loses(kept) => loses(kept, i).offer_at((), setting, into),
            Shape::Grows(kept) => grows(kept, i).offer_at((), setting, into),
            Shape::Twice(read, v, w) => {
                store_twice(is, was, read, v, w).offer_at((), setting, into)
            }
        }
    }
}

/// What the atom after a cas is: of one shape, or of the first where it succeeds, and of the second where it fails.
#[derive(Clone, Copy)]
pub enum CasShape {
    Plain(Shape),
    Split(Shape, Shape),
}

impl Rows<ViewAtom> for CasShape {
    ghost rows = { λ l c i. cas_row_of c i };

    ghost fits = { λ s c i. (s.case ≡ None) × IsAtom s.layout i × AreInCasShape s.layout c };

    fn offer_at<S: ClauseSink>(
        &self,
        i: ViewAtom,
        setting: &Setting,
        into: &mut S,
    ) -> Result<(), S::Fault> {
        match *self {
            CasShape::Plain(shape) => shape.offer_at(i, setting, into),
            CasShape::Split(succeeds, fails) => {
                let fails = Under(Case::Fails, fails);
                Then(Under(Case::Succeeds, succeeds), fails).offer_at(i, setting, into)
            }
        }
    }
}

/// What gives the row of each atom a shape.
pub trait HasShapes {
    /// The rows.
    ghost rows: { Self → ViewAtom → List (List StepLiteral) };

    /// It is over a layout.
    ghost fits: { Sizes → Self → Type 0 };

    /// The shape of the row of an atom.
    fn shape(&self, i: ViewAtom, layout: &Layout) -> Shape
        requires atom { IsAtom layout.now i }
        requires fits { fits layout.now self.now }
        ensures row { row_of result i ≡ rows self.now i }
        ensures within { AreInShape layout.now result };
}

/// The rows of these shapes.
#[derive(Clone, Copy)]
pub struct Shaped<T>(pub T);

impl<T: HasShapes> Rows<ViewAtom> for Shaped<T> {
    ghost rows = { λ l c i. T.rows c.0 i };

    ghost fits = { λ s c i. IsAtom s.layout i × T.fits s.layout c.0 };

    fn offer_at<S: ClauseSink>(
        &self,
        i: ViewAtom,
        setting: &Setting,
        into: &mut S,
    ) -> Result<(), S::Fault> {
        self.0.shape(i, &setting.layout).offer_at(i, setting, into)
    }
}

// The atom only loses, and keeps where `kept` holds.
fn loses(kept: StepAtom, atom: ViewAtom) -> [Clause; 2]
    ensures { result ≡ implies (after atom ∷ []) (before atom ∷ []) ∷ implies (kept ∷ before atom ∷ []) (after atom ∷ []) ∷ [] }
{
    [
        implies(&[after(atom)], &[before(atom)]),
        implies(&[kept, before(atom)], &[after(atom)]),
    ]
}

// The atom only gains, and keeps where `kept` holds.
fn grows(kept: StepAtom, atom: ViewAtom) -> [Clause; 2]
    ensures { result ≡ implies (before atom ∷ []) (after atom ∷ []) ∷ implies (kept ∷ after atom ∷ []) (before atom ∷ []) ∷ [] }
{
    [
        implies(&[before(atom)], &[after(atom)]),
        implies(&[kept, after(atom)], &[before(atom)]),
    ]
}
