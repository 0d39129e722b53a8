//! Rows of one shape: how an atom after the step comes of others.

ghost use Rattle.std.specs.Prelude.{◌≡◌, true, None};
ghost use Rattle.pg_assertion.specs.declared.step_atom.StepAtom.{StepAtom};
ghost use Rattle.pg_assertion.specs.Layout.{IsAtom};
ghost use Rattle.pg_rules_persist.specs.Rows.{flush_persist, flushopt_async, becomes_both_or};
ghost use Rattle.pg_rules_persist.specs.Shape.{shape_of, row_of, AreInShape, AreInRow};

use pg_assertion::{StepAtom, ViewAtom};
use pg_region::ClauseSink;
use pg_tables::{
    Case, Clause, Rows, Setting, Then, Under, after, becomes, becomes_both, before, frame, gains,
    implies,
};

/// What the atom after the step is.
#[derive(Clone, Copy)]
pub enum Shape {
    /// What it was before the step.
    Frame,
    /// What the other is.
    Becomes(StepAtom),
    /// What it was and the other together.
    Narrows(StepAtom),
    /// What the first is, or the second.
    Gains(StepAtom, StepAtom),
    /// What it was and the first together, or the second.
    NarrowsOr(StepAtom, StepAtom),
    /// What a thread has flushed, for a location and a value.
    Flushed(u8, u8, u8),
    /// What a thread has begun to flush, for a location and a value.
    FlushBegun(u8, u8, u8),
}

impl Rows<ViewAtom> for Shape {
    ghost rows = { λ l c i. shape_of c i };

    ghost fits = { λ s c i. IsAtom s.layout i × AreInShape s.layout c };

    fn offer_at<S: ClauseSink>(
        &self,
        i: ViewAtom,
        setting: &Setting,
        into: &mut S,
    ) -> Result<(), S::Fault> {
        let (is, was) = (after(i), before(i));
        match *self {
            Shape::Frame => frame(i).offer_at((), setting, into),
            Shape::Becomes(b) => becomes(is, b).offer_at((), setting, into),
            Shape::Narrows(b) => becomes_both(is, was, b).offer_at((), setting, into),
            Shape::Gains(b, c) => gains(is, b, c).offer_at((), setting, into),
            Shape::NarrowsOr(b, c) => becomes_both_or(is, was, b, c).offer_at((), setting, into),
            Shape::Flushed(t, x, v) => flushed(t, x, v).offer_at((), setting, into),
            Shape::FlushBegun(t, x, v) => flush_begun(t, x, v).offer_at((), setting, into),
        }
    }
}

/// A row: of one shape, or of the first where a cas succeeds, and of the second where it fails.
#[derive(Clone, Copy)]
pub enum Row {
    Plain(Shape),
    Split(Shape, Shape),
}

impl Rows<ViewAtom> for Row {
    ghost rows = { λ l c i. row_of c i };

    ghost fits = { λ s c i. (s.case ≡ None) × IsAtom s.layout i × AreInRow s.layout c };

    fn offer_at<S: ClauseSink>(
        &self,
        i: ViewAtom,
        setting: &Setting,
        into: &mut S,
    ) -> Result<(), S::Fault> {
        match *self {
            Row::Plain(shape) => shape.offer_at(i, setting, into),
            Row::Split(succeeds, fails) => {
                let fails = Under(Case::Fails, fails);
                Then(Under(Case::Succeeds, succeeds), fails).offer_at(i, setting, into)
            }
        }
    }
}

// A thread flushed the line of `x`.
fn flushed(t: u8, x: u8, v: u8) -> [Clause; 4]
    ensures { result ≡ flush_persist true t x v }
{
    let atom = ViewAtom::Persist { x, v };
    let read = before(ViewAtom::Read { t, x, v });
    let pending = before(ViewAtom::Async { t, x, v });
    let fenced = before(ViewAtom::Fenced { t, x });
    let last = before(ViewAtom::Last { x, v });
    [
        implies(&[after(atom)], &[before(atom)]),
        implies(&[after(atom)], &[read]),
        implies(&[after(atom)], &[pending]),
        implies(&[fenced, after(atom)], &[last]),
    ]
}

// A thread began to write the line of `x` back.
fn flush_begun(t: u8, x: u8, v: u8) -> [Clause; 3]
    ensures { result ≡ flushopt_async true true t x v }
{
    let atom = ViewAtom::Async { t, x, v };
    let read = before(ViewAtom::Read { t, x, v });
    let ordered = before(ViewAtom::Ordered { t, x });
    let last = before(ViewAtom::Last { x, v });
    [
        implies(&[after(atom)], &[before(atom)]),
        implies(&[after(atom)], &[read]),
        implies(&[ordered, after(atom)], &[last]),
    ]
}

// `a` is `b` and `c`, or `k`.
fn becomes_both_or(a: StepAtom, b: StepAtom, c: StepAtom, k: StepAtom) -> [Clause; 4]
    ensures { result ≡ becomes_both_or a b c k }
{
    [
        implies(&[a], &[b, k]),
        implies(&[a], &[c, k]),
        implies(&[b, c], &[a]),
        implies(&[k], &[a]),
    ]
}
