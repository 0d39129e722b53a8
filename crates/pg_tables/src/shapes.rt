//! Shapes of rows that many tables have: how an atom comes of others. This project's own.

ghost use Rattle.std.specs.Prelude.{◌≡◌};
ghost use Rattle.pg_assertion.specs.declared.step_atom.StepAtom.{StepAtom};
ghost use Rattle.pg_tables.specs.Shapes.{before, after, only_where, always, never, frame, becomes, becomes_both, gains, gains_both};
ghost use Rattle.pg_tables.specs.Truth.{RowShapesAreTrue};

use crate::clause::{Clause, implies};
use pg_assertion::{Side, StepAtom, ViewAtom};

/// An atom on a side of the step.
pub fn on(atom: ViewAtom, side: Side) -> StepAtom
    ensures { result ≡ StepAtom.On atom side }
{
    StepAtom::On { atom, side }
}

/// An atom before the step.
pub fn before(atom: ViewAtom) -> StepAtom
    ensures { result ≡ before atom }
{
    on(atom, Side::Before)
}

/// An atom after the step.
pub fn after(atom: ViewAtom) -> StepAtom
    ensures { result ≡ after atom }
{
    on(atom, Side::After)
}

/// `a => b`.
pub fn only_where(a: StepAtom, b: StepAtom) -> [Clause; 1]
    ensures { result ≡ only_where a b }
{
    [implies(&[a], &[b])]
}

/// `=> a`.
pub fn always(a: StepAtom) -> [Clause; 1]
    ensures { result ≡ always a }
{
    [implies(&[], &[a])]
}

/// `a =>`.
pub fn never(a: StepAtom) -> [Clause; 1]
    ensures { result ≡ never a }
{
    [implies(&[a], &[])]
}

/// The atom is after the step what it was before.
pub fn frame(atom: ViewAtom) -> [Clause; 2]
    ensures { result ≡ frame atom }
{
    becomes(after(atom), before(atom))
}

/// `a` is what `b` is.
pub fn becomes(a: StepAtom, b: StepAtom) -> [Clause; 2]
    ensures { result ≡ becomes a b }
{
    [implies(&[a], &[b]), implies(&[b], &[a])]
}

/// `a` is `b` and `c`.
pub fn becomes_both(a: StepAtom, b: StepAtom, c: StepAtom) -> [Clause; 3]
    ensures { result ≡ becomes_both a b c }
{
    [
        implies(&[a], &[b]),
        implies(&[a], &[c]),
        implies(&[b, c], &[a]),
    ]
}

/// `a` is `old` or `b`.
pub fn gains(a: StepAtom, old: StepAtom, b: StepAtom) -> [Clause; 3]
    ensures { result ≡ gains a old b }
{
    [
        implies(&[a], &[old, b]),
        implies(&[old], &[a]),
        implies(&[b], &[a]),
    ]
}

/// `a` is `old`, or `b` and `c`.
pub fn gains_both(a: StepAtom, old: StepAtom, b: StepAtom, c: StepAtom) -> [Clause; 4]
    ensures { result ≡ gains_both a old b c }
{
    [
        implies(&[a], &[old, b]),
        implies(&[a], &[old, c]),
        implies(&[old], &[a]),
        implies(&[b, c], &[a]),
    ]
}

/// A row of each of these shapes is true in a valuation that the shape describes.
pub fn row_shapes_are_true()
    ensures { RowShapesAreTrue }
{}
