//! The rows of the fences.

ghost use Rattle.std.specs.Prelude.{◌≡◌, ◌==◌};
ghost use Rattle.pg_assertion.specs.declared.atom.ViewAtom.{ViewAtom};
ghost use Rattle.pg_assertion.specs.declared.atom.ViewAtom.TheVariants.{Fenced};
ghost use Rattle.pg_assertion.specs.Layout.{Sizes, IsAtom};
ghost use Rattle.pg_rules_access.specs.Fence.{fence_loses, fence_view, mfence, sfence};
ghost use Rattle.pg_rules_access.specs.Shape.{row_of, AreInShape};

use crate::shape::{HasShapes, Shape};
use pg_assertion::{Layout, ViewAtom};
use pg_tables::before;

/// An `mfence` of a thread.
#[derive(Clone, Copy)]
pub struct Mfence {
    pub thread: u8,
}

impl HasShapes for Mfence {
    ghost rows = { λ c i. mfence c.thread i };

    ghost fits = { λ l c. Unit {0} };

    fn shape(&self, i: ViewAtom, _layout: &Layout) -> Shape {
        match i {
            ViewAtom::Read { t, .. } | ViewAtom::Then { t, .. } => fence_loses(t == self.thread, i),
            ViewAtom::Newest { t, x } | ViewAtom::Ordered { t, x } => {
                fence_view(t == self.thread, t, x)
            }
            _ => Shape::Frame,
        }
    }
}

/// An `sfence` of a thread.
#[derive(Clone, Copy)]
pub struct Sfence {
    pub thread: u8,
}

impl HasShapes for Sfence {
    ghost rows = { λ c i. sfence c.thread i };

    ghost fits = { λ l c. Unit {0} };

    fn shape(&self, i: ViewAtom, _layout: &Layout) -> Shape {
        match i {
            ViewAtom::Ordered { t, x } => fence_view(t == self.thread, t, x),
            _ => Shape::Frame,
        }
    }
}

/// An atom that only loses, where its thread is the acting one.
fn fence_loses(own: bool, atom: ViewAtom) -> Shape
    ensures row { row_of result atom ≡ fence_loses own atom }
    ensures within { (l : Sizes) → IsAtom l atom → AreInShape l result }
{
    if own {
        Shape::OnlyWhere(before(atom))
    } else {
        Shape::Frame
    }
}

/// What is newest or ordered: of the acting thread, what was fenced.
fn fence_view(own: bool, t: u8, x: u8) -> Shape
    ensures row { (a : ViewAtom) → row_of result a ≡ fence_view own t x a }
    ensures within { (l : Sizes) → IsAtom l (Fenced t x) → AreInShape l result }
{
    if own {
        Shape::Becomes(before(ViewAtom::Fenced { t, x }))
    } else {
        Shape::Frame
    }
}
