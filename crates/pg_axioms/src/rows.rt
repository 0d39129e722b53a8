//! The rows of the axioms, one struct a family of clauses.

ghost use Rattle.std.specs.Prelude.{◌≡◌, ◌∷◌, []};
ghost use Rattle.pg_assertion.specs.declared.atom.ViewAtom.TheVariants.{Scalar, Last, Read, Persist, Async, Then, Newest, Ordered, Fenced};
ghost use Rattle.pg_assertion.specs.declared.step_atom.StepAtom.TheVariants.{On};
ghost use Rattle.pg_assertion.specs.Layout.{IsAtom};
ghost use Rattle.pg_axioms.specs.Axioms.{rule};

use pg_assertion::{Side, StepAtom, ViewAtom};
use pg_region::ClauseSink;
use pg_tables::{HasValues, Rows, Setting, implies, on};

/// A thread and a location.
pub type Viewed = (((), u8), u8);

/// A location and a value.
pub type Cell = (((), u8), u8);

/// A location, a value and a thread.
pub type ShownCell = ((((), u8), u8), u8);

/// A thread, a location and a value.
pub type Seen = ((((), u8), u8), u8);

/// A thread, the location and the value that it loads, and a location and a value that it may read then.
pub type Load = ((((((), u8), u8), u8), u8), u8);

/// The last values of a location.
#[derive(Clone, Copy)]
pub struct LastValues {
    pub side: Side,
}

impl HasValues<((), u8)> for LastValues {
    ghost atom_for = { λ c i v. On (Last i.1 v) c.side };

    fn atom_for(&self, i: ((), u8), v: u8) -> StepAtom {
        on(ViewAtom::Last { x: i.1, v }, self.side)
    }
}

/// The values of a scalar.
#[derive(Clone, Copy)]
pub struct ScalarValues {
    pub side: Side,
}

impl HasValues<((), u8)> for ScalarValues {
    ghost atom_for = { λ c i v. On (Scalar i.1 v) c.side };

    fn atom_for(&self, i: ((), u8), v: u8) -> StepAtom {
        on(ViewAtom::Scalar { r: i.1, k: v }, self.side)
    }
}

/// The last value may persist.
#[derive(Clone, Copy)]
pub struct LastMayPersist {
    pub side: Side,
}

impl Rows<Cell> for LastMayPersist {
    ghost rows = { λ l c i. rule c.side (Last i.0.1 i.1 ∷ []) (Persist i.0.1 i.1 ∷ []) ∷ [] };

    ghost fits = { λ s c i. IsAtom s.layout (Last i.0.1 i.1) };

    fn offer_at<S: ClauseSink>(
        &self,
        i: Cell,
        setting: &Setting,
        into: &mut S,
    ) -> Result<(), S::Fault> {
        let ((_, x), v) = i;
        let last = on(ViewAtom::Last { x, v }, self.side);
        let persist = on(ViewAtom::Persist { x, v }, self.side);
        [implies(&[last], &[persist])].offer_at((), setting, into)
    }
}

/// Each thread may read the last value, and it may persist after a fence of each.
#[derive(Clone, Copy)]
pub struct LastIsShown {
    pub side: Side,
}

impl Rows<ShownCell> for LastIsShown {
    ghost rows = { λ l c i. rule c.side (Last i.0.0.1 i.0.1 ∷ []) (Read i.1 i.0.0.1 i.0.1 ∷ []) ∷ rule c.side (Last i.0.0.1 i.0.1 ∷ []) (Async i.1 i.0.0.1 i.0.1 ∷ []) ∷ [] };

    ghost fits = { λ s c i. IsAtom s.layout (Read i.1 i.0.0.1 i.0.1) };

    fn offer_at<S: ClauseSink>(
        &self,
        i: ShownCell,
        setting: &Setting,
        into: &mut S,
    ) -> Result<(), S::Fault> {
        let (((_, x), v), t) = i;
        let last = on(ViewAtom::Last { x, v }, self.side);
        let read = on(ViewAtom::Read { t, x, v }, self.side);
        let pending = on(ViewAtom::Async { t, x, v }, self.side);
        [implies(&[last], &[read]), implies(&[last], &[pending])].offer_at((), setting, into)
    }
}

/// What may persist after a fence may persist.
#[derive(Clone, Copy)]
pub struct PendingMayPersist {
    pub side: Side,
}

impl Rows<Seen> for PendingMayPersist {
    ghost rows = { λ l c i. rule c.side (Async i.0.0.1 i.0.1 i.1 ∷ []) (Persist i.0.1 i.1 ∷ []) ∷ [] };

    ghost fits = { λ s c i. IsAtom s.layout (Async i.0.0.1 i.0.1 i.1) };

    fn offer_at<S: ClauseSink>(
        &self,
        i: Seen,
        setting: &Setting,
        into: &mut S,
    ) -> Result<(), S::Fault> {
        let (((_, t), x), v) = i;
        let pending = on(ViewAtom::Async { t, x, v }, self.side);
        let persist = on(ViewAtom::Persist { x, v }, self.side);
        [implies(&[pending], &[persist])].offer_at((), setting, into)
    }
}

/// A thread that may read a location at its last position alone reads the last value.
#[derive(Clone, Copy)]
pub struct NewestReadIsLast {
    pub side: Side,
}

impl Rows<Seen> for NewestReadIsLast {
    ghost rows = { λ l c i. rule c.side (Newest i.0.0.1 i.0.1 ∷ Read i.0.0.1 i.0.1 i.1 ∷ []) (Last i.0.1 i.1 ∷ []) ∷ [] };

    ghost fits = { λ s c i. IsAtom s.layout (Read i.0.0.1 i.0.1 i.1) };

    fn offer_at<S: ClauseSink>(
        &self,
        i: Seen,
        setting: &Setting,
        into: &mut S,
    ) -> Result<(), S::Fault> {
        let (((_, t), x), v) = i;
        let newest = on(ViewAtom::Newest { t, x }, self.side);
        let read = on(ViewAtom::Read { t, x, v }, self.side);
        let last = on(ViewAtom::Last { x, v }, self.side);
        [implies(&[newest, read], &[last])].offer_at((), setting, into)
    }
}

/// A last position that alone may be read is covered by a `flushopt`, and what this covers by a `flush`.
#[derive(Clone, Copy)]
pub struct NewestIsCovered {
    pub side: Side,
}

impl Rows<Viewed> for NewestIsCovered {
    ghost rows = { λ l c i. rule c.side (Newest i.0.1 i.1 ∷ []) (Ordered i.0.1 i.1 ∷ []) ∷ rule c.side (Ordered i.0.1 i.1 ∷ []) (Fenced i.0.1 i.1 ∷ []) ∷ [] };

    ghost fits = { λ s c i. IsAtom s.layout (Newest i.0.1 i.1) };

    fn offer_at<S: ClauseSink>(
        &self,
        i: Viewed,
        setting: &Setting,
        into: &mut S,
    ) -> Result<(), S::Fault> {
        let ((_, t), x) = i;
        let newest = on(ViewAtom::Newest { t, x }, self.side);
        let ordered = on(ViewAtom::Ordered { t, x }, self.side);
        let fenced = on(ViewAtom::Fenced { t, x }, self.side);
        [
            implies(&[newest], &[ordered]),
            implies(&[ordered], &[fenced]),
        ]
        .offer_at((), setting, into)
    }
}

/// What may be loaded, and what may be read then, could be read before.
#[derive(Clone, Copy)]
pub struct ThenWasReadable {
    pub side: Side,
}

impl Rows<Load> for ThenWasReadable {
    ghost rows = { λ l c i. rule c.side (Then i.0.0.0.0.1 i.0.0.0.1 i.0.0.1 i.0.1 i.1 ∷ []) (Read i.0.0.0.0.1 i.0.0.0.1 i.0.0.1 ∷ []) ∷ rule c.side (Then i.0.0.0.0.1 i.0.0.0.1 i.0.0.1 i.0.1 i.1 ∷ []) (Read i.0.0.0.0.1 i.0.1 i.1 ∷ []) ∷ [] };

    ghost fits = { λ s c i. IsAtom s.layout (Then i.0.0.0.0.1 i.0.0.0.1 i.0.0.1 i.0.1 i.1) };

    fn offer_at<S: ClauseSink>(
        &self,
        i: Load,
        setting: &Setting,
        into: &mut S,
    ) -> Result<(), S::Fault> {
        let (((((_, t), x), v), y), w) = i;
        let then = on(ViewAtom::Then { t, x, v, y, w }, self.side);
        let read = on(ViewAtom::Read { t, x, v }, self.side);
        let read_then = on(ViewAtom::Read { t, x: y, v: w }, self.side);
        [implies(&[then], &[read]), implies(&[then], &[read_then])].offer_at((), setting, into)
    }
}

/// After a load the last value of each location may be read.
#[derive(Clone, Copy)]
pub struct LastIsReadThen {
    pub side: Side,
}

impl Rows<Load> for LastIsReadThen {
    ghost rows = { λ l c i. rule c.side (Read i.0.0.0.0.1 i.0.0.0.1 i.0.0.1 ∷ Last i.0.1 i.1 ∷ []) (Then i.0.0.0.0.1 i.0.0.0.1 i.0.0.1 i.0.1 i.1 ∷ []) ∷ [] };

    ghost fits = { λ s c i. IsAtom s.layout (Then i.0.0.0.0.1 i.0.0.0.1 i.0.0.1 i.0.1 i.1) };

    fn offer_at<S: ClauseSink>(
        &self,
        i: Load,
        setting: &Setting,
        into: &mut S,
    ) -> Result<(), S::Fault> {
        let (((((_, t), x), v), y), w) = i;
        let read = on(ViewAtom::Read { t, x, v }, self.side);
        let last = on(ViewAtom::Last { x: y, v: w }, self.side);
        let then = on(ViewAtom::Then { t, x, v, y, w }, self.side);
        [implies(&[read, last], &[then])].offer_at((), setting, into)
    }
}

/// What was loaded may be read again.
#[derive(Clone, Copy)]
pub struct ReadIsReadAgain {
    pub side: Side,
}

impl Rows<Seen> for ReadIsReadAgain {
    ghost rows = { λ l c i. rule c.side (Read i.0.0.1 i.0.1 i.1 ∷ []) (Then i.0.0.1 i.0.1 i.1 i.0.1 i.1 ∷ []) ∷ [] };

    ghost fits = { λ s c i. IsAtom s.layout (Read i.0.0.1 i.0.1 i.1) };

    fn offer_at<S: ClauseSink>(
        &self,
        i: Seen,
        setting: &Setting,
        into: &mut S,
    ) -> Result<(), S::Fault> {
        let (((_, t), x), v) = i;
        let read = on(ViewAtom::Read { t, x, v }, self.side);
        let then = on(
            ViewAtom::Then {
                t,
                x,
                v,
                y: x,
                w: v,
            },
            self.side,
        );
        [implies(&[read], &[then])].offer_at((), setting, into)
    }
}

/// A load where the last position alone may be read keeps what may be read.
#[derive(Clone, Copy)]
pub struct NewestLoadKeeps {
    pub side: Side,
}

impl Rows<Load> for NewestLoadKeeps {
    ghost rows = { λ l c i. rule c.side (Newest i.0.0.0.0.1 i.0.0.0.1 ∷ Last i.0.0.0.1 i.0.0.1 ∷ Read i.0.0.0.0.1 i.0.1 i.1 ∷ []) (Then i.0.0.0.0.1 i.0.0.0.1 i.0.0.1 i.0.1 i.1 ∷ []) ∷ [] };

    ghost fits = { λ s c i. IsAtom s.layout (Then i.0.0.0.0.1 i.0.0.0.1 i.0.0.1 i.0.1 i.1) };

    fn offer_at<S: ClauseSink>(
        &self,
        i: Load,
        setting: &Setting,
        into: &mut S,
    ) -> Result<(), S::Fault> {
        let (((((_, t), x), v), y), w) = i;
        let newest = on(ViewAtom::Newest { t, x }, self.side);
        let last = on(ViewAtom::Last { x, v }, self.side);
        let read = on(ViewAtom::Read { t, x: y, v: w }, self.side);
        let then = on(ViewAtom::Then { t, x, v, y, w }, self.side);
        [implies(&[newest, last, read], &[then])].offer_at((), setting, into)
    }
}
