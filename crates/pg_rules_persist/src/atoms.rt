//! The order of the atoms that speak of a crash: the rows of a statement are a table at an index that is an atom.

ghost use Rattle.std.specs.Prelude.{◌≡◌};
ghost use Rattle.pg_assertion.specs.declared.atom.ViewAtom.{ViewAtom};
ghost use Rattle.pg_assertion.specs.declared.atom.ViewAtom.TheVariants.{Persist, Async};
ghost use Rattle.pg_assertion.specs.Layout.{IsAtom};
ghost use Rattle.pg_rules_persist.specs.Persist.{persist_rows};

use pg_assertion::ViewAtom;
use pg_region::ClauseSink;
use pg_tables::{PerLocation, PerThread, PerValue, Rows, Setting, Then};

/// The rows of the atoms that speak of a crash, in the order of their numbers.
#[derive(Clone, Copy)]
pub struct PersistRows<F>(pub F);

impl<F: Rows<ViewAtom> + Copy> Rows<()> for PersistRows<F> {
    ghost rows = { λ l c i. persist_rows l (F.rows l c.0) };

    ghost fits = { λ s c i. (a : ViewAtom) → IsAtom s.layout a → F.fits s c.0 a };

    fn offer_at<S: ClauseSink>(
        &self,
        i: (),
        setting: &Setting,
        into: &mut S,
    ) -> Result<(), S::Fault> {
        let rows = self.0;
        let persist = PerLocation(PerValue(PersistRow(rows)));
        let pending = PerThread(PerLocation(PerValue(AsyncRow(rows))));
        Then(persist, pending).offer_at(i, setting, into)
    }
}

/// The rows of an atom `P`.
#[derive(Clone, Copy)]
struct PersistRow<F>(F);

impl<F: Rows<ViewAtom>> Rows<(((), u8), u8)> for PersistRow<F> {
    ghost rows = { λ l c i. F.rows l c.0 (Persist i.0.1 i.1) };

    ghost fits = { λ s c i. F.fits s c.0 (Persist i.0.1 i.1) };

    fn offer_at<S: ClauseSink>(
        &self,
        i: (((), u8), u8),
        setting: &Setting,
        into: &mut S,
    ) -> Result<(), S::Fault> {
        let ((_, x), v) = i;
        self.0.offer_at(ViewAtom::Persist { x, v }, setting, into)
    }
}

/// The rows of an atom `A`.
#[derive(Clone, Copy)]
struct AsyncRow<F>(F);

impl<F: Rows<ViewAtom>> Rows<((((), u8), u8), u8)> for AsyncRow<F> {
    ghost rows = { λ l c i. F.rows l c.0 (Async i.0.0.1 i.0.1 i.1) };

    ghost fits = { λ s c i. F.fits s c.0 (Async i.0.0.1 i.0.1 i.1) };

    fn offer_at<S: ClauseSink>(
        &self,
        i: ((((), u8), u8), u8),
        setting: &Setting,
        into: &mut S,
    ) -> Result<(), S::Fault> {
        let (((_, t), x), v) = i;
        self.0.offer_at(ViewAtom::Async { t, x, v }, setting, into)
    }
}
