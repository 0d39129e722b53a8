//! Tables over the atoms after a step: the rows of a statement are a table at an index that is an atom.

ghost use Rattle.std.specs.Prelude.{◌≡◌, ℕ, not, map};
ghost use Rattle.pg_assertion.specs.declared.atom.ViewAtom.{ViewAtom};
ghost use Rattle.pg_assertion.specs.declared.atom.ViewAtom.TheVariants.{Scalar, Last, Read, Then as SeenThen, Newest, Ordered, Fenced};
ghost use Rattle.pg_assertion.specs.Layout.{IsAtom};
ghost use Rattle.pg_tables.specs.Table.{when, per_value, IsOneOf};
ghost use Rattle.pg_program.specs.Words.{is_in};
ghost use Rattle.pg_rules_access.specs.Atoms.{scalar_rows, access_rows};

use pg_assertion::ViewAtom;
use pg_program::AuxAssign;
use pg_region::ClauseSink;
use pg_tables::{PerLocation, PerScalar, PerThread, PerValue, Rows, Setting, Then, When};

/// The rows of the scalars, without those that a bracket assigns.
#[derive(Drop)]
pub struct ScalarRows<'a, F> {
    pub rows: F,
    pub aux: &'a [AuxAssign],
}

impl<'a, F: Rows<ViewAtom> + Copy> Rows<()> for ScalarRows<'a, F> {
    ghost rows = { λ l c i. scalar_rows l (map (λ a. a.target) c.aux.now) (F.rows l c.rows) };

    ghost fits = { λ s c i. (a : ViewAtom) → IsAtom s.layout a → F.fits s c.rows a };

    fn offer_at<S: ClauseSink>(
        &self,
        i: (),
        setting: &Setting,
        into: &mut S,
    ) -> Result<(), S::Fault> {
        let row = ScalarRow {
            rows: self.rows,
            aux: self.aux,
        };
        PerScalar(row).offer_at(i, setting, into)
    }
}

/// The rows of a scalar, if the bracket does not assign it.
#[derive(Drop)]
struct ScalarRow<'a, F> {
    rows: F,
    aux: &'a [AuxAssign],
}

impl<'a, F: Rows<ViewAtom> + Copy> Rows<((), u8)> for ScalarRow<'a, F> {
    ghost rows = { λ l c i. when (not (is_in i.1 (map (λ a. a.target) c.aux.now))) (per_value l (λ k. F.rows l c.rows (Scalar i.1 k))) };

    ghost fits = { λ s c i. (k : ℕ) → IsOneOf 0 s.layout.domain k → F.fits s c.rows (Scalar i.1 k) };

    fn offer_at<S: ClauseSink>(
        &self,
        i: ((), u8),
        setting: &Setting,
        into: &mut S,
    ) -> Result<(), S::Fault> {
        let (_, r) = i;
        let kept = !is_target(self.aux, r);
        When(kept, PerValue(ScalarCell(self.rows))).offer_at(i, setting, into)
    }
}

/// Whether a bracket assigns a scalar.
fn is_target(aux: &[AuxAssign], r: u8) -> bool
    ensures { result ≡ is_in r (map (λ a. a.target) aux.now) }
{
    match aux {
        [first, rest @ ..] => first.target == r || is_target(rest, r),
        [] => false,
    }
}

/// The row of a scalar with a value.
#[derive(Drop)]
struct ScalarCell<F>(F);

impl<F: Rows<ViewAtom>> Rows<(((), u8), u8)> for ScalarCell<F> {
    ghost rows = { λ l c i. F.rows l c.0 (Scalar i.0.1 i.1) };

    ghost fits = { λ s c i. F.fits s c.0 (Scalar i.0.1 i.1) };

    fn offer_at<S: ClauseSink>(
        &self,
        i: (((), u8), u8),
        setting: &Setting,
        into: &mut S,
    ) -> Result<(), S::Fault> {
        let ((_, r), k) = i;
        self.0.offer_at(ViewAtom::Scalar { r, k }, setting, into)
    }
}

/// The rows of the atoms that accesses of memory change.
#[derive(Drop)]
pub struct AccessRows<F>(pub F);

impl<F: Rows<ViewAtom> + Copy> Rows<()> for AccessRows<F> {
    ghost rows = { λ l c i. access_rows l (F.rows l c.0) };

    ghost fits = { λ s c i. (a : ViewAtom) → IsAtom s.layout a → F.fits s c.0 a };

    fn offer_at<S: ClauseSink>(
        &self,
        i: (),
        setting: &Setting,
        into: &mut S,
    ) -> Result<(), S::Fault> {
        let rows = self.0;
        let last = PerLocation(PerValue(LastRow(rows)));
        let read = PerThread(PerLocation(PerValue(ReadRow(rows))));
        let then = PerThread(PerLocation(PerValue(PerLocation(PerValue(ThenRow(rows))))));
        let newest = PerThread(PerLocation(NewestRow(rows)));
        let ordered = PerThread(PerLocation(OrderedRow(rows)));
        let fenced = PerThread(PerLocation(FencedRow(rows)));
        let views = Then(newest, Then(ordered, fenced));
        Then(last, Then(read, Then(then, views))).offer_at(i, setting, into)
    }
}

/// The rows of an atom `L`.
#[derive(Drop)]
struct LastRow<F>(F);

impl<F: Rows<ViewAtom>> Rows<(((), u8), u8)> for LastRow<F> {
    ghost rows = { λ l c i. F.rows l c.0 (Last i.0.1 i.1) };

    ghost fits = { λ s c i. F.fits s c.0 (Last i.0.1 i.1) };

    fn offer_at<S: ClauseSink>(
        &self,
        i: (((), u8), u8),
        setting: &Setting,
        into: &mut S,
    ) -> Result<(), S::Fault> {
        let ((_, x), v) = i;
        self.0.offer_at(ViewAtom::Last { x, v }, setting, into)
    }
}

/// The rows of an atom `R`.
#[derive(Drop)]
struct ReadRow<F>(F);

impl<F: Rows<ViewAtom>> Rows<((((), u8), u8), u8)> for ReadRow<F> {
    ghost rows = { λ l c i. F.rows l c.0 (Read i.0.0.1 i.0.1 i.1) };

    ghost fits = { λ s c i. F.fits s c.0 (Read i.0.0.1 i.0.1 i.1) };

    fn offer_at<S: ClauseSink>(
        &self,
        i: ((((), u8), u8), u8),
        setting: &Setting,
        into: &mut S,
    ) -> Result<(), S::Fault> {
        let (((_, t), x), v) = i;
        self.0.offer_at(ViewAtom::Read { t, x, v }, setting, into)
    }
}

/// The rows of an atom `C`.
#[derive(Drop)]
struct ThenRow<F>(F);

impl<F: Rows<ViewAtom>> Rows<((((((), u8), u8), u8), u8), u8)> for ThenRow<F> {
    ghost rows = { λ l c i. F.rows l c.0 (SeenThen i.0.0.0.0.1 i.0.0.0.1 i.0.0.1 i.0.1 i.1) };

    ghost fits = { λ s c i. F.fits s c.0 (SeenThen i.0.0.0.0.1 i.0.0.0.1 i.0.0.1 i.0.1 i.1) };

    fn offer_at<S: ClauseSink>(
        &self,
        i: ((((((), u8), u8), u8), u8), u8),
        setting: &Setting,
        into: &mut S,
    ) -> Result<(), S::Fault> {
        let (((((_, t), x), v), y), w) = i;
        self.0
            .offer_at(ViewAtom::Then { t, x, v, y, w }, setting, into)
    }
}

/// The rows of an atom `N`.
#[derive(Drop)]
struct NewestRow<F>(F);

impl<F: Rows<ViewAtom>> Rows<(((), u8), u8)> for NewestRow<F> {
    ghost rows = { λ l c i. F.rows l c.0 (Newest i.0.1 i.1) };

    ghost fits = { λ s c i. F.fits s c.0 (Newest i.0.1 i.1) };

    fn offer_at<S: ClauseSink>(
        &self,
        i: (((), u8), u8),
        setting: &Setting,
        into: &mut S,
    ) -> Result<(), S::Fault> {
        let ((_, t), x) = i;
        self.0.offer_at(ViewAtom::Newest { t, x }, setting, into)
    }
}

/// The rows of an atom `O`.
#[derive(Drop)]
struct OrderedRow<F>(F);

impl<F: Rows<ViewAtom>> Rows<(((), u8), u8)> for OrderedRow<F> {
    ghost rows = { λ l c i. F.rows l c.0 (Ordered i.0.1 i.1) };

    ghost fits = { λ s c i. F.fits s c.0 (Ordered i.0.1 i.1) };

    fn offer_at<S: ClauseSink>(
        &self,
        i: (((), u8), u8),
        setting: &Setting,
        into: &mut S,
    ) -> Result<(), S::Fault> {
        let ((_, t), x) = i;
        self.0.offer_at(ViewAtom::Ordered { t, x }, setting, into)
    }
}

/// The rows of an atom `F`.
#[derive(Drop)]
struct FencedRow<F>(F);

impl<F: Rows<ViewAtom>> Rows<(((), u8), u8)> for FencedRow<F> {
    ghost rows = { λ l c i. F.rows l c.0 (Fenced i.0.1 i.1) };

    ghost fits = { λ s c i. F.fits s c.0 (Fenced i.0.1 i.1) };

    fn offer_at<S: ClauseSink>(
        &self,
        i: (((), u8), u8),
        setting: &Setting,
        into: &mut S,
    ) -> Result<(), S::Fault> {
        let ((_, t), x) = i;
        self.0.offer_at(ViewAtom::Fenced { t, x }, setting, into)
    }
}
