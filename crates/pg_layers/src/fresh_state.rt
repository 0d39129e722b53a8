//! What is given of the fresh state, as a table of clauses of one literal.

ghost use Rattle.std.specs.Prelude.{◌≡◌, ◌<◌, ◌==◌, not, length, slice_index};
ghost use Rattle.pg_program.specs.Limits.{largest_domain_2};
ghost use Rattle.pg_program.specs.NameTable.{initial};
ghost use Rattle.pg_assertion.specs.declared.atom.ViewAtom.TheVariants.{Scalar, Last, Persist, Newest};
ghost use Rattle.pg_assertion.specs.Layout.{IsAtom};
ghost use Rattle.pg_tables.specs.Shapes.{before, always, never};
ghost use Rattle.pg_tables.specs.Table.{when};

use pg_assertion::ViewAtom;
use pg_program::Names;
use pg_region::ClauseSink;
use pg_tables::{Rows, Setting, always, before, never};

/// The declared value of a location.
fn initial(names: &Names, x: u8) -> u8
    requires declared { x < length names.now.locations }
    requires inside { slice_index (initial names.now) x < largest_domain_2 }
    ensures { result ≡ slice_index (initial names.now) x }
{
    names.init(x) as u8
}

/// Each scalar is 0.
#[derive(Clone, Copy)]
pub struct AllZero;

impl Rows<((), u8)> for AllZero {
    ghost rows = { λ l c i. always (before (Scalar i.1 0)) };

    ghost fits = { λ s c i. IsAtom s.layout (Scalar i.1 0) };

    fn offer_at<S: ClauseSink>(
        &self,
        i: ((), u8),
        setting: &Setting,
        into: &mut S,
    ) -> Result<(), S::Fault> {
        always(before(ViewAtom::Scalar { r: i.1, k: 0 })).offer_at((), setting, into)
    }
}

/// Each location has its declared value as the last one.
#[derive(Clone, Copy)]
pub struct AllInitial<'a> {
    pub names: &'a Names,
}

impl<'a> Rows<((), u8)> for AllInitial<'a> {
    ghost rows = { λ l c i. always (before (Last i.1 (slice_index (initial c.names.now) i.1))) };

    ghost fits = { λ s c i. IsAtom s.layout (Last i.1 (slice_index (initial c.names.now) i.1)) × (s.layout.locations ≡ length c.names.now.locations) };

    fn offer_at<S: ClauseSink>(
        &self,
        i: ((), u8),
        setting: &Setting,
        into: &mut S,
    ) -> Result<(), S::Fault> {
        let _locations = setting.layout.locations();
        let v = initial(self.names, i.1);
        always(before(ViewAtom::Last { x: i.1, v })).offer_at((), setting, into)
    }
}

/// Each thread may read that value alone.
#[derive(Clone, Copy)]
pub struct AllNewest;

impl Rows<(((), u8), u8)> for AllNewest {
    ghost rows = { λ l c i. always (before (Newest i.0.1 i.1)) };

    ghost fits = { λ s c i. IsAtom s.layout (Newest i.0.1 i.1) };

    fn offer_at<S: ClauseSink>(
        &self,
        i: (((), u8), u8),
        setting: &Setting,
        into: &mut S,
    ) -> Result<(), S::Fault> {
        let ((_, t), x) = i;
        always(before(ViewAtom::Newest { t, x })).offer_at((), setting, into)
    }
}

/// No other value may persist.
#[derive(Clone, Copy)]
pub struct NoOther<'a> {
    pub names: &'a Names,
}

impl<'a> Rows<(((), u8), u8)> for NoOther<'a> {
    ghost rows = { λ l c i. when (not (i.1 == slice_index (initial c.names.now) i.0.1)) (never (before (Persist i.0.1 i.1))) };

    ghost fits = { λ s c i. IsAtom s.layout (Persist i.0.1 i.1) × (slice_index (initial c.names.now) i.0.1 < s.layout.domain) × (s.layout.locations ≡ length c.names.now.locations) };

    #[tactic(auto, unfolding(pg_tables::specs::Table::when))]
    fn offer_at<S: ClauseSink>(
        &self,
        i: (((), u8), u8),
        setting: &Setting,
        into: &mut S,
    ) -> Result<(), S::Fault> {
        let ((_, x), v) = i;
        let _locations = setting.layout.locations();
        if v == initial(self.names, x) {
            Ok(())
        } else {
            never(before(ViewAtom::Persist { x, v })).offer_at((), setting, into)
        }
    }
}
