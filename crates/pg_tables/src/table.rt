//! Tables of clauses: rows at an index, one table after another, a table where a condition holds or under a case of a cas, and a
//! table for each of some numbers.

ghost use Rattle.std.specs.Prelude.{◌≡◌, ℕ, ◌+◌, ◌≤◌, ◌++◌, ◌∷◌, [], ◌==◌, not, nat_lt, None, Some, List, length, All};
ghost use Rattle.std.specs.List.{flat_map, range_with_len};
ghost use Rattle.pg_assertion.specs.Layout.{Sizes};
ghost use Rattle.pg_region.specs.Sink.{Emitted};
ghost use Rattle.pg_tables.specs.declared.clause.StepLiteral.{StepLiteral};
ghost use Rattle.pg_tables.specs.declared.clause.Setting.{Setting};
ghost use Rattle.pg_tables.specs.Clause.{written, AreStepAtoms};
ghost use Rattle.pg_tables.specs.Table.{when, under, per_thread, per_location, per_value, per_scalar, IsOneOf};

use crate::clause::{Case, Clause, Setting};
use pg_assertion::Layout;
use pg_region::ClauseSink;

/// The clauses of a table at an index, which has the numbers of the threads, locations, values and scalars so far: `()` at
/// first, and `(i, k)` for the number `k` within the index `i`.
pub trait Rows<I> {
    /// The clauses, over the sizes of a layout.
    ghost rows: { Sizes → Self → I → List (List StepLiteral) };

    /// Their atoms are those of the layout.
    ghost fits: { Setting → Self → I → Type 0 };

    /// Gives the clauses to a sink. After a fault it has those before the one that it did not take.
    fn offer_at<S: ClauseSink>(&self, i: I, setting: &Setting, into: &mut S) -> Result<(), S::Fault>
        requires { fits setting.now self.now i }
        ensures { Emitted S.takes result (S.view into.old) (S.view into.new) (written setting.now (rows setting.now.layout self.now i)) };
}

/// Gives the clauses of a whole table to a sink. After a fault it has those before the one that it did not take.
pub fn offer<T: Rows<()>, S: ClauseSink>(
    table: &T,
    layout: &Layout,
    into: &mut S,
) -> Result<(), S::Fault>
    requires { T.fits (record { layout = layout.now; case = None }) table.now tt }
    ensures { Emitted S.takes result (S.view into.old) (S.view into.new) (written (record { layout = layout.now; case = None }) (T.rows layout.now table.now tt)) }
{
    let setting = Setting {
        layout: *layout,
        case: None,
    };
    table.offer_at((), &setting, into)
}

/// These clauses.
impl<I: Copy, const K: usize> Rows<I> for [Clause; K] {
    ghost rows = { λ l c i. c };

    ghost fits = { λ s c i. All (AreStepAtoms s.layout) c };

    fn offer_at<S: ClauseSink>(
        &self,
        _i: I,
        setting: &Setting,
        into: &mut S,
    ) -> Result<(), S::Fault> {
        for clause in self {
            clause.offer(setting, into)?;
        }
        Ok(())
    }
}

/// One table and then another.
#[derive(Drop)]
pub struct Then<A, B>(pub A, pub B);

impl<I: Copy, A: Rows<I>, B: Rows<I>> Rows<I> for Then<A, B> {
    ghost rows = { λ l c i. A.rows l c.0 i ++ B.rows l c.1 i };

    ghost fits = { λ s c i. A.fits s c.0 i × B.fits s c.1 i };

    fn offer_at<S: ClauseSink>(
        &self,
        i: I,
        setting: &Setting,
        into: &mut S,
    ) -> Result<(), S::Fault> {
        self.0.offer_at(i, setting, into)?;
        self.1.offer_at(i, setting, into)
    }
}

/// A table where a condition holds, and else no clause.
#[derive(Drop)]
pub struct When<A>(pub bool, pub A);

impl<I: Copy, A: Rows<I>> Rows<I> for When<A> {
    ghost rows = { λ l c i. when c.0 (A.rows l c.1 i) };

    ghost fits = { λ s c i. A.fits s c.1 i };

    #[tactic(auto, unfolding(crate::specs::Table::when))]
    fn offer_at<S: ClauseSink>(
        &self,
        i: I,
        setting: &Setting,
        into: &mut S,
    ) -> Result<(), S::Fault> {
        if self.0 {
            self.1.offer_at(i, setting, into)
        } else {
            Ok(())
        }
    }
}

/// A table within two numbers where the first is less than the second.
#[derive(Drop)]
pub struct WhereLess<F>(pub F);

impl<I: Copy, F: Rows<((I, u8), u8)>> Rows<((I, u8), u8)> for WhereLess<F> {
    ghost rows = { λ l c i. when (nat_lt i.0.1 i.1) (F.rows l c.0 i) };

    ghost fits = { λ s c i. F.fits s c.0 i };

    #[tactic(auto, unfolding(crate::specs::Table::when))]
    fn offer_at<S: ClauseSink>(
        &self,
        i: ((I, u8), u8),
        setting: &Setting,
        into: &mut S,
    ) -> Result<(), S::Fault> {
        let ((_, j), k) = i;
        if j < k {
            self.0.offer_at(i, setting, into)
        } else {
            Ok(())
        }
    }
}

/// A table within two numbers where they differ.
#[derive(Drop)]
pub struct WhereDifferent<F>(pub F);

impl<I: Copy, F: Rows<((I, u8), u8)>> Rows<((I, u8), u8)> for WhereDifferent<F> {
    ghost rows = { λ l c i. when (not (i.0.1 == i.1)) (F.rows l c.0 i) };

    ghost fits = { λ s c i. F.fits s c.0 i };

    #[tactic(auto, unfolding(crate::specs::Table::when))]
    fn offer_at<S: ClauseSink>(
        &self,
        i: ((I, u8), u8),
        setting: &Setting,
        into: &mut S,
    ) -> Result<(), S::Fault> {
        let ((_, j), k) = i;
        if j == k {
            Ok(())
        } else {
            self.0.offer_at(i, setting, into)
        }
    }
}

/// A table under a case of a cas: each clause has the premise that the cas goes so. Within it stands no other `Under`.
#[derive(Drop)]
pub struct Under<A>(pub Case, pub A);

impl<I: Copy, A: Rows<I>> Rows<I> for Under<A> {
    ghost rows = { λ l c i. under c.0 (A.rows l c.1 i) };

    ghost fits = { λ s c i. (s.case ≡ None) × A.fits (record s { case = Some c.0 }) c.1 i };

    fn offer_at<S: ClauseSink>(
        &self,
        i: I,
        setting: &Setting,
        into: &mut S,
    ) -> Result<(), S::Fault> {
        let inside = Setting {
            layout: setting.layout,
            case: Some(self.0),
        };
        self.1.offer_at(i, &inside, into)
    }
}

/// Gives a table for each of `count` numbers, the least of which is `from`, to a sink.
pub fn each<I: Copy, F: Rows<(I, u8)>, S: ClauseSink>(
    rows: &F,
    i: I,
    from: u8,
    count: u8,
    setting: &Setting,
    into: &mut S,
) -> Result<(), S::Fault>
    requires few { from + count ≤ 255 }
    requires fits { (k : ℕ) → IsOneOf from count k → F.fits setting.now rows.now (i, k) }
    ensures { Emitted S.takes result (S.view into.old) (S.view into.new) (written setting.now (flat_map (λ k. F.rows setting.now.layout rows.now (i, k)) (range_with_len from count))) }
{
    for k in from..from + count {
        rows.offer_at((i, k), setting, into)?;
    }
    Ok(())
}

/// A table for each thread.
#[derive(Drop)]
pub struct PerThread<F>(pub F);

impl<I: Copy, F: Rows<(I, u8)>> Rows<I> for PerThread<F> {
    ghost rows = { λ l c i. per_thread l (λ k. F.rows l c.0 (i, k)) };

    ghost fits = { λ s c i. (k : ℕ) → IsOneOf 1 s.layout.threads k → F.fits s c.0 (i, k) };

    #[tactic(auto, unfolding(crate::specs::Table::per_thread))]
    fn offer_at<S: ClauseSink>(
        &self,
        i: I,
        setting: &Setting,
        into: &mut S,
    ) -> Result<(), S::Fault> {
        each(&self.0, i, 1, setting.layout.threads() as u8, setting, into)
    }
}

/// A table for each location.
#[derive(Drop)]
pub struct PerLocation<F>(pub F);

impl<I: Copy, F: Rows<(I, u8)>> Rows<I> for PerLocation<F> {
    ghost rows = { λ l c i. per_location l (λ k. F.rows l c.0 (i, k)) };

    ghost fits = { λ s c i. (k : ℕ) → IsOneOf 0 s.layout.locations k → F.fits s c.0 (i, k) };

    #[tactic(auto, unfolding(crate::specs::Table::per_location))]
    fn offer_at<S: ClauseSink>(
        &self,
        i: I,
        setting: &Setting,
        into: &mut S,
    ) -> Result<(), S::Fault> {
        each(
            &self.0,
            i,
            0,
            setting.layout.locations() as u8,
            setting,
            into,
        )
    }
}

/// A table for each value.
#[derive(Drop)]
pub struct PerValue<F>(pub F);

impl<I: Copy, F: Rows<(I, u8)>> Rows<I> for PerValue<F> {
    ghost rows = { λ l c i. per_value l (λ k. F.rows l c.0 (i, k)) };

    ghost fits = { λ s c i. (k : ℕ) → IsOneOf 0 s.layout.domain k → F.fits s c.0 (i, k) };

    #[tactic(auto, unfolding(crate::specs::Table::per_value))]
    fn offer_at<S: ClauseSink>(
        &self,
        i: I,
        setting: &Setting,
        into: &mut S,
    ) -> Result<(), S::Fault> {
        each(&self.0, i, 0, setting.layout.domain() as u8, setting, into)
    }
}

/// A table for each scalar.
#[derive(Drop)]
pub struct PerScalar<F>(pub F);

impl<I: Copy, F: Rows<(I, u8)>> Rows<I> for PerScalar<F> {
    ghost rows = { λ l c i. per_scalar l (λ k. F.rows l c.0 (i, k)) };

    ghost fits = { λ s c i. (k : ℕ) → IsOneOf 0 s.layout.scalars k → F.fits s c.0 (i, k) };

    #[tactic(auto, unfolding(crate::specs::Table::per_scalar))]
    fn offer_at<S: ClauseSink>(
        &self,
        i: I,
        setting: &Setting,
        into: &mut S,
    ) -> Result<(), S::Fault> {
        each(&self.0, i, 0, setting.layout.scalars() as u8, setting, into)
    }
}
