//! A clause for each tuple of values of the scalars that something reads.

ghost use Rattle.std.specs.Prelude.{◌≡◌, ℕ, ◌+◌, ◌<◌, ◌≤◌, List, length, take, All};
ghost use Rattle.std.specs.List.{filter, range_with_len};
ghost use Rattle.pg_assertion.specs.declared.layout.Side.{Side};
ghost use Rattle.pg_assertion.specs.Layout.{Sizes, IsWithinLimits};
ghost use Rattle.pg_assertion.specs.StepAtom.{IsStepAtom};
ghost use Rattle.pg_program.specs.Limits.{most_names};
ghost use Rattle.pg_program.specs.Words.{is_in};
ghost use Rattle.pg_region.specs.Sink.{Emitted};
ghost use Rattle.pg_tables.specs.declared.clause.StepLiteral.{StepLiteral};
ghost use Rattle.pg_tables.specs.Clause.{written};
ghost use Rattle.pg_rules_access.specs.Values.{per_tuple, in_order, tuples, AreFew};

use pg_assertion::{Layout, Side, StepAtom, ViewAtom};
use pg_region::ClauseSink;
use pg_tables::{Rows, Setting, StepLiteral, implies};

/// What is said of the values of some scalars.
pub trait Says {
    /// The scalars.
    ghost reads: { Self → List ℕ };

    /// The side of the step on which a scalar is read.
    ghost side: { Self → ℕ → Side };

    /// What is said, by the values of all scalars.
    ghost says: { Sizes → Self → List ℕ → StepLiteral };

    /// It is over the scalars of a layout.
    ghost fits: { Sizes → Self → Type 0 };

    /// Whether it reads a scalar.
    fn reads(&self, r: u8) -> bool
        ensures { result ≡ is_in r (reads self.now) };

    /// The side of the step on which a scalar is read.
    fn side(&self, r: u8, layout: &Layout) -> Side
        requires fits { fits layout.now self.now }
        requires scalar { r < layout.now.scalars }
        ensures { result ≡ side self.now r };

    /// What is said, by the values of all scalars.
    fn says(&self, values: &[u8; 16], layout: &Layout) -> StepLiteral
        requires fits { fits layout.now self.now }
        requires values { All (λ v. v < layout.now.domain) values.now }
        ensures says { result ≡ says layout.now self.now values.now }
        ensures atom { IsStepAtom layout.now result.atom };
}

/// What is said at each tuple of values of these scalars.
#[derive(Drop)]
pub struct Tuples<T>(pub T);

impl<T: Says> Rows<()> for Tuples<T> {
    ghost rows = { λ l c i. tuples l (T.side c.0) (T.reads c.0) (T.says l c.0) };

    ghost fits = { λ s c i. T.fits s.layout c.0 × AreFew s.layout (T.reads c.0) };

    fn offer_at<S: ClauseSink>(
        &self,
        _i: (),
        setting: &Setting,
        into: &mut S,
    ) -> Result<(), S::Fault> {
        let (names, count) = in_order(&self.0, &setting.layout);
        let given = [StepAtom::Success; 4];
        offer_tuples(&self.0, &names[..count], &given, 0, &[0; 16], setting, into)
    }
}

/// The scalars that are read, in the order of their numbers, and how many these are.
fn in_order<T: Says>(says: &T, layout: &Layout) -> ([u8; 16], usize)
    ensures size { length result.0 ≡ 16 }
    ensures count { result.1 ≤ 16 }
    ensures are { take result.1 result.0 ≡ in_order layout.now (T.reads says.now) }
    ensures limits { IsWithinLimits layout.now }
{
    let mut names = [0; 16];
    let mut count = 0;
    for r in 0..layout.scalars() as u8 {
        if says.reads(r) {
            names[count] = r;
            count += 1;
        }
    }
    (names, count)
}

/// Gives what is said at each tuple of values of the names to a sink. In front stand the first `count` of the given atoms.
fn offer_tuples<T: Says, S: ClauseSink>(
    says: &T,
    names: &[u8],
    given: &[StepAtom; 4],
    count: usize,
    values: &[u8; 16],
    setting: &Setting,
    into: &mut S,
) -> Result<(), S::Fault>
    requires short { length names.now + count ≤ most_names }
    requires known { All (λ r. r < setting.now.layout.scalars) names.now }
    requires atoms { All (IsStepAtom setting.now.layout) (take count given.now) }
    requires values { All (λ v. v < setting.now.layout.domain) values.now }
    requires fits { T.fits setting.now.layout says.now }
    ensures { Emitted S.takes result (S.view into.old) (S.view into.new) (written setting.now (per_tuple setting.now.layout (T.side says.now) (T.says setting.now.layout says.now) names.now (take count given.now) values.now)) }
{
    match names.split_first() {
        None => {
            let said = says.says(values, &setting.layout);
            implies(&given[..count], &[])
                .with(said.atom, said.positive)
                .offer(setting, into)
        }
        Some((r, rest)) => {
            let side = says.side(*r, &setting.layout);
            for k in 0..setting.layout.domain() as u8 {
                let mut more = *given;
                more[count] = StepAtom::On {
                    atom: ViewAtom::Scalar { r: *r, k },
                    side,
                };
                let mut with = *values;
                with[usize::from(*r)] = k;
                offer_tuples(says, rest, &more, count + 1, &with, setting, into)?;
            }
            Ok(())
        }
    }
}
