//! What the expressions of a statement say.

ghost use Rattle.std.specs.Prelude.{◌≡◌, ℕ, ◌<◌, ◌++◌, ◌∷◌, [], length};
ghost use Rattle.pg_assertion.specs.declared.atom.ViewAtom.TheVariants.{Scalar, Last};
ghost use Rattle.pg_assertion.specs.declared.layout.Side.TheVariants.{Before};
ghost use Rattle.pg_assertion.specs.declared.step_atom.StepAtom.TheVariants.{Value, Expected};
ghost use Rattle.pg_assertion.specs.Layout.{Sizes};
ghost use Rattle.pg_program.specs.Expr.{reads, value};
ghost use Rattle.pg_program.specs.NameTable.{is_auxiliary};
ghost use Rattle.pg_program.specs.Words.{is_in, bracket_scalars};
ghost use Rattle.pg_region.specs.Sink.{Emitted};
ghost use Rattle.pg_tables.specs.Clause.{implies, yes, written};
ghost use Rattle.pg_tables.specs.Shapes.{before, after};
ghost use Rattle.pg_rules_access.specs.Values.{AreScalars, AreFew, all_before, says_test, taken, bracket_side, bracket_rules, AreAssigns};

use crate::tuples::{Says, Tuples};
use pg_assertion::{Layout, Side, StepAtom, ViewAtom};
use pg_program::{AuxAssign, Branch, Cond, Expr, NameKind, Names, eval, holds_cond};
use pg_region::ClauseSink;
use pg_tables::{HasValues, Rows, Setting, StepLiteral, after, always, before, implies, never};

/// Whether an expression reads a scalar.
fn reads(expr: &Expr, r: u8) -> bool
    ensures { result ≡ is_in r (reads expr.now) }
{
    match expr {
        Expr::Value(_) => false,
        Expr::Scalar(q) => *q == r,
        Expr::Add(a, b) | Expr::Sub(a, b) | Expr::Mul(a, b) => {
            reads(a.get(), r) || reads(b.get(), r)
        }
    }
}

/// What a step stores or assigns has the expression's value.
#[derive(Drop)]
pub struct Stored<'a> {
    pub expr: &'a Expr,
}

impl<'a> Says for Stored<'a> {
    ghost reads = { λ c. reads c.expr.now };

    ghost side = { λ c r. all_before r };

    ghost says = { λ l c values. yes (Value (value values l.domain c.expr.now)) };

    ghost fits = { λ l c. AreScalars (reads c.expr.now) };

    fn reads(&self, r: u8) -> bool {
        reads(self.expr, r)
    }

    fn side(&self, _r: u8, _layout: &Layout) -> Side {
        Side::Before
    }

    fn says(&self, values: &[u8; 16], layout: &Layout) -> StepLiteral {
        let v = eval(self.expr, values, layout.domain());
        StepLiteral {
            atom: StepAtom::Value { v },
            positive: true,
        }
    }
}

/// What a cas expects has the expression's value.
#[derive(Drop)]
pub struct Expects<'a> {
    pub expr: &'a Expr,
}

impl<'a> Says for Expects<'a> {
    ghost reads = { λ c. reads c.expr.now };

    ghost side = { λ c r. all_before r };

    ghost says = { λ l c values. yes (Expected (value values l.domain c.expr.now)) };

    ghost fits = { λ l c. AreScalars (reads c.expr.now) };

    fn reads(&self, r: u8) -> bool {
        reads(self.expr, r)
    }

    fn side(&self, _r: u8, _layout: &Layout) -> Side {
        Side::Before
    }

    fn says(&self, values: &[u8; 16], layout: &Layout) -> StepLiteral {
        let v = eval(self.expr, values, layout.domain());
        StepLiteral {
            atom: StepAtom::Expected { v },
            positive: true,
        }
    }
}

/// A test holds, or does not.
#[derive(Drop)]
pub struct Tests<'a> {
    pub test: &'a Cond,
}

impl<'a> Says for Tests<'a> {
    ghost reads = { λ c. reads c.test.now.left ++ reads c.test.now.right };

    ghost side = { λ c r. all_before r };

    ghost says = { λ l c values. says_test l c.test.now values };

    ghost fits = { λ l c. AreScalars (reads c.test.now.left) × AreScalars (reads c.test.now.right) };

    fn reads(&self, r: u8) -> bool {
        reads(&self.test.left, r) || reads(&self.test.right, r)
    }

    fn side(&self, _r: u8, _layout: &Layout) -> Side {
        Side::Before
    }

    fn says(&self, values: &[u8; 16], layout: &Layout) -> StepLiteral {
        StepLiteral {
            atom: StepAtom::Taken,
            positive: holds_cond(self.test, values, layout.domain()),
        }
    }
}

/// An assignment of a bracket gives its target the expression's value.
#[derive(Drop)]
pub struct Assigns<'a> {
    pub names: &'a Names,
    pub assign: &'a AuxAssign,
}

impl<'a> Says for Assigns<'a> {
    ghost reads = { λ c. reads c.assign.now.expr };

    ghost side = { λ c r. bracket_side c.names.now r };

    ghost says = { λ l c values. yes (after (Scalar c.assign.now.target (value values l.domain c.assign.now.expr))) };

    ghost fits = { λ l c. AreScalars (reads c.assign.now.expr) × (c.assign.now.target < l.scalars) × (l.scalars ≡ length c.names.now.scalars) };

    fn reads(&self, r: u8) -> bool {
        reads(&self.assign.expr, r)
    }

    fn side(&self, r: u8, _layout: &Layout) -> Side {
        if is_auxiliary(self.names, r) {
            Side::Before
        } else {
            Side::After
        }
    }

    fn says(&self, values: &[u8; 16], layout: &Layout) -> StepLiteral {
        let k = eval(&self.assign.expr, values, layout.domain());
        let atom = after(ViewAtom::Scalar {
            r: self.assign.target,
            k,
        });
        StepLiteral {
            atom,
            positive: true,
        }
    }
}

/// Whether a scalar is an auxiliary.
fn is_auxiliary(names: &Names, r: u8) -> bool
    requires { r < length names.now.scalars }
    ensures { result ≡ is_auxiliary names.now r }
{
    matches!(names.kind(r), NameKind::Auxiliary)
}

/// The assignments of a bracket.
#[derive(Drop)]
pub struct Bracket<'a> {
    pub names: &'a Names,
    pub aux: &'a [AuxAssign],
}

impl<'a> Rows<()> for Bracket<'a> {
    ghost rows = { λ l c i. bracket_rules l c.names.now c.aux.now };

    ghost fits = { λ s c i. AreAssigns s.layout c.aux.now × (s.layout.scalars ≡ length c.names.now.scalars) };

    fn offer_at<S: ClauseSink>(
        &self,
        _i: (),
        setting: &Setting,
        into: &mut S,
    ) -> Result<(), S::Fault> {
        offer_bracket(self.names, self.aux, setting, into)
    }
}

/// Gives the rules of these assignments to a sink.
fn offer_bracket<S: ClauseSink>(
    names: &Names,
    aux: &[AuxAssign],
    setting: &Setting,
    into: &mut S,
) -> Result<(), S::Fault>
    requires assigns { AreAssigns setting.now.layout aux.now }
    requires scalars { setting.now.layout.scalars ≡ length names.now.scalars }
    ensures { Emitted S.takes result (S.view into.old) (S.view into.new) (written setting.now (bracket_rules setting.now.layout names.now aux.now)) }
{
    match aux.split_first() {
        Some((assign, rest)) => {
            Tuples(Assigns { names, assign }).offer_at((), setting, into)?;
            offer_bracket(names, rest, setting, into)
        }
        None => Ok(()),
    }
}

/// The atoms that say what a step stores or assigns.
#[derive(Clone, Copy)]
pub struct StoredValues;

impl HasValues<()> for StoredValues {
    ghost atom_for = { λ c i v. Value v };

    fn atom_for(&self, _i: (), v: u8) -> StepAtom {
        StepAtom::Value { v }
    }
}

/// The atoms that say what a cas expects.
#[derive(Clone, Copy)]
pub struct ExpectedValues;

impl HasValues<()> for ExpectedValues {
    ghost atom_for = { λ c i v. Expected v };

    fn atom_for(&self, _i: (), v: u8) -> StepAtom {
        StepAtom::Expected { v }
    }
}

/// Where a value is expected, it is the last one of the location.
#[derive(Drop)]
pub struct ExpectsLast {
    pub location: u8,
}

impl Rows<((), u8)> for ExpectsLast {
    ghost rows = { λ l c i. implies (Expected i.1 ∷ []) (before (Last c.location i.1) ∷ []) ∷ [] };

    ghost fits = { λ s c i. (c.location < s.layout.locations) × (i.1 < s.layout.domain) };

    fn offer_at<S: ClauseSink>(
        &self,
        i: ((), u8),
        setting: &Setting,
        into: &mut S,
    ) -> Result<(), S::Fault> {
        let (_, v) = i;
        let last = before(ViewAtom::Last {
            x: self.location,
            v,
        });
        [implies(&[StepAtom::Expected { v }], &[last])].offer_at((), setting, into)
    }
}

/// The step that a test takes.
#[derive(Drop)]
pub struct TakenOn {
    pub branch: Branch,
}

impl Rows<()> for TakenOn {
    ghost rows = { λ l c i. taken c.branch };

    ghost fits = { λ s c i. Unit {0} };

    fn offer_at<S: ClauseSink>(
        &self,
        i: (),
        setting: &Setting,
        into: &mut S,
    ) -> Result<(), S::Fault> {
        match self.branch {
            Branch::Yes => always(StepAtom::Taken).offer_at(i, setting, into),
            Branch::No => never(StepAtom::Taken).offer_at(i, setting, into),
            Branch::Plain => Ok(()),
        }
    }
}
