//! The clauses of one node of a formula, over the literals of its parts.

ghost use Rattle.std.specs.Prelude.{◌≡◌, ◌+◌, ◌<◌, ◌≤◌, ◌^◌, ◌∷◌, []};
ghost use Rattle.pg_region.specs.Literal.{Literal};
ghost use Rattle.pg_region.specs.Sink.{Emitted};
ghost use Rattle.pg_clauses.specs.Definitional.{yes, both_node, either_node, implies_node};
ghost use Rattle.pg_clauses.specs.Made.{IsNumber, Makes};

use pg_region::{ClauseSink, Lit};

/// The literal of a formula, and the number of the next new atom behind its own.
#[derive(Clone, Copy)]
pub struct Made {
    pub literal: Lit,
    pub next: u32,
}

impl Made {
    // The atom itself, behind which the next one is new.
    fn atom(d: u32) -> Made
        requires { IsNumber d }
        ensures { result ≡ record { literal = yes d; next = d + 1 } }
    {
        Made {
            literal: Lit::of(d, true),
            next: d + 1,
        }
    }
}

/// A constant: the atom `d` is true, or false.
pub fn constant<S: ClauseSink>(d: u32, truth: bool, into: &mut S) -> Result<Made, S::Fault>
    requires { IsNumber d }
    ensures { Makes S.takes result (S.view into.old) (S.view into.new) (yes d) (d + 1) ((record { atom = d; positive = truth } ∷ []) ∷ []) }
{
    into.clause(&[Lit::of(d, truth)])?;
    Ok(Made::atom(d))
}

/// The atom `d` for `a & b`.
pub fn conjunction<S: ClauseSink>(d: u32, a: Lit, b: Lit, into: &mut S) -> Result<Made, S::Fault>
    requires { IsNumber d }
    ensures { Makes S.takes result (S.view into.old) (S.view into.new) (yes d) (d + 1) (both_node d a b) }
{
    let (yes, no) = (Lit::of(d, true), Lit::of(d, false));
    three(&[no, a], &[no, b], &[yes, a.negated(), b.negated()], into)?;
    Ok(Made::atom(d))
}

/// The atom `d` for `a | b`.
pub fn disjunction<S: ClauseSink>(d: u32, a: Lit, b: Lit, into: &mut S) -> Result<Made, S::Fault>
    requires { IsNumber d }
    ensures { Makes S.takes result (S.view into.old) (S.view into.new) (yes d) (d + 1) (either_node d a b) }
{
    let (yes, no) = (Lit::of(d, true), Lit::of(d, false));
    three(&[no, a, b], &[yes, a.negated()], &[yes, b.negated()], into)?;
    Ok(Made::atom(d))
}

/// The atom `d` for `a -> b`.
pub fn implication<S: ClauseSink>(d: u32, a: Lit, b: Lit, into: &mut S) -> Result<Made, S::Fault>
    requires { IsNumber d }
    ensures { Makes S.takes result (S.view into.old) (S.view into.new) (yes d) (d + 1) (implies_node d a b) }
{
    let (yes, no) = (Lit::of(d, true), Lit::of(d, false));
    three(&[no, a.negated(), b], &[yes, a], &[yes, b.negated()], into)?;
    Ok(Made::atom(d))
}

/// Three clauses, one after the other.
fn three<S: ClauseSink>(
    first: &[Lit],
    second: &[Lit],
    third: &[Lit],
    into: &mut S,
) -> Result<(), S::Fault>
    ensures { Emitted S.takes result (S.view into.old) (S.view into.new) (first.now ∷ second.now ∷ third.now ∷ []) }
{
    into.clause(first)?;
    into.clause(second)?;
    into.clause(third)
}
