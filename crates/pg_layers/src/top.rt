//! The top part of an obligation: what its formulas say.

ghost use Rattle.std.specs.Prelude.{◌≡◌, ◌+◌, ◌*◌, ◌<◌, ◌≤◌, ◌^◌, ◌∷◌, [], length, map};
ghost use Rattle.pg_assertion.specs.Formula.{plain};
ghost use Rattle.pg_assertion.specs.Limits.{most_expansion_nodes};
ghost use Rattle.pg_assertion.specs.StepAtom.{step_atoms};
ghost use Rattle.pg_assertion.specs.declared.layout.Side.TheVariants.{Before};
ghost use Rattle.pg_region.specs.Sink.{Emitted};
ghost use Rattle.pg_layers.specs.Clauses.{top_part};
ghost use Rattle.pg_layers.specs.Top.{placed, IsPart, Gives};

use pg_assertion::{Formula, Layout, Side, ViewAtom};
use pg_clauses::{Fresh, clausify};
use pg_region::ClauseSink;

/// Gives the clauses of a given formula to a sink, and answers the next new atom.
fn offer_given<S: ClauseSink>(
    f: &Formula<ViewAtom>,
    layout: &Layout,
    next: Fresh,
    into: &mut S,
) -> Result<Fresh, S::Fault>
    requires part { IsPart layout.now (plain f.now) }
    requires new { step_atoms layout.now < next }
    requires few { next + most_expansion_nodes ≤ 2 ^ 31 }
    ensures { Gives S.takes result (S.view into.old) (S.view into.new) next (placed layout.now Before (plain f.now)) }
{
    let mut fresh = next;
    let literal = clausify(f, layout, Side::Before, &mut fresh, into)?;
    into.clause(&[literal])?;
    Ok(fresh)
}

/// Gives the clauses of a goal to a sink.
pub fn offer_goal<S: ClauseSink>(
    f: &Formula<ViewAtom>,
    layout: &Layout,
    side: Side,
    next: Fresh,
    into: &mut S,
) -> Result<(), S::Fault>
    requires part { IsPart layout.now (plain f.now) }
    requires new { step_atoms layout.now < next }
    requires few { next + most_expansion_nodes ≤ 2 ^ 31 }
    ensures { Emitted S.takes result (S.view into.old) (S.view into.new) (top_part next [] (placed layout.now side (plain f.now))) }
{
    let mut fresh = next;
    let literal = clausify(f, layout, side, &mut fresh, into)?;
    into.clause(&[literal.negated()])
}

/// Gives the clauses of one given formula and a goal to a sink.
pub fn offer_one<S: ClauseSink>(
    f: &Formula<ViewAtom>,
    goal: &Formula<ViewAtom>,
    side: Side,
    layout: &Layout,
    next: Fresh,
    into: &mut S,
) -> Result<(), S::Fault>
    requires part { IsPart layout.now (plain f.now) }
    requires goal { IsPart layout.now (plain goal.now) }
    requires new { step_atoms layout.now < next }
    requires few { next + 2 * most_expansion_nodes ≤ 2 ^ 31 }
    ensures { Emitted S.takes result (S.view into.old) (S.view into.new) (top_part next (placed layout.now Before (plain f.now) ∷ []) (placed layout.now side (plain goal.now))) }
{
    let next = offer_given(f, layout, next, into)?;
    offer_goal(goal, layout, side, next, into)
}

/// Gives the clauses of two given formulas and a goal to a sink.
pub fn offer_two<S: ClauseSink>(
    f: &Formula<ViewAtom>,
    g: &Formula<ViewAtom>,
    goal: &Formula<ViewAtom>,
    side: Side,
    layout: &Layout,
    next: Fresh,
    into: &mut S,
) -> Result<(), S::Fault>
    requires first { IsPart layout.now (plain f.now) }
    requires second { IsPart layout.now (plain g.now) }
    requires goal { IsPart layout.now (plain goal.now) }
    requires new { step_atoms layout.now < next }
    requires few { next + 3 * most_expansion_nodes ≤ 2 ^ 31 }
    ensures { Emitted S.takes result (S.view into.old) (S.view into.new) (top_part next (placed layout.now Before (plain f.now) ∷ placed layout.now Before (plain g.now) ∷ []) (placed layout.now side (plain goal.now))) }
{
    let next = offer_given(f, layout, next, into)?;
    offer_one(g, goal, side, layout, next, into)
}

/// Gives the clauses of three given formulas and a goal to a sink.
pub fn offer_three<S: ClauseSink>(
    f: &Formula<ViewAtom>,
    g: &Formula<ViewAtom>,
    h: &Formula<ViewAtom>,
    goal: &Formula<ViewAtom>,
    side: Side,
    layout: &Layout,
    next: Fresh,
    into: &mut S,
) -> Result<(), S::Fault>
    requires first { IsPart layout.now (plain f.now) }
    requires second { IsPart layout.now (plain g.now) }
    requires third { IsPart layout.now (plain h.now) }
    requires goal { IsPart layout.now (plain goal.now) }
    requires new { step_atoms layout.now < next }
    requires few { next + 4 * most_expansion_nodes ≤ 2 ^ 31 }
    ensures { Emitted S.takes result (S.view into.old) (S.view into.new) (top_part next (placed layout.now Before (plain f.now) ∷ placed layout.now Before (plain g.now) ∷ placed layout.now Before (plain h.now) ∷ []) (placed layout.now side (plain goal.now))) }
{
    let next = offer_given(f, layout, next, into)?;
    offer_two(g, h, goal, side, layout, next, into)
}
