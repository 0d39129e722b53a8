//! The parts of an obligation's clauses, each given to a sink: the axioms of a side, the rules of its step and its top part.

ghost use Rattle.std.specs.Prelude.{◌≡◌, ◌<◌, ◌≤◌, ◌+◌, length};
ghost use Rattle.pg_assertion.specs.Formula.{plain};
ghost use Rattle.pg_assertion.specs.Layout.{IsWithinLimits};
ghost use Rattle.pg_outline.specs.Outline.{note_at};
ghost use Rattle.pg_region.specs.Sink.{Emitted};
ghost use Rattle.pg_tables.specs.Steps.{IsStepOf};
ghost use Rattle.pg_obligations.specs.Follow.{crash_of, axioms_of};
ghost use Rattle.pg_assertion.specs.Limits.{most_step_atoms};
ghost use Rattle.pg_layers.specs.Clauses.{layout_of, rules_of, by_numbers, first_new, top_of, entailment_of};
ghost use Rattle.pg_layers.specs.Members.{IsPointOf, IsObligationOf};
ghost use Rattle.pg_layers.specs.Top.{IsPart};

use crate::fresh_state::{AllInitial, AllNewest, AllZero, NoOther};
use crate::top::{offer_goal, offer_one, offer_three, offer_two};
use pg_assertion::{Formula, Layout, Side, ViewAtom};
use pg_axioms::axioms;
use pg_clauses::Fresh;
use pg_obligations::Obligation;
use pg_outline::Outline;
use pg_program::{PointId, Step};
use pg_region::ClauseSink;
use pg_rules_access::access_rules;
use pg_rules_persist::persist_rules;
use pg_tables::{PerLocation, PerScalar, PerThread, PerValue, Then, offer};

/// The layout of an outline's atoms.
pub fn layout_of(o: &Outline) -> Layout
    ensures layout { result ≡ layout_of o.now }
    ensures limits { IsWithinLimits result }
{
    let p = o.program();
    let layout = Layout::of(p.names(), p.threads());
    let _limits = layout.domain();
    layout
}

/// The precondition.
pub fn pre(o: &Outline) -> &Formula<ViewAtom>
    ensures formula { plain result.now ≡ o.now.pre }
    ensures part { IsPart (layout_of o.now) (plain result.now) }
{
    let _made = o.program();
    o.pre()
}

/// The expansion of the crash formula.
pub fn crash(o: &Outline) -> &Formula<ViewAtom>
    ensures formula { plain result.now ≡ crash_of o.now }
    ensures part { IsPart (layout_of o.now) (plain result.now) }
{
    let _made = o.program();
    o.crash_expanded()
}

/// The assertion at a point.
pub fn note(o: &Outline, thread: u8, point: u8) -> &Formula<ViewAtom>
    requires { IsPointOf o.now.program thread point }
    ensures formula { plain result.now ≡ note_at o.now thread point }
    ensures part { IsPart (layout_of o.now) (plain result.now) }
{
    let _made = o.program();
    o.note(PointId { thread, point })
}

/// Gives the axioms of a side to a sink.
pub fn offer_axioms<S: ClauseSink>(
    o: &Outline,
    layout: &Layout,
    side: Side,
    into: &mut S,
) -> Result<(), S::Fault>
    requires { layout.now ≡ layout_of o.now }
    ensures { Emitted S.takes result (S.view into.old) (S.view into.new) (by_numbers (layout_of o.now) (axioms_of o.now.program side)) }
{
    axioms(layout, side, into)
}

/// Gives the rules of a step to a sink: those of accesses, and then those of persistency.
pub fn offer_rules<S: ClauseSink>(
    o: &Outline,
    layout: &Layout,
    step: &Step,
    into: &mut S,
) -> Result<(), S::Fault>
    requires layout { layout.now ≡ layout_of o.now }
    requires step { IsStepOf o.now.program step.now }
    ensures { Emitted S.takes result (S.view into.old) (S.view into.new) (by_numbers (layout_of o.now) (rules_of o.now.program step.now)) }
{
    let p = o.program();
    access_rules(p, layout, step, into)?;
    persist_rules(p, layout, step, into)
}

/// Gives the top part of an obligation to a sink.
pub fn offer_top<S: ClauseSink>(
    o: &Outline,
    layout: &Layout,
    ob: Obligation,
    into: &mut S,
) -> Result<(), S::Fault>
    requires layout { layout.now ≡ layout_of o.now }
    requires ob { IsObligationOf o.now.program ob }
    ensures { Emitted S.takes result (S.view into.old) (S.view into.new) (top_of (layout_of o.now) (entailment_of o.now ob)) }
{
    let next = Fresh::from(layout.step_atoms() + 1);
    match ob {
        Obligation::Fresh => offer_fresh(o, layout, next, into),
        Obligation::Entry(t) => {
            let goal = note(o, t, 1);
            offer_one(pre(o), goal, Side::Before, layout, next, into)
        }
        Obligation::EntryCrash => offer_one(pre(o), crash(o), Side::Before, layout, next, into),
        Obligation::Local(step) => {
            let given = note(o, step.thread, step.point);
            let goal = note(o, step.thread, step.target);
            offer_two(given, crash(o), goal, Side::After, layout, next, into)
        }
        Obligation::Crash(step) => {
            let given = note(o, step.thread, step.point);
            offer_two(given, crash(o), crash(o), Side::After, layout, next, into)
        }
        Obligation::Interfere(step, at) => {
            let given = note(o, step.thread, step.point);
            let stable = note(o, at.thread, at.point);
            offer_three(
                given,
                stable,
                crash(o),
                stable,
                Side::After,
                layout,
                next,
                into,
            )
        }
    }
}

/// Gives the top part of the first obligation to a sink: what is given of the fresh state, and the precondition as the goal.
fn offer_fresh<S: ClauseSink>(
    o: &Outline,
    layout: &Layout,
    next: Fresh,
    into: &mut S,
) -> Result<(), S::Fault>
    requires layout { layout.now ≡ layout_of o.now }
    requires next { next ≡ first_new layout.now }
    requires few { next ≤ most_step_atoms + 1 }
    ensures { Emitted S.takes result (S.view into.old) (S.view into.new) (top_of (layout_of o.now) (entailment_of o.now Obligation.Fresh)) }
{
    let names = o.program().names();
    let values = Then(
        PerLocation(AllInitial { names }),
        Then(
            PerThread(PerLocation(AllNewest)),
            PerLocation(PerValue(NoOther { names })),
        ),
    );
    offer(&Then(PerScalar(AllZero), values), layout, into)?;
    offer_goal(pre(o), layout, Side::Before, next, into)
}
