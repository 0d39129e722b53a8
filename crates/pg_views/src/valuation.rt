//! The valuation of a step: the truth of each atom that a step is judged by.

ghost use Rattle.std.specs.Prelude.{◌≡◌, ℕ, ◌<◌, length, All, option_copied};
ghost use Rattle.pg_program.specs.Limits.{IsDomainSize};
ghost use Rattle.pg_program.specs.declared.syntax.Act.{out-Act};
ghost use Rattle.pg_program.specs.Words.{outside_in};
ghost use Rattle.pg_assertion.specs.Layout.{sizes};
ghost use Rattle.pg_assertion.specs.StepAtom.{IsStepAtom};
ghost use Rattle.pg_machine.specs.State.{IsWellFormed};
ghost use Rattle.pg_machine.specs.Step.{HasThread};
ghost use Rattle.pg_views.specs.Valuation.{is_some, new_value, expected_value, is_success, is_taken, step_atom_holds, valuation};

use crate::atom::holds_atom;
use pg_assertion::{Side, StepAtom};
use pg_machine::{Event, State};
use pg_program::{Act, PointId, Program, eval, holds_cond};

/// Whether an atom holds of the step by which an event leads a state to the next one. It takes no memory.
pub fn holds_step_atom(p: &Program, event: Event, s: &State, next: &State, a: &StepAtom) -> bool
    requires before { IsWellFormed p.now s.now.state }
    requires after { IsWellFormed p.now next.now.state }
    requires thread { HasThread p.now event }
    requires atom { IsStepAtom (sizes p.now.names (length p.now.threads)) a.now }
    ensures { result ≡ valuation p.now event s.now.state next.now.state a.now }
{
    let domain = p.names().domain();
    let thread = event.thread as u8;
    let at = PointId {
        thread,
        point: s.point(thread),
    };
    match p.stmt(at) {
        Some(stmt) => holds_of_act(p, domain, &stmt.act, event.choice, s, next, a),
        None => false,
    }
}

/// Whether an atom holds of the step that does an act by an event with this choice.
fn holds_of_act(
    p: &Program,
    domain: u32,
    act: &Act,
    choice: Option<u32>,
    s: &State,
    next: &State,
    a: &StepAtom,
) -> bool
    requires domain { (domain ≡ p.now.names.domain) × IsDomainSize domain }
    requires before { IsWellFormed p.now s.now.state }
    requires after { IsWellFormed p.now next.now.state }
    requires scalars { All (λ r. r < length s.now.state.scalars) (outside_in (out-Act act.now)) }
    requires atom { IsStepAtom (sizes p.now.names (length p.now.threads)) a.now }
    ensures { result ≡ step_atom_holds domain (out-Act act.now) choice s.now.state next.now.state a.now }
{
    match *a {
        StepAtom::On { atom, side } => match side {
            Side::Before => holds_atom(s, p, &atom),
            Side::After => holds_atom(next, p, &atom),
        },
        StepAtom::Value { v } => is_value(new_value(act, s.scalars(), domain), v),
        StepAtom::Expected { v } => is_value(expected_value(act, s.scalars(), domain), v),
        StepAtom::Success => is_success(act, choice),
        StepAtom::Taken => is_taken(act, s.scalars(), domain),
    }
}

fn is_value(value: Option<u8>, v: u8) -> bool
    ensures { result ≡ is_some value v }
{
    match value {
        Some(value) => value == v,
        None => false,
    }
}

/// The value that an act assigns or stores.
fn new_value(act: &Act, scalars: &[u8], domain: u32) -> Option<u8>
    requires domain { IsDomainSize domain }
    requires values { All (λ v. v < domain) scalars.now }
    requires scalars { All (λ r. r < length scalars.now) (outside_in (out-Act act.now)) }
    ensures { result ≡ new_value domain scalars.now (out-Act act.now) }
{
    match act {
        Act::Assign { expr, .. } => Some(eval(expr, scalars, domain)),
        Act::Store { expr, .. } => Some(eval(expr, scalars, domain)),
        Act::Cas { desired, .. } => Some(eval(desired, scalars, domain)),
        _ => None,
    }
}

/// The value that a cas expects.
fn expected_value(act: &Act, scalars: &[u8], domain: u32) -> Option<u8>
    requires domain { IsDomainSize domain }
    requires values { All (λ v. v < domain) scalars.now }
    requires scalars { All (λ r. r < length scalars.now) (outside_in (out-Act act.now)) }
    ensures { result ≡ expected_value domain scalars.now (out-Act act.now) }
{
    match act {
        Act::Cas { expected, .. } => Some(eval(expected, scalars, domain)),
        _ => None,
    }
}

/// Whether an act is a cas that succeeds by an event with this choice.
fn is_success(act: &Act, choice: Option<u32>) -> bool
    ensures { result ≡ is_success (out-Act act.now) choice }
{
    match act {
        Act::Cas { .. } => choice.is_none(),
        _ => false,
    }
}

/// Whether an act is a test that holds.
fn is_taken(act: &Act, scalars: &[u8], domain: u32) -> bool
    requires domain { IsDomainSize domain }
    requires values { All (λ v. v < domain) scalars.now }
    requires scalars { All (λ r. r < length scalars.now) (outside_in (out-Act act.now)) }
    ensures { result ≡ is_taken domain scalars.now (out-Act act.now) }
{
    match act {
        Act::If { test, .. } => holds_cond(test, scalars, domain),
        Act::While { test, .. } => holds_cond(test, scalars, domain),
        _ => false,
    }
}
