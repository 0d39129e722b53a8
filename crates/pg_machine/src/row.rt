//! The row of each statement: what its act does by an event, and the branch that is taken.

ghost use Rattle.std.specs.Prelude.{◌≡◌, ◌+◌, ◌<◌, ◌≤◌, length, if◌then◌else◌, false, All, IsSome, Some, None, IfErr, OnOk, OnErr};
ghost use Rattle.pg_program.specs.Limits.{IsDomainSize};
ghost use Rattle.pg_program.specs.declared.syntax.Act.{out-Act};
ghost use Rattle.pg_program.specs.Words.{outside_in, locations_in, scalars_of, locations_of};
ghost use Rattle.pg_program.specs.Graph.{step_of};
ghost use Rattle.pg_program.specs.Expr.{reads};
ghost use Rattle.pg_machine.specs.Step.{Row, leaves, act_of, branch_taken, bracket_done};
ghost use Rattle.pg_machine.specs.Fault.{RowFault};
ghost use Rattle.pg_machine.specs.Limits.{most_messages};
ghost use Rattle.pg_machine.specs.Refusal.{IsRefusal};
ghost use Rattle.pg_machine.specs.State.{AreSized};
ghost use Rattle.pg_machine.specs.StepParts.{seen_in, AreBelow, needs_memory, Does};

use crate::access::{load, miss, store, swap};
use crate::fault::StepFault;
use crate::memory::Memory;
use crate::views::Views;
use pg_program::{Act, AuxAssign, Branch, Step, Stmt, eval, holds_cond};

/// Does what a statement does: its act, and then its bracket. A refusal leaves all as it was.
pub fn run(
    stmt: &Stmt,
    choice: Option<u32>,
    domain: u32,
    memory: &mut Memory,
    views: &mut Views,
    scalars: &mut [u8],
) -> Result<(), StepFault>
    requires domain { IsDomainSize domain }
    requires values { All (λ v. v < domain) scalars.old }
    requires scalars { All (λ r. r < length scalars.old) (scalars_of stmt.now) }
    requires locations { All (λ x. x < length memory.old.memory.initial) (locations_of stmt.now) }
    requires sizes { AreSized memory.old.memory views.old }
    requires stored { AreBelow domain memory.old }
    requires few { length memory.old.memory.messages ≤ most_messages }
    ensures ok { OnOk result (Does domain (seen_in memory.old views.old) scalars.old stmt.now choice (leaves (seen_in memory.new views.new) scalars.new)) }
    ensures err { IfErr result (λ f. IsRefusal (RowFault domain (seen_in memory.old views.old) scalars.old (act_of stmt.now) choice) memory.old.spare f) }
    ensures within { length memory.new.memory.messages ≤ most_messages }
    ensures unchanged { OnErr result ((seen_in memory.new views.new ≡ seen_in memory.old views.old) × (scalars.new ≡ scalars.old)) }
    ensures spare { memory.old.spare + length memory.old.memory.messages ≤ memory.new.spare + length memory.new.memory.messages }
{
    act(&stmt.act, choice, domain, memory, views, scalars)?;
    assign(stmt.aux.as_slice(), domain, scalars);
    Ok(())
}

/// Does what an act does to the memory, to the views of its thread and to the scalars. A refusal leaves all as it was.
pub fn act(
    act: &Act,
    choice: Option<u32>,
    domain: u32,
    memory: &mut Memory,
    views: &mut Views,
    scalars: &mut [u8],
) -> Result<(), StepFault>
    requires domain { IsDomainSize domain }
    requires values { All (λ v. v < domain) scalars.old }
    requires scalars { All (λ r. r < length scalars.old) (outside_in (out-Act act.now)) }
    requires locations { All (λ x. x < length memory.old.memory.initial) (locations_in (out-Act act.now)) }
    requires sizes { AreSized memory.old.memory views.old }
    requires stored { AreBelow domain memory.old }
    requires few { length memory.old.memory.messages ≤ most_messages }
    ensures ok { OnOk result (Row domain (seen_in memory.old views.old) scalars.old (out-Act act.now) choice (leaves (seen_in memory.new views.new) scalars.new)) }
    ensures err { IfErr result (λ f. IsRefusal (RowFault domain (seen_in memory.old views.old) scalars.old (out-Act act.now) choice) memory.old.spare f) }
    ensures values { All (λ v. v < domain) scalars.new }
    ensures within { length memory.new.memory.messages ≤ most_messages }
    ensures unchanged { OnErr result ((seen_in memory.new views.new ≡ seen_in memory.old views.old) × (scalars.new ≡ scalars.old)) }
    ensures spare { memory.old.spare + length memory.old.memory.messages ≤ memory.new.spare + length memory.new.memory.messages }
{
    match choice {
        Some(position) => read(act, position, domain, memory, views, scalars),
        None => act_alone(act, domain, memory, views, scalars),
    }
}

/// Does an act by an event that chooses a position: a load, or a failing cas. It writes no message.
fn read(
    act: &Act,
    position: u32,
    domain: u32,
    memory: &Memory,
    views: &mut Views,
    scalars: &mut [u8],
) -> Result<(), StepFault>
    requires domain { IsDomainSize domain }
    requires values { All (λ v. v < domain) scalars.old }
    requires scalars { All (λ r. r < length scalars.old) (outside_in (out-Act act.now)) }
    requires locations { All (λ x. x < length memory.now.memory.initial) (locations_in (out-Act act.now)) }
    requires sizes { AreSized memory.now.memory views.old }
    requires stored { AreBelow domain memory.now }
    ensures ok { OnOk result (Row domain (seen_in memory.now views.old) scalars.old (out-Act act.now) (Some position) (leaves (seen_in memory.now views.new) scalars.new)) }
    ensures err { IfErr result (λ f. RowFault domain (seen_in memory.now views.old) scalars.old (out-Act act.now) (Some position) f) }
    ensures values { All (λ v. v < domain) scalars.new }
    ensures unchanged { OnErr result ((seen_in memory.now views.new ≡ seen_in memory.now views.old) × (scalars.new ≡ scalars.old)) }
{
    match act {
        Act::Load { target, location } => {
            let value = load(memory, views, *location, position)?;
            scalars[usize::from(*target)] = value;
            Ok(())
        }
        Act::Cas {
            target,
            location,
            expected,
            ..
        } => {
            let other = eval(expected, scalars, domain);
            let value = miss(memory, views, *location, position, other)?;
            scalars[usize::from(*target)] = value;
            Ok(())
        }
        _ => Err(StepFault::NoChoice),
    }
}

/// Does an act by an event that chooses no position.
fn act_alone(
    act: &Act,
    domain: u32,
    memory: &mut Memory,
    views: &mut Views,
    scalars: &mut [u8],
) -> Result<(), StepFault>
    requires domain { IsDomainSize domain }
    requires values { All (λ v. v < domain) scalars.old }
    requires scalars { All (λ r. r < length scalars.old) (outside_in (out-Act act.now)) }
    requires locations { All (λ x. x < length memory.old.memory.initial) (locations_in (out-Act act.now)) }
    requires sizes { AreSized memory.old.memory views.old }
    requires few { length memory.old.memory.messages ≤ most_messages }
    ensures ok { OnOk result (Row domain (seen_in memory.old views.old) scalars.old (out-Act act.now) None (leaves (seen_in memory.new views.new) scalars.new)) }
    ensures err { IfErr result (λ f. IsRefusal (RowFault domain (seen_in memory.old views.old) scalars.old (out-Act act.now) None) memory.old.spare f) }
    ensures values { All (λ v. v < domain) scalars.new }
    ensures within { length memory.new.memory.messages ≤ most_messages }
    ensures unchanged { OnErr result ((seen_in memory.new views.new ≡ seen_in memory.old views.old) × (scalars.new ≡ scalars.old)) }
    ensures spare { memory.old.spare + length memory.old.memory.messages ≤ memory.new.spare + length memory.new.memory.messages }
{
    match act {
        Act::Load { .. } => Err(StepFault::ChoiceMissing),
        Act::Cas {
            target,
            location,
            expected,
            desired,
        } => {
            let last = eval(expected, scalars, domain);
            let next = eval(desired, scalars, domain);
            swap(memory, views, *location, last, next)?;
            scalars[usize::from(*target)] = last;
            Ok(())
        }
        Act::Store { location, expr } => {
            let value = eval(expr, scalars, domain);
            store(memory, views, *location, value)
        }
        _ => {
            move_views(act, domain, memory, views, scalars);
            Ok(())
        }
    }
}

/// Does an act that neither reads nor writes a location. A flush is of the location's line.
fn move_views(act: &Act, domain: u32, memory: &Memory, views: &mut Views, scalars: &mut [u8])
    requires kind { needs_memory (out-Act act.now) ≡ false }
    requires domain { IsDomainSize domain }
    requires values { All (λ v. v < domain) scalars.old }
    requires scalars { All (λ r. r < length scalars.old) (outside_in (out-Act act.now)) }
    requires locations { All (λ x. x < length memory.now.memory.initial) (locations_in (out-Act act.now)) }
    requires sizes { AreSized memory.now.memory views.old }
    ensures row { Row domain (seen_in memory.now views.old) scalars.old (out-Act act.now) None (leaves (seen_in memory.now views.new) scalars.new) }
    ensures values { All (λ v. v < domain) scalars.new }
{
    match act {
        Act::Assign { target, expr } => {
            scalars[usize::from(*target)] = eval(expr, scalars, domain);
        }
        Act::Mfence => views.mfence(),
        Act::Sfence => views.sfence(),
        Act::Flush { location } => views.flush(memory.line(*location)),
        Act::Flushopt { location } => views.flushopt(
            memory.location_lines(),
            memory.line(*location),
        ),
        _ => {}
    }
}

/// The branch that is taken: a test takes that of its truth.
pub fn branch_taken(act: &Act, scalars: &[u8], domain: u32) -> Branch
    requires domain { IsDomainSize domain }
    requires values { All (λ v. v < domain) scalars.now }
    requires scalars { All (λ r. r < length scalars.now) (outside_in (out-Act act.now)) }
    ensures { result ≡ branch_taken domain scalars.now (out-Act act.now) }
{
    match act {
        Act::If { test, .. } => branch_of(holds_cond(test, scalars, domain)),
        Act::While { test, .. } => branch_of(holds_cond(test, scalars, domain)),
        _ => Branch::Plain,
    }
}

fn branch_of(holds: bool) -> Branch
    ensures { result ≡ (if holds then Branch.Yes else Branch.No) }
{
    if holds { Branch::Yes } else { Branch::No }
}

/// The step of a branch.
pub fn step_of(steps: &[Step], branch: Branch) -> Step
    requires { IsSome (step_of branch steps.now) }
    ensures { step_of branch steps.now ≡ Some result }
{
    match steps {
        [step, rest @ ..] => {
            if step.branch == branch {
                *step
            } else {
                step_of(rest, branch)
            }
        }
        [] => unreachable!(),
    }
}

/// Makes the assignments of a bracket together: each value is taken before the first is written.
pub fn assign(bracket: &[AuxAssign], domain: u32, scalars: &mut [u8])
    requires domain { IsDomainSize domain }
    requires values { All (λ v. v < domain) scalars.old }
    requires targets { All (λ a. a.target < length scalars.old) bracket.now }
    requires names { All (λ a. All (λ r. r < length scalars.old) (reads a.expr)) bracket.now }
    ensures together { scalars.new ≡ bracket_done domain bracket.now scalars.old }
    ensures values { All (λ v. v < domain) scalars.new }
{
    if let [rest @ .., last] = bracket {
        let value = eval(&last.expr, scalars, domain);
        assign(rest, domain, scalars);
        scalars[usize::from(last.target)] = value;
    }
}
