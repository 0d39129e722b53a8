//! The walk: the machine goes through a schedule, and what holds is told line by line.

ghost use Rattle.std.specs.Prelude.{◌≡◌, ◌<◌, ◌++◌, length, IfOk, OnOk};
ghost use Rattle.pg_assertion.specs.Formula.{plain};
ghost use Rattle.pg_machine.specs.State.{IsWellFormed};
ghost use Rattle.pg_outline.specs.Speaks.{IsOver};
ghost use Rattle.pg_schedule.specs.Held.{act_lent, IsShort};
ghost use Rattle.pg_walk.specs.Told.{atoms_text, state_text, location_text, locations_text, crash_text, Takes, line_text, IsWalk};

use itoa::Buffer;
use pg_assertion::{Formula, ViewAtom};
use pg_assertion_text::print_formula;
use pg_machine::{State, StepFault};
use pg_program::{Names, Program};
use pg_schedule::{Schedule, ScheduleAct};
use pg_views::{CrashFault, Nvm, crash, holds};
use std::alloc::{AllocError, Global};
use thiserror::Error;

/// Why a walk ends before its last line.
#[derive(Clone, Copy, Debug, Error)]
pub enum WalkFault {
    #[error("line {line}: {fault}")]
    Step { line: u32, fault: StepFault },
    #[error("line {line}: {fault}")]
    Crash { line: u32, fault: CrashFault },
    #[error("out of memory")]
    NoMemory,
}

impl From<AllocError> for WalkFault {
    fn from(_: AllocError) -> WalkFault {
        WalkFault::NoMemory
    }
}

/// Takes the lines of a schedule from the fresh state on, and tells of each what `specs/Told.antt` says.
pub fn walk(
    alloc: Global,
    program: &Program,
    question: &Formula<ViewAtom>,
    schedule: &Schedule,
) -> Result<Vec<u8>, WalkFault>
    requires { IsOver program.now (plain question.now) }
    ensures { IfOk result (λ told. IsWalk program.now (plain question.now) schedule.now told.items) }
{
    let mut told = Vec::new(alloc);
    let mut state = State::fresh(alloc, program)?;
    tell_state(1, &state, program, question, &mut told)?;
    'lines: for k in 0..schedule.len() {
        let line = schedule.line(k);
        take_line(
            alloc,
            line,
            schedule.act(k),
            program,
            question,
            &mut state,
            &mut told,
        )?;
    }
    Ok(told)
}

/// Takes a line, and tells of it.
fn take_line(
    alloc: Global,
    line: u32,
    act: ScheduleAct<'_>,
    program: &Program,
    question: &Formula<ViewAtom>,
    state: &mut State,
    told: &mut Vec<u8>,
) -> Result<(), WalkFault>
    requires formed { IsWellFormed program.now state.old.state }
    requires question { IsOver program.now (plain question.now) }
    requires short { IsShort act }
    ensures takes { OnOk result (Takes program.now state.old.state (act_lent act.entry) state.new.state) }
    ensures told { OnOk result (told.new.items ≡ told.old.items ++ line_text program.now.names (plain question.now) line (act_lent act.entry) state.new.state) }
    ensures kept { IsWellFormed program.now state.new.state }
{
    match act {
        ScheduleAct::Step(event) => {
            state
                .step(program, event)
                .map_err(|fault| WalkFault::Step { line, fault })?;
            tell_state(line, state, program, question, told)?;
        }
        ScheduleAct::Crash(at) => {
            let memory = crash(alloc, state, program, at).map_err(|fault| WalkFault::Crash {
                line,
                fault,
            })?;
            tell_crash(line, &memory, program.names(), told)?;
        }
    }
    Ok(())
}

/// Tells the atoms of the question that hold in a state.
fn tell_state(
    line: u32,
    state: &State,
    program: &Program,
    question: &Formula<ViewAtom>,
    told: &mut Vec<u8>,
) -> Result<(), AllocError>
    requires formed { IsWellFormed program.now state.now.state }
    requires question { IsOver program.now (plain question.now) }
    ensures { OnOk result (told.new.items ≡ told.old.items ++ state_text program.now.names (plain question.now) line state.now.state) }
{
    told.extend_from_slice(Buffer::new().format(line).as_bytes())?;
    tell_atoms(state, program, question, told)?;
    told.extend_from_slice(b"\n")
}

#[tactic(auto, unfolding(pg_assertion_text::specs::Spelling::spell))]
fn tell_atoms(
    state: &State,
    program: &Program,
    f: &Formula<ViewAtom>,
    told: &mut Vec<u8>,
) -> Result<(), AllocError>
    requires formed { IsWellFormed program.now state.now.state }
    requires over { IsOver program.now (plain f.now) }
    ensures { OnOk result (told.new.items ≡ told.old.items ++ atoms_text program.now.names state.now.state (plain f.now)) }
{
    match f {
        Formula::True | Formula::False => Ok(()),
        Formula::Atom(_) => {
            if holds(state, program, f) {
                told.extend_from_slice(b" ")?;
                print_formula(f, program.names(), told)?;
            }
            Ok(())
        }
        Formula::Not(f) => tell_atoms(state, program, f.get(), told),
        Formula::And(f, g) | Formula::Or(f, g) | Formula::Implies(f, g) => {
            tell_atoms(state, program, f.get(), told)?;
            tell_atoms(state, program, g.get(), told)
        }
    }
}

/// Tells the memory that a crash leaves.
fn tell_crash(line: u32, memory: &Nvm, names: &Names, told: &mut Vec<u8>) -> Result<(), AllocError>
    requires { length memory.now ≡ length names.now.locations }
    ensures { OnOk result (told.new.items ≡ told.old.items ++ crash_text names.now line memory.now) }
{
    told.extend_from_slice(Buffer::new().format(line).as_bytes())?;
    told.extend_from_slice(b" crash")?;
    tell_locations(memory, names, told)?;
    told.extend_from_slice(b"\n")
}

fn tell_locations(memory: &Nvm, names: &Names, told: &mut Vec<u8>) -> Result<(), AllocError>
    requires { length memory.now ≡ length names.now.locations }
    ensures { OnOk result (told.new.items ≡ told.old.items ++ locations_text names.now memory.now (length names.now.locations)) }
{
    'locations: for x in 0..names.locations() {
        tell_location(memory, names, x, told)?;
    }
    Ok(())
}

fn tell_location(memory: &Nvm, names: &Names, x: u8, told: &mut Vec<u8>) -> Result<(), AllocError>
    requires { (x < length names.now.locations) × (x < length memory.now) }
    ensures { OnOk result (told.new.items ≡ told.old.items ++ location_text names.now memory.now x) }
{
    told.extend_from_slice(b" ")?;
    told.extend_from_slice(names.location_name(x).as_bytes())?;
    told.extend_from_slice(b"=")?;
    told.extend_from_slice(Buffer::new().format(memory.value(x)).as_bytes())
}
