//! A step of the machine, and what its trace line tells of it.

ghost use Rattle.std.specs.Prelude.{◌≡◌, ℕ, ◌<◌, ◌≤◌, ◌⊎◌, All, length, MatchOption, IfOk, IfErr, OnOk};
ghost use Rattle.pg_program.specs.Program.{IsProgram, stmt_at};
ghost use Rattle.pg_program.specs.declared.syntax.Act.{out-Act};
ghost use Rattle.pg_program.specs.Words.{locations_in};
ghost use Rattle.pg_machine.specs.State.{IsWellFormed, point_of};
ghost use Rattle.pg_machine.specs.Memory.{value_at};
ghost use Rattle.pg_machine.specs.Step.{IsStep, HasThread};
ghost use Rattle.pg_machine.specs.Fault.{IsFault};
ghost use Rattle.pg_machine.specs.Limits.{most_messages};
ghost use Rattle.pg_replay.specs.Trace as spec;

use pg_machine::{Event, State, StepFault};
use pg_program::{Act, PointId, Program};

/// A message that a step appends: its value and its position.
#[derive(Clone, Copy)]
pub struct Write {
    pub value: u8,
    pub position: u32,
}

/// What is told of a step: its thread, the points before and after it, the value that it reads and the message that it appends.
#[derive(Clone, Copy)]
pub struct Moves {
    pub thread: u8,
    pub from: u8,
    pub to: u8,
    pub read: Option<u8>,
    pub write: Option<Write>,
}

/// Takes the step that an event leads to.
pub fn take_step(p: &Program, state: &mut State, event: Event) -> Result<Moves, StepFault>
    requires built { IsProgram p.now }
    requires formed { IsWellFormed p.now state.old.state }
    ensures ok { OnOk result (IsStep p.now state.old.state event state.new.state × (length state.new.state.memory.messages ≤ most_messages)) }
    ensures moves { IfOk result (λ m. m ≡ spec.moves p.now state.old.state event state.new.state) }
    ensures err { IfErr result (λ f. IsFault p.now state.old.state event f ⊎ (f ≡ StepFault.NoMemory)) }
    ensures kept { IsWellFormed p.now state.new.state }
{
    let at = match point_of(p, state, event.thread) {
        Some(at) => at,
        None => return Err(StepFault::NoThread(event.thread)),
    };
    let before = state.messages();
    let read = value_read(p, state, at, event.choice);
    state.step(p, event)?;
    Ok(Moves {
        thread: at.thread,
        from: at.point,
        to: state.point(at.thread),
        read,
        write: last_write(state, before),
    })
}

/// The point of a thread, if the program has it.
fn point_of(p: &Program, state: &State, thread: u32) -> Option<PointId>
    requires { IsWellFormed p.now state.now.state }
    ensures { MatchOption result ((thread < 1) ⊎ (length p.now.threads < thread)) (λ at. (1 ≤ thread) × (thread ≤ length p.now.threads) × (at.thread ≡ thread) × (at.point ≡ point_of state.now.state thread)) }
{
    if thread < 1 || thread > u32::from(p.threads()) {
        return None;
    }
    let thread = thread as u8;
    Some(PointId {
        thread,
        point: state.point(thread),
    })
}

/// The value that the statement at a point reads by an event with this choice.
fn value_read(p: &Program, state: &State, at: PointId, choice: Option<u32>) -> Option<u8>
    requires built { IsProgram p.now }
    requires formed { IsWellFormed p.now state.now.state }
    requires thread { (1 ≤ at.thread) × (at.thread ≤ length p.now.threads) }
    requires point { at.point ≡ point_of state.now.state at.thread }
    ensures { result ≡ spec.read_at state.now.state.memory (stmt_at p.now at.thread at.point) choice }
{
    match p.stmt(at) {
        Some(stmt) => read_by(state, &stmt.act, choice),
        None => None,
    }
}

/// The value that an act reads by an event with this choice.
fn read_by(state: &State, act: &Act, choice: Option<u32>) -> Option<u8>
    requires { All (λ x. x < length state.now.state.memory.initial) (locations_in (out-Act act.now)) }
    ensures { result ≡ spec.value_read state.now.state.memory (out-Act act.now) choice }
{
    match act {
        Act::Load { location, .. } => match choice {
            Some(position) => Some(value_at(state, *location, position)),
            None => None,
        },
        Act::Cas { location, .. } => match choice {
            Some(position) => Some(value_at(state, *location, position)),
            None => Some(state.memory().last_value(*location)),
        },
        _ => None,
    }
}

/// The value at a position: at 0 the location's initial one, and else that of the message. A position behind the last message, which
/// no step chooses, has the value 0.
fn value_at(state: &State, location: u8, position: u32) -> u8
    requires { location < length state.now.state.memory.initial }
    ensures { result ≡ value_at state.now.state.memory location position }
{
    if position == 0 {
        return state.init(location);
    }
    if position > state.messages() {
        return 0;
    }
    state.message(position).1
}

/// The last message, if there are more of them than before.
fn last_write(state: &State, before: u32) -> Option<Write>
    ensures { result ≡ spec.last_written before state.now.state.memory }
{
    let after = state.messages();
    if after <= before {
        return None;
    }
    Some(Write {
        value: state.message(after).1,
        position: after,
    })
}
