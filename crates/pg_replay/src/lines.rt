//! The replay of one line.

ghost use Rattle.std.specs.Prelude.{◌≡◌, ◌+◌, ◌^◌, ◌<◌, ◌≤◌, length, IfOk};
ghost use Rattle.pg_machine.specs.State.{IsWellFormed};
ghost use Rattle.pg_schedule.specs.Schedule.{step, crash};
ghost use Rattle.pg_schedule.specs.Held.{act_lent, IsShort};
ghost use Rattle.pg_replay.specs.Parts.{PutsLine, Shows, ReplaysLine};
ghost use Rattle.pg_replay.specs.Replay.{joined};
ghost use Rattle.pg_replay.specs.Violation.{state_violation, crash_violation};
ghost use Rattle.pg_replay.specs.Trace as spec;

use crate::answer::Replayed;
use crate::fault::ReplayFault;
use crate::moves::{Moves, take_step};
use crate::trace::{crash_text, step_text};
use crate::violation::{first_at_crash, first_in_state};
use pg_io::{Sink, SinkFault};
use pg_machine::{Event, State, StepFault};
use pg_outline::Outline;
use pg_schedule::ScheduleAct;
use pg_views::{CrashFault, Nvm, crash};
use std::alloc::Global;

/// Replays a line, adds to what was found before it what is found after it, and puts its line of the trace.
pub fn replay_line<K: Sink>(
    alloc: Global,
    o: &Outline,
    line: u32,
    act: ScheduleAct<'_>,
    found: Replayed,
    state: &mut State,
    out: &mut K,
) -> Result<Replayed, ReplayFault>
    requires formed { IsWellFormed o.now.program state.old.state }
    requires few { found.steps + 1 < 2 ^ 32 }
    requires short { IsShort act }
    ensures line { ReplaysLine o.now line (act_lent act.entry) found state.old.state state.new.state result (K.written out.old) (K.written out.new) (K.faults out.old) (K.faults out.new) }
    ensures faults { K.faults out.old ≤ K.faults out.new }
    ensures kept { IsWellFormed o.now.program state.new.state }
    ensures steps { IfOk result (λ r. r.steps ≤ found.steps + 1) }
{
    match act {
        ScheduleAct::Step(event) => replay_step(alloc, o, line, event, found, state, out),
        ScheduleAct::Crash(at) => replay_crash(alloc, o, line, at, found, state, out),
    }
}

/// Replays a line with a step.
fn replay_step<K: Sink>(
    alloc: Global,
    o: &Outline,
    line: u32,
    event: Event,
    found: Replayed,
    state: &mut State,
    out: &mut K,
) -> Result<Replayed, ReplayFault>
    requires formed { IsWellFormed o.now.program state.old.state }
    requires few { found.steps + 1 < 2 ^ 32 }
    ensures line { ReplaysLine o.now line (step event) found state.old.state state.new.state result (K.written out.old) (K.written out.new) (K.faults out.old) (K.faults out.new) }
    ensures faults { K.faults out.old ≤ K.faults out.new }
    ensures kept { IsWellFormed o.now.program state.new.state }
    ensures steps { IfOk result (λ r. r.steps ≤ found.steps + 1) }
{
    match take_step(o.program(), state, event) {
        Ok(moves) => show_step(alloc, o, line, moves, found, state, out),
        Err(StepFault::NoMemory) => Err(ReplayFault::NoMemory),
        Err(fault) => Err(ReplayFault::Step { line, fault }),
    }
}

/// Puts the line of a step, and adds what is found in the state after it.
fn show_step<K: Sink>(
    alloc: Global,
    o: &Outline,
    line: u32,
    moves: Moves,
    found: Replayed,
    state: &State,
    out: &mut K,
) -> Result<Replayed, ReplayFault>
    requires formed { IsWellFormed o.now.program state.now.state }
    requires few { found.steps + 1 < 2 ^ 32 }
    ensures line { Shows (spec.step_text line moves) (joined found (record { steps = 1; first_violation = state_violation o.now line state.now.state })) result (K.written out.old) (K.written out.new) (K.faults out.old) (K.faults out.new) }
    ensures faults { K.faults out.old ≤ K.faults out.new }
{
    let text = step_text(alloc, line, moves)?;
    put_line(&text, out)?;
    Ok(Replayed {
        steps: found.steps + 1,
        first_violation: first_in_state(found.first_violation, o, state, line),
    })
}

/// Replays a line with a crash, which leaves the state.
fn replay_crash<K: Sink>(
    alloc: Global,
    o: &Outline,
    line: u32,
    at: &[u32],
    found: Replayed,
    state: &State,
    out: &mut K,
) -> Result<Replayed, ReplayFault>
    requires formed { IsWellFormed o.now.program state.now.state }
    requires short { length at.now < 2 ^ 32 }
    ensures line { ReplaysLine o.now line (crash at.now) found state.now.state state.now.state result (K.written out.old) (K.written out.new) (K.faults out.old) (K.faults out.new) }
    ensures faults { K.faults out.old ≤ K.faults out.new }
    ensures steps { IfOk result (λ r. r.steps ≡ found.steps) }
{
    match crash(alloc, state, o.program(), at) {
        Ok(memory) => show_crash(alloc, o, line, &memory, found, state, out),
        Err(CrashFault::NoMemory) => Err(ReplayFault::NoMemory),
        Err(fault) => Err(ReplayFault::Crash { line, fault }),
    }
}

/// Puts the line of a crash, and adds what is found of the memory that it leaves.
fn show_crash<K: Sink>(
    alloc: Global,
    o: &Outline,
    line: u32,
    memory: &Nvm,
    found: Replayed,
    state: &State,
    out: &mut K,
) -> Result<Replayed, ReplayFault>
    requires formed { IsWellFormed o.now.program state.now.state }
    requires size { length memory.now ≡ length state.now.state.memory.initial }
    ensures line { Shows (spec.crash_text o.now.program.names line memory.now) (joined found (record { steps = 0; first_violation = crash_violation o.now line state.now.state memory.now })) result (K.written out.old) (K.written out.new) (K.faults out.old) (K.faults out.new) }
    ensures faults { K.faults out.old ≤ K.faults out.new }
{
    let text = crash_text(alloc, o.program().names(), line, memory)?;
    put_line(&text, out)?;
    Ok(Replayed {
        steps: found.steps,
        first_violation: first_at_crash(found.first_violation, o, state, line, memory),
    })
}

/// Puts a line of text as one piece.
fn put_line<K: Sink>(text: &[u8], out: &mut K) -> Result<(), ReplayFault>
    ensures line { PutsLine text.now result (K.written out.old) (K.written out.new) (K.faults out.old) (K.faults out.new) }
    ensures faults { K.faults out.old ≤ K.faults out.new }
{
    match out.put(text) {
        Ok(()) => Ok(()),
        Err(SinkFault::Failed) => Err(ReplayFault::Write),
        Err(SinkFault::NoMemory) => Err(ReplayFault::NoMemory),
    }
}
