//! The replay of a whole schedule.

ghost use Rattle.std.specs.Prelude.{◌≤◌};
ghost use Rattle.pg_replay.specs.Put.{Puts};

use crate::answer::Replayed;
use crate::fault::ReplayFault;
use crate::lines::replay_line;
use crate::violation::first_in_state;
use pg_io::Sink;
use pg_machine::State;
use pg_outline::Outline;
use pg_schedule::Schedule;
use std::alloc::Global;

/// Replays a schedule on an outline, and puts the line of the trace of each of its lines, with its newline as one piece. Every line is
/// replayed, also after a violation, up to the first one that is refused. `Write` comes only where the sink's count of faults rose. A step
/// takes memory for its message, and a line for its text; want of it is `NoMemory`. The time is at most that of the
/// schedule's lines times the nodes of the assertions, the threads and the messages, of which there are at most 65,535.
pub fn replay<K: Sink>(
    alloc: Global,
    o: &Outline,
    s: &Schedule,
    out: &mut K,
) -> Result<Replayed, ReplayFault>
    ensures trace { Puts o.now s.now result (K.written out.old) (K.written out.new) (K.faults out.old) (K.faults out.new) }
    ensures faults { K.faults out.old ≤ K.faults out.new }
{
    let mut state = State::fresh(alloc, o.program())?;
    let mut found = Replayed {
        steps: 0,
        first_violation: first_in_state(None, o, &state, 1),
    };
    'lines: for k in 0..s.len() {
        found = replay_line(alloc, o, s.line(k), s.act(k), found, &mut state, out)?;
    }
    Ok(found)
}
