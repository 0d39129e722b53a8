//! What does not hold in a state, and of the memory that a crash leaves.

ghost use Rattle.std.specs.Prelude.{◌≡◌, ℕ, ◌≤◌, length};
ghost use Rattle.std.specs.Option.{option_or};
ghost use Rattle.pg_machine.specs.State.{IsWellFormed};
ghost use Rattle.pg_replay.specs.Violation as spec;

use crate::answer::Violation;
use pg_machine::State;
use pg_outline::Outline;
use pg_program::PointId;
use pg_views::{Nvm, holds, holds_crash};

/// The first violation, where there was one earlier, and else that of a state. An assertion takes time that is linear in its nodes, the
/// messages and the threads, multiplied; one without atoms takes none by the messages.
pub fn first_in_state(
    earlier: Option<Violation>,
    o: &Outline,
    state: &State,
    line: u32,
) -> Option<Violation>
    requires { IsWellFormed o.now.program state.now.state }
    ensures { result ≡ option_or earlier (spec.state_violation o.now line state.now.state) }
{
    match earlier {
        Some(violation) => Some(violation),
        None => state_violation(o, state, line),
    }
}

/// The first violation of a state, in the order of the threads.
fn state_violation(o: &Outline, state: &State, line: u32) -> Option<Violation>
    requires { IsWellFormed o.now.program state.now.state }
    ensures { result ≡ spec.state_violation o.now line state.now.state }
{
    'threads: for thread in 1..o.program().threads() + 1 {
        if let Some(violation) = assertion_violation(o, state, line, thread) {
            return Some(violation);
        }
    }
    None
}

/// The assertion at a thread's point, where it does not hold.
fn assertion_violation(o: &Outline, state: &State, line: u32, thread: u8) -> Option<Violation>
    requires formed { IsWellFormed o.now.program state.now.state }
    requires thread { (1 ≤ thread) × (thread ≤ length o.now.program.threads) }
    ensures { result ≡ spec.assertion_violation o.now line state.now.state thread }
{
    let at = PointId {
        thread,
        point: state.point(thread),
    };
    if holds(state, o.program(), o.note(at)) {
        return None;
    }
    Some(Violation::Assertion { line, at })
}

/// The first violation, where there was one earlier, and else the crash formula, where it does not hold of a memory that a crash
/// leaves.
pub fn first_at_crash(
    earlier: Option<Violation>,
    o: &Outline,
    state: &State,
    line: u32,
    memory: &Nvm,
) -> Option<Violation>
    requires formed { IsWellFormed o.now.program state.now.state }
    requires size { length memory.now ≡ length state.now.state.memory.initial }
    ensures { result ≡ option_or earlier (spec.crash_violation o.now line state.now.state memory.now) }
{
    match earlier {
        Some(violation) => Some(violation),
        None => crash_violation(o, state, line, memory),
    }
}

/// The crash formula, where it does not hold of a memory that a crash leaves.
fn crash_violation(o: &Outline, state: &State, line: u32, memory: &Nvm) -> Option<Violation>
    requires formed { IsWellFormed o.now.program state.now.state }
    requires size { length memory.now ≡ length state.now.state.memory.initial }
    ensures { result ≡ spec.crash_violation o.now line state.now.state memory.now }
{
    if holds_crash(memory, state.scalars(), o.crash()) {
        return None;
    }
    Some(Violation::Crash { line })
}
