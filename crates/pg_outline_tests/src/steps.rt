//! Steps of programs, with the fault of each that cannot be taken.

ghost use Rattle.std.specs.Prelude.{IfOk};
ghost use Rattle.pg_machine.specs.State.{IsWellFormed};

use pg_cases::{agree, on};
use pg_machine::{Event, MAX_MESSAGES, State, StepFault};
use pg_program::Program;
use std::alloc::Global;
use std::test::Fail;

/// A thread, the position that it chooses, and the fault that is wanted.
pub type Line = (u32, Option<u32>, Option<StepFault>);

/// Takes the lines one after the other, and tells whether each has the fault that is wanted.
fn follows(state: &mut State, p: &Program, lines: &[Line]) -> bool
    requires { IsWellFormed p.now state.old.state }
    ensures { IsWellFormed p.now state.new.state }
{
    let mut all = true;
    for (thread, choice, wanted) in lines {
        let event = Event {
            thread: *thread,
            choice: *choice,
        };
        all = all && state.step(p, event).err() == *wanted;
    }
    all
}

const STORES: &[u8] =
    b"pierogi 1; values 2; location x = 0; location y = 0; register a of 1; register b of 2; thread 1 { [true] x := 1; [true] a := x; [true] a := y; [true] } thread 2 { [true] y := 1; [true] b := y; [true] b := x; [true] b := cas(x, 1, 0); [true] }";

/// Store buffering with own reads: both loads of the other's location read the old value. Then a cas succeeds.
const BUFFERED: [Line; 17] = [
    (3, None, Some(StepFault::NoThread(3))),
    (0, None, Some(StepFault::NoThread(0))),
    (1, Some(0), Some(StepFault::NoChoice)),
    (1, None, None),
    (1, None, Some(StepFault::ChoiceMissing)),
    (1, Some(2), Some(StepFault::NotAPosition(2))),
    (
        1,
        Some(0),
        Some(StepFault::BelowCoherence {
            position: 0,
            coh: 1,
        }),
    ),
    (1, Some(1), None),
    (2, None, None),
    (2, Some(2), None),
    (2, Some(0), None),
    (1, Some(0), None),
    (1, None, Some(StepFault::Ended)),
    (
        2,
        Some(0),
        Some(StepFault::Hidden {
            position: 0,
            later: 1,
        }),
    ),
    (2, Some(1), Some(StepFault::CasMustDiffer(1))),
    (2, None, None),
    (2, None, Some(StepFault::Ended)),
];

/// The second thread alone, whose cas fails.
const ALONE: [Line; 6] = [
    (2, None, None),
    (2, Some(1), None),
    (2, Some(0), None),
    (2, None, Some(StepFault::CasNotLast(0))),
    (2, Some(0), None),
    (2, None, Some(StepFault::Ended)),
];

/// The state after these lines, each of which has the fault that is wanted.
pub fn behind(alloc: Global, p: &Program, lines: &[Line]) -> Result<State, Fail>
    ensures { IfOk result (λ s. IsWellFormed p.now s.state) }
{
    let mut state = State::fresh(alloc, p)?;
    state.reserve(3)?;
    agree(follows(&mut state, p, lines), true, b"the steps")?;
    Ok(state)
}

/// Passes where these lines leave these values in the scalars.
fn leave(alloc: Global, p: &Program, lines: &[Line], scalars: &[u8]) -> Result<(), Fail> {
    let state = behind(alloc, p, lines)?;
    agree(state.scalars(), scalars, b"the scalars")
}

#[test]
fn steps_are_taken(rt: HostRuntime) -> Result<(), Fail> {
    let alloc = rt.alloc();
    on(alloc, STORES, |o| {
        leave(alloc, o.program(), &BUFFERED, &[0, 1])?;
        leave(alloc, o.program(), &ALONE, &[0, 0])
    })
}

const LOADS: &[u8] =
    b"pierogi 1; values 2; location x = 0; register b of 2; thread 1 { [true] x := 1; [true] } thread 2 { [true] b := x; [true] b := x; [true] }";

/// A load that would go back.
const BACK: [Line; 3] = [
    (1, None, None),
    (2, Some(1), None),
    (
        2,
        Some(0),
        Some(StepFault::BelowCoherence {
            position: 0,
            coh: 1,
        }),
    ),
];

#[test]
fn a_load_goes_not_back(rt: HostRuntime) -> Result<(), Fail> {
    let alloc = rt.alloc();
    on(alloc, LOADS, |o| leave(alloc, o.program(), &BACK, &[1]))
}

const FOREVER: &[u8] =
    b"pierogi 1; values 2; location x = 0; thread 1 { [true] while 0 = 0 { [true] x := 1; } [true] }";

/// Goes through the loop so many times, and tells whether no step had a fault.
fn turns(state: &mut State, p: &Program, n: u32) -> bool
    requires { IsWellFormed p.now state.old.state }
    ensures { IsWellFormed p.now state.new.state }
{
    let mut all = true;
    for _i in 0..n {
        all = all && follows(state, p, &[(1, None, None), (1, None, None)]);
    }
    all
}

/// Passes where there may be so many messages and no more.
fn is_full(alloc: Global, p: &Program) -> Result<(), Fail> {
    let mut state = State::fresh(alloc, p)?;
    agree(turns(&mut state, p, MAX_MESSAGES), true, FOREVER)?;
    agree(state.messages(), MAX_MESSAGES, FOREVER)?;
    let one_more = [(1, None, None), (1, None, Some(StepFault::MessagesFull))];
    agree(follows(&mut state, p, &one_more), true, FOREVER)?;
    agree(state.messages(), MAX_MESSAGES, FOREVER)
}

#[test]
fn messages_have_a_limit(rt: HostRuntime) -> Result<(), Fail> {
    let alloc = rt.alloc();
    on(alloc, FOREVER, |o| is_full(alloc, o.program()))
}
