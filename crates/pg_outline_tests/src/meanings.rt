//! The atoms that hold in states of a message that is passed, and what crashes leave of them.

ghost use Rattle.std.specs.Prelude.{◌≡◌, ◌<◌, length, IfOk};
ghost use Rattle.pg_assertion.specs.Formula.{plain, AllAtoms};
ghost use Rattle.pg_assertion.specs.Layout.{sizes};
ghost use Rattle.pg_machine.specs.State.{IsWellFormed};
ghost use Rattle.pg_machine.specs.Step.{HasThread};
ghost use Rattle.pg_views.specs.Formula.{IsCrashAtom};

use crate::steps::{Line, behind};
use pg_assertion::{CrashAtom, Formula, Layout, StepAtom};
use pg_assertion_text::print_formula;
use pg_cases::{agree, on};
use pg_machine::{Event, State};
use pg_program::Program;
use pg_views::{CrashFault, Nvm, crash, holds, holds_crash, holds_step_atom};
use std::alloc::Global;
use std::test::Fail;

const MESSAGE: &[u8] =
    b"pierogi 1; values 2; location x = 0; location y = 0; register a of 1; register b of 2; thread 1 { [true] x := 1; [true] flush x; [true] y := 1; [true] } thread 2 { [true] b := y; [true] flushopt y; [true] }";

/// The sender.
const SENDS: [Line; 3] = [(1, None, None), (1, None, None), (1, None, None)];

/// The sender, and then the receiver.
const PASSES: [Line; 5] = [
    (1, None, None),
    (1, None, None),
    (1, None, None),
    (2, Some(2), None),
    (2, None, None),
];

/// Nothing is done yet, and everyone sees the initial values.
const FRESH: &str = " a = 0 b = 0 L(x,0) L(y,0) \
R(1,x,0) R(1,y,0) R(2,x,0) R(2,y,0) \
P(x,0) P(y,0) A(1,x,0) A(1,y,0) A(2,x,0) A(2,y,0) \
C(1,x,0,x,0) C(1,x,0,y,0) C(1,y,0,x,0) C(1,y,0,y,0) \
C(2,x,0,x,0) C(2,x,0,y,0) C(2,y,0,x,0) C(2,y,0,y,0) \
N(1,x) N(1,y) N(2,x) N(2,y) O(1,x) O(1,y) O(2,x) O(2,y) F(1,x) F(1,y) F(2,x) F(2,y)";

/// The message is sent: position 1 has x = 1, which is flushed, and position 2 has y = 1. The receiver has seen nothing.
const SENT: &str = " a = 0 b = 0 L(x,1) L(y,1) \
R(1,x,1) R(1,y,1) R(2,x,0) R(2,x,1) R(2,y,0) R(2,y,1) \
P(x,1) P(y,0) P(y,1) A(1,x,1) A(1,y,0) A(1,y,1) A(2,x,1) A(2,y,0) A(2,y,1) \
C(1,x,1,x,1) C(1,x,1,y,1) C(1,y,1,x,1) C(1,y,1,y,1) \
C(2,x,0,x,0) C(2,x,0,x,1) C(2,x,0,y,0) C(2,x,0,y,1) C(2,x,1,x,1) C(2,x,1,y,0) C(2,x,1,y,1) \
C(2,y,0,x,0) C(2,y,0,x,1) C(2,y,0,y,0) C(2,y,0,y,1) C(2,y,1,x,1) C(2,y,1,y,1) \
N(1,x) N(1,y) O(1,x) O(1,y) F(1,x) F(1,y)";

/// The receiver has read y = 1 at position 2, so that it reads x = 1 too, and has begun to write y back.
const RECEIVED: &str = " a = 0 b = 1 L(x,1) L(y,1) \
R(1,x,1) R(1,y,1) R(2,x,1) R(2,y,1) \
P(x,1) P(y,0) P(y,1) A(1,x,1) A(1,y,0) A(1,y,1) A(2,x,1) A(2,y,1) \
C(1,x,1,x,1) C(1,x,1,y,1) C(1,y,1,x,1) C(1,y,1,y,1) \
C(2,x,1,x,1) C(2,x,1,y,1) C(2,y,1,x,1) C(2,y,1,y,1) \
N(1,x) N(1,y) N(2,x) N(2,y) O(1,x) O(1,y) O(2,x) O(2,y) F(1,x) F(1,y) F(2,x) F(2,y)";

/// Steps, and the atoms that hold after them.
static STATES: [(&[Line], &str); 3] = [(&[], FRESH), (&SENDS, SENT), (&PASSES, RECEIVED)];

/// The layout of the atoms over a program of two threads and two values.
pub fn layout_of(p: &Program) -> Result<Layout, Fail>
    ensures { IfOk result (λ l. l ≡ sizes p.now.names (length p.now.threads)) }
{
    if p.names().domain() != 2 || p.threads() != 2 {
        return Err(Fail::new("the program has another size"));
    }
    Ok(Layout::of(p.names(), p.threads()))
}

/// The atoms over the program that hold, each after a blank.
#[tactic(auto, using(crate::proofs::Atoms::names_of))]
fn held(alloc: Global, s: &State, p: &Program) -> Result<Vec<u8>, Fail>
    requires { IsWellFormed p.now s.now.state }
{
    let layout = layout_of(p)?;
    let mut text = Vec::new(alloc);
    for n in 1..layout.atoms() + 1 {
        let f = Formula::Atom(layout.atom(n));
        if holds(s, p, &f) {
            text.push(b' ')?;
            print_formula(&f, p.names(), &mut text)?;
        }
    }
    Ok(text)
}

/// Passes where after these steps just these atoms hold.
pub fn hold_behind(alloc: Global, p: &Program, lines: &[Line], atoms: &str) -> Result<(), Fail> {
    let state = behind(alloc, p, lines)?;
    let found = held(alloc, &state, p)?;
    agree(found.as_slice(), atoms.as_bytes(), b"the steps")
}

#[test]
fn atoms_hold(rt: HostRuntime) -> Result<(), Fail> {
    let alloc = rt.alloc();
    on(alloc, MESSAGE, |o| {
        for (lines, atoms) in STATES {
            hold_behind(alloc, o.program(), lines, atoms)?;
        }
        Ok(())
    })
}

/// A cas of each outcome, a test, and a store of an expression.
const JUDGED: &[u8] =
    b"pierogi 1; values 3; location x = 0; register a of 1; thread 1 { [true] a := cas(x, 0, 2); [true] a := cas(x, 2 + 2, 1); [true] if a = 2 { [true] x := a + 2; } [true] } thread 2 { [true] }";

/// The first cas succeeds, the second one reads the new value and fails, the test holds, and the sum is stored.
const CHANGES: [Line; 4] = [
    (1, None, None),
    (1, Some(1), None),
    (1, None, None),
    (1, None, None),
];

/// The atoms of each of these steps beside those of its two sides: the value that it stores or assigns, that which a cas
/// expects, whether a cas succeeds, and whether a test holds.
static CHANGED: [&str; 4] = [" K(2) E(0) S", " K(1) E(1)", " T", " K(1)"];

/// The values that a step may store and expect.
const STORED: [&str; 3] = [" K(0)", " K(1)", " K(2)"];

const EXPECTED: [&str; 3] = [" E(0)", " E(1)", " E(2)"];

/// A step: the states before it and after it, and its event.
#[derive(Drop)]
struct Change {
    before: State,
    after: State,
    event: Event,
}

/// The step after so many of the changes.
fn change_after(alloc: Global, p: &Program, count: usize) -> Result<Change, Fail>
    requires { count < 4 }
    ensures { IfOk result (λ c. IsWellFormed p.now c.before.state × IsWellFormed p.now c.after.state × HasThread p.now c.event) }
{
    let (thread, choice, _) = CHANGES[count];
    let before = behind(alloc, p, &CHANGES[..count])?;
    let after = behind(alloc, p, &CHANGES[..count + 1])?;
    if thread < 1 || thread > u32::from(p.threads()) {
        return Err(Fail::new("there is no such thread"));
    }
    Ok(Change {
        before,
        after,
        event: Event { thread, choice },
    })
}

/// The atoms that hold of a step, beside those of its sides, each after a blank.
fn atoms_of(alloc: Global, p: &Program, change: &Change) -> Result<String, Fail>
    requires values { p.now.names.domain ≡ 3 }
    requires before { IsWellFormed p.now change.now.before.state }
    requires after { IsWellFormed p.now change.now.after.state }
    requires thread { HasThread p.now change.now.event }
{
    let (before, after, event) = (&change.before, &change.after, change.event);
    let mut text = String::new(alloc);
    for v in 0..3 {
        if holds_step_atom(p, event, before, after, &StepAtom::Value { v }) {
            text.push_str(STORED[usize::from(v)])?;
        }
    }
    for v in 0..3 {
        if holds_step_atom(p, event, before, after, &StepAtom::Expected { v }) {
            text.push_str(EXPECTED[usize::from(v)])?;
        }
    }
    if holds_step_atom(p, event, before, after, &StepAtom::Success) {
        text.push_str(" S")?;
    }
    if holds_step_atom(p, event, before, after, &StepAtom::Taken) {
        text.push_str(" T")?;
    }
    Ok(text)
}

/// Those of the step after so many of the changes.
fn atoms_of_change(alloc: Global, p: &Program, count: usize) -> Result<String, Fail>
    requires { count < 4 }
{
    if p.names().domain() != 3 {
        return Err(Fail::new("the program has another domain"));
    }
    let change = change_after(alloc, p, count)?;
    atoms_of(alloc, p, &change)
}

#[test]
fn steps_have_their_atoms(rt: HostRuntime) -> Result<(), Fail> {
    let alloc = rt.alloc();
    on(alloc, JUDGED, |o| {
        for (count, atoms) in CHANGED.iter().enumerate() {
            let found = atoms_of_change(alloc, o.program(), count)?;
            agree(found.as_str(), *atoms, JUDGED)?;
        }
        Ok(())
    })
}

/// Positions of x and y, and the fault that a crash has with them once x is flushed and y is not written yet.
static REFUSED: [(&[u32], CrashFault); 5] = [
    (
        &[1],
        CrashFault::WrongLength {
            given: 1,
            wanted: 2,
        },
    ),
    (
        &[0, 0],
        CrashFault::Overwritten {
            x: 0,
            position: 0,
            later: 1,
        },
    ),
    (
        &[0, 9],
        CrashFault::Overwritten {
            x: 0,
            position: 0,
            later: 1,
        },
    ),
    (&[2, 0], CrashFault::NotAPosition { x: 0, position: 2 }),
    (&[1, 1], CrashFault::NotAPosition { x: 1, position: 1 }),
];

/// The store and the flush of the sender.
const FLUSHES: [Line; 2] = [(1, None, None), (1, None, None)];

/// What a crash at these positions leaves after these steps, or its fault.
pub fn crashed(
    alloc: Global,
    p: &Program,
    lines: &[Line],
    at: &[u32],
) -> Result<Result<Nvm, CrashFault>, Fail>
    ensures { IfOk result (λ r. IfOk r (λ n. length n ≡ length p.now.names.locations)) }
{
    let state = behind(alloc, p, lines)?;
    if at.len() >= 4294967296 {
        return Err(Fail::new("there are too many positions"));
    }
    Ok(crash(alloc, &state, p, at))
}

#[test]
fn crashes_have_faults(rt: HostRuntime) -> Result<(), Fail> {
    let alloc = rt.alloc();
    on(alloc, MESSAGE, |o| {
        for (at, fault) in &REFUSED {
            let found = crashed(alloc, o.program(), &FLUSHES, *at)?.err();
            agree(found, Some(*fault), MESSAGE)?;
        }
        Ok(())
    })
}

/// Two stores of one thread, of which nothing is flushed.
const UNFLUSHED: &[u8] =
    b"pierogi 1; values 2; location x = 0; location y = 0; thread 1 { [true] x := 1; [true] y := 1; [true] }";

const STORES: [Line; 2] = [(1, None, None), (1, None, None)];

/// Positions of x and y, the values that a crash leaves at them after both stores, and whether x is written if y is.
static LEFT: [(&[u32], (u8, u8, bool)); 4] = [
    (&[0, 0], (0, 0, true)),
    (&[1, 0], (1, 0, true)),
    (&[0, 2], (0, 1, false)),
    (&[1, 2], (1, 1, true)),
];

/// `y = 1 -> x = 1`
fn y_after_x(alloc: Global) -> Result<Formula<CrashAtom>, Fail>
    ensures { IfOk result (λ f. AllAtoms (IsCrashAtom 2 2) (plain f)) }
{
    let x = Formula::Atom(CrashAtom::Location { x: 0, v: 1 });
    let y = Formula::Atom(CrashAtom::Location { x: 1, v: 1 });
    Ok(Formula::implies(alloc, y, x)?)
}

/// The values of x and y that a crash leaves after both stores, and whether x is written if y is.
fn left(alloc: Global, p: &Program, at: &[u32]) -> Result<(u8, u8, bool), Fail> {
    if p.names().locations() != 2 {
        return Err(Fail::new("there are other locations"));
    }
    let memory = crashed(alloc, p, &STORES, at)??;
    let is_ordered = holds_crash(&memory, &[0, 0], &y_after_x(alloc)?);
    Ok((memory.value(0), memory.value(1), is_ordered))
}

#[test]
fn crashes_leave_memories(rt: HostRuntime) -> Result<(), Fail> {
    let alloc = rt.alloc();
    on(alloc, UNFLUSHED, |o| {
        for (at, wanted) in &LEFT {
            agree(left(alloc, o.program(), *at)?, *wanted, UNFLUSHED)?;
        }
        Ok(())
    })
}
