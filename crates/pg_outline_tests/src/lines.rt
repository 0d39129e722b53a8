//! Two locations on one cache line: the atoms that hold, and what crashes leave of them. A line persists as a whole.

ghost use Rattle.std.specs.Prelude.{map, IfOk};
ghost use Rattle.pg_program.specs.Program.{AreThreads};

use crate::meanings::{crashed, hold_behind};
use crate::steps::Line;
use pg_cases::{agree, thread};
use pg_program::{NameKind, Names, Program, Stmt, beside};
use pg_views::CrashFault;
use std::alloc::Global;
use std::test::Fail;

/// The first thread stores to y and flushes the line of x, which is that of y. The second one stores to x.
const FLUSHES: &[u8] = b"[true] y := 1; [true] flushopt x; [true] sfence; [true]";

const STORES: &[u8] = b"[true] x := 1; [true]";

/// Both stores, x first, then the flush, then the fence.
const STEPS: [Line; 4] = [
    (2, None, None),
    (1, None, None),
    (1, None, None),
    (1, None, None),
];

/// Both locations are written, and nothing is flushed. The store to y has the whole line in the coherence views of the first
/// thread, so that it covers x too.
const WRITTEN: &str = " L(x,1) L(y,1) \
R(1,x,0) R(1,x,1) R(1,y,1) R(2,x,1) R(2,y,0) R(2,y,1) \
P(x,0) P(x,1) P(y,0) P(y,1) \
A(1,x,0) A(1,x,1) A(1,y,0) A(1,y,1) A(2,x,0) A(2,x,1) A(2,y,0) A(2,y,1) \
C(1,x,0,x,0) C(1,x,0,x,1) C(1,x,0,y,1) C(1,x,1,x,1) C(1,x,1,y,1) C(1,y,1,x,0) C(1,y,1,x,1) C(1,y,1,y,1) \
C(2,x,1,x,1) C(2,x,1,y,0) C(2,x,1,y,1) C(2,y,0,x,1) C(2,y,0,y,0) C(2,y,0,y,1) C(2,y,1,x,1) C(2,y,1,y,1) \
N(1,y) N(2,x) O(1,x) O(1,y) O(2,x) F(1,x) F(1,y) F(2,x)";

/// The flush of x begins to write back what the first thread knows of the line: both stores.
const FLUSHED: &str = " L(x,1) L(y,1) \
R(1,x,0) R(1,x,1) R(1,y,1) R(2,x,1) R(2,y,0) R(2,y,1) \
P(x,0) P(x,1) P(y,0) P(y,1) \
A(1,x,1) A(1,y,1) A(2,x,0) A(2,x,1) A(2,y,0) A(2,y,1) \
C(1,x,0,x,0) C(1,x,0,x,1) C(1,x,0,y,1) C(1,x,1,x,1) C(1,x,1,y,1) C(1,y,1,x,0) C(1,y,1,x,1) C(1,y,1,y,1) \
C(2,x,1,x,1) C(2,x,1,y,0) C(2,x,1,y,1) C(2,y,0,x,1) C(2,y,0,y,0) C(2,y,0,y,1) C(2,y,1,x,1) C(2,y,1,y,1) \
N(1,y) N(2,x) O(1,x) O(1,y) O(2,x) F(1,x) F(1,y) F(2,x)";

/// The fence commits the line.
const COMMITTED: &str = " L(x,1) L(y,1) \
R(1,x,0) R(1,x,1) R(1,y,1) R(2,x,1) R(2,y,0) R(2,y,1) \
P(x,1) P(y,1) A(1,x,1) A(1,y,1) A(2,x,1) A(2,y,1) \
C(1,x,0,x,0) C(1,x,0,x,1) C(1,x,0,y,1) C(1,x,1,x,1) C(1,x,1,y,1) C(1,y,1,x,0) C(1,y,1,x,1) C(1,y,1,y,1) \
C(2,x,1,x,1) C(2,x,1,y,0) C(2,x,1,y,1) C(2,y,0,x,1) C(2,y,0,y,0) C(2,y,0,y,1) C(2,y,1,x,1) C(2,y,1,y,1) \
N(1,y) N(2,x) O(1,x) O(1,y) O(2,x) F(1,x) F(1,y) F(2,x)";

/// How many of the steps are taken, and the atoms that hold then.
static STATES: [(usize, &str); 3] = [(2, WRITTEN), (3, FLUSHED), (4, COMMITTED)];

/// Names of x and y, which stand on one line.
fn names(alloc: Global) -> Result<Names, Fail> {
    let mut names = Names::make(alloc, 2, 2);
    names.declare("x", NameKind::Location { init: 0 })?;
    names.declare("y", NameKind::LocationWith { init: 0 })?;
    Ok(names)
}

/// Both threads.
fn threads(alloc: Global, names: &Names) -> Result<Vec<Vec<Stmt>>, Fail>
    ensures { IfOk result (λ ts. AreThreads names.now (map (λ t. t.items) ts.items)) }
{
    let first = thread(alloc, names, FLUSHES)?;
    let (first, second) = beside(first, thread(alloc, names, STORES))?;
    Ok(vec![in alloc; first, second]?)
}

/// The program of these threads and names.
fn sharing(alloc: Global) -> Result<Program, Fail> {
    let names = names(alloc)?;
    let threads = threads(alloc, &names)?;
    Ok(Program::build(alloc, names, threads)?)
}

/// Passes where these atoms hold in the states of this program.
fn hold_so(alloc: Global, p: &Program) -> Result<(), Fail> {
    for (count, atoms) in &STATES {
        hold_behind(alloc, p, &STEPS[..*count], *atoms)?;
    }
    Ok(())
}

#[test]
fn atoms_speak_of_lines(rt: HostRuntime) -> Result<(), Fail> {
    let alloc = rt.alloc();
    let p = sharing(alloc)?;
    hold_so(alloc, &p)
}

/// Positions of x and y, and the values that a crash leaves at them after both stores, or its fault: the line is cut at the
/// greatest of the positions, whether or not it is a position of its location.
static CRASHES: [(&[u32], Result<(u8, u8), CrashFault>); 6] = [
    (&[0, 0], Ok((0, 0))),
    (&[1, 0], Ok((1, 0))),
    (&[1, 2], Ok((1, 1))),
    (
        &[0, 2],
        Err(CrashFault::Overwritten {
            x: 0,
            position: 0,
            later: 1,
        }),
    ),
    (
        &[0, 99],
        Err(CrashFault::Overwritten {
            x: 0,
            position: 0,
            later: 1,
        }),
    ),
    (
        &[1, 99],
        Err(CrashFault::NotAPosition { x: 1, position: 99 }),
    ),
];

/// The positions of the first store alone, once the fence has committed both.
const LOST: [u32; 2] = [1, 0];

/// The values of x and y that a crash leaves at these positions after the steps, or its fault.
fn left(
    alloc: Global,
    p: &Program,
    lines: &[Line],
    at: &[u32],
) -> Result<Result<(u8, u8), CrashFault>, Fail> {
    if p.names().locations() != 2 {
        return Err(Fail::new("there are other locations"));
    }
    match crashed(alloc, p, lines, at)? {
        Ok(memory) => Ok(Ok((memory.value(0), memory.value(1)))),
        Err(fault) => Ok(Err(fault)),
    }
}

/// Passes where crashes of this program cut the line as a whole.
fn cut_whole(alloc: Global, p: &Program) -> Result<(), Fail> {
    for (at, wanted) in &CRASHES {
        let found = left(alloc, p, &STEPS[..2], *at)?;
        agree(found == *wanted, true, b"a crash after both stores")?;
    }
    let found = left(alloc, p, &STEPS, &LOST)?;
    let fault = CrashFault::Overwritten {
        x: 1,
        position: 0,
        later: 2,
    };
    agree(found, Err(fault), b"a crash after the fence")
}

#[test]
fn a_line_persists_as_a_whole(rt: HostRuntime) -> Result<(), Fail> {
    let alloc = rt.alloc();
    let p = sharing(alloc)?;
    cut_whole(alloc, &p)
}
