//! Programs that are built: their statements and steps, and the values of their expressions.

use crate::steps::{Line, behind};
use pg_cases::{agree, between, on};
use pg_program::{Act, Branch, PointId, Program, Stmt};
use std::alloc::{AllocError, Global};
use std::test::Fail;

const DECLARED: &[u8] = b"pierogi 1; values 2; location x = 0; register p of 1; thread 1 { ";

/// The body of thread 1, and of a second one, with the letter of the statement at each point, a stop at an end, and the steps
/// from it: thread, point, `>` for a statement, `+` where a test holds and `-` where it does not, and target.
static GRAPHS: [(&[u8], &str); 15] = [
    (b"[true]", "."),
    (b"[true] x := 0; [true] x := 1; [true]", "s1.1>2 s1.2>3 ."),
    (
        b"[true] if p = 0 { [true] x := 0; } else { } [true] x := 0; [true]",
        "i1.1+2 1.1-3 s1.2>3 s1.3>4 .",
    ),
    (
        b"[true] if p = 0 { [true] x := 0; } else { [true] x := 0; } [true]",
        "i1.1+2 1.1-3 s1.2>4 s1.3>4 .",
    ),
    (b"[true] if p = 0 { } else { } [true]", "i1.1+2 1.1-2 ."),
    (
        b"[true] if p = 0 { } else { } [true] x := 0; [true]",
        "i1.1+2 1.1-2 s1.2>3 .",
    ),
    (
        b"[true] if p = 0 { } else { [true] x := 0; } [true] x := 0; [true]",
        "i1.1+3 1.1-2 s1.2>3 s1.3>4 .",
    ),
    (b"[true] while p = 0 { } [true]", "w1.1+1 1.1-2 ."),
    (
        b"[true] while p = 0 { [true] x := 0; [true] x := 1; } [true] x := 0; [true]",
        "w1.1+2 1.1-4 s1.2>3 s1.3>1 s1.4>5 .",
    ),
    (
        b"[true] while p = 0 { [true] if p = 0 { [true] x := 0; } else { } } [true]",
        "w1.1+2 1.1-4 i1.2+3 1.2-1 s1.3>1 .",
    ),
    (
        b"[true] if p = 0 { [true] if p = 0 { [true] x := 0; } else { [true] x := 0; } } else { [true] while p = 0 { } } [true] x := 0; [true]",
        "i1.1+2 1.1-5 i1.2+3 1.2-4 s1.3>6 s1.4>6 w1.5+5 1.5-6 s1.6>7 .",
    ),
    (
        b"[true] if p = 0 { [true] while p = 0 { } } else { } [true]",
        "i1.1+2 1.1-3 w1.2+2 1.2-3 .",
    ),
    (
        b"[true] while p = 0 { [true] x := 0; [true] while p = 0 { [true] x := 1; } } [true] x := 0; [true]",
        "w1.1+2 1.1-5 s1.2>3 w1.3+4 1.3-1 s1.4>3 s1.5>6 .",
    ),
    (
        b"[true] if p = 0 { [true] if p = 0 { [true] if p = 0 { [true] x := 0; } } } [true]",
        "i1.1+2 1.1-5 i1.2+3 1.2-5 i1.3+4 1.3-5 s1.4>5 .",
    ),
    (
        b"[true] x := 0; [true] } thread 2 { [true] while 0 = 0 { } [true]",
        "s1.1>2 . w2.1+1 2.1-2 .",
    ),
];

/// The letter of a statement, between `<` and `>` where it has a bracket, or a stop at the end.
fn letter(stmt: Option<&Stmt>) -> &'static str {
    let Some(stmt) = stmt else {
        return ".";
    };
    match (&stmt.act, stmt.aux.is_empty()) {
        (Act::If { .. }, _) => "i",
        (Act::While { .. }, _) => "w",
        (Act::Store { .. }, true) => "s",
        (Act::Store { .. }, false) => "<s>",
        (Act::Load { .. }, true) => "r",
        (Act::Load { .. }, false) => "<r>",
        _ => "o",
    }
}

fn sign(branch: Branch) -> &'static str {
    match branch {
        Branch::Plain => ">",
        Branch::Yes => "+",
        Branch::No => "-",
    }
}

/// The statements and steps of a program, as in the table.
pub fn shown(alloc: Global, p: &Program) -> Result<String, Fail> {
    let mut text = String::new(alloc);
    for thread in 1..p.threads() + 1 {
        for point in 1..p.points(thread) + 1 {
            let at = PointId { thread, point };
            text.push_str(letter(p.stmt(at)))?;
            for step in p.steps(at) {
                let sign = sign(step.branch);
                text.push_str(&format!(in alloc;
                    "{}.{}{sign}{} ",
                    step.thread, step.point, step.target
                )?)?;
            }
        }
        text.push_str(" ")?;
    }
    Ok(text)
}

#[test]
fn programs_have_their_steps(rt: HostRuntime) -> Result<(), Fail> {
    let alloc = rt.alloc();
    for (body, graph) in &GRAPHS {
        let text = between(alloc, DECLARED, *body, b" }")?;
        let found = on(alloc, &text, |o| shown(alloc, o.program()))?;
        agree(found.as_str().trim_end(), *graph, &text)?;
    }
    Ok(())
}

/// Expressions over p = 1, q = 0, r = 2 and s = 3, with their values modulo 4.
static VALUES: [(&[u8], u8); 10] = [
    (b"1", 1),
    (b"s", 3),
    (b"r + s", 1),
    (b"s + s", 2),
    (b"p - r", 3),
    (b"r - p", 1),
    (b"q - s", 1),
    (b"r * s", 2),
    (b"s * s", 1),
    (b"p - r * s + 3", 2),
];

const ASSIGNED: &[u8] =
    b"pierogi 1; values 4; register p of 1; register q of 1; register r of 1; register s of 1; register t of 1; register u of 1; register v of 1; thread 1 { [true] p := 1; [true] r := 2; [true] s := 3; [true] t := ";

/// All steps of such a program.
const STEPS: [Line; 7] = [(1, None, None); 7];

/// The text of a program that leaves in t the value of an expression, in u 1 where it is 2, and in v 1 where it is not.
fn text_of(alloc: Global, expr: &[u8]) -> Result<Vec<u8>, AllocError> {
    let front = between(alloc, ASSIGNED, expr, b"; [true] if ")?;
    let middle = between(alloc, &front, expr, b" = 2 { [true] u := 1; } [true] if ")?;
    between(alloc, &middle, expr, b" != 2 { [true] v := 1; } [true] }")
}

/// What the machine leaves in t, u and v.
fn left(alloc: Global, p: &Program) -> Result<Option<(u8, u8, u8)>, Fail> {
    let state = behind(alloc, p, &STEPS)?;
    match state.scalars() {
        [_, _, _, _, t, u, v] => Ok(Some((*t, *u, *v))),
        _ => Ok(None),
    }
}

#[test]
fn expressions_have_their_values(rt: HostRuntime) -> Result<(), Fail> {
    let alloc = rt.alloc();
    for (expr, value) in &VALUES {
        let text = text_of(alloc, *expr)?;
        let found = on(alloc, &text, |o| left(alloc, o.program()))?;
        let is_two = u8::from(*value == 2);
        agree(found, Some((*value, is_two, 1 - is_two)), *expr)?;
    }
    Ok(())
}
