//! Made outlines: their text, how many obligations they have, and that each of these is closed at its root.

ghost use Rattle.std.specs.Prelude.{◌≤◌};
ghost use Rattle.pg_made.specs.Limits.{most_statements};

use crate::derived::text_of;
use crate::trees::is_answered;
use pg_cases::{agree, on};
use pg_made::{MOST_STATEMENTS, made};
use pg_obligations::Obligations;
use pg_outline::Outline;
use pg_outline_text::{VERSION, print_outline};
use std::alloc::Global;
use std::test::Fail;

/// A made outline by the number of its statements, its text, unless it is long, the number of its obligations, and the answer to its
/// derivation.
struct Case {
    statements: u32,
    text: &'static [u8],
    obligations: u32,
    answer: &'static str,
}

static CASES: [Case; 4] = [
    Case {
        statements: 1,
        text: b"pierogi 1;\nvalues 2;\nlocation x = 0;\nlocation y = 0;\npre !P(y,1);\ncrash y = 1 -> x = 1;\n\
thread 1 {\n  [true]\n  x := 1;\n  [!R(1,x,0)]\n}\n\
thread 2 {\n  [true]\n  x := 1;\n  [!R(2,x,0)]\n}\n",
        obligations: 12,
        answer: "proved 12",
    },
    Case {
        statements: 2,
        text: b"",
        obligations: 24,
        answer: "proved 24",
    },
    Case {
        statements: 4,
        text: b"pierogi 1;\nvalues 2;\nlocation x = 0;\nlocation y = 0;\npre !P(y,1);\ncrash y = 1 -> x = 1;\n\
thread 1 {\n  [true]\n  x := 1;\n  [!R(1,x,0)]\n  flush x;\n  [!P(x,0)]\n  y := 1;\n  [!P(x,0)]\n  x := 1;\n  [!P(x,0)]\n}\n\
thread 2 {\n  [true]\n  x := 1;\n  [!R(2,x,0)]\n  flush x;\n  [!P(x,0)]\n  y := 1;\n  [!P(x,0)]\n  x := 1;\n  [!P(x,0)]\n}\n",
        obligations: 60,
        answer: "proved 60",
    },
    Case {
        statements: 15,
        text: b"",
        obligations: 544,
        answer: "proved 544",
    },
];

/// The canonical text of an outline.
fn printed(alloc: Global, o: &Outline) -> Result<Vec<u8>, Fail> {
    if o.program().names().version() != VERSION {
        return Err(Fail::new("the outline is of another version"));
    }
    Ok(print_outline(alloc, o)?)
}

/// Passes where the text of an outline is this one, unless that is empty, and stands for the outline again.
fn is_spelled(alloc: Global, o: &Outline, wanted: &[u8]) -> Result<(), Fail> {
    let text = printed(alloc, o)?;
    if !wanted.is_empty() {
        agree(text.as_slice(), wanted, wanted)?;
    }
    let again = on(alloc, &text, |o| printed(alloc, o))?;
    agree(again.as_slice(), text.as_slice(), wanted)
}

/// Passes where an outline is as is wanted.
fn is_as_wanted(alloc: Global, o: &Outline, case: &Case) -> Result<(), Fail> {
    is_spelled(alloc, o, case.text)?;
    agree(Obligations::of(o).count(), case.obligations, case.text)?;
    let derivation = text_of(alloc, o, 1, b"")?;
    is_answered(alloc, o, &derivation, case.answer)
}

/// Passes where the made outline of a case is as is wanted.
fn is_made(alloc: Global, case: &Case) -> Result<(), Fail>
    requires { (1 ≤ case.now.statements) × (case.now.statements ≤ most_statements) }
{
    let o = made(alloc, case.statements)?;
    is_as_wanted(alloc, &o, case)
}

#[test]
fn outlines_are_made(rt: HostRuntime) -> Result<(), Fail> {
    for case in &CASES {
        if case.statements < 1 || case.statements > MOST_STATEMENTS {
            return Err(Fail::new("there is no such outline"));
        }
        is_made(rt.alloc(), case)?;
    }
    Ok(())
}
