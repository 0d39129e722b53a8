//! The persistency rules of statements: how many clauses and literals they have, and which clauses these are.

use crate::given::{fills, has};
use crate::steps::{BESIDE, Case, R, X, Y, first_step, layout_of};
use pg_cases::{Parts, on_program};
use pg_program::Program;
use pg_rules_persist::persist_rules;
use std::alloc::Global;
use std::test::Fail;

/// Statements of thread 1 over two locations x and y with two values, where each location has a line of its own or both stand on one
/// line. A frame is 2 clauses with 4 literals. Of a `flushopt x` the 4 atoms P and the atoms A(1,y,v) have frames, 8 and 4 clauses, and
/// the 2 atoms A(1,x,v) have 3 clauses each.
static CASES: [Case; 14] = [
    Case {
        of: Parts {
            names: &[X, Y, R],
            declared: 3,
            values: 2,
            threads: 1,
            text: b"[true] flushopt x; [true]",
        },
        clauses: 18,
        literals: 38,
    },
    Case {
        of: Parts {
            names: &[X, BESIDE, R],
            declared: 3,
            values: 2,
            threads: 1,
            text: b"[true] flushopt x; [true]",
        },
        clauses: 20,
        literals: 44,
    },
    Case {
        of: Parts {
            names: &[X, Y, R],
            declared: 3,
            values: 2,
            threads: 2,
            text: b"[true] flushopt x; [true]",
        },
        clauses: 26,
        literals: 54,
    },
    Case {
        of: Parts {
            names: &[X, Y, R],
            declared: 3,
            values: 2,
            threads: 1,
            text: b"[true] flush x; [true]",
        },
        clauses: 22,
        literals: 48,
    },
    Case {
        of: Parts {
            names: &[X, BESIDE, R],
            declared: 3,
            values: 2,
            threads: 1,
            text: b"[true] flush x; [true]",
        },
        clauses: 28,
        literals: 64,
    },
    Case {
        of: Parts {
            names: &[X, BESIDE, R],
            declared: 3,
            values: 2,
            threads: 2,
            text: b"[true] flush y; [true]",
        },
        clauses: 40,
        literals: 92,
    },
    Case {
        of: Parts {
            names: &[X, Y, R],
            declared: 3,
            values: 2,
            threads: 1,
            text: b"[true] sfence; [true]",
        },
        clauses: 16,
        literals: 32,
    },
    Case {
        of: Parts {
            names: &[X, Y, R],
            declared: 3,
            values: 2,
            threads: 2,
            text: b"[true] sfence; [true]",
        },
        clauses: 28,
        literals: 60,
    },
    Case {
        of: Parts {
            names: &[X, BESIDE, R],
            declared: 3,
            values: 2,
            threads: 2,
            text: b"[true] mfence; [true]",
        },
        clauses: 28,
        literals: 60,
    },
    Case {
        of: Parts {
            names: &[X, Y, R],
            declared: 3,
            values: 2,
            threads: 1,
            text: b"[true] x := 1; [true]",
        },
        clauses: 20,
        literals: 44,
    },
    Case {
        of: Parts {
            names: &[X, BESIDE, R],
            declared: 3,
            values: 2,
            threads: 2,
            text: b"[true] x := 1; [true]",
        },
        clauses: 30,
        literals: 66,
    },
    Case {
        of: Parts {
            names: &[X, Y, R],
            declared: 3,
            values: 2,
            threads: 1,
            text: b"[true] r := cas(x, 0, 1); [true]",
        },
        clauses: 28,
        literals: 80,
    },
    Case {
        of: Parts {
            names: &[X, Y, R],
            declared: 3,
            values: 2,
            threads: 2,
            text: b"[true] r := cas(x, 0, 1); [true]",
        },
        clauses: 48,
        literals: 144,
    },
    Case {
        of: Parts {
            names: &[X, BESIDE, R],
            declared: 3,
            values: 2,
            threads: 2,
            text: b"[true] r := x; [true]",
        },
        clauses: 24,
        literals: 48,
    },
];

/// Passes where the persistency rules of the first step fill a region of their size.
fn fit(alloc: Global, p: &Program, case: &Case) -> Result<(), Fail> {
    let layout = layout_of(p)?;
    let step = first_step(p)?;
    fills(
        alloc,
        (case.literals, case.clauses),
        |region| persist_rules(p, &layout, &step, region),
        case.of.text,
    )
}

#[test]
fn persistency_rules_fill_a_region_of_their_size(rt: HostRuntime) -> Result<(), Fail> {
    let alloc = rt.alloc();
    for case in &CASES {
        on_program(alloc, &case.of, |p| fit(alloc, p, case))?;
    }
    Ok(())
}

/// One location over two values, and no scalar. The atoms before a step are L(x,0) and L(x,1), 1 and 2; R(1,x,v), 3 and 4; P(x,v),
/// 5 and 6; A(1,x,v), 7 and 8; C, 9 to 12; N(1,x), 13; O(1,x), 14; and F(1,x), 15. Those after it come 15 later, and then K(0)
/// and K(1), 31 and 32.
fn single(text: &[u8]) -> Parts<'_> {
    Parts {
        names: &[X],
        declared: 1,
        values: 2,
        threads: 1,
        text,
    }
}

/// A statement, and its clauses: of P'(x,0), P'(x,1), A'(1,x,0) and A'(1,x,1).
static CLAUSES: [(&[u8], &str); 4] = [
    (
        b"[true] flush x; [true]",
        "-20 5; -20 3; -20 7; -15 -20 1; -21 6; -21 4; -21 8; -15 -21 2; -22 7; -22 20; -7 -20 22; -23 8; -23 21; -8 -21 23; ",
    ),
    (
        b"[true] flushopt x; [true]",
        "-20 5; -5 20; -21 6; -6 21; -22 7; -22 3; -14 -22 1; -23 8; -23 4; -14 -23 2; ",
    ),
    (
        b"[true] sfence; [true]",
        "-20 7; -7 20; -21 8; -8 21; -22 7; -7 22; -23 8; -8 23; ",
    ),
    (
        b"[true] x := 1; [true]",
        "-20 5 31; -5 20; -31 20; -21 6 32; -6 21; -32 21; -22 7 31; -7 22; -31 22; -23 8 32; -8 23; -32 23; ",
    ),
];

/// Passes where the persistency rules of the first step are the clauses that are wanted.
fn have(alloc: Global, p: &Program, wanted: &str) -> Result<(), Fail> {
    let layout = layout_of(p)?;
    let step = first_step(p)?;
    has(
        alloc,
        |region| persist_rules(p, &layout, &step, region),
        (0, 100),
        wanted,
    )
}

#[test]
fn persistency_rules_have_these_clauses(rt: HostRuntime) -> Result<(), Fail> {
    let alloc = rt.alloc();
    for (text, wanted) in &CLAUSES {
        on_program(alloc, &single(*text), |p| have(alloc, p, *wanted))?;
    }
    Ok(())
}
