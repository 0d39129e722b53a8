//! The access rules of steps, in regions of exactly their size: the first of them by their numbers, how many each statement
//! has, and the longest step.

use crate::given::{fills, has};
use crate::steps::{BESIDE, Case, G, MANY, R, X, Y, first_step, layout_of};
use pg_cases::{Parts, on_program};
use pg_program::Program;
use pg_rules_access::access_rules;
use std::alloc::Global;
use std::test::Fail;

/// A cas with as many assignments in its bracket as a text may have, where each expression reads as many scalars as it may.
const LONGEST: &[u8] = b"[true] r := cas(x, r + s + t + u, r + s + t + u) \
< g := r + g + h + i, h := r + g + h + i, i := r + g + h + i, j := r + g + h + i >; [true]";

/// Each statement over two values, x, r and two threads, where a frame has 2 clauses of 2 literals; a store where there is
/// a second location; a cas with a bracket; and the longest steps of both versions. The clauses are those of the
/// values, the scalars, the bracket, L, R, C, N, O and F, and the literals go by the same parts.
static CASES: [Case; 15] = [
    // 3 + 4 + 0 + 4 + 8 + 16 + 4 + 4 + 4; 5 + 8 + 0 + 8 + 16 + 32 + 8 + 8 + 8
    Case {
        of: Parts {
            names: &[X, R],
            declared: 2,
            values: 2,
            threads: 2,
            text: b"[true] r := 1; [true]",
        },
        clauses: 47,
        literals: 93,
    },
    // 3 + 4 + 0 + 4 + (4 + 6) + (4 + 6 + 20) + 2 + 2 + 2; 5 + 8 + 0 + 8 + (8 + 14) + (8 + 14 + 58) + 2 + 2 + 2
    Case {
        of: Parts {
            names: &[X, R],
            declared: 2,
            values: 2,
            threads: 2,
            text: b"[true] x := 1; [true]",
        },
        clauses: 57,
        literals: 129,
    },
    // One clause more than that: a value for each of r.
    Case {
        of: Parts {
            names: &[X, R],
            declared: 2,
            values: 2,
            threads: 2,
            text: b"[true] x := r; [true]",
        },
        clauses: 58,
        literals: 132,
    },
    // 0 + 2 + 0 + 4 + (8 + 4) + (8 + 8) + 4 + 4 + 4; 0 + 4 + 0 + 8 + (22 + 8) + (20 + 16) + 9 + 9 + 9
    Case {
        of: Parts {
            names: &[X, R],
            declared: 2,
            values: 2,
            threads: 2,
            text: b"[true] r := x; [true]",
        },
        clauses: 46,
        literals: 105,
    },
    // 8 + 10 + 0 + 8 + (10 + 10) + (6 + 8 + 28) + 6 + 6 + 5; 16 + 32 + 0 + 24 + (34 + 32) + (18 + 26 + 102) + 16 + 16 + 13
    Case {
        of: Parts {
            names: &[X, R],
            declared: 2,
            values: 2,
            threads: 2,
            text: b"[true] r := cas(x, 0, 1); [true]",
        },
        clauses: 105,
        literals: 329,
    },
    // 0 + 4 + 0 + 4 + (2 + 4) + (4 + 8) + 4 + 4 + 4, of 2 literals each
    Case {
        of: Parts {
            names: &[X, R],
            declared: 2,
            values: 2,
            threads: 2,
            text: b"[true] mfence; [true]",
        },
        clauses: 38,
        literals: 76,
    },
    // 0 + 4 + 0 + 4 + 8 + 16 + 4 + 4 + 4, of 2 literals each
    Case {
        of: Parts {
            names: &[X, R],
            declared: 2,
            values: 2,
            threads: 2,
            text: b"[true] sfence; [true]",
        },
        clauses: 44,
        literals: 88,
    },
    Case {
        of: Parts {
            names: &[X, R],
            declared: 2,
            values: 2,
            threads: 2,
            text: b"[true] flush x; [true]",
        },
        clauses: 44,
        literals: 88,
    },
    Case {
        of: Parts {
            names: &[X, R],
            declared: 2,
            values: 2,
            threads: 2,
            text: b"[true] flushopt x; [true]",
        },
        clauses: 44,
        literals: 88,
    },
    // The same, and whether the test holds: a clause for each value of r, and one for the branch.
    Case {
        of: Parts {
            names: &[X, R],
            declared: 2,
            values: 2,
            threads: 2,
            text: b"[true] if r = 0 { } else { } [true]",
        },
        clauses: 47,
        literals: 93,
    },
    // 3 + 0 + 0 + 8 + (8 + 10) + (42 + 60) + 6 + 6 + 5; 5 + 0 + 0 + 16 + (16 + 22) + (94 + 162) + 10 + 10 + 7
    Case {
        of: Parts {
            names: &[X, Y],
            declared: 2,
            values: 2,
            threads: 2,
            text: b"[true] x := 1; [true]",
        },
        clauses: 148,
        literals: 342,
    },
    // That store, where y stands on the line of x: one clause of one literal in place of the frame of O(1,y).
    Case {
        of: Parts {
            names: &[X, BESIDE],
            declared: 2,
            values: 2,
            threads: 2,
            text: b"[true] x := 1; [true]",
        },
        clauses: 147,
        literals: 339,
    },
    // As without a bracket, and a value of g for each of r.
    Case {
        of: Parts {
            names: &[X, R, G],
            declared: 3,
            values: 2,
            threads: 2,
            text: b"[true] r := cas(x, 0, 1) < g := r >; [true]",
        },
        clauses: 107,
        literals: 333,
    },
    // Over 4 values, 16 scalars, 6 locations and 4 threads: 530 + 108 + 1024 + 56 + (168 + 180) + (2280 + 5616) + 57 + 57 + 56;
    // 2604 + 240 + 5120 + 128 + (600 + 432) + (7392 + 16116) + 132 + 132 + 134
    Case {
        of: Parts {
            names: &MANY,
            declared: 22,
            values: 4,
            threads: 4,
            text: LONGEST,
        },
        clauses: 10_132,
        literals: 33_030,
    },
    // Over 6 values, 16 scalars, 8 locations and 4 threads: 2630 + 162 + 5184 + 108 + (432 + 342) + (9168 + 20412) + 75 + 75 + 74;
    // 13050 + 360 + 25920 + 240 + (1584 + 792) + (29760 + 55710) + 172 + 172 + 176
    Case {
        of: Parts {
            names: &MANY,
            declared: 24,
            values: 6,
            threads: 4,
            text: LONGEST,
        },
        clauses: 38_662,
        literals: 127_936,
    },
];

/// Passes where the access rules of the first step fill a region of their size.
fn fit(alloc: Global, p: &Program, case: &Case) -> Result<(), Fail> {
    let layout = layout_of(p)?;
    let step = first_step(p)?;
    fills(
        alloc,
        (case.literals, case.clauses),
        |region| access_rules(p, &layout, &step, region),
        case.of.text,
    )
}

#[test]
fn rules_fill_a_region_of_their_size(rt: HostRuntime) -> Result<(), Fail> {
    let alloc = rt.alloc();
    for case in &CASES {
        on_program(alloc, &case.of, |p| fit(alloc, p, case))?;
    }
    Ok(())
}

/// The rules of a program's first step: how many there are, and of some of them behind others the numbers of their atoms, below zero
/// for an atom that is not to hold.
struct Numbered {
    case: Case,
    behind: u32,
    count: u32,
    wanted: &'static str,
}

static NUMBERED: [Numbered; 2] = [
    // A store of 1 to x, which is all that there is beside two values and a thread. The atoms before the step are L(x,0) and L(x,1),
    // which are 1 and 2, two each of R, P and A, four of C, N, O and F; those after it begin at 16; K(0) and K(1) are 31 and 32.
    // There are 3 + 4 + 4 + 10 + 1 + 1 + 1 clauses of the values, L, R, C, N, O and F, with 5 + 8 + 8 + 22 + 1 + 1 + 1 literals.
    // The first of them are `=> K(1)`, `=> K(0) | K(1)`, `K(0) & K(1) =>`, `L'(x,0) => K(0)`, `K(0) => L'(x,0)`, and the last two of
    // L'(x,1).
    Numbered {
        case: Case {
            of: Parts {
                names: &[X],
                declared: 1,
                values: 2,
                threads: 1,
                text: b"[true] x := 1; [true]",
            },
            clauses: 24,
            literals: 46,
        },
        behind: 0,
        count: 7,
        wanted: "32; 31 32; -31 -32; -16 31; -31 16; -17 32; -32 17; ",
    },
    // An auxiliary g takes the value of the register r behind a cas. The atoms before the step are r = 0 and r = 1, which are 1 and
    // 2, those of g, of L, R, P and A, two each, four of C, N, O and F; those after it begin at 20. There are 8 + 10 + 2 + 8 + 10 + 14 + 3 + 3 + 2 clauses, with
    // 16 + 32 + 4 + 24 + 34 + 44 + 8 + 8 + 5 literals.
    // Those of the bracket, behind 8 of the values and 10 of r, are `r' = 0 => g' = 0` and `r' = 1 => g' = 1`.
    Numbered {
        case: Case {
            of: Parts {
                names: &[R, G, X],
                declared: 3,
                values: 2,
                threads: 1,
                text: b"[true] r := cas(x, 0, 1) < g := r >; [true]",
            },
            clauses: 60,
            literals: 175,
        },
        behind: 18,
        count: 2,
        wanted: "-20 22; -21 23; ",
    },
];

/// Passes where some of the access rules of the first step are the ones that are wanted.
fn have(alloc: Global, p: &Program, row: &Numbered) -> Result<(), Fail> {
    let layout = layout_of(p)?;
    let step = first_step(p)?;
    has(
        alloc,
        |region| access_rules(p, &layout, &step, region),
        (row.behind, row.count),
        row.wanted,
    )
}

#[test]
fn rules_are_clauses_over_numbers(rt: HostRuntime) -> Result<(), Fail> {
    let alloc = rt.alloc();
    for row in &NUMBERED {
        on_program(alloc, &row.case.of, |p| {
            fit(alloc, p, &row.case)?;
            have(alloc, p, row)
        })?;
    }
    Ok(())
}
