//! The axioms of layouts, in regions of exactly their size.

use crate::given::fills;
use crate::steps::{Case, MANY, X, layout_of};
use pg_assertion::Side;
use pg_axioms::axioms;
use pg_cases::{Parts, on_program};
use pg_program::Program;
use std::alloc::Global;
use std::test::Fail;

/// A small layout, and the largest ones of version 1 and of version 2, with 16 scalars and 6 or 8 locations.
static CASES: [Case; 3] = [
    Case {
        of: Parts {
            names: &[X],
            declared: 1,
            values: 2,
            threads: 1,
            text: b"[true]",
        },
        clauses: 38,
        literals: 102,
    },
    Case {
        of: Parts {
            names: &MANY,
            declared: 22,
            values: 4,
            threads: 4,
            text: b"[true]",
        },
        clauses: 12_514,
        literals: 37_264,
    },
    Case {
        of: Parts {
            names: &MANY,
            declared: 24,
            values: 6,
            threads: 4,
            text: b"[true]",
        },
        clauses: 46_960,
        literals: 139_136,
    },
];

/// Passes where the axioms of a side fill a region of their size.
fn fit(alloc: Global, p: &Program, side: Side, case: &Case) -> Result<(), Fail> {
    let layout = layout_of(p)?;
    fills(
        alloc,
        (case.literals, case.clauses),
        |region| axioms(&layout, side, region),
        b"the axioms",
    )
}

#[test]
fn axioms_fill_a_region_of_their_size(rt: HostRuntime) -> Result<(), Fail> {
    let alloc = rt.alloc();
    for case in &CASES {
        on_program(alloc, &case.of, |p| {
            fit(alloc, p, Side::Before, case)?;
            fit(alloc, p, Side::After, case)
        })?;
    }
    Ok(())
}
