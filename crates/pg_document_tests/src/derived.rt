//! Derivations as they are written, read again and checked.

use crate::outlines::{
    BRANCHED, BUFFERED, FENCED, FLUSHED, FORGOTTEN, HASTY, LARGE, MARKED, NOTHING, PASSED, RAISED,
    SHARED, SPLIT, STALE, STORED, UNFENCED, UNFLUSHED, WAITING,
};
use crate::trees::is_answered;
use pg_cases::{between, on};
use pg_derive::derive;
use pg_io::QuietSink;
use pg_judge::MAX_BUDGET;
use pg_outline::Outline;
use std::alloc::Global;
use std::test::Fail;

/// An outline and a budget of nodes, what is appended to the derivation that is written, and what the check of that answers.
struct Case {
    outline: &'static [u8],
    budget: u32,
    end: &'static [u8],
    answer: &'static str,
}

/// Outlines that are accepted; and with the last line appended, those that are rejected and those whose budget is spent, where each
/// obligation before the one that is not closed has its tree.
static CASES: [Case; 20] = [
    Case {
        outline: NOTHING,
        budget: 1,
        end: b"",
        answer: "proved 3",
    },
    Case {
        outline: FLUSHED,
        budget: 1000,
        end: b"",
        answer: "proved 9",
    },
    Case {
        outline: UNFLUSHED,
        budget: 1000,
        end: b"end\n",
        answer: "no tree for obligation 7",
    },
    Case {
        outline: FENCED,
        budget: 1000,
        end: b"",
        answer: "proved 11",
    },
    Case {
        outline: UNFENCED,
        budget: 1000,
        end: b"end\n",
        answer: "no tree for obligation 9",
    },
    Case {
        outline: HASTY,
        budget: 1000,
        end: b"end\n",
        answer: "no tree for obligation 6",
    },
    Case {
        outline: PASSED,
        budget: 1000,
        end: b"",
        answer: "proved 24",
    },
    Case {
        outline: SHARED,
        budget: 1000,
        end: b"",
        answer: "proved 22",
    },
    Case {
        outline: FORGOTTEN,
        budget: 1000,
        end: b"end\n",
        answer: "no tree for obligation 11",
    },
    Case {
        outline: BUFFERED,
        budget: 1000,
        end: b"end\n",
        answer: "no tree for obligation 17",
    },
    Case {
        outline: WAITING,
        budget: 1000,
        end: b"",
        answer: "proved 7",
    },
    Case {
        outline: MARKED,
        budget: 1000,
        end: b"",
        answer: "proved 5",
    },
    Case {
        outline: SPLIT,
        budget: 3,
        end: b"",
        answer: "proved 3",
    },
    Case {
        outline: SPLIT,
        budget: 2,
        end: b"end\n",
        answer: "no tree for obligation 2",
    },
    Case {
        outline: LARGE,
        budget: 1,
        end: b"",
        answer: "proved 6",
    },
    Case {
        outline: BRANCHED,
        budget: 1000,
        end: b"",
        answer: "proved 43",
    },
    Case {
        outline: RAISED,
        budget: 5,
        end: b"",
        answer: "proved 5",
    },
    Case {
        outline: RAISED,
        budget: 4,
        end: b"end\n",
        answer: "no tree for obligation 4",
    },
    Case {
        outline: STORED,
        budget: 1000,
        end: b"",
        answer: "proved 5",
    },
    Case {
        outline: STALE,
        budget: 1000,
        end: b"end\n",
        answer: "no tree for obligation 4",
    },
];

/// The derivation that is written of an outline, and what is appended.
pub fn text_of(alloc: Global, o: &Outline, budget: u32, end: &[u8]) -> Result<Vec<u8>, Fail> {
    if budget < 1 || budget > MAX_BUDGET {
        return Err(Fail::new("there is no such budget"));
    }
    let mut out = QuietSink::make(alloc);
    derive(alloc, o, budget, &mut out)?;
    Ok(between(alloc, b"", out.bytes(), end)?)
}

/// Passes where the derivation of an outline has this answer.
fn is_derived(alloc: Global, o: &Outline, case: &Case) -> Result<(), Fail> {
    let text = text_of(alloc, o, case.budget, case.end)?;
    is_answered(alloc, o, &text, case.answer)
}

/// Passes where the derivation of each outline has its answer.
fn are_derived(alloc: Global, cases: &[Case]) -> Result<(), Fail> {
    for case in cases {
        on(alloc, case.outline, |o| is_derived(alloc, o, case))?;
    }
    Ok(())
}

#[test]
fn what_is_derived_is_checked(rt: HostRuntime) -> Result<(), Fail> {
    are_derived(rt.alloc(), &CASES)
}
