//! Schedules on outlines: the trace of each, and what it shows.

use crate::outlines::{
    BUFFERED, FENCED, FLUSHED, NOTHING, PASSED, RAISED, READ_TWICE, SWAPPED, UNFLUSHED, WAITING,
};
use crate::schedules::schedule;
use pg_cases::{Pieces, agree, on, repeated};
use pg_io::QuietSink;
use pg_machine::StepFault;
use pg_outline::Outline;
use pg_program::PointId;
use pg_replay::{ReplayFault, Replayed, Violation, replay};
use pg_views::CrashFault;
use std::alloc::Global;
use std::test::Fail;

/// What a replay of a schedule answers.
type Answer = Result<Replayed, ReplayFault>;

/// A schedule, its trace, and the answer.
struct Case {
    schedule: &'static [u8],
    trace: &'static [u8],
    answer: Answer,
}

/// Schedules on an outline.
struct Group {
    outline: &'static [u8],
    cases: &'static [Case],
}

/// Assertions that do not hold behind the first store, and a crash formula that does not hold before it.
const BROKEN: &[u8] = b"pierogi 1; values 2; location x = 0; location y = 0; crash x = 1 & y = 0; \
thread 1 { [true] x := 1; [L(x,0)] y := 1; [L(x,0)] mfence; [true] }";

/// Assertions of the second and the third thread that do not hold in the fresh state.
const FALSE_AT_ONCE: &[u8] = b"pierogi 1; values 2; location x = 0; \
thread 1 { [true] x := 1; [false] } thread 2 { [L(x,1)] } thread 3 { [false] }";

/// An assertion that another thread makes false.
const FOREIGN: &[u8] = b"pierogi 1; values 2; location x = 0; \
thread 1 { [true] x := 1; [true] } thread 2 { [L(x,0)] }";

/// A precondition and a crash formula that do not hold.
const UNTESTED: &[u8] = b"pierogi 1; values 2; pre false; crash false; thread 1 { [true] }";

static GROUPS: [Group; 14] = [
    // The fresh state is line 1.
    Group {
        outline: NOTHING,
        cases: &[
            Case {
                schedule: b"schedule 1\n",
                trace: b"",
                answer: Ok(Replayed {
                    steps: 0,
                    first_violation: None,
                }),
            },
            Case {
                schedule: b"schedule 1\nstep 1\n",
                trace: b"",
                answer: Err(ReplayFault::Step {
                    line: 2,
                    fault: StepFault::Ended,
                }),
            },
            Case {
                schedule: b"schedule 1\nstep 2\n",
                trace: b"",
                answer: Err(ReplayFault::Step {
                    line: 2,
                    fault: StepFault::NoThread(2),
                }),
            },
        ],
    },
    // The precondition is not tested, and the crash formula on the lines of crashes alone.
    Group {
        outline: UNTESTED,
        cases: &[
            Case {
                schedule: b"schedule 1\n",
                trace: b"",
                answer: Ok(Replayed {
                    steps: 0,
                    first_violation: None,
                }),
            },
            Case {
                schedule: b"schedule 1\ncrash at\n",
                trace: b"2 crash\n",
                answer: Ok(Replayed {
                    steps: 0,
                    first_violation: Some(Violation::Crash { line: 2 }),
                }),
            },
        ],
    },
    // The threads are tested in their order.
    Group {
        outline: FALSE_AT_ONCE,
        cases: &[
            Case {
                schedule: b"schedule 1\n",
                trace: b"",
                answer: Ok(Replayed {
                    steps: 0,
                    first_violation: Some(Violation::Assertion {
                        line: 1,
                        at: PointId {
                            thread: 2,
                            point: 1,
                        },
                    }),
                }),
            },
            Case {
                schedule: b"schedule 1\n\n\nstep 1\n",
                trace: b"4 1.1 > 1.2 write 1 at 1\n",
                answer: Ok(Replayed {
                    steps: 1,
                    first_violation: Some(Violation::Assertion {
                        line: 1,
                        at: PointId {
                            thread: 2,
                            point: 1,
                        },
                    }),
                }),
            },
        ],
    },
    // What is stored second persists alone; and the same with lines that say nothing.
    Group {
        outline: UNFLUSHED,
        cases: &[
            Case {
                schedule: b"schedule 1\nstep 1\nstep 1\ncrash at 0 2\n",
                trace: b"2 1.1 > 1.2 write 1 at 1\n3 1.2 > 1.3 write 1 at 2\n4 crash x=0 y=1\n",
                answer: Ok(Replayed {
                    steps: 2,
                    first_violation: Some(Violation::Crash { line: 4 }),
                }),
            },
            Case {
                schedule: b"schedule 1\n# both stores\nstep 1\n\nstep 1\ncrash at 0 2\n",
                trace: b"3 1.1 > 1.2 write 1 at 1\n5 1.2 > 1.3 write 1 at 2\n6 crash x=0 y=1\n",
                answer: Ok(Replayed {
                    steps: 2,
                    first_violation: Some(Violation::Crash { line: 6 }),
                }),
            },
        ],
    },
    // Both threads read the old value of the location that the other one stores to.
    Group {
        outline: BUFFERED,
        cases: &[Case {
            schedule: b"schedule 1\nstep 1\nstep 1 at 1\nstep 2\nstep 2 at 2\nstep 2 at 0\nstep 1 at 0\n",
            trace: b"2 1.1 > 1.2 write 1 at 1\n3 1.2 > 1.3 read 1\n4 2.1 > 2.2 write 1 at 2\n5 2.2 > 2.3 read 1\n6 2.3 > 2.4 read 0\n7 1.3 > 1.4 read 0\n",
            answer: Ok(Replayed {
                steps: 6,
                first_violation: Some(Violation::Assertion {
                    line: 7,
                    at: PointId {
                        thread: 1,
                        point: 4,
                    },
                }),
            }),
        }],
    },
    // A cas that succeeds, and one that fails.
    Group {
        outline: SWAPPED,
        cases: &[
            Case {
                schedule: b"schedule 1\nstep 1\nstep 2\n",
                trace: b"2 1.1 > 1.2 write 1 at 1\n3 2.1 > 2.2 read 1 write 0 at 2\n",
                answer: Ok(Replayed {
                    steps: 2,
                    first_violation: None,
                }),
            },
            Case {
                schedule: b"schedule 1\nstep 1\nstep 2 at 0\n",
                trace: b"2 1.1 > 1.2 write 1 at 1\n3 2.1 > 2.2 read 0\n",
                answer: Ok(Replayed {
                    steps: 2,
                    first_violation: None,
                }),
            },
            Case {
                schedule: b"schedule 1\nstep 2\n",
                trace: b"",
                answer: Err(ReplayFault::Step {
                    line: 2,
                    fault: StepFault::CasNotLast(0),
                }),
            },
            Case {
                schedule: b"schedule 1\nstep 1\nstep 2 at 1\n",
                trace: b"2 1.1 > 1.2 write 1 at 1\n",
                answer: Err(ReplayFault::Step {
                    line: 3,
                    fault: StepFault::CasMustDiffer(1),
                }),
            },
        ],
    },
    Group {
        outline: RAISED,
        cases: &[Case {
            schedule: b"schedule 1\nstep 1\n",
            trace: b"2 1.1 > 1.2 read 0 write 1 at 1\n",
            answer: Ok(Replayed {
                steps: 1,
                first_violation: None,
            }),
        }],
    },
    // Positions that a load may not choose.
    Group {
        outline: READ_TWICE,
        cases: &[Case {
            schedule: b"schedule 1\nstep 1\nstep 2 at 1\nstep 2 at 0\n",
            trace: b"2 1.1 > 1.2 write 1 at 1\n3 2.1 > 2.2 read 1\n",
            answer: Err(ReplayFault::Step {
                line: 4,
                fault: StepFault::BelowCoherence {
                    position: 0,
                    coh: 1,
                },
            }),
        }],
    },
    Group {
        outline: PASSED,
        cases: &[
            Case {
                schedule: b"schedule 1\nstep 1\nstep 1\nstep 2 at 2\nstep 2 at 0\n",
                trace: b"2 1.1 > 1.2 write 1 at 1\n3 1.2 > 1.3 write 1 at 2\n4 2.1 > 2.2 read 1\n",
                answer: Err(ReplayFault::Step {
                    line: 5,
                    fault: StepFault::Hidden {
                        position: 0,
                        later: 1,
                    },
                }),
            },
            Case {
                schedule: b"schedule 1\nstep 1\nstep 2 at 1\n",
                trace: b"2 1.1 > 1.2 write 1 at 1\n",
                answer: Err(ReplayFault::Step {
                    line: 3,
                    fault: StepFault::NotAPosition(1),
                }),
            },
            Case {
                schedule: b"schedule 1\nstep 2\n",
                trace: b"",
                answer: Err(ReplayFault::Step {
                    line: 2,
                    fault: StepFault::ChoiceMissing,
                }),
            },
            Case {
                schedule: b"schedule 1\nstep 1 at 0\n",
                trace: b"",
                answer: Err(ReplayFault::Step {
                    line: 2,
                    fault: StepFault::NoChoice,
                }),
            },
        ],
    },
    // A test.
    Group {
        outline: WAITING,
        cases: &[Case {
            schedule: b"schedule 1\nstep 1\nstep 1\n",
            trace: b"2 1.1 > 1.1\n3 1.1 > 1.1\n",
            answer: Ok(Replayed {
                steps: 2,
                first_violation: None,
            }),
        }],
    },
    // Statements that neither read nor write.
    Group {
        outline: FENCED,
        cases: &[Case {
            schedule: b"schedule 1\nstep 1\nstep 1\nstep 1\nstep 1\n",
            trace: b"2 1.1 > 1.2 write 1 at 1\n3 1.2 > 1.3\n4 1.3 > 1.4\n5 1.4 > 1.5 write 1 at 2\n",
            answer: Ok(Replayed {
                steps: 4,
                first_violation: None,
            }),
        }],
    },
    // What a crash may leave, and what not.
    Group {
        outline: FLUSHED,
        cases: &[
            Case {
                schedule: b"schedule 1\nstep 1\nstep 1\nstep 1\ncrash at 1 0\ncrash at 1 2\n",
                trace: b"2 1.1 > 1.2 write 1 at 1\n3 1.2 > 1.3\n4 1.3 > 1.4 write 1 at 2\n5 crash x=1 y=0\n6 crash x=1 y=1\n",
                answer: Ok(Replayed {
                    steps: 3,
                    first_violation: None,
                }),
            },
            Case {
                schedule: b"schedule 1\nstep 1\ncrash at 0 0\nstep 1\ncrash at 0 0\n",
                trace: b"2 1.1 > 1.2 write 1 at 1\n3 crash x=0 y=0\n4 1.2 > 1.3\n",
                answer: Err(ReplayFault::Crash {
                    line: 5,
                    fault: CrashFault::Overwritten {
                        x: 0,
                        position: 0,
                        later: 1,
                    },
                }),
            },
            Case {
                schedule: b"schedule 1\nstep 1\ncrash at 0 1\n",
                trace: b"2 1.1 > 1.2 write 1 at 1\n",
                answer: Err(ReplayFault::Crash {
                    line: 3,
                    fault: CrashFault::NotAPosition { x: 1, position: 1 },
                }),
            },
            Case {
                schedule: b"schedule 1\ncrash at 0\n",
                trace: b"",
                answer: Err(ReplayFault::Crash {
                    line: 2,
                    fault: CrashFault::WrongLength {
                        given: 1,
                        wanted: 2,
                    },
                }),
            },
            Case {
                schedule: b"schedule 1\ncrash at 0 0 0\n",
                trace: b"",
                answer: Err(ReplayFault::Crash {
                    line: 2,
                    fault: CrashFault::WrongLength {
                        given: 3,
                        wanted: 2,
                    },
                }),
            },
        ],
    },
    // The first violation counts; the lines behind it are replayed, and one that is refused hides it.
    Group {
        outline: BROKEN,
        cases: &[
            Case {
                schedule: b"schedule 1\nstep 1\nstep 1\ncrash at 1 2\nstep 1\n",
                trace: b"2 1.1 > 1.2 write 1 at 1\n3 1.2 > 1.3 write 1 at 2\n4 crash x=1 y=1\n5 1.3 > 1.4\n",
                answer: Ok(Replayed {
                    steps: 3,
                    first_violation: Some(Violation::Assertion {
                        line: 2,
                        at: PointId {
                            thread: 1,
                            point: 2,
                        },
                    }),
                }),
            },
            Case {
                schedule: b"schedule 1\ncrash at 0 0\nstep 1\nstep 1\nstep 1\n",
                trace: b"2 crash x=0 y=0\n3 1.1 > 1.2 write 1 at 1\n4 1.2 > 1.3 write 1 at 2\n5 1.3 > 1.4\n",
                answer: Ok(Replayed {
                    steps: 3,
                    first_violation: Some(Violation::Crash { line: 2 }),
                }),
            },
            Case {
                schedule: b"schedule 1\nstep 1\nstep 2\n",
                trace: b"2 1.1 > 1.2 write 1 at 1\n",
                answer: Err(ReplayFault::Step {
                    line: 3,
                    fault: StepFault::NoThread(2),
                }),
            },
        ],
    },
    Group {
        outline: FOREIGN,
        cases: &[Case {
            schedule: b"schedule 1\nstep 1\n",
            trace: b"2 1.1 > 1.2 write 1 at 1\n",
            answer: Ok(Replayed {
                steps: 1,
                first_violation: Some(Violation::Assertion {
                    line: 2,
                    at: PointId {
                        thread: 2,
                        point: 1,
                    },
                }),
            }),
        }],
    },
];

/// Passes where an answer and its trace are those of a case.
fn is_shown(answer: Answer, trace: &[u8], case: &Case) -> Result<(), Fail> {
    agree(answer, case.answer, case.schedule)?;
    agree(trace, case.trace, case.schedule)
}

/// Passes where the replay of a case is as is wanted.
fn is_replayed(alloc: Global, o: &Outline, case: &Case) -> Result<(), Fail> {
    let s = schedule(alloc, case.schedule)?;
    let mut out = QuietSink::make(alloc);
    let answer = replay(alloc, o, &s, &mut out);
    is_shown(answer, out.bytes(), case)
}

/// Passes where each replay of a group is as is wanted.
fn are_replayed(alloc: Global, o: &Outline, group: &Group) -> Result<(), Fail> {
    for case in group.cases {
        is_replayed(alloc, o, case)?;
    }
    Ok(())
}

/// Passes where each replay of each group is as is wanted.
fn groups_are_replayed(alloc: Global, groups: &[Group]) -> Result<(), Fail> {
    for group in groups {
        on(alloc, group.outline, |o| are_replayed(alloc, o, group))?;
    }
    Ok(())
}

#[test]
fn schedules_are_replayed(rt: HostRuntime) -> Result<(), Fail> {
    groups_are_replayed(rt.alloc(), &GROUPS)
}

/// A loop that stores at every second step.
const FOREVER: &[u8] = b"pierogi 1; values 2; location x = 0; \
thread 1 { [true] while 0 = 0 { [true] x := 1; } [true] }";

/// One turn for each message that there may be, and one more.
const TURNS: Pieces = &[(1, b"schedule 1\n"), (65536, b"step 1\nstep 1\n")];

/// Passes where the last store is refused, behind these lines of the trace.
fn is_full(alloc: Global, o: &Outline, text: &[u8]) -> Result<(), Fail> {
    let s = schedule(alloc, text)?;
    let mut out = QuietSink::make(alloc);
    let answer = replay(alloc, o, &s, &mut out);
    let lines = b"131071 1.2 > 1.1 write 1 at 65535\n131072 1.1 > 1.2\n";
    agree(out.bytes().ends_with(lines), true, lines)?;
    let full = ReplayFault::Step {
        line: 131073,
        fault: StepFault::MessagesFull,
    };
    agree(answer, Err(full), FOREVER)
}

#[test]
fn messages_have_a_limit(rt: HostRuntime) -> Result<(), Fail> {
    let alloc = rt.alloc();
    let text = repeated(alloc, TURNS)?;
    on(alloc, FOREVER, |o| is_full(alloc, o, &text))
}
