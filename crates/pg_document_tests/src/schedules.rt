//! Texts of schedules: the first fault of each that is none, and the canonical text of one that is.

use pg_cases::agree;
use pg_document::DocFault;
use pg_schedule::{Schedule, parse_schedule, print_schedule};
use std::alloc::Global;
use std::test::Fail;

/// The first fault of a text, if it has one.
fn fault_of(alloc: Global, text: &[u8]) -> Result<Option<DocFault>, Fail> {
    if text.len() >= 4294967296 {
        return Err(Fail::new("the text is too long"));
    }
    Ok(parse_schedule(alloc, text).err())
}

/// The schedule of a text that has no fault.
pub fn schedule(alloc: Global, text: &[u8]) -> Result<Schedule, Fail> {
    if text.len() >= 4294967296 {
        return Err(Fail::new("the text is too long"));
    }
    Ok(parse_schedule(alloc, text)?)
}

/// Texts that are no schedules, and the first fault of each.
static REFUSED: [(&[u8], DocFault); 44] = [
    // No line says anything.
    (b"", DocFault::Unexpected(0)),
    (b"\n \t\r\n", DocFault::Unexpected(5)),
    (b"# schedule 1\n", DocFault::Unexpected(13)),
    // The header stands on another line than the first.
    (b"\nschedule 1\n", DocFault::Unexpected(1)),
    (b"# first\nschedule 1\n", DocFault::Unexpected(8)),
    (b"\n  step 1\n", DocFault::Unexpected(3)),
    // The header.
    (b"step 1\n", DocFault::Unexpected(0)),
    (b"  schedules 1\n", DocFault::Unexpected(2)),
    (b"schedule1\n", DocFault::Unexpected(0)),
    (b"schedule", DocFault::Unexpected(8)),
    (b"schedule\n1\n", DocFault::Unexpected(8)),
    (b"schedule \t\r\nstep 1\n", DocFault::Unexpected(11)),
    (b"schedule x\n", DocFault::Unexpected(9)),
    (b"schedule -1\n", DocFault::Unexpected(9)),
    (b"schedule 4294967296\n", DocFault::Unexpected(9)),
    (b"schedule 1 1\n", DocFault::Unexpected(11)),
    (b"schedule 1 # the first\n", DocFault::Unexpected(11)),
    // The version, whatever stands behind it.
    (b"schedule 2", DocFault::Version(2)),
    (b"schedule 0\nstep 1\n", DocFault::Version(0)),
    (b"schedule 002 more\n", DocFault::Version(2)),
    (b"schedule 4294967295\n", DocFault::Version(4294967295)),
    // A step.
    (b"schedule 1\nsteps 1\n", DocFault::Unexpected(11)),
    (b"schedule 1\nStep 1\n", DocFault::Unexpected(11)),
    (b"schedule 1\nschedule 1\n", DocFault::Unexpected(11)),
    (b"schedule 1\nstep", DocFault::Unexpected(15)),
    (b"schedule 1\nstep\n1\n", DocFault::Unexpected(15)),
    (b"schedule 1\nstep at 1\n", DocFault::Unexpected(16)),
    (b"schedule 1\nstep 1\xff\n", DocFault::Unexpected(16)),
    (b"schedule 1\nstep 4294967296\n", DocFault::Unexpected(16)),
    (b"schedule 1\nstep 1 2\n", DocFault::Unexpected(18)),
    (b"schedule 1\nstep 1 # a store\n", DocFault::Unexpected(18)),
    (b"schedule 1\nstep 1 at", DocFault::Unexpected(20)),
    (b"schedule 1\nstep 1 at \n", DocFault::Unexpected(21)),
    (b"schedule 1\nstep 1 at x\n", DocFault::Unexpected(21)),
    (b"schedule 1\nstep 1 at 2 3\n", DocFault::Unexpected(23)),
    (
        b"schedule 1\nstep 1\nstep 2\nstep",
        DocFault::Unexpected(29),
    ),
    // A crash.
    (b"schedule 1\ncrash", DocFault::Unexpected(16)),
    (b"schedule 1\ncrash\nat 0\n", DocFault::Unexpected(16)),
    (b"schedule 1\ncrash 0 0\n", DocFault::Unexpected(17)),
    (b"schedule 1\ncrashes at 0\n", DocFault::Unexpected(11)),
    (b"schedule 1\ncrash at at\n", DocFault::Unexpected(20)),
    (b"schedule 1\ncrash at 0 x 1\n", DocFault::Unexpected(22)),
    (b"schedule 1\ncrash at 0 # 1\n", DocFault::Unexpected(22)),
    (
        b"schedule 1\ncrash at 0 4294967296\n",
        DocFault::Unexpected(22),
    ),
];

/// Passes where each text has this first fault.
fn are_refused(alloc: Global, cases: &[(&[u8], DocFault)]) -> Result<(), Fail> {
    for (text, fault) in cases {
        agree(fault_of(alloc, *text)?, Some(*fault), *text)?;
    }
    Ok(())
}

#[test]
fn other_texts_have_a_first_fault(rt: HostRuntime) -> Result<(), Fail> {
    are_refused(rt.alloc(), &REFUSED)
}

/// Schedules, and their canonical texts.
static SPELLINGS: [(&[u8], &[u8]); 6] = [
    (b"schedule 1", b"schedule 1\n"),
    (b"\t schedule\r 0001 \r\n", b"schedule 1\n"),
    (
        b"schedule 1\nstep 1\ncrash at 0 0\nstep 1\ncrash at 0 0\n",
        b"schedule 1\nstep 1\ncrash at 0 0\nstep 1\ncrash at 0 0\n",
    ),
    (
        b"schedule 1\n\n# step 9\n  #step 9\n\tstep  002\tat 000 \r\n\ncrash at\nstep 0",
        b"schedule 1\nstep 2 at 0\ncrash at\nstep 0\n",
    ),
    (
        b"schedule 1\nstep 4294967295 at 4294967295\n \r\ncrash  at 1 02 003 4294967295",
        b"schedule 1\nstep 4294967295 at 4294967295\ncrash at 1 2 3 4294967295\n",
    ),
    (
        b"schedule 1\ncrash at \ncrash at 0000000000000000000000000010\n#",
        b"schedule 1\ncrash at\ncrash at 10\n",
    ),
];

/// The canonical text of a schedule.
fn printed(alloc: Global, text: &[u8]) -> Result<Vec<u8>, Fail> {
    let s = schedule(alloc, text)?;
    Ok(print_schedule(alloc, &s)?)
}

/// Passes where a schedule has this canonical text.
fn is_spelled(alloc: Global, text: &[u8], spelling: &[u8]) -> Result<(), Fail> {
    let found = printed(alloc, text)?;
    agree(found.as_slice(), spelling, text)
}

/// Passes where each schedule has this canonical text, and so has that text itself.
fn are_spelled(alloc: Global, cases: &[(&[u8], &[u8])]) -> Result<(), Fail> {
    for (text, spelling) in cases {
        is_spelled(alloc, *text, *spelling)?;
        is_spelled(alloc, *spelling, *spelling)?;
    }
    Ok(())
}

#[test]
fn schedules_have_their_spelling(rt: HostRuntime) -> Result<(), Fail> {
    are_spelled(rt.alloc(), &SPELLINGS)
}
