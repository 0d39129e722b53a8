//! Replaying a schedule on an outline, and putting its trace and the line of its answer. What is promised is that status and text are
//! those of the one answer that the schedule has.

ghost use Rattle.std.specs.Prelude.{◌≡◌, ℕ, List};
ghost use Rattle.pg_report.specs.Replayed.{replayed_line};
ghost use Rattle.pg_app.specs.Answer as spec;
ghost use Rattle.pg_app.specs.Answer.{AsSchedule, IsReplayed};
ghost use Rattle.pg_app.specs.File.{schedule_file};
ghost use Rattle.pg_app.specs.Put as put;
ghost use Rattle.pg_app.specs.Put.{Puts};
ghost use Rattle.pg_app.specs.Stops.{EndsOn};

use crate::fetch::fetched_schedule;
use crate::put::reported;
use crate::status::{HELD, NO_MEMORY, NOT_TAKEN, NOT_WRITTEN, VIOLATED};
use pg_io::{Room, Sink};
use pg_outline::Outline;
use pg_replay::{ReplayFault, Replayed, replay};
use pg_report::report_replayed;
use pg_schedule::Schedule;
use std::alloc::Global;

/// Replays the schedule in the file of this name on an outline, or puts the refusal of the file.
pub fn replay_on<R: Room, K: Sink>(
    alloc: Global,
    outline: &Outline,
    name: &str,
    room: &mut R,
    out: &mut K,
) -> u8
    ensures ends { EndsOn (AsSchedule outline.now) (R.told room.old) (schedule_file name.now)
        (R.faults room.old name.now) (R.faults room.new name.now) (R.taken room.old) (R.taken room.new)
        result (K.written out.old) (K.written out.new) (K.faults out.old) (K.faults out.new) }
    ensures told { (n : List ℕ) → R.told room.new n ≡ R.told room.old n }
{
    match fetched_schedule(alloc, name, room, out) {
        Ok(schedule) => replay_schedule(alloc, outline, &schedule, out),
        Err(status) => status,
    }
}

// Replays a schedule on an outline, and puts its trace, each line as soon as it is taken, and the line of its answer behind it.
fn replay_schedule<K: Sink>(
    alloc: Global,
    outline: &Outline,
    schedule: &Schedule,
    out: &mut K,
) -> u8
    ensures { Puts (IsReplayed schedule.now outline.now)
        result (K.written out.old) (K.written out.new) (K.faults out.old) (K.faults out.new) }
{
    let answer = replay(alloc, outline, schedule, out);
    match cut_status(&answer) {
        Some(status) => status,
        None => put_answer(alloc, outline, &answer, out),
    }
}

// The status where the trace could not be written, or memory ran out.
fn cut_status(answer: &Result<Replayed, ReplayFault>) -> Option<u8>
    ensures { result ≡ put.cut_status answer.now }
{
    match answer {
        Ok(_) | Err(ReplayFault::Step { .. } | ReplayFault::Crash { .. }) => None,
        Err(ReplayFault::Write) => Some(NOT_WRITTEN),
        Err(ReplayFault::NoMemory) => Some(NO_MEMORY),
    }
}

// Puts the line of a replay's answer.
fn put_answer<K: Sink>(
    alloc: Global,
    outline: &Outline,
    answer: &Result<Replayed, ReplayFault>,
    out: &mut K,
) -> u8
    ensures { Puts (λ due text. (due ≡ spec.replayed_status answer.now) × (text ≡ replayed_line outline.now.program.names answer.now))
        result (K.written out.old) (K.written out.new) (K.faults out.old) (K.faults out.new) }
{
    let status = replayed_status(answer);
    reported(report_replayed(alloc, outline, answer, out), status)
}

// The status of a replay's answer.
fn replayed_status(answer: &Result<Replayed, ReplayFault>) -> u8
    ensures { result ≡ spec.replayed_status answer.now }
{
    match answer {
        Ok(
            Replayed {
                first_violation: None,
                ..
            },
        ) => HELD,
        Ok(
            Replayed {
                first_violation: Some(_),
                ..
            },
        ) => VIOLATED,
        Err(_) => NOT_TAKEN,
    }
}
