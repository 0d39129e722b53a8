//! Printing schedules.

ghost use Rattle.std.specs.Prelude.{◌≡◌, ◌++◌, codes, decimal, IfOk, OnOk, Ok};
ghost use Rattle.pg_schedule.specs.Schedule.{numbered};
ghost use Rattle.pg_schedule.specs.Reading.{schedule};
ghost use Rattle.pg_schedule.specs.Printing as spec;
ghost use Rattle.pg_schedule.specs.Held.{act_lent};

use crate::schedule::{Schedule, ScheduleAct};
use itoa::Buffer;
use pg_machine::Event;
use std::alloc::{AllocError, Global};

/// The canonical text of a schedule. It stands for the same acts, on its lines from the second one on.
pub fn print_schedule(alloc: Global, s: &Schedule) -> Result<Vec<u8>, AllocError>
    ensures text { IfOk result (λ text. text.items ≡ spec.schedule_text s.now) }
    ensures again { IfOk result (λ text. schedule text.items ≡ Ok (numbered 2 s.now)) }
{
    let mut text = Vec::from_slice(alloc, b"schedule 1\n")?;
    for k in 0..s.len() {
        append_act(s.act(k), &mut text)?;
        text.extend_from_slice(b"\n")?;
    }
    Ok(text)
}

fn append_act(act: ScheduleAct<'_>, into: &mut Vec<u8>) -> Result<(), AllocError>
    ensures { OnOk result (into.new.items ≡ into.old.items ++ spec.act_text (act_lent act.entry)) }
{
    match act {
        ScheduleAct::Step(event) => append_step(event, into),
        ScheduleAct::Crash(positions) => append_crash(positions, into),
    }
}

fn append_step(event: Event, into: &mut Vec<u8>) -> Result<(), AllocError>
    ensures { OnOk result (into.new.items ≡ into.old.items ++ (codes "step " ++ decimal event.thread ++ spec.choice_text event.choice)) }
{
    append_number(b"step ", event.thread, into)?;
    match event.choice {
        Some(position) => append_number(b" at ", position, into),
        None => Ok(()),
    }
}

fn append_crash(positions: &[u32], into: &mut Vec<u8>) -> Result<(), AllocError>
    ensures { OnOk result (into.new.items ≡ into.old.items ++ (codes "crash at" ++ spec.positions_text positions.now)) }
{
    into.extend_from_slice(b"crash at")?;
    for position in positions {
        append_number(b" ", *position, into)?;
    }
    Ok(())
}

/// Appends what stands in front of a number, and the number.
fn append_number(front: &[u8], n: u32, into: &mut Vec<u8>) -> Result<(), AllocError>
    ensures { OnOk result (into.new.items ≡ into.old.items ++ (front.now ++ decimal n)) }
{
    into.extend_from_slice(front)?;
    into.extend_from_slice(Buffer::new().format(n).as_bytes())
}
