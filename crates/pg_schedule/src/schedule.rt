//! Schedules, as they are kept.

ghost use Rattle.std.specs.Prelude.{◌≡◌, ◌+◌, ◌^◌, ◌<◌, ◌≤◌, [], ◌∷◌, ◌++◌, length, slice_range, MatchResult};
ghost use Rattle.pg_schedule.specs.Schedule.{step, crash, number_at, act_at};
ghost use Rattle.pg_schedule.specs.Held.{IsEventOfNumbers, HasNumbers, act_lent, IsShort};

use pg_document::DocFault;
use pg_machine::Event;
use std::alloc::Global;
use std::marker::Model;

/// What a line of a schedule says, lent by it.
#[derive(Clone, Copy)]
pub enum ScheduleAct<'a> {
    /// A step of a thread.
    Step(Event),
    /// A crash, with the position of the memory at which it finds each location.
    Crash(&'a [u32]),
}

/// Where the positions of a crash lie.
#[derive(Clone, Copy, Drop)]
pub struct Span {
    pub from: usize,
    pub count: u32,
}

#[derive(Clone, Copy, Drop)]
pub enum EntryAct {
    Step(Event),
    Crash(Span),
}

/// A line, with its number from 1 on.
#[derive(Clone, Copy, Drop)]
pub struct Entry {
    pub number: u32,
    pub act: EntryAct,
}

/// A schedule: steps and crashes, each with the number of its line. Contracts see it as the list of them. It has fewer than
/// 2^32 lines, and each crash has fewer than 2^32 positions.
#[derive(Drop)]
pub struct Schedule {
    entries: Vec<Entry>,
    positions: Vec<u32>,
}

impl Model for Schedule {
    ghost use Rattle.pg_schedule.specs.Schedule.{ScheduleTable};
    ghost use Rattle.pg_schedule.specs.Held.{held_lines, AreHeld};

    ghost Value = { ScheduleTable };

    ghost view = { λ s. held_lines s.positions.items s.entries.items };

    ghost invariant = { λ s. AreHeld s.positions.items s.entries.items };
}

impl Schedule {
    /// Without lines.
    pub(crate) fn new(alloc: Global) -> Schedule
        ensures { result ≡ [] }
    {
        Schedule {
            entries: Vec::new(alloc),
            positions: Vec::new(alloc),
        }
    }

    /// The number of acts.
    pub fn len(&self) -> u32
        ensures count { result ≡ length self.now }
        ensures numbers { HasNumbers self.now }
    {
        self.entries.len() as u32
    }

    /// The number of the line of act k, counted from 0.
    pub fn line(&self, k: u32) -> u32
        requires { k < length self.now }
        ensures { result ≡ number_at self.now k }
    {
        self.entries[k as usize].number
    }

    /// Act k, counted from 0.
    pub fn act<'a>(&'a self, k: u32) -> ScheduleAct<'a>
        requires { k < length self.now }
        ensures act { act_lent result ≡ act_at self.now k }
        ensures short { IsShort result }
    {
        let entry = self.entries[k as usize];
        match entry.act {
            EntryAct::Step(event) => ScheduleAct::Step(event),
            EntryAct::Crash(span) => ScheduleAct::Crash(part(&self.positions, span)),
        }
    }

    /// Adds a line with a step.
    pub(crate) fn push_step(&mut self, number: u32, event: Event) -> Result<(), DocFault>
        requires few { length self.old + 1 < 2 ^ 32 }
        requires numbers { IsEventOfNumbers event }
        ensures { MatchResult result (λ _. self.new ≡ self.old ++ record { number = number; act = step event } ∷ []) (λ e. e ≡ DocFault.NoMemory) }
    {
        self.entries.push(Entry {
            number,
            act: EntryAct::Step(event),
        })?;
        Ok(())
    }

    /// Adds a line with a crash.
    pub(crate) fn push_crash(&mut self, number: u32, at: &[u32]) -> Result<(), DocFault>
        requires few { length self.old + 1 < 2 ^ 32 }
        requires short { length at.now < 2 ^ 32 }
        ensures { MatchResult result (λ _. self.new ≡ self.old ++ record { number = number; act = crash at.now } ∷ []) (λ e. e ≡ DocFault.NoMemory) }
    {
        let from = self.positions.as_slice().len();
        self.positions.extend_from_slice(at)?;
        self.entries.push(Entry {
            number,
            act: EntryAct::Crash(Span {
                from,
                count: at.len() as u32,
            }),
        })?;
        Ok(())
    }
}

/// The positions of a crash.
fn part(positions: &[u32], span: Span) -> &[u32]
    requires { span.from + span.count ≤ length positions.now }
    ensures { result.now ≡ slice_range positions.now span.from (span.from + span.count) }
{
    &positions[span.from..span.from + span.count as usize]
}
