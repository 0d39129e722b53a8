//! Reading schedules.

ghost use Rattle.std.specs.Prelude.{◌≡◌, ◌≢◌, ◌+◌, ◌^◌, ◌<◌, [], length, MatchResult, IfOk, OnOk};
ghost use Rattle.pg_schedule.specs.Schedule.{step, crash};
ghost use Rattle.pg_schedule.specs.Words.{saying};
ghost use Rattle.pg_schedule.specs.Held.{AreNumbers, IsChoice, IsEventOfNumbers};
ghost use Rattle.pg_schedule.specs.Reading as read;

use crate::lines::{Line, Lines};
use crate::schedule::Schedule;
use crate::words::Words;
use pg_document::DocFault;
use pg_machine::Event;
use std::alloc::Global;

/// The schedule that a text stands for, or the text's first fault.
#[tactic(auto, unfolding(crate::specs::Reading::schedule))]
pub fn parse_schedule(alloc: Global, text: &[u8]) -> Result<Schedule, DocFault>
    requires { length text.now < 2 ^ 32 }
    ensures { MatchResult result (λ s. read.schedule text.now ≡ Ok s) (λ e. e ≢ DocFault.NoMemory → read.schedule text.now ≡ Err e) }
{
    let mut lines = Lines::of(text);
    let Some(mut first) = lines.next_saying() else {
        return Err(DocFault::Unexpected(text.len() as u32));
    };
    read_header(&mut first)?;
    read_acts(alloc, &mut lines)
}

/// The header, on the first line of the text.
#[tactic(auto, unfolding(crate::specs::Reading::header))]
fn read_header(line: &mut Line<'_>) -> Result<(), DocFault>
    ensures { MatchResult result (λ _. read.header line.old.number line.old.words ≡ Ok (tt, line.new.words)) (λ e. read.header line.old.number line.old.words ≡ Err e) }
{
    if line.number != 1 {
        return Err(line.words.unexpected());
    }
    line.words.keyword(b"schedule")?;
    match line.words.number()? {
        1 => line.words.ended(),
        n => Err(DocFault::Version(n)),
    }
}

/// An act on each line that says something.
fn read_acts(alloc: Global, lines: &mut Lines<'_>) -> Result<Schedule, DocFault>
    requires { length lines.old < 2 ^ 32 }
    ensures { MatchResult result (λ s. read.acts (saying lines.old) ≡ Ok s) (λ e. e ≢ DocFault.NoMemory → read.acts (saying lines.old) ≡ Err e) }
{
    let mut schedule = Schedule::new(alloc);
    let mut positions = Vec::new(alloc);
    'acts: while let Some(mut line) = lines.next_saying() {
        read_act(&mut line, &mut positions, &mut schedule)?;
    }
    Ok(schedule)
}

/// Adds the act of a line. The positions of a crash are gathered first.
#[tactic(auto, unfolding(crate::specs::Reading::act))]
fn read_act(
    line: &mut Line<'_>,
    positions: &mut Vec<u32>,
    into: &mut Schedule,
) -> Result<(), DocFault>
    requires { length into.old + 1 < 2 ^ 32 }
    ensures { MatchResult result (λ _. read.added line.old.number into.old (read.act line.old.words) ≡ Ok into.new)
        (λ e. e ≢ DocFault.NoMemory → read.act line.old.words ≡ Err e) }
{
    if line.words.begins(b"step") {
        let event = read_step(&mut line.words)?;
        into.push_step(line.number, event)
    } else {
        positions.clear();
        read_crash(&mut line.words, positions)?;
        into.push_crash(line.number, positions)
    }
}

/// A step of a thread, and the position that it chooses, if it chooses one.
#[tactic(auto, unfolding(crate::specs::Reading::step_line))]
fn read_step(words: &mut Words<'_>) -> Result<Event, DocFault>
    ensures numbers { IfOk result IsEventOfNumbers }
    ensures line { MatchResult result (λ e. read.step_line words.old ≡ Ok (step e, words.new)) (λ e. read.step_line words.old ≡ Err e) }
{
    words.keyword(b"step")?;
    let thread = words.number()?;
    let choice = read_choice(words)?;
    Ok(Event { thread, choice })
}

#[tactic(auto, unfolding(crate::specs::Reading::choice))]
fn read_choice(words: &mut Words<'_>) -> Result<Option<u32>, DocFault>
    ensures number { IfOk result IsChoice }
    ensures words { MatchResult result (λ c. read.choice words.old ≡ Ok (c, words.new)) (λ e. read.choice words.old ≡ Err e) }
{
    if words.is_empty() {
        return Ok(None);
    }
    words.keyword(b"at")?;
    let position = words.number()?;
    words.ended()?;
    Ok(Some(position))
}

/// The positions of a crash.
#[tactic(auto, unfolding(crate::specs::Reading::crash_line, crate::specs::Reading::positions))]
fn read_crash(words: &mut Words<'_>, into: &mut Vec<u32>) -> Result<(), DocFault>
    requires { into.old.items ≡ [] }
    ensures line { MatchResult result (λ _. read.crash_line words.old ≡ Ok (crash into.new.items, words.new))
        (λ e. e ≢ DocFault.NoMemory → read.crash_line words.old ≡ Err e) }
    ensures few { OnOk result (length into.new.items < 2 ^ 32) }
    ensures each { OnOk result (AreNumbers into.new.items) }
{
    words.keyword(b"crash")?;
    words.keyword(b"at")?;
    read_positions(words, into)
}

/// Numbers up to the end of the line.
fn read_positions(words: &mut Words<'_>, into: &mut Vec<u32>) -> Result<(), DocFault>
    requires empty { into.old.items ≡ [] }
    requires few { length words.old.left < 2 ^ 32 }
    ensures line { MatchResult result (λ _. read.numbers words.old.left words.old.end ≡ Ok (into.new.items, words.new))
        (λ e. e ≢ DocFault.NoMemory → read.numbers words.old.left words.old.end ≡ Err e) }
    ensures few { OnOk result (length into.new.items < 2 ^ 32) }
    ensures each { OnOk result (AreNumbers into.new.items) }
{
    'positions: while let Some(word) = words.next() {
        into.push(word.number()?)?;
    }
    Ok(())
}
