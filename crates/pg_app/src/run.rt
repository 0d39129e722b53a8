//! The top call: from the words to a status and a text.
//!
//! What is promised. Over a room and a sink that tell their bytes, every status but those for a
//! failed fetch, a failed put and want of memory is the defined one for the words and the files, and
//! its whole text was written. A failed fetch or put is answered only where a count of faults rose.

ghost use Rattle.std.specs.Prelude.{◌≡◌, ◌⊎◌, ◌+◌, ◌≤◌, ℕ, List, length, Some, IsNone, IfSome, IfNone, IfOk, IfErr, OnOk, OnErr, Contains};
ghost use Rattle.pg_io.specs.Counts.{Rose, RoseBy};
ghost use Rattle.pg_io.specs.Written.{appended};
ghost use Rattle.pg_app.specs.Line.{usage};
ghost use Rattle.pg_app.specs.Command as spec;
ghost use Rattle.pg_app.specs.Command.{files_in};
ghost use Rattle.pg_app.specs.File.{limit};
ghost use Rattle.pg_app.specs.Safety.{Claims, Denies};
ghost use Rattle.pg_app.specs.Run.{statuses, AreQuiet, AreTold, HasOneAnswer, IsAnswer, IsRun, Reached, Writes, WritesPart, Ends};
ghost use Rattle.pg_app.specs.Stops.{EndsWork};

use crate::command::{Command, Work, command_of};
use crate::derive::derive_outline;
use crate::fetch::fetched_outline;
use crate::judge::judge_outline;
use crate::line::USAGE;
use crate::made::judge_made;
use crate::put::{list_obligations, put_line};
use crate::replay::replay_on;
use crate::status::NO_COMMAND;
use crate::verify::verify_against;
use pg_derive::laws::a_derivation_has_one_answer;
use pg_io::{Room, Sink};
use pg_outline::Outline;
use std::alloc::Global;

/// Does what the words say, and answers the status: fetches the files of the command from the room,
/// one after the other, does its work, and puts its text line by line. This project's own.
pub fn run<R: Room, K: Sink>(alloc: Global, words: &[String], room: &mut R, out: &mut K) -> u8
    ensures range { Contains statuses result }

    // What each of these statuses comes from.
    ensures read_fault { result ≡ 6 → Reached (R.told room.old) (files_in words.now) (λ file.
        Rose (R.faults room.old file.name) (R.faults room.new file.name)) }
    ensures nothing_read { result ≡ 6 → K.written out.new ≡ K.written out.old }
    ensures write_fault { result ≡ 7 → Rose (K.faults out.old) (K.faults out.new) }
    ensures too_long { result ≡ 10 → Reached (R.told room.old) (files_in words.now) (λ file.
        RoseBy (limit file + 1) (R.taken room.old) (R.taken room.new)) }
    ensures usage { result ≡ 8 → IsNone (spec.command_of words.now)
        × (K.written out.new ≡ appended (K.written out.old) usage) }

    // Words that are no command.
    ensures shapeless { IfNone (spec.command_of words.now) (result ≡ 8 ⊎ (result ≡ 7 ⊎ result ≡ 9)) }
    ensures unasked { IfNone (spec.command_of words.now) (room.new ≡ room.old) }

    // What is answered and written, where the bytes of the files are told.
    ensures defined { AreTold (files_in words.now) (R.told room.old) → IsAnswer result →
        Writes words.now (R.told room.old) result (K.written out.old) (K.written out.new) }
    ensures only { HasOneAnswer words.now (R.told room.old) }
    ensures part { AreTold (files_in words.now) (R.told room.old) → result ≡ 7 ⊎ result ≡ 9 →
        (K.written out.new ≡ K.written out.old)
        ⊎ WritesPart words.now (R.told room.old) (K.written out.old) (K.written out.new) }
    ensures complete { AreTold (files_in words.now) (R.told room.old) →
        AreQuiet (files_in words.now) (R.faults room.old) (R.faults room.new) →
        ¬ Rose (K.faults out.old) (K.faults out.new) →
        Writes words.now (R.told room.old) result (K.written out.old) (K.written out.new)
        ⊎ (result ≡ 9) }

    // What acceptance claims: in every execution of the machine, of any length, from any well-formed
    // state that meets the precondition, each thread's assertion holds at its current point, and each
    // memory that a crash may leave satisfies the crash formula.
    ensures safe { result ≡ 0 → IfSome (spec.command_of words.now) (λ command. Claims command (R.told room.old)) }

    // What a violation denies: that every obligation follows, and so that `check` accepts the file, under any budget.
    ensures denied { result ≡ 1 → IfSome (spec.command_of words.now) (λ command. Denies command (R.told room.old)) }

    // What stays.
    ensures told { (n : List ℕ) → R.told room.new n ≡ R.told room.old n }
{
    a_derivation_has_one_answer();
    match command_of(words) {
        Some(command) => perform(alloc, command, room, out),
        None => put_line(out, NO_COMMAND, USAGE),
    }
}

/// Runs on the words, or ends with the status that they were refused with, and nothing is read or
/// written. This project's own.
pub fn started<R: Room, K: Sink>(
    alloc: Global,
    words: Result<Vec<String>, u8>,
    room: &mut R,
    out: &mut K,
) -> u8
    ensures ran { IfOk words (λ list. IsRun list.items (R.told room.old)
        (R.faults room.old) (R.faults room.new) (R.taken room.old) (R.taken room.new)
        result (K.written out.old) (K.written out.new) (K.faults out.old) (K.faults out.new)) }
    ensures range { IfOk words (λ list. Contains statuses result) }
    ensures unasked { IfOk words (λ list. IfNone (spec.command_of list.items) (room.new ≡ room.old)) }
    ensures refused { IfErr words (λ status. result ≡ status) }
    ensures unread { OnErr words (room.new ≡ room.old) }
    ensures unwritten { OnErr words (out.new ≡ out.old) }
    ensures told { (n : List ℕ) → R.told room.new n ≡ R.told room.old n }
{
    match words {
        Ok(words) => run(alloc, words.as_slice(), room, out),
        Err(status) => status,
    }
}

// Does what a command asks for.
fn perform<R: Room, K: Sink>(alloc: Global, command: Command<'_>, room: &mut R, out: &mut K) -> u8
    requires budget { spec.HasBudget command }
    ensures ends { Ends (Some (spec.asked command.entry)) (R.told room.old)
        (R.faults room.old) (R.faults room.new) (R.taken room.old) (R.taken room.new)
        result (K.written out.old) (K.written out.new) (K.faults out.old) (K.faults out.new) }
    ensures told { (n : List ℕ) → R.told room.new n ≡ R.told room.old n }
{
    match command {
        Command::On { name, work } => on_outline(alloc, name, work, room, out),
        Command::Made { statements, budget } => judge_made(alloc, statements, budget, out),
    }
}

// Does work on the outline in the file of this name. One function for all work, as letting go of an outline is dear to prove.
fn on_outline<R: Room, K: Sink>(
    alloc: Global,
    name: &str,
    work: Work<'_>,
    room: &mut R,
    out: &mut K,
) -> u8
    requires budget { spec.HasWorkBudget work }
    ensures ends { Ends (Some (spec.asked_on name.now work.entry)) (R.told room.old)
        (R.faults room.old) (R.faults room.new) (R.taken room.old) (R.taken room.new)
        result (K.written out.old) (K.written out.new) (K.faults out.old) (K.faults out.new) }
    ensures told { (n : List ℕ) → R.told room.new n ≡ R.told room.old n }
{
    match fetched_outline(alloc, name, room, out) {
        Ok(outline) => work_on(alloc, &outline, work, room, out),
        Err(status) => status,
    }
}

// Does work on an outline.
fn work_on<R: Room, K: Sink>(
    alloc: Global,
    outline: &Outline,
    work: Work<'_>,
    room: &mut R,
    out: &mut K,
) -> u8
    requires budget { spec.HasWorkBudget work }
    ensures ends { EndsWork work.entry outline.now (R.told room.old)
        (R.faults room.old) (R.faults room.new) (R.taken room.old) (R.taken room.new)
        result (K.written out.old) (K.written out.new) (K.faults out.old) (K.faults out.new) }
    ensures told { (n : List ℕ) → R.told room.new n ≡ R.told room.old n }
{
    match work {
        Work::Check { budget } => judge_outline(alloc, outline, budget, out),
        Work::Obligations => list_obligations(alloc, outline, out),
        Work::Derive { budget } => derive_outline(alloc, outline, budget, out),
        Work::Verify { derivation } => verify_against(alloc, outline, derivation, room, out),
        Work::Replay { schedule } => replay_on(alloc, outline, schedule, room, out),
    }
}
