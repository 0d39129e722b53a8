//! A checker of proof outlines for concurrent programs on persistent memory: `check NAME [BUDGET]`
//! judges the outline in the file NAME, `obligations NAME` prints what there is to prove of it,
//! `derive NAME [BUDGET]` judges it and writes its derivation, `verify NAME NAME` checks a derivation in
//! a second file, `replay NAME NAME` replays a schedule there, and `made N [BUDGET]` judges the made
//! outline of N statements for each thread. Each writes its text to standard output, and ends with a
//! status.
//!
//! What is promised stands on `run`, the one call that the program makes over the files and
//! standard output. A word that is not text ends the program with the status of words that are not
//! a command, and nothing is written; so does want of memory, with its own status.
#![tactic(auto)]

ghost use Rattle.std.specs.Prelude.{◌≡◌, ◌⊎◌, IfErr, Contains};
ghost use Rattle.pg_app.specs.Run.{statuses};

mod command;
mod derive;
mod fetch;
mod file;
mod judge;
mod line;
mod made;
mod put;
mod replay;
mod run;
mod status;
mod verify;

use crate::run::started;
use crate::status::{NO_COMMAND, NO_MEMORY};
use pg_io::{FileRoom, StdSink};
use std::process::ExitCode;
use std::rt::{Env, Files};
use std::{env, io};

fn main(rt: HostRuntime) -> ExitCode {
    ExitCode::from(perform(&rt))
}

// Runs on the words, files and output of the process.
fn perform<R: Env + Files + Print + AllocGlobal>(rt: &R) -> u8
    ensures { Contains statuses result }
{
    let mut room = FileRoom::make(rt);
    let mut out = StdSink::make(rt);
    started(rt.alloc(), collected_words(rt), &mut room, &mut out)
}

// The words after the program's own name, or the status to end with.
fn collected_words<R: Env + AllocGlobal>(rt: &R) -> Result<Vec<String>, u8>
    ensures { IfErr result (λ status. status ≡ 8 ⊎ status ≡ 9) }
{
    let args = match env::args(rt) {
        Ok(args) => args,
        Err(e) if e.kind() == io::ErrorKind::OutOfMemory => return Err(NO_MEMORY),
        Err(_) => return Err(NO_COMMAND),
    };
    let mut words = Vec::new(rt.alloc());
    for word in args.skip(1) {
        words.push(word).map_err(|_| NO_MEMORY)?;
    }
    Ok(words)
}

#[cfg(test)]
mod tests;
