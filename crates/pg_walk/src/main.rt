//! Walks a schedule on the machine: `OUTLINE SCHEDULE QUESTION` are the names of three files. Of the fresh state, and of the state behind
//! each step of the schedule, it prints which atoms of the question hold; of a crash it prints the memory that is left.
//!
//! An example for programs that embed the crates. `docs/EMBEDDING.md` goes through it.
#![tactic(auto)]

ghost use Rattle.std.specs.Prelude.{◌≡◌, ◌≤◌, length, IfOk};
ghost use Rattle.pg_assertion.specs.Atom.{raw_of, RawDeclared};
ghost use Rattle.pg_assertion.specs.Formula.{plain, with_atoms, AllAtoms};
ghost use Rattle.pg_outline.specs.Speaks.{IsOver};
ghost use Rattle.pg_walk.specs.Answer.{longest, IsAsked, IsAnswer, IsAnswerOn};

mod walk;

use crate::walk::walk;
use anyhow::{Context, Result, bail};
use pg_assertion::{Formula, RawAtom, ViewAtom};
use pg_assertion_text::laws::formulas_are_within;
use pg_assertion_text::parse_formula;
use pg_io::{FileRoom, Room};
use pg_lex::{Lexer, TokenKind};
use pg_outline::assertion_over;
use pg_outline_text::parse_outline;
use pg_program::Program;
use pg_schedule::parse_schedule;
use std::alloc::Global;
use std::env;
use std::rt::Files;

/// The most bytes that a file may have.
const LONGEST: u64 = 1_048_576;

fn main(rt: HostRuntime) -> Result<()> {
    let mut names = env::args(&rt)?.skip(1);
    let outline = read(&rt, names.next())?;
    let schedule = read(&rt, names.next())?;
    let question = read(&rt, names.next())?;
    let told = answer(rt.alloc(), &outline, &schedule, &question)?;
    rt.write_all(&told)?;
    Ok(())
}

/// The bytes of the file with this name.
fn read<R: Files + AllocGlobal>(rt: &R, name: Option<String>) -> Result<Vec<u8>>
    ensures { IfOk result (λ bytes. length bytes.items ≤ longest) }
{
    let Some(name) = name else {
        bail!("usage: OUTLINE SCHEDULE QUESTION");
    };
    let mut bytes = Vec::new(rt.alloc());
    FileRoom::make(rt)
        .fetch(&name, LONGEST, &mut bytes)
        .context(name)?;
    Ok(bytes)
}

/// What the walk tells, where the files have these bytes.
fn answer(alloc: Global, outline: &[u8], schedule: &[u8], question: &[u8]) -> Result<Vec<u8>>
    requires outline { length outline.now ≤ longest }
    requires schedule { length schedule.now ≤ longest }
    requires question { length question.now ≤ longest }
    ensures { IfOk result (λ told. IsAnswer outline.now schedule.now question.now told.items) }
{
    let outline = parse_outline(alloc, outline).context("the outline")?;
    answer_on(alloc, outline.program(), schedule, question)
}

/// What it tells on a program.
fn answer_on(alloc: Global, program: &Program, schedule: &[u8], question: &[u8]) -> Result<Vec<u8>>
    requires schedule { length schedule.now ≤ longest }
    requires question { length question.now ≤ longest }
    ensures { IfOk result (λ told. IsAnswerOn program.now schedule.now question.now told.items) }
{
    let schedule = parse_schedule(alloc, schedule).context("the schedule")?;
    let question = asked(alloc, program, question).context("the question")?;
    Ok(walk(alloc, program, &question, &schedule)?)
}

/// The assertion over a program that a text is.
fn asked(alloc: Global, program: &Program, text: &[u8]) -> Result<Formula<ViewAtom>>
    requires { length text.now ≤ longest }
    ensures asked { IfOk result (λ f. IsAsked program.now text.now (plain f)) }
    ensures over { IfOk result (λ f. IsOver program.now (plain f)) }
{
    let mut lexer = Lexer::make(text);
    let f = parse_formula(alloc, &mut lexer, program.names())?;
    formulas_are_within();
    asked_by(alloc, program, &f, &lexer)
}

/// The assertion that a formula as read is, if the text ends behind it.
fn asked_by(
    alloc: Global,
    program: &Program,
    f: &Formula<RawAtom>,
    behind: &Lexer<'_>,
) -> Result<Formula<ViewAtom>>
    ensures same { IfOk result (λ g. with_atoms raw_of (plain g) ≡ plain f.now) }
    ensures over { AllAtoms (RawDeclared program.now.names) (plain f.now) → IfOk result (λ g. IsOver program.now (plain g)) }
{
    let token = behind.peek()?;
    if token.kind != TokenKind::End {
        bail!("unexpected at byte {}", token.place);
    }
    Ok(assertion_over(alloc, program, f)?)
}
