//! Whole texts, and the outlines that they stand for.

ghost use Rattle.std.specs.Prelude.{◌≡◌, ℕ, ◌^◌, ◌<◌, length, map, Ok, Err, Some, IfOk, IfErr, IfSome, MatchResult, option_map};
ghost use Rattle.pg_assertion.specs.Formula.{plain};
ghost use Rattle.pg_outline.specs.Outline.{OutlineTable as Table};
ghost use Rattle.pg_program_text.specs.Text.{lines};
ghost use Rattle.pg_outline_text.specs.Fault.{plain_fault, source_of, fault_in, plain_text_fault, plain_outline_fault, of_program, IsFaultOrMemory};
ghost use Rattle.pg_program.specs.Fault as program;
ghost use Rattle.pg_outline_text.specs.Limits.{known_version};
ghost use Rattle.pg_outline_text.specs.Parts.{as_source};
ghost use Rattle.pg_outline_text.specs.Ready.{IsReady};
ghost use Rattle.pg_outline_text.specs.Source.{IsMadeOf};
ghost use Rattle.pg_outline_text.specs.Text.{StandsFor, Tells};

use crate::fault::FileFault;
use crate::source::{Source, VERSION, behind_version, version};
use crate::thread::MAX_THREADS;
use pg_assertion::{CrashAtom, Formula, RawAtom};
use pg_assertion_text::Tokens;
use pg_lex::{Lexer, TextFault};
use pg_outline::{Outline, OutlineFault};
use pg_program::{Names, Program, ProgramFault, Stmt};
use pg_program_text::ThreadText;
use std::alloc::{AllocError, Global};

/// The outline that a text stands for, or the first fault of the text: a fault of its tokens or its version in the order of the
/// text, then one of the program, then one of the formulas.
pub fn parse_outline(alloc: Global, text: &[u8]) -> Result<Outline, FileFault>
    requires { length text.now < 2 ^ 32 }
    ensures found { IfOk result (λ o. StandsFor text.now o) }
    ensures version { IfOk result (λ o. o.program.names.version ≡ known_version) }
    ensures only { (o : Table) → StandsFor text.now o → MatchResult result (λ p. p ≡ o) (λ e. e ≡ FileFault.NoMemory) }
    ensures first_fault { IfErr result (λ e. Tells text.now e) }
    ensures memory { IfErr result IsFaultOrMemory }
{
    match read_source(alloc, text) {
        Ok(source) => made(alloc, source),
        Err(fault) => Err(fault),
    }
}

/// What a text is read as, or the first fault of its tokens or its version.
#[tactic(auto, unfolding(crate::specs::Fault::source_of))]
fn read_source(alloc: Global, text: &[u8]) -> Result<Source, FileFault>
    requires { length text.now < 2 ^ 32 }
    ensures source { MatchResult result (λ s. source_of text.now ≡ Ok (as_source s)) (λ e. IfSome (plain_fault e) (λ f. source_of text.now ≡ Err f)) }
    ensures memory { IfErr result IsFaultOrMemory }
{
    let lexer = Lexer::make(text);
    let mut tokens = Tokens::new(&lexer, MAX_THREADS);
    let version = match version(&mut tokens) {
        Ok(version) => version,
        Err(fault) => return Err(of_text(fault)),
    };
    if version != VERSION {
        return Err(FileFault::Version(version));
    }
    match behind_version(alloc, &mut tokens) {
        Ok(source) => Ok(source),
        Err(fault) => Err(of_text(fault)),
    }
}

/// A fault of the tokens as one of the file.
fn of_text(fault: TextFault) -> FileFault
    ensures plain { plain_fault result ≡ plain_text_fault fault }
    ensures memory { IsFaultOrMemory result }
{
    match fault {
        TextFault::NoMemory => FileFault::NoMemory,
        fault => FileFault::Text(fault),
    }
}

/// A fault of the program as one of the file.
fn of_program(fault: ProgramFault) -> FileFault
    ensures plain { plain_fault result ≡ option_map of_program (program.plain_fault fault) }
    ensures memory { IsFaultOrMemory result }
{
    match fault {
        ProgramFault::NoMemory => FileFault::NoMemory,
        fault => FileFault::Program(fault),
    }
}

/// A fault of the formulas as one of the file.
fn of_outline(fault: OutlineFault) -> FileFault
    ensures plain { plain_fault result ≡ plain_outline_fault fault }
    ensures memory { IsFaultOrMemory result }
{
    match fault {
        OutlineFault::NoMemory => FileFault::NoMemory,
        fault => FileFault::Outline(fault),
    }
}

/// The statements and the notes of the threads.
struct Parted {
    stmts: Vec<Vec<Stmt>>,
    notes: Vec<Vec<Formula<RawAtom>>>,
}

/// The statements of each thread apart from its notes.
fn split_threads(alloc: Global, threads: Vec<ThreadText>) -> Result<Parted, AllocError>
    ensures stmts { IfOk result (λ p. map (λ t. t.items) p.stmts.items ≡ map (λ l. (lines l).stmts) threads.items) }
    ensures notes { IfOk result (λ p. map (λ t. map plain t.items) p.notes.items ≡ map (λ l. (lines l).notes) threads.items) }
{
    let mut stmts = Vec::new(alloc);
    let mut notes = Vec::new(alloc);
    for thread in threads {
        let ThreadText {
            stmts: thread_stmts,
            notes: thread_notes,
        } = thread;
        stmts.push(thread_stmts)?;
        notes.push(thread_notes)?;
    }
    Ok(Parted { stmts, notes })
}

/// The outline that is made of what was read, or its first fault.
fn made(alloc: Global, source: Source) -> Result<Outline, FileFault>
    requires { IsReady (as_source source) }
    ensures outline { MatchResult result (IsMadeOf (as_source source)) (λ e. IfSome (plain_fault e) (λ f. fault_in (as_source source) ≡ Some f)) }
    ensures memory { IfErr result IsFaultOrMemory }
{
    let Source {
        names,
        pre,
        crash,
        threads,
    } = source;
    let Parted { stmts, notes } = split_threads(alloc, threads)?;
    let program = match Program::build(alloc, names, stmts) {
        Ok(program) => program,
        Err(fault) => return Err(of_program(fault)),
    };
    match Outline::build(alloc, program, pre, crash, notes) {
        Ok(outline) => Ok(outline),
        Err(fault) => Err(of_outline(fault)),
    }
}
