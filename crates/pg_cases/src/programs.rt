//! Programs of declared names and a text, as the tests write them where no text of an outline declares such names.

ghost use Rattle.std.specs.Prelude.{◌≡◌, ◌+◌, ◌<◌, length, map, All, IfOk, OnOk};
ghost use Rattle.pg_program.specs.Program.{IsThread, AreThreads};

use crate::texts::thread;
use pg_program::{NameKind, Names, Program, Stmt};
use std::alloc::Global;
use std::test::Fail;

/// So many of these names, over the values below `values`, and so many threads, of which the first has this body and the others none.
#[derive(Clone, Copy)]
pub struct Parts<'a> {
    pub names: &'a [(&'a str, NameKind)],
    pub declared: usize,
    pub values: u32,
    pub threads: u8,
    pub text: &'a [u8],
}

/// The body of a thread that does nothing.
const IDLE: &[u8] = b"[true]";

/// Declares a name.
fn declare(names: &mut Names, name: &str, kind: NameKind) -> Result<(), Fail> {
    let shares = matches!(kind, NameKind::LocationWith { .. });
    if shares && (names.version() != 2 || names.locations() < 1) {
        return Err(Fail::new("there is no line to share"));
    }
    names.declare(name, kind)?;
    Ok(())
}

/// The names of these parts.
fn names(alloc: Global, parts: &Parts<'_>) -> Result<Names, Fail> {
    let mut names = Names::make(alloc, parts.values, 2);
    for (name, kind) in parts.names.iter().take(parts.declared) {
        declare(&mut names, *name, *kind)?;
    }
    Ok(names)
}

/// Adds a thread with this body.
fn add(alloc: Global, names: &Names, threads: &mut Vec<Vec<Stmt>>, text: &[u8]) -> Result<(), Fail>
    requires { All (IsThread names.now) (map (λ t. t.items) threads.old.items) }
    ensures each { OnOk result (All (IsThread names.now) (map (λ t. t.items) threads.new.items)) }
    ensures one { OnOk result (length threads.new.items ≡ length threads.old.items + 1) }
{
    Ok(threads.push(thread(alloc, names, text)?)?)
}

/// The threads of these parts.
fn threads(alloc: Global, names: &Names, parts: &Parts<'_>) -> Result<Vec<Vec<Stmt>>, Fail>
    ensures { IfOk result (λ ts. AreThreads names.now (map (λ t. t.items) ts.items)) }
{
    if parts.threads < 1 || parts.threads > 4 {
        return Err(Fail::new("there are too many threads, or none"));
    }
    let mut threads = Vec::new(alloc);
    add(alloc, names, &mut threads, parts.text)?;
    for _i in 1..parts.threads {
        add(alloc, names, &mut threads, IDLE)?;
    }
    Ok(threads)
}

/// The program of these parts.
fn program(alloc: Global, parts: &Parts<'_>) -> Result<Program, Fail> {
    let names = names(alloc, parts)?;
    let threads = threads(alloc, &names, parts)?;
    Ok(Program::build(alloc, names, threads)?)
}

/// What this makes of the program of these parts.
pub fn on_program<T, F: FnOnce(&Program) -> Result<T, Fail> + Drop>(
    alloc: Global,
    parts: &Parts<'_>,
    makes: F,
) -> Result<T, Fail>
    requires { F.IsAlwaysCallable makes }
{
    let p = program(alloc, parts)?;
    makes(&p)
}
