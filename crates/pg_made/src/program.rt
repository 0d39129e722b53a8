//! The program of a made outline.

ghost use Rattle.std.specs.Prelude.{◌≡◌, ◌≤◌, [], ◌∷◌, map, None, false, IfOk, OnOk};
ghost use Rattle.pg_program.specs.declared.syntax.Act.{roll-Act};
ghost use Rattle.pg_program.specs.declared.syntax.Act.TheOpen.{Store};
ghost use Rattle.pg_program.specs.declared.name_table.NameKind.TheVariants.{Location};
ghost use Rattle.pg_program.specs.NameTable.{find, is_full, with_name};
ghost use Rattle.pg_program.specs.Program.{IsProgram};
ghost use Rattle.pg_made.specs.Limits.{most_statements};
ghost use Rattle.pg_made.specs.Made as spec;

use pg_program::{Act, DeclareFault, Expr, NameKind, Names, Program, ProgramFault, Stmt};
use sqlite_items::Items;
use std::alloc::{AllocError, Global};

// The version, and how many values there are.
const VERSION: u32 = 1;

const DOMAIN: u32 = 2;

// The numbers of the two locations.
pub const X: u8 = 0;

pub const Y: u8 = 1;

/// The program: two threads of the same n statements.
pub fn made_program(alloc: Global, n: u32) -> Result<Program, AllocError>
    requires { n ≤ most_statements }
    ensures { IfOk result (λ p. p ≡ spec.program n) }
{
    let names = made_names(alloc)?;
    let threads = threads(alloc, n)?;
    built(alloc, names, threads)
}

/// The program of names and threads that have no fault.
fn built(alloc: Global, names: Names, threads: Vec<Vec<Stmt>>) -> Result<Program, AllocError>
    requires { IsProgram (record { names = names; threads = map (λ t. t.items) threads.items }) }
    ensures { IfOk result (λ p. p ≡ record { names = names; threads = map (λ t. t.items) threads.items }) }
{
    match Program::build(alloc, names, threads) {
        Ok(program) => Ok(program),
        Err(fault) => match fault {
            ProgramFault::NoMemory => Err(AllocError),
            _ => unreachable!(),
        },
    }
}

/// The names: two locations.
fn made_names(alloc: Global) -> Result<Names, AllocError>
    ensures { IfOk result (λ names. names ≡ spec.names) }
{
    let mut names = Names::make(alloc, DOMAIN, VERSION);
    declare(&mut names, "x")?;
    declare(&mut names, "y")?;
    Ok(names)
}

/// Declares a location that is new, where there is room for it.
fn declare(names: &mut Names, name: &str) -> Result<(), AllocError>
    requires absent { find name.now names.old ≡ None }
    requires room { is_full (Location 0) names.old ≡ false }
    ensures { OnOk result (names.new ≡ with_name name.now (Location 0) names.old) }
{
    match names.declare(name, NameKind::Location { init: 0 }) {
        Ok(_) => Ok(()),
        Err(DeclareFault::NoMemory) => Err(AllocError),
        Err(DeclareFault::Redeclared | DeclareFault::TooMany) => unreachable!(),
    }
}

/// The statements of both threads.
fn threads(alloc: Global, n: u32) -> Result<Vec<Vec<Stmt>>, AllocError>
    requires { n ≤ most_statements }
    ensures { IfOk result (λ ts. map (λ t. t.items) ts.items ≡ spec.statements n ∷ spec.statements n ∷ []) }
{
    let mut threads = Vec::new(alloc);
    threads.push(statements(alloc, n)?)?;
    threads.push(statements(alloc, n)?)?;
    Ok(threads)
}

/// The statements of a thread.
fn statements(alloc: Global, n: u32) -> Result<Vec<Stmt>, AllocError>
    requires { n ≤ most_statements }
    ensures { IfOk result (λ ss. ss.items ≡ spec.statements n) }
{
    let mut statements = Vec::new(alloc);
    'turns: for j in 1..n + 1 {
        statements.push(statement(alloc, j))?;
    }
    Ok(statements)
}

/// A statement by its number.
fn statement(alloc: Global, j: u32) -> Stmt
    ensures { result ≡ spec.statement j }
{
    Stmt {
        act: act(j),
        aux: Items::new(alloc),
    }
}

fn act(j: u32) -> Act
    ensures { result ≡ roll-Act (spec.act j) }
{
    match j % 3 {
        1 => store(X),
        2 => Act::Flush { location: X },
        _ => store(Y),
    }
}

/// A store of 1.
fn store(location: u8) -> Act
    ensures { result ≡ roll-Act (Store location spec.one) }
{
    Act::Store {
        location,
        expr: Expr::Value(1),
    }
}
