//! The erasure of auxiliaries: an outline's program without auxiliaries and brackets.

ghost use Rattle.std.specs.Prelude.{◌≡◌, ◌<◌, length, map, IfOk, OnOk, None, false};
ghost use Rattle.pg_program.specs.NameTable.{find, is_full, with_name, MayJoin, IsNameTable};
ghost use Rattle.pg_program.specs.Program.{IsProgram};
ghost use Rattle.pg_outline.specs.Erasure.{erased, erased_names, erased_stmt, erased_act, moved, moved_test, new_place, first_locations, DeclaresAgain};

use crate::outline::Outline;
use pg_program::{
    Act, Cond, DeclareFault, Expr, NameKind, Names, Program, ProgramFault, Stmt, beside,
};
use sqlite_items::{Boxed, Items};
use std::alloc::{AllocError, Global};

/// The program of an outline without auxiliaries and brackets. Its version and its locations stay, each on its line. The
/// registers keep their order, and each of them has as its number how many registers stand before it.
pub fn erase(alloc: Global, o: &Outline) -> Result<Program, AllocError>
    ensures { IfOk result (λ p. p ≡ erased o.now.program) }
{
    erased_program(alloc, o.program())
}

/// A program without auxiliaries and brackets.
fn erased_program(alloc: Global, program: &Program) -> Result<Program, AllocError>
    ensures { IfOk result (λ p. p ≡ erased program.now) }
{
    let names = erased_names(alloc, program.names())?;
    let (names, threads) = beside(names, erased_threads(alloc, program))?;
    built(alloc, names, threads)
}

/// The program of names and threads that have no fault.
fn built(alloc: Global, names: Names, threads: Vec<Vec<Stmt>>) -> Result<Program, AllocError>
    requires { IsProgram (record { names = names; threads = map (λ t. t.items) threads.items }) }
    ensures { IfOk result (λ p. p ≡ record { names = names; threads = map (λ t. t.items) threads.items }) }
{
    match Program::build(alloc, names, threads) {
        Ok(program) => Ok(program),
        Err(fault) => match fault {
            ProgramFault::NoMemory => Err(AllocError),
            _ => unreachable!(),
        },
    }
}

// ---- names

/// The names without the auxiliaries.
fn erased_names(alloc: Global, names: &Names) -> Result<Names, AllocError>
    ensures { IfOk result (λ n. n ≡ erased_names names.now) }
{
    let mut kept = Names::make(alloc, names.domain(), names.version());
    let declared = declare_kept(&mut kept, names);
    let (kept, ()) = beside(kept, declared)?;
    Ok(kept)
}

/// Declares the names that stay: all locations, and then the registers.
fn declare_kept(kept: &mut Names, names: &Names) -> Result<(), AllocError>
    requires { kept.old ≡ first_locations 0 names.now }
    ensures { OnOk result (kept.new ≡ erased_names names.now) }
{
    declare_locations(kept, names)?;
    declare_registers(kept, names)
}

/// Declares the locations, each on its line.
fn declare_locations(kept: &mut Names, names: &Names) -> Result<(), AllocError>
    requires { kept.old ≡ first_locations 0 names.now }
    ensures declared { OnOk result (kept.new ≡ first_locations (length names.now.locations) names.now) }
    ensures names { IsNameTable names.now }
{
    for x in 0..names.locations() {
        let kind = location_kind(names, x);
        declare(kept, names.location_name(x), kind)?;
    }
    Ok(())
}

/// Declares the registers behind the locations.
fn declare_registers(kept: &mut Names, names: &Names) -> Result<(), AllocError>
    requires names { IsNameTable names.now }
    requires locations { kept.old ≡ first_locations (length names.now.locations) names.now }
    ensures { OnOk result (kept.new ≡ erased_names names.now) }
{
    for r in 0..names.scalars() {
        if let NameKind::Register { owner } = names.kind(r) {
            declare(kept, names.scalar_name(r), NameKind::Register { owner })?;
        }
    }
    Ok(())
}

/// What a location is declared as: it stands on the line of the one before it, or begins a line.
fn location_kind(names: &Names, x: u8) -> NameKind
    requires names { IsNameTable names.now }
    requires place { x < length names.now.locations }
    ensures { DeclaresAgain names.now x result }
{
    let init = names.init(x);
    if x > 0 && names.line(x) == names.line(x - 1) {
        NameKind::LocationWith { init }
    } else {
        NameKind::Location { init }
    }
}

/// Declares a name that is new, where there is room for it.
fn declare(names: &mut Names, name: &str, kind: NameKind) -> Result<(), AllocError>
    requires absent { find name.now names.old ≡ None }
    requires room { is_full kind names.old ≡ false }
    requires join { MayJoin kind names.old }
    ensures { OnOk result (names.new ≡ with_name name.now kind names.old) }
{
    match names.declare(name, kind) {
        Ok(_) => Ok(()),
        Err(DeclareFault::NoMemory) => Err(AllocError),
        Err(DeclareFault::Redeclared | DeclareFault::TooMany) => unreachable!(),
    }
}

/// The new place of a register: how many registers stand before it.
fn new_place(names: &Names, r: u8) -> u8
    ensures { result ≡ new_place names.now r }
{
    let mut place = 0;
    for q in 0..names.scalars().min(r) {
        if let NameKind::Register { .. } = names.kind(q) {
            place += 1;
        }
    }
    place
}

// ---- statements

/// An expression with each register at its new place.
#[cycle(moved)]
fn moved(alloc: Global, names: &Names, e: &Expr) -> Result<Expr, AllocError>
    ensures { IfOk result (λ c. c ≡ moved (new_place names.now) e.now) }
{
    Ok(match e {
        Expr::Value(v) => Expr::Value(*v),
        Expr::Scalar(r) => Expr::Scalar(new_place(names, *r)),
        Expr::Add(a, b) => {
            let a = moved_operand(alloc, names, a.get())?;
            let (a, b) = beside(a, moved_operand(alloc, names, b.get()))?;
            Expr::Add(a, b)
        }
        Expr::Sub(a, b) => {
            let a = moved_operand(alloc, names, a.get())?;
            let (a, b) = beside(a, moved_operand(alloc, names, b.get()))?;
            Expr::Sub(a, b)
        }
        Expr::Mul(a, b) => {
            let a = moved_operand(alloc, names, a.get())?;
            let (a, b) = beside(a, moved_operand(alloc, names, b.get()))?;
            Expr::Mul(a, b)
        }
    })
}

/// An operand of an expression.
#[cycle(moved)]
fn moved_operand(alloc: Global, names: &Names, e: &Expr) -> Result<Boxed<Expr>, AllocError>
    ensures { IfOk result (λ c. c ≡ moved (new_place names.now) e.now) }
{
    Boxed::new(alloc, moved(alloc, names, e)?)
}

/// A test with each register at its new place.
fn moved_test(alloc: Global, names: &Names, test: &Cond) -> Result<Cond, AllocError>
    ensures { IfOk result (λ c. c ≡ moved_test (new_place names.now) test.now) }
{
    let left = moved(alloc, names, &test.left)?;
    let (left, right) = beside(left, moved(alloc, names, &test.right))?;
    Ok(Cond {
        left,
        right,
        equal: test.equal,
    })
}

/// An assignment with each register at its new place.
fn moved_assign(alloc: Global, names: &Names, target: u8, expr: &Expr) -> Result<Act, AllocError>
    ensures { IfOk result (λ a. a ≡ Act.Assign (new_place names.now target) (moved (new_place names.now) expr.now)) }
{
    let expr = moved(alloc, names, expr)?;
    let target = new_place(names, target);
    Ok(Act::Assign { target, expr })
}

/// A store with each register at its new place.
fn moved_store(alloc: Global, names: &Names, location: u8, expr: &Expr) -> Result<Act, AllocError>
    ensures { IfOk result (λ a. a ≡ Act.Store location (moved (new_place names.now) expr.now)) }
{
    let expr = moved(alloc, names, expr)?;
    Ok(Act::Store { location, expr })
}

/// A compare-and-swap with each register at its new place.
fn moved_cas(
    alloc: Global,
    names: &Names,
    target: u8,
    location: u8,
    expected: &Expr,
    desired: &Expr,
) -> Result<Act, AllocError>
    ensures { IfOk result (λ a. a ≡ Act.Cas (new_place names.now target) location (moved (new_place names.now) expected.now) (moved (new_place names.now) desired.now)) }
{
    let expected = moved(alloc, names, expected)?;
    let desired = moved(alloc, names, desired)?;
    let target = new_place(names, target);
    Ok(Act::Cas {
        target,
        location,
        expected,
        desired,
    })
}

/// A choice between erased blocks, with each register of its test at its new place.
fn moved_if(
    alloc: Global,
    names: &Names,
    test: &Cond,
    yes: Vec<Stmt>,
    no: Vec<Stmt>,
) -> Result<Act, AllocError>
    ensures { IfOk result (λ a. a ≡ Act.If (moved_test (new_place names.now) test.now) yes.items no.items) }
{
    let test = moved_test(alloc, names, test)?;
    Ok(Act::If {
        test,
        yes: Items::from_vec(yes),
        no: Items::from_vec(no),
    })
}

/// A loop over an erased block, with each register of its test at its new place.
fn moved_while(
    alloc: Global,
    names: &Names,
    test: &Cond,
    body: Vec<Stmt>,
) -> Result<Act, AllocError>
    ensures { IfOk result (λ a. a ≡ Act.While (moved_test (new_place names.now) test.now) body.items) }
{
    let (body, test) = beside(body, moved_test(alloc, names, test))?;
    Ok(Act::While {
        test,
        body: Items::from_vec(body),
    })
}

/// The statements of each thread without brackets.
fn erased_threads(alloc: Global, program: &Program) -> Result<Vec<Vec<Stmt>>, AllocError>
    ensures { IfOk result (λ ts. map (λ t. t.items) ts.items ≡ map (map (erased_stmt (new_place program.now.names))) program.now.threads) }
{
    let mut threads = Vec::new(alloc);
    for t in 0..program.threads() {
        threads.push(erased_block(alloc, program.names(), program.thread(t + 1))?)?;
    }
    Ok(threads)
}

/// The statements of a block without brackets.
#[cycle(erased)]
fn erased_block(alloc: Global, names: &Names, stmts: &[Stmt]) -> Result<Vec<Stmt>, AllocError>
    ensures { IfOk result (λ v. v.items ≡ map (erased_stmt (new_place names.now)) stmts.now) }
{
    let mut block = Vec::new(alloc);
    'stmts: for stmt in stmts {
        block.push(erased_stmt(alloc, names, stmt)?)?;
    }
    Ok(block)
}

/// A statement without its bracket and those within it.
#[cycle(erased)]
fn erased_stmt(alloc: Global, names: &Names, stmt: &Stmt) -> Result<Stmt, AllocError>
    ensures { IfOk result (λ s. s ≡ erased_stmt (new_place names.now) stmt.now) }
{
    Ok(Stmt {
        act: erased_act(alloc, names, &stmt.act)?,
        aux: Items::new(alloc),
    })
}

/// What a statement does, with each register at its new place.
#[cycle(erased)]
fn erased_act(alloc: Global, names: &Names, act: &Act) -> Result<Act, AllocError>
    ensures { IfOk result (λ a. a ≡ erased_act (new_place names.now) act.now) }
{
    match act {
        Act::Assign { target, expr } => moved_assign(alloc, names, *target, expr),
        Act::Store { location, expr } => moved_store(alloc, names, *location, expr),
        Act::Load { target, location } => Ok(Act::Load {
            target: new_place(names, *target),
            location: *location,
        }),
        Act::Cas {
            target,
            location,
            expected,
            desired,
        } => moved_cas(alloc, names, *target, *location, expected, desired),
        Act::Mfence => Ok(Act::Mfence),
        Act::Sfence => Ok(Act::Sfence),
        Act::Flush { location } => Ok(Act::Flush {
            location: *location,
        }),
        Act::Flushopt { location } => Ok(Act::Flushopt {
            location: *location,
        }),
        Act::If { test, yes, no } => {
            let yes = erased_block(alloc, names, yes.as_slice())?;
            let no = erased_block(alloc, names, no.as_slice())?;
            moved_if(alloc, names, test, yes, no)
        }
        Act::While { test, body } => {
            let body = erased_block(alloc, names, body.as_slice())?;
            moved_while(alloc, names, test, body)
        }
    }
}
