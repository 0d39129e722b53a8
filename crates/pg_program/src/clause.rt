//! The clauses that names and threads are to meet, in their order.

ghost use Rattle.std.specs.Prelude.{◌≡◌, ◌++◌, ◌<◌, [], length, map, All, OnOk, IfOk, IfSome, string_bytes, option_map};
ghost use Rattle.std.specs.List.{find, list_any};
ghost use Rattle.pg_program.specs.NameTable.{NameTable, initial, is_foreign, is_auxiliary, scalar_name};
ghost use Rattle.pg_program.specs.declared.point.PointId.{PointId};
ghost use Rattle.pg_program.specs.Block.{block};
ghost use Rattle.pg_program.specs.Graph.{size, statements};
ghost use Rattle.pg_program.specs.Fault.{first_fault, in_thread, in_threads, domain_fault, unknown_owner, first_outside, own_registers, no_auxiliaries, distinct_targets, numbers_inside, few_names, unknown_thread, value_out_of_domain};
ghost use Rattle.pg_program.specs.Words.{repeated, different, scalars_of, outside, targets, numbers_of, groups};
ghost use Rattle.pg_program.specs.Clause.{clause_of};
ghost use Rattle.pg_program.specs.Program.{AreThreads, IsThread, IsStmt};
ghost use Rattle.pg_program.specs.Outcome.{Finds};

use crate::block::{count, nth};
use crate::fault::ProgramFault;
use crate::name_table::{NameKind, Names};
use crate::point::PointId;
use crate::sought::Sought;
use crate::syntax::Stmt;
use crate::words::{
    number_outside_in, reads_many, repeated_target, sought_in_stmt, sought_outside,
};
use std::alloc::{AllocError, Global};

/// How many values a domain has at least.
const MIN_DOMAIN: u32 = 2;

/// How many values a domain has at most in version 1 of the language.
const MAX_DOMAIN: u32 = 4;

/// How many values a domain has at most in version 2.
const MAX_DOMAIN_2: u32 = 6;

/// The clauses that go through the text.
#[derive(Clone, Copy)]
pub enum Clause {
    /// A thread uses its own registers alone.
    OwnRegisters,
    /// No auxiliary stands outside a bracket.
    NoAuxiliaries,
    /// The targets of a bracket differ.
    DistinctTargets,
    /// Each number of an expression is in the domain.
    NumbersInside,
    /// No expression and no test reads more than four names.
    FewNames,
}

/// The first fault of names and threads, as an error.
pub fn check(alloc: Global, names: &Names, threads: &[Vec<Stmt>]) -> Result<(), ProgramFault>
    requires { AreThreads names.now (map (λ t. t.items) threads.now) }
    ensures { Finds (first_fault names.now (map (λ t. t.items) threads.now)) result }
{
    check_domain(names)?;
    check_owners(names, threads.len() as u32)?;
    check_text(alloc, Clause::OwnRegisters, names, threads)?;
    check_text(alloc, Clause::NoAuxiliaries, names, threads)?;
    check_text(alloc, Clause::DistinctTargets, names, threads)?;
    check_initial(names)?;
    check_text(alloc, Clause::NumbersInside, names, threads)?;
    check_text(alloc, Clause::FewNames, names, threads)
}

/// A domain has two to four values in version 1 of the language, and two to six in version 2.
fn check_domain(names: &Names) -> Result<(), ProgramFault>
    ensures { Finds (domain_fault names.now.version names.now.domain) result }
{
    let size = names.domain();
    let largest = if names.version() == 1 {
        MAX_DOMAIN
    } else {
        MAX_DOMAIN_2
    };
    if (MIN_DOMAIN..=largest).contains(&size) {
        Ok(())
    } else {
        Err(ProgramFault::DomainSize(size))
    }
}

/// The owner of each register is one of this many threads.
fn check_owners(names: &Names, threads: u32) -> Result<(), ProgramFault>
    ensures { Finds (option_map unknown_thread (unknown_owner threads names.now.scalars)) result }
{
    for r in 0..names.scalars() {
        if let NameKind::Register { owner } = names.kind(r) {
            if owner < 1 || threads < owner {
                return Err(ProgramFault::UnknownThread(owner));
            }
        }
    }
    Ok(())
}

/// Each initial value is in the domain.
fn check_initial(names: &Names) -> Result<(), ProgramFault>
    ensures { Finds (option_map value_out_of_domain (first_outside names.now.domain (initial names.now))) result }
{
    for x in 0..names.locations() {
        let init = names.init(x);
        if init >= names.domain() {
            return Err(ProgramFault::ValueOutOfDomain(init));
        }
    }
    Ok(())
}

/// Each statement of each thread meets the clause, in the order of the text.
fn check_text(
    alloc: Global,
    clause: Clause,
    names: &Names,
    threads: &[Vec<Stmt>],
) -> Result<(), ProgramFault>
    requires { AreThreads names.now (map (λ t. t.items) threads.now) }
    ensures { Finds (in_threads (clause_of clause names.now) 1 (map (λ t. t.items) threads.now)) result }
{
    for (i, stmts) in threads.iter().enumerate() {
        check_thread(alloc, clause, names, i as u8 + 1, stmts)?;
    }
    Ok(())
}

/// Each statement of a thread meets the clause, in the order of the text.
fn check_thread(
    alloc: Global,
    clause: Clause,
    names: &Names,
    thread: u8,
    stmts: &[Stmt],
) -> Result<(), ProgramFault>
    requires { IsThread names.now stmts.now }
    ensures { Finds (in_thread (clause_of clause names.now) thread 1 (statements (block stmts.now))) result }
{
    for place in 0..count(stmts) {
        let at = PointId {
            thread,
            point: place + 1,
        };
        match nth(stmts, place) {
            Some(stmt) => check_stmt(alloc, clause, names, at, stmt)?,
            None => unreachable!(),
        }
    }
    Ok(())
}

/// A statement meets the clause.
fn check_stmt(
    alloc: Global,
    clause: Clause,
    names: &Names,
    at: PointId,
    stmt: &Stmt,
) -> Result<(), ProgramFault>
    requires { IsStmt names.now stmt.now }
    ensures { Finds (clause_of clause names.now at stmt.now) result }
{
    match clause {
        Clause::OwnRegisters => own_registers(alloc, names, at, stmt),
        Clause::NoAuxiliaries => no_auxiliaries(alloc, names, stmt),
        Clause::DistinctTargets => distinct_targets(alloc, names, stmt),
        Clause::NumbersInside => numbers_inside(names, stmt),
        Clause::FewNames => few_names(alloc, at, stmt),
    }
}

fn own_registers(alloc: Global, names: &Names, at: PointId, stmt: &Stmt) -> Result<(), ProgramFault>
    ensures { Finds (own_registers names.now at stmt.now) result }
{
    let sought = Sought::Foreign { thread: at.thread };
    match sought_in_stmt(stmt, names, sought) {
        Some(r) => Err(ProgramFault::ForeignRegister(name_of(alloc, names, r)?)),
        None => Ok(()),
    }
}

fn no_auxiliaries(alloc: Global, names: &Names, stmt: &Stmt) -> Result<(), ProgramFault>
    ensures { (at : PointId) → Finds (no_auxiliaries names.now at stmt.now) result }
{
    match sought_outside(stmt, names, Sought::Auxiliary) {
        Some(r) => Err(ProgramFault::AuxInProgram(name_of(alloc, names, r)?)),
        None => Ok(()),
    }
}

fn distinct_targets(alloc: Global, names: &Names, stmt: &Stmt) -> Result<(), ProgramFault>
    requires { IsStmt names.now stmt.now }
    ensures { (at : PointId) → Finds (distinct_targets names.now at stmt.now) result }
{
    match repeated_target(stmt.aux.as_slice()) {
        Some(r) => Err(ProgramFault::AuxTwice(name_of(alloc, names, r)?)),
        None => Ok(()),
    }
}

fn numbers_inside(names: &Names, stmt: &Stmt) -> Result<(), ProgramFault>
    ensures { (at : PointId) → Finds (numbers_inside names.now at stmt.now) result }
{
    match number_outside_in(stmt, names.domain()) {
        Some(v) => Err(ProgramFault::ValueOutOfDomain(v)),
        None => Ok(()),
    }
}

fn few_names(alloc: Global, at: PointId, stmt: &Stmt) -> Result<(), ProgramFault>
    ensures { (names : NameTable) → Finds (few_names names at stmt.now) result }
{
    if reads_many(alloc, stmt)? {
        return Err(ProgramFault::ExpressionNames(at));
    }
    Ok(())
}

/// The name of a scalar.
fn name_of(alloc: Global, names: &Names, r: u8) -> Result<String, AllocError>
    requires { r < length names.now.scalars }
    ensures { IfOk result (λ name. string_bytes name ≡ scalar_name names.now r) }
{
    String::from_str(alloc, names.scalar_name(r))
}
