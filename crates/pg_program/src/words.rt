//! What stands in a statement, in the order of the text.

ghost use Rattle.std.specs.Prelude.{[], ◌≡◌, ◌++◌, length, map, OnOk, IfOk};
ghost use Rattle.std.specs.List.{find, list_any};
ghost use Rattle.pg_program.specs.declared.syntax.Act.{out-Act};
ghost use Rattle.pg_program.specs.Expr.{reads, numbers};
ghost use Rattle.pg_program.specs.Fault.{first_outside};
ghost use Rattle.pg_program.specs.Clause.{is_sought};
ghost use Rattle.pg_program.specs.Words.{outside, scalars_of, numbers_of, numbers_in, repeated, bracket_scalars, bracket_numbers, groups, groups_in, different, is_in, is_wide};

use crate::block::split;
use crate::expr::{append_reads, number_outside, sought_in};
use crate::name_table::Names;
use crate::sought::{Sought, if_sought};
use crate::syntax::{Act, AuxAssign, Cond, Expr, Stmt};
use std::alloc::{AllocError, Global};

/// How many different names an expression may read, or both sides of a test together.
const MAX_NAMES: usize = 4;

/// The first scalar of a statement that is sought. Those of its bracket stand last.
pub fn sought_in_stmt(stmt: &Stmt, names: &Names, sought: Sought) -> Option<u8>
    ensures { result ≡ find (is_sought sought names.now) (scalars_of stmt.now) }
{
    sought_outside(stmt, names, sought).or(sought_in_bracket(stmt.aux.as_slice(), names, sought))
}

/// The first scalar outside a statement's bracket that is sought.
pub fn sought_outside(stmt: &Stmt, names: &Names, sought: Sought) -> Option<u8>
    ensures { result ≡ find (is_sought sought names.now) (outside stmt.now) }
{
    match &stmt.act {
        Act::Assign { target, expr } => {
            if_sought(*target, names, sought).or(sought_in(expr, names, sought))
        }
        Act::Store { expr, .. } => sought_in(expr, names, sought),
        Act::Load { target, .. } => if_sought(*target, names, sought),
        Act::Cas {
            target,
            expected,
            desired,
            ..
        } => if_sought(*target, names, sought).or(sought_in_both(expected, desired, names, sought)),
        Act::If { test, .. } | Act::While { test, .. } => {
            sought_in_both(&test.left, &test.right, names, sought)
        }
        Act::Mfence | Act::Sfence | Act::Flush { .. } | Act::Flushopt { .. } => None,
    }
}

fn sought_in_both(a: &Expr, b: &Expr, names: &Names, sought: Sought) -> Option<u8>
    ensures { result ≡ find (is_sought sought names.now) (reads a.now ++ reads b.now) }
{
    sought_in(a, names, sought).or(sought_in(b, names, sought))
}

fn sought_in_bracket(aux: &[AuxAssign], names: &Names, sought: Sought) -> Option<u8>
    ensures { result ≡ find (is_sought sought names.now) (bracket_scalars aux.now) }
{
    let (assign, rest) = split(aux)?;
    if_sought(assign.target, names, sought)
        .or(sought_in(&assign.expr, names, sought))
        .or(sought_in_bracket(rest, names, sought))
}

/// The first target of a bracket that stands again among those before it.
pub fn repeated_target(aux: &[AuxAssign]) -> Option<u8>
    ensures { result ≡ repeated [] (map (λ a. a.target) aux.now) }
{
    for (i, assign) in aux.iter().enumerate() {
        if is_target(assign.target, &aux[..i]) {
            return Some(assign.target);
        }
    }
    None
}

fn is_target(r: u8, aux: &[AuxAssign]) -> bool
    ensures { result ≡ is_in r (map (λ a. a.target) aux.now) }
{
    match split(aux) {
        Some((assign, rest)) => assign.target == r || is_target(r, rest),
        None => false,
    }
}

/// The first number of a statement that is not below the size of the domain. Those of its bracket stand last.
pub fn number_outside_in(stmt: &Stmt, domain: u32) -> Option<u32>
    ensures { result ≡ first_outside domain (numbers_of stmt.now) }
{
    number_of_act(&stmt.act, domain).or(number_of_bracket(stmt.aux.as_slice(), domain))
}

fn number_of_act(act: &Act, domain: u32) -> Option<u32>
    ensures { result ≡ first_outside domain (numbers_in (out-Act act.now)) }
{
    match act {
        Act::Assign { expr, .. } | Act::Store { expr, .. } => number_outside(expr, domain),
        Act::Cas {
            expected,
            desired,
            ..
        } => number_of_both(expected, desired, domain),
        Act::If { test, .. } | Act::While { test, .. } => {
            number_of_both(&test.left, &test.right, domain)
        }
        Act::Load { .. } | Act::Mfence | Act::Sfence | Act::Flush { .. } | Act::Flushopt { .. } =>
            None,
    }
}

fn number_of_both(a: &Expr, b: &Expr, domain: u32) -> Option<u32>
    ensures { result ≡ first_outside domain (numbers a.now ++ numbers b.now) }
{
    number_outside(a, domain).or(number_outside(b, domain))
}

fn number_of_bracket(aux: &[AuxAssign], domain: u32) -> Option<u32>
    ensures { result ≡ first_outside domain (bracket_numbers aux.now) }
{
    let (assign, rest) = split(aux)?;
    number_outside(&assign.expr, domain).or(number_of_bracket(rest, domain))
}

/// Whether some expression, or both sides of a test together, read more than four names.
pub fn reads_many(alloc: Global, stmt: &Stmt) -> Result<bool, AllocError>
    ensures { IfOk result (λ b. b ≡ list_any is_wide (groups stmt.now)) }
{
    if act_reads_many(alloc, &stmt.act)? {
        return Ok(true);
    }
    bracket_reads_many(alloc, stmt.aux.as_slice())
}

fn act_reads_many(alloc: Global, act: &Act) -> Result<bool, AllocError>
    ensures { IfOk result (λ b. b ≡ list_any is_wide (groups_in (out-Act act.now))) }
{
    match act {
        Act::Assign { expr, .. } | Act::Store { expr, .. } => is_wide(alloc, expr),
        Act::Cas {
            expected,
            desired,
            ..
        } => {
            if is_wide(alloc, expected)? {
                return Ok(true);
            }
            is_wide(alloc, desired)
        }
        Act::If { test, .. } | Act::While { test, .. } => is_wide_test(alloc, test),
        Act::Load { .. } | Act::Mfence | Act::Sfence | Act::Flush { .. } | Act::Flushopt { .. } =>
            Ok(false),
    }
}

fn bracket_reads_many(alloc: Global, aux: &[AuxAssign]) -> Result<bool, AllocError>
    ensures { IfOk result (λ b. b ≡ list_any is_wide (map (λ a. reads a.expr) aux.now)) }
{
    for assign in aux {
        if is_wide(alloc, &assign.expr)? {
            return Ok(true);
        }
    }
    Ok(false)
}

/// Whether an expression reads more than four names.
fn is_wide(alloc: Global, expr: &Expr) -> Result<bool, AllocError>
    ensures { IfOk result (λ b. b ≡ is_wide (reads expr.now)) }
{
    let mut names = Vec::new(alloc);
    append_reads(expr, &mut names)?;
    Ok(different(&names) > MAX_NAMES)
}

/// Whether both sides of a test together read more than four names.
fn is_wide_test(alloc: Global, test: &Cond) -> Result<bool, AllocError>
    ensures { IfOk result (λ b. b ≡ is_wide (reads test.now.left ++ reads test.now.right)) }
{
    let mut names = Vec::new(alloc);
    append_reads(&test.left, &mut names)?;
    append_reads(&test.right, &mut names)?;
    Ok(different(&names) > MAX_NAMES)
}

/// Whether a number stands among others.
fn stands_in(n: u8, numbers: &[u8]) -> bool
    ensures { result ≡ is_in n numbers.now }
{
    numbers.iter().any(|q| *q == n)
}

/// How many different numbers there are.
fn different(numbers: &[u8]) -> usize
    ensures { result ≡ length (different numbers.now) }
{
    let mut count = 0;
    for (i, n) in numbers.iter().enumerate() {
        if !stands_in(*n, &numbers[i + 1..]) {
            count += 1;
        }
    }
    count
}
