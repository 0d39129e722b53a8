//! Programs that were built: well-formed names and threads, with a point before each statement and one at the
//! end of each thread, and the steps between the points.

ghost use Rattle.std.specs.Prelude.{◌≡◌, ℕ, ◌+◌, ◌++◌, ◌∷◌, [], ◌<◌, ◌≤◌, List, length, map, slice_index_or, All, OnOk, IfOk};
ghost use Rattle.std.specs.Option.{option_copied};
ghost use Rattle.pg_program.specs.Limits.{most_threads, most_points};
ghost use Rattle.pg_program.specs.Straight.{store_of};
ghost use Rattle.pg_program.specs.Block.{block};
ghost use Rattle.pg_program.specs.Fault.{first_fault};
ghost use Rattle.pg_program.specs.Outcome.{Finds};
ghost use Rattle.pg_program.specs.Program.{AreThreads};
ghost use Rattle.pg_program.specs.Graph.{size, into, exit_of, steps, own_steps, is_test, is_loop, thread_steps, graphs};

use crate::block::{Node, count, nth, opened};
use crate::clause::check;
use crate::fault::ProgramFault;
use crate::name_table::Names;
use crate::point::{Branch, PointId, Step};
use crate::syntax::{Act, Expr, Stmt};
use std::alloc::{AllocError, Global};
use std::marker::Model;

/// The steps from a point, at most two.
type Steps = Vec<Step>;

/// A well-formed program.
#[derive(Drop)]
pub struct Program {
    names: Names,
    threads: Vec<Vec<Stmt>>,
    graph: Vec<Vec<Steps>>,
}

impl Model for Program {
    ghost use Rattle.std.specs.Prelude.{map, ◌≡◌};
    ghost use Rattle.std.specs.Coded.{codes};
    ghost use Rattle.pg_program.specs.contracts.syntax.Stmt as stmt;
    ghost use Rattle.pg_program.specs.Graph.{graphs};
    ghost use Rattle.pg_program.specs.Program.{ProgramTable, IsProgram};

    ghost Value = { ProgramTable };

    ghost coded = { Prim.hlevel (codes, stmt.the_row.coded) };

    ghost view = { λ p. record { names = p.names; threads = map (λ t. t.items) p.threads.items } };

    ghost invariant = { λ p. IsProgram (record { names = p.names; threads = map (λ t. t.items) p.threads.items }) × (map (λ t. map (λ s. s.items) t.items) p.graph.items ≡ graphs 1 (map (λ t. t.items) p.threads.items)) };
}

impl Program {
    ghost use Rattle.pg_program.specs.Program.{ProgramTable, IsProgram, AreThreads, thread_of, points, stmt_at, steps_at};
    ghost use Rattle.pg_program.specs.Outcome.{Builds};

    /// The program of these names and statements, or their first fault.
    pub fn build(
        alloc: Global,
        names: Names,
        threads: Vec<Vec<Stmt>>,
    ) -> Result<Program, ProgramFault>
        requires { AreThreads names (map (λ t. t.items) threads.items) }
        ensures { Builds names (map (λ t. t.items) threads.items) result }
    {
        match checked_graph(alloc, &names, &threads) {
            Ok(graph) => Ok(Program {
                names,
                threads,
                graph,
            }),
            Err(fault) => Err(fault),
        }
    }

    /// The declared names.
    pub fn names(&self) -> &Names
        ensures names { result.now ≡ self.now.names }
        ensures built { IsProgram self.now }
    {
        &self.names
    }

    /// The number of threads.
    pub fn threads(&self) -> u8
        ensures count { result ≡ length self.now.threads }
        ensures few { result ≤ most_threads }
    {
        self.threads.len() as u8
    }

    /// The number of a thread's points: one before each statement, and one at the end.
    pub fn points(&self, thread: u8) -> u8
        requires { (1 ≤ thread) × (thread ≤ length self.now.threads) }
        ensures count { result ≡ points self.now thread }
        ensures few { result ≤ most_points }
    {
        count(self.thread(thread)) + 1
    }

    /// The steps from a point: none at the thread's end, one at a statement, and Yes then No at a test.
    pub fn steps(&self, at: PointId) -> &[Step]
        requires thread { (1 ≤ at.thread) × (at.thread ≤ length self.now.threads) }
        requires point { (1 ≤ at.point) × (at.point ≤ points self.now at.thread) }
        ensures { result.now ≡ steps_at self.now at.thread at.point }
    {
        steps_of(
            &self.graph,
            usize::from(at.thread) - 1,
            usize::from(at.point) - 1,
        )
    }

    /// The statement at a point, or `None` at the thread's end.
    pub fn stmt(&self, at: PointId) -> Option<&Stmt>
        requires thread { (1 ≤ at.thread) × (at.thread ≤ length self.now.threads) }
        requires point { (1 ≤ at.point) × (at.point ≤ points self.now at.thread) }
        ensures { option_copied result ≡ stmt_at self.now at.thread at.point }
    {
        nth(self.thread(at.thread), at.point - 1)
    }

    /// The statements of a thread in the order of the text, with those of their blocks inside them.
    pub fn thread(&self, thread: u8) -> &[Stmt]
        requires { (1 ≤ thread) × (thread ≤ length self.now.threads) }
        ensures stmts { result.now ≡ thread_of self.now thread }
        ensures short { size (block result.now) < most_points }
    {
        self.threads[usize::from(thread) - 1].as_slice()
    }
}

/// The location and the number of a statement that is a store of a number without a bracket, and `None` for any
/// other statement.
pub fn store_of(stmt: &Stmt) -> Option<(u8, u32)>
    ensures { result ≡ store_of stmt.now }
{
    if stmt.aux.len() > 0 {
        return None;
    }
    match &stmt.act {
        Act::Store {
            location,
            expr: Expr::Value(v),
        } => Some((*location, *v)),
        _ => None,
    }
}

/// The steps at a place of a thread, both from 0, and none after its last statement.
fn steps_of(graph: &[Vec<Steps>], thread: usize, place: usize) -> &[Step]
    requires { thread < length graph.now }
    ensures { result.now ≡ slice_index_or (slice_index_or (map (λ t. map (λ s. s.items) t.items) graph.now) thread []) place [] }
{
    match graph[thread].get(place) {
        Some(steps) => steps.as_slice(),
        None => &[],
    }
}

/// The steps from each point of each thread, where names and threads have no fault, and else their first fault.
fn checked_graph(
    alloc: Global,
    names: &Names,
    threads: &[Vec<Stmt>],
) -> Result<Vec<Vec<Steps>>, ProgramFault>
    requires { AreThreads names.now (map (λ t. t.items) threads.now) }
    ensures fault { Finds (first_fault names.now (map (λ t. t.items) threads.now)) result }
    ensures graph { IfOk result (λ g. map (λ t. map (λ s. s.items) t.items) g.items ≡ graphs 1 (map (λ t. t.items) threads.now)) }
{
    check(alloc, names, threads)?;
    Ok(linked(alloc, threads)?)
}

/// The steps from each point of each thread.
fn linked(alloc: Global, threads: &[Vec<Stmt>]) -> Result<Vec<Vec<Steps>>, AllocError>
    requires few { length threads.now ≤ most_threads }
    requires short { All (λ ss. size (block ss) < most_points) (map (λ t. t.items) threads.now) }
    ensures { IfOk result (λ g. map (λ t. map (λ s. s.items) t.items) g.items ≡ graphs 1 (map (λ t. t.items) threads.now)) }
{
    let mut graph = Vec::new(alloc);
    for stmts in threads {
        let thread = graph.len() as u8 + 1;
        graph.push(thread_steps(alloc, thread, stmts)?)?;
    }
    Ok(graph)
}

/// The steps from each point of a thread.
fn thread_steps(alloc: Global, thread: u8, stmts: &[Stmt]) -> Result<Vec<Steps>, AllocError>
    requires { size (block stmts.now) < most_points }
    ensures { IfOk result (λ g. map (λ s. s.items) g.items ≡ thread_steps thread stmts.now) }
{
    let mut graph = Vec::new(alloc);
    link(alloc, thread, 1, count(stmts) + 1, stmts, &mut graph)?;
    Ok(graph)
}

/// Appends the steps from each point of a block, which begins at point `first` and leads to point `exit` at its end.
fn link(
    alloc: Global,
    thread: u8,
    first: u8,
    exit: u8,
    stmts: &[Stmt],
    graph: &mut Vec<Steps>,
) -> Result<(), AllocError>
    requires { first + size (block stmts.now) < 256 }
    ensures { OnOk result (map (λ s. s.items) graph.new.items ≡ map (λ s. s.items) graph.old.items ++ steps thread first exit (block stmts.now)) }
{
    let node = match opened(stmts) {
        Some(node) => node,
        None => return Ok(()),
    };
    let to = leads(&node, first, exit);
    let at = PointId {
        thread,
        point: first,
    };
    push_steps(alloc, node.stmt, at, to.yes, to.no, to.next, graph)?;
    link(alloc, thread, first + 1, to.back, node.first, graph)?;
    link(alloc, thread, to.second, to.next, node.second, graph)?;
    link(alloc, thread, to.later, exit, node.rest, graph)
}

/// Where the second block within a block's first statement begins, and where the rest of the block does; then what is
/// next after the statement, where control goes from the end of its first block, and where its test leads.
#[derive(Clone, Copy)]
struct Targets {
    second: u8,
    later: u8,
    next: u8,
    back: u8,
    yes: u8,
    no: u8,
}

/// Where a block leads that begins at point `first`, and from whose end control goes to point `exit`.
fn leads(node: &Node<'_>, first: u8, exit: u8) -> Targets
    requires { first + (1 + size (block node.now.first.now) + size (block node.now.second.now) + size (block node.now.rest.now)) < 256 }
    ensures second { result.second ≡ first + 1 + size (block node.now.first.now) }
    ensures later { result.later ≡ result.second + size (block node.now.second.now) }
    ensures next { result.next ≡ into (block node.now.rest.now) result.later exit }
    ensures back { result.back ≡ exit_of (is_loop node.now.stmt.now) first result.next }
    ensures yes { result.yes ≡ into (block node.now.first.now) (first + 1) result.back }
    ensures no { result.no ≡ into (block node.now.second.now) result.second result.next }
{
    let second = first + 1 + count(node.first);
    let later = second + count(node.second);
    let next = entry(node.rest, later, exit);
    let back = if is_loop(node.stmt) { first } else { next };
    let yes = entry(node.first, first + 1, back);
    let no = entry(node.second, second, next);
    Targets {
        second,
        later,
        next,
        back,
        yes,
        no,
    }
}

/// Appends the steps of a statement.
fn push_steps(
    alloc: Global,
    stmt: &Stmt,
    at: PointId,
    yes: u8,
    no: u8,
    next: u8,
    graph: &mut Vec<Steps>,
) -> Result<(), AllocError>
    ensures { OnOk result (map (λ s. s.items) graph.new.items ≡ map (λ s. s.items) graph.old.items ++ own_steps (is_test stmt.now) at.thread at.point yes no next ∷ []) }
{
    graph.push(own_steps(alloc, stmt, at, yes, no, next)?)?;
    Ok(())
}

/// The point that control comes to with a block: the block's first one, or, where it is empty, the one after it.
fn entry(stmts: &[Stmt], first: u8, exit: u8) -> u8
    ensures { result ≡ into (block stmts.now) first exit }
{
    match opened(stmts) {
        Some(_) => first,
        None => exit,
    }
}

/// The steps of a statement: of a test to its two targets, and of another statement to what is next.
fn own_steps(
    alloc: Global,
    stmt: &Stmt,
    at: PointId,
    yes: u8,
    no: u8,
    next: u8,
) -> Result<Steps, AllocError>
    ensures { IfOk result (λ s. s.items ≡ own_steps (is_test stmt.now) at.thread at.point yes no next) }
{
    let mut steps = Vec::new(alloc);
    if is_test(stmt) {
        steps.push(step(at, Branch::Yes, yes))?;
        steps.push(step(at, Branch::No, no))?;
    } else {
        steps.push(step(at, Branch::Plain, next))?;
    }
    Ok(steps)
}

fn step(at: PointId, branch: Branch, target: u8) -> Step
    ensures { result ≡ record { thread = at.thread; point = at.point; branch = branch; target = target } }
{
    Step {
        thread: at.thread,
        point: at.point,
        branch,
        target,
    }
}

/// Whether a statement is an `if` or a `while`.
pub fn is_test(stmt: &Stmt) -> bool
    ensures { result ≡ is_test stmt.now }
{
    matches!(stmt.act, Act::If { .. } | Act::While { .. })
}

fn is_loop(stmt: &Stmt) -> bool
    ensures { result ≡ is_loop stmt.now }
{
    matches!(stmt.act, Act::While { .. })
}
