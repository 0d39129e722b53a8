//! States of the machine, and the step that an event leads to.

ghost use Rattle.std.specs.Prelude.{◌≡◌, ◌≢◌, ℕ, ◌+◌, ◌-◌, ◌<◌, ◌≤◌, length, replicate, slice_index, slice_index_or, Some, IfOk, IfErr, OnOk, OnErr};
ghost use Rattle.pg_program.specs.Program.{IsProgram, stmt_at};
ghost use Rattle.pg_machine.specs.Limits.{most_messages};
ghost use Rattle.pg_machine.specs.State.{fresh, fresh_views, point_of, coh_of, vpa_of, vpc_of, maxcoh, lcoh, AreSized, IsWellFormed};
ghost use Rattle.pg_machine.specs.Memory.{line_of};
ghost use Rattle.pg_program.specs.NameTable.{line_count};
ghost use Rattle.pg_machine.specs.Step.{views_of, IsStep};
ghost use Rattle.pg_machine.specs.Fault.{IsFault, ActFault};
ghost use Rattle.pg_machine.specs.Refusal.{IsRefusal, IsTaken};

use crate::event::Event;
use crate::fault::StepFault;
use crate::memory::Memory;
use crate::row::{branch_taken, run, step_of};
use crate::views::Views;
use pg_program::{PointId, Program, Stmt};
use std::alloc::{AllocError, Global};
use std::marker::Model;

/// A state of a program. Threads and points are numbered from 1; locations, lines and scalars from 0, in the order of
/// declaration. A position is 0 for the initial values, and else counts the messages from 1; each view is a position.
#[derive(Drop)]
pub struct State {
    memory: Memory,
    views: Vec<Views>,
    scalars: Vec<u8>,
    points: Vec<u8>,
}

impl Model for State {
    ghost use Rattle.std.specs.Prelude.{◌≡◌, ◌≤◌, All, length};
    ghost use Rattle.pg_machine.specs.State.{AreSized};
    ghost use Rattle.pg_machine.specs.Held.{Held};
    ghost use Rattle.pg_machine.specs.Limits.{most_messages};

    ghost Value = { Held };

    ghost view = { λ s. record {
      state = record { memory = s.memory.memory; views = s.views.items; scalars = s.scalars.items; points = s.points.items };
      spare = s.memory.spare;
    } };

    ghost invariant = { λ s. (length s.memory.memory.messages ≤ most_messages) × (length s.points.items ≡ length s.views.items) × All (AreSized s.memory.memory) s.views.items };
}

impl State {
    /// The fresh state of a program: no message, and each thread at its first point.
    pub fn fresh(alloc: Global, p: &Program) -> Result<State, AllocError>
        ensures state { IfOk result (λ s. s.state ≡ fresh p.now) }
        ensures formed { IfOk result (λ s. IsWellFormed p.now s.state) }
    {
        let names = p.names();
        let locations = usize::from(names.locations());
        let lines = usize::from(names.lines());
        let scalars = usize::from(names.scalars());
        let threads = usize::from(p.threads());
        let scalars = vec![in alloc; 0; scalars]?;
        let points = vec![in alloc; 1; threads]?;
        let views = fresh_views(alloc, threads, locations, lines)?;
        let memory = Memory::fresh(alloc, names)?;
        Ok(State {
            memory,
            views,
            scalars,
            points,
        })
    }

    /// Makes room for messages, which later steps take.
    pub fn reserve(&mut self, messages: u32) -> Result<(), AllocError>
        ensures state { self.new.state ≡ self.old.state }
        ensures room { OnOk result (messages ≤ self.new.spare) }
        ensures spare { self.old.spare ≤ self.new.spare }
    {
        self.memory.reserve(messages)
    }

    /// The point of a thread, both numbered from 1.
    pub fn point(&self, thread: u8) -> u8
        requires { (1 ≤ thread) × (thread ≤ length self.now.state.views) }
        ensures { result ≡ point_of self.now.state thread }
    {
        self.points[usize::from(thread) - 1]
    }

    /// The values of the scalars, numbered from 0 in the order of declaration.
    pub fn scalars(&self) -> &[u8]
        ensures { result.now ≡ self.now.state.scalars }
    {
        self.scalars.as_slice()
    }

    /// The memory: the initial values and the messages.
    pub fn memory(&self) -> &Memory
        ensures memory { result.now.memory ≡ self.now.state.memory }
        ensures spare { result.now.spare ≡ self.now.spare }
    {
        &self.memory
    }

    /// The number of messages.
    pub fn messages(&self) -> u32
        ensures count { result ≡ length self.now.state.memory.messages }
        ensures few { result ≤ most_messages }
    {
        self.memory.len()
    }

    /// The message at a position, counted from 1, with its location and value.
    pub fn message(&self, position: u32) -> (u8, u8)
        requires { (1 ≤ position) × (position ≤ length self.now.state.memory.messages) }
        ensures { result ≡ slice_index_or self.now.state.memory.messages (position - 1) (0, 0) }
    {
        self.memory.message(position)
    }

    /// The initial value of a location, numbered from 0.
    pub fn init(&self, location: u8) -> u8
        requires { location < length self.now.state.memory.initial }
        ensures { result ≡ slice_index self.now.state.memory.initial location }
    {
        self.memory.init(location)
    }

    /// The cache line of a location. Both are numbered from 0.
    pub fn line(&self, location: u8) -> u8
        requires { location < length self.now.state.memory.initial }
        ensures line { result ≡ line_of self.now.state.memory location }
        ensures within { result < line_count self.now.state.memory.lines }
    {
        self.memory.line(location)
    }

    /// The coherence view of a thread, numbered from 1, of a location, numbered from 0: a position, 0 or counted from 1.
    pub fn coh(&self, thread: u8, location: u8) -> u32
        requires thread { (1 ≤ thread) × (thread ≤ length self.now.state.views) }
        requires location { location < length self.now.state.memory.initial }
        ensures { result ≡ coh_of (views_of self.now.state thread) location }
    {
        self.seen(thread).coh(location)
    }

    /// The greatest coherence view of a thread, numbered from 1.
    pub fn maxcoh(&self, thread: u8) -> u32
        requires { (1 ≤ thread) × (thread ≤ length self.now.state.views) }
        ensures { result ≡ maxcoh (views_of self.now.state thread) }
    {
        self.seen(thread).maxcoh()
    }

    /// The greatest coherence view of a thread, numbered from 1, of a location on a line, numbered from 0.
    pub fn lcoh(&self, thread: u8, line: u8) -> u32
        requires { (1 ≤ thread) × (thread ≤ length self.now.state.views) }
        ensures { result ≡ lcoh self.now.state.memory.lines (views_of self.now.state thread) line }
    {
        self.seen(thread).lcoh(self.memory.location_lines(), line)
    }

    /// The read view of a thread, numbered from 1: a position.
    pub fn vrn(&self, thread: u8) -> u32
        requires { (1 ≤ thread) × (thread ≤ length self.now.state.views) }
        ensures { result ≡ (views_of self.now.state thread).vrn }
    {
        self.seen(thread).vrn()
    }

    /// The ready view of a thread, numbered from 1: a position.
    pub fn vpr(&self, thread: u8) -> u32
        requires { (1 ≤ thread) × (thread ≤ length self.now.state.views) }
        ensures { result ≡ (views_of self.now.state thread).vpr }
    {
        self.seen(thread).vpr()
    }

    /// The asynchronous view of a thread, numbered from 1, of a line, numbered from 0: a position.
    pub fn vpa(&self, thread: u8, line: u8) -> u32
        requires thread { (1 ≤ thread) × (thread ≤ length self.now.state.views) }
        requires line { line < line_count self.now.state.memory.lines }
        ensures { result ≡ vpa_of (views_of self.now.state thread) line }
    {
        self.seen(thread).vpa(line)
    }

    /// The committed view of a thread, numbered from 1, of a line, numbered from 0: a position.
    pub fn vpc(&self, thread: u8, line: u8) -> u32
        requires thread { (1 ≤ thread) × (thread ≤ length self.now.state.views) }
        requires line { line < line_count self.now.state.memory.lines }
        ensures { result ≡ vpc_of (views_of self.now.state thread) line }
    {
        self.seen(thread).vpc(line)
    }

    /// Takes the step that an event leads to. A refusal leaves the state as it was. Either way the state is well formed again, so a
    /// loop of steps has `IsWellFormed` as its invariant.
    pub fn step(&mut self, p: &Program, event: Event) -> Result<(), StepFault>
        requires { IsWellFormed p.now self.old.state }
        ensures ok { OnOk result (IsStep p.now self.old.state event self.new.state) }
        ensures err { IfErr result (λ f. IsRefusal (IsFault p.now self.old.state event) self.old.spare f) }
        ensures kept { IsWellFormed p.now self.new.state }
        ensures within { OnOk result (length self.new.state.memory.messages ≤ most_messages) }
        ensures exact { (f : StepFault) → IsFault p.now self.old.state event f → result ≡ Err f }
        ensures complete { IsTaken p.now self.old.state event result }
        ensures unchanged { OnErr result (self.new.state ≡ self.old.state) }
        ensures spare { self.old.spare + length self.old.state.memory.messages ≤ self.new.spare + length self.new.state.memory.messages }
    {
        if event.thread < 1 || event.thread > u32::from(p.threads()) {
            return Err(StepFault::NoThread(event.thread));
        }
        let thread = event.thread as u8;
        let at = PointId {
            thread,
            point: self.point(thread),
        };
        match p.stmt(at) {
            Some(stmt) => self.take(p, at, stmt, event.choice),
            None => Err(StepFault::Ended),
        }
    }

    /// Takes the step of the statement at a thread's point.
    fn take(
        &mut self,
        p: &Program,
        at: PointId,
        stmt: &Stmt,
        choice: Option<u32>,
    ) -> Result<(), StepFault>
        requires formed { IsWellFormed p.now self.old.state }
        requires thread { (1 ≤ at.thread) × (at.thread ≤ length p.now.threads) }
        requires point { at.point ≡ point_of self.old.state at.thread }
        requires stmt { stmt_at p.now at.thread at.point ≡ Some stmt.now }
        ensures ok { OnOk result (IsStep p.now self.old.state (record { thread = at.thread; choice = choice }) self.new.state) }
        ensures err { IfErr result (λ f. IsRefusal (ActFault p.now self.old.state (record { thread = at.thread; choice = choice })) self.old.spare f) }
        ensures within { length self.new.state.memory.messages ≤ most_messages }
        ensures built { IsProgram p.now }
        ensures unchanged { OnErr result (self.new.state ≡ self.old.state) }
        ensures spare { self.old.spare + length self.old.state.memory.messages ≤ self.new.spare + length self.new.state.memory.messages }
    {
        let domain = p.names().domain();
        let branch = branch_taken(&stmt.act, &self.scalars, domain);
        let step = step_of(p.steps(at), branch);
        let t = usize::from(at.thread) - 1;
        let views = &mut self.views[t];
        run(
            stmt,
            choice,
            domain,
            &mut self.memory,
            views,
            &mut self.scalars,
        )?;
        self.points[t] = step.target;
        Ok(())
    }

    fn seen(&self, thread: u8) -> &Views
        requires { (1 ≤ thread) × (thread ≤ length self.now.state.views) }
        ensures views { result.now ≡ views_of self.now.state thread }
        ensures sized { AreSized self.now.state.memory result.now }
    {
        &self.views[usize::from(thread) - 1]
    }
}

/// The views of threads that have done nothing.
fn fresh_views(
    alloc: Global,
    threads: usize,
    locations: usize,
    lines: usize,
) -> Result<Vec<Views>, AllocError>
    ensures { IfOk result (λ vs. vs.items ≡ replicate threads (fresh_views locations lines)) }
{
    let mut views = Vec::new(alloc);
    for _thread in 0..threads {
        views.push(Views::fresh(alloc, locations, lines)?)?;
    }
    Ok(views)
}
