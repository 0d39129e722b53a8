//! What the decider works with. Its memory is taken once.

ghost use Rattle.std.specs.Prelude.{◌≡◌, ℕ, List, Bool, ◌+◌, ◌-◌, ◌*◌, ◌/◌, ◌^◌, ◌<◌, ◌≤◌, true, false, [], length, IfOk, vec_capacity};
ghost use Rattle.pg_region.specs.Pieces.{total};
ghost use Rattle.pg_decider.specs.Assignment.{on};
ghost use Rattle.pg_decider.specs.Outcome.{Answers, IsOutcome, nodes_of};
ghost use Rattle.pg_decider.specs.Reached.{AreWithin};
ghost use Rattle.pg_decider.specs.Tree.{Tree, IsTree};

use crate::chains::Chains;
use crate::leaf::{conflict_of, lean, shut};
use crate::log::{TreeLog, TreeNode};
use crate::search::{Branch, search};
use crate::trail::Trail;
use crate::verdict::Verdict;
use crate::walk::walk;
use crate::watches::Watches;
use pg_region::{ClauseReader, Lit, Loaded, Region};
use std::alloc::{AllocError, Global};
use std::marker::Model;

/// Watches, trail and branches for clauses over atoms from 1 to a greatest one.
#[derive(Drop)]
pub struct Workspace {
    watches: Watches,
    trail: Trail,
    branches: Vec<Branch>,
    needed: Vec<bool>,
    list: Vec<u32>,
}

impl Model for Workspace {
    ghost use Rattle.std.specs.Prelude.{◌/◌, length, vec_capacity};
    ghost use Rattle.pg_decider.specs.Held.{WorkspaceTable};
    ghost use Rattle.pg_decider.specs.Work.{IsWorkspace};

    ghost Value = { WorkspaceTable };

    ghost view = { λ w. record { atoms = w.trail.atoms; clauses = w.watches.chains.slots / 2; literals = w.trail.literals } };

    ghost invariant = { λ w. IsWorkspace w.trail.atoms (length w.watches.chains.lists) w.watches.chains.slots (vec_capacity w.watches.slots) (vec_capacity w.branches) (length w.needed.items) (length w.list.items) };
}

impl Workspace {
    ghost use Rattle.std.specs.Prelude.{◌≡◌, ◌+◌, ◌-◌, ◌*◌, ◌≤◌, List, None, length, slice_index_or, IfOk, ⊤};
    ghost use mathlib.Core.Option.{none};
    ghost use Rattle.std.specs.Borrow.{follows_so, sem};
    ghost use Rattle.pg_region.specs.Pieces.{total};
    ghost use Rattle.pg_region.specs.Range.{listed, Fits};
    ghost use Rattle.pg_decider.specs.Assignment.{on};
    ghost use Rattle.pg_decider.specs.Leaf.{IsLog, IsLeaf, path_of};
    ghost use Rattle.pg_decider.specs.Outcome.{IfClosed, IsOutcome, nodes_of};
    ghost use Rattle.pg_decider.specs.contracts.workspace.Workspace.{the_row};
    ghost use Rattle.pg_decider.specs.declared.log.TreeNode.TheVariants.{Leaf};

    /// A workspace for so many atoms and clauses. There is no memory for 2^31 atoms or clauses, or more.
    pub fn make(alloc: Global, atoms: u32, clauses: u32) -> Result<Workspace, AllocError>
        ensures { IfOk result (λ w. (w.atoms ≡ atoms) × (w.clauses ≡ clauses)) }
    {
        if atoms >= 2147483648 || clauses >= 2147483648 {
            return Err(AllocError);
        }
        let watches = no_watches(alloc, atoms, clauses)?;
        let trail = Trail::make(alloc, atoms)?;
        let branches = Vec::with_capacity(alloc, atoms as usize + 1)?;
        let needed = vec![in alloc; false; 2 * atoms as usize + 3]?;
        let list = vec![in alloc; 0; atoms as usize + 2]?;
        Ok(Workspace {
            watches,
            trail,
            branches,
            needed,
            list,
        })
    }

    /// The outcome of the plain tree over the reader's clauses, within a budget of visited nodes. What workspace and log held
    /// before doesn't matter. Takes no memory.
    ///
    /// With c clauses that have w literals together, and V visited nodes, it looks at clauses at most c + V (c + w) times.
    pub fn decide(&mut self, reader: &mut ClauseReader, budget: u32, log: &mut TreeLog) -> Verdict
        requires budget { 1 ≤ budget }
        requires atoms { reader.old.atoms ≤ self.old.atoms }
        requires clauses { length reader.old.clauses ≤ self.old.clauses }
        requires log { budget ≤ log.old.room }
        ensures outcome { IsOutcome reader.old.clauses result budget log.new.lines (on self.new.literals) }
        ensures closed { IfClosed result (IsLog reader.old.clauses log.new.lines) }
        ensures looks { reader.new.looks ≤ reader.old.looks + (length reader.old.clauses + nodes_of result budget * (length reader.old.clauses + total reader.old.clauses)) }
        ensures reader { (reader.new.clauses ≡ reader.old.clauses) × (reader.new.atoms ≡ reader.old.atoms) }
        ensures made { (self.new.atoms ≡ self.old.atoms) × (self.new.clauses ≡ self.old.clauses) }
        ensures room { log.new.room ≡ log.old.room }
    {
        let _atoms = reader.atoms();
        run(
            &mut self.watches,
            reader,
            &mut self.trail,
            &mut self.branches,
            log,
            budget,
        )
    }

    /// The value of an atom in the model that `decide` found; an atom without a value is false.
    pub fn truth(&self, atom: u32) -> bool
        requires { (1 ≤ atom) × (atom ≤ self.now.atoms) }
        ensures { result ≡ on self.now.literals (record { atom = atom; positive = true }) }
    {
        self.trail.is_true(Lit::of(atom, true))
    }

    /// Numbers of clauses that close the leaf with the number i of the log of a closed tree, from 1 on: each but the last adds a
    /// literal that a later one needs, and the last is all false. Takes no memory.
    pub fn leaf(&mut self, region: &Region, loaded: Loaded, log: &TreeLog, i: u32) -> &[u32]
        requires fits { Fits loaded region.now.clauses }
        requires atoms { loaded.atoms ≤ self.old.atoms }
        requires clauses { length (listed region.now.clauses loaded.range) ≤ self.old.clauses }
        requires log { IsLog (listed region.now.clauses loaded.range) log.now.lines }
        requires node { (1 ≤ i) × (i ≤ length log.now.lines) }
        requires leaf { slice_index_or log.now.lines (i - 1) Leaf ≡ Leaf }
        ensures* made { sem 𝓛 (follows_so the_row the_row self.entry.ghost_name none (λ _ _. ⊤) (λ v. (v.atoms ≡ self.old.atoms) × (v.clauses ≡ self.old.clauses))) }
        ensures leaf { IsLeaf (listed region.now.clauses loaded.range) (on (path_of log.now.lines (i - 1))) result.now }
    {
        let mut reader = ClauseReader::of(region, loaded);
        walk(&mut self.trail, &mut self.branches, log, i - 1);
        let path = self.trail.len();
        shut(&mut self.watches, &mut reader, &mut self.trail);
        let conflict = conflict_of(&mut reader, &self.trail);
        let from = lean(
            &mut reader,
            &self.trail,
            path,
            conflict,
            &mut self.needed,
            &mut self.list,
        );
        &self.list[from..]
    }
}

/// Room for the watches of so many clauses over so many atoms.
fn no_watches(alloc: Global, atoms: u32, clauses: u32) -> Result<Watches, AllocError>
    requires { (atoms < 2 ^ 31) × (clauses < 2 ^ 31) }
    ensures lists { IfOk result (λ w. length w.chains.lists ≡ 2 * atoms + 3) }
    ensures slots { IfOk result (λ w. (w.chains.slots ≡ 2 * clauses) × (2 * clauses ≤ vec_capacity w.slots)) }
{
    let chains = Chains::make(alloc, 2 * atoms as usize + 3, 2 * clauses)?;
    let slots = Vec::with_capacity(alloc, 2 * clauses as usize)?;
    Ok(Watches { slots, chains })
}

/// Begins anew with the first watches, and searches.
fn run(
    watches: &mut Watches,
    reader: &mut ClauseReader,
    trail: &mut Trail,
    branches: &mut Vec<Branch>,
    log: &mut TreeLog,
    budget: u32,
) -> Verdict
    requires budget { 1 ≤ budget }
    requires over { AreWithin trail.old.atoms reader.old.clauses }
    requires lists { 2 * trail.old.atoms + 3 ≤ length watches.old.chains.lists }
    requires slots { 2 * length reader.old.clauses ≤ watches.old.chains.slots }
    requires slot_room { 2 * length reader.old.clauses ≤ vec_capacity watches.old.slots }
    requires few { 2 * length reader.old.clauses < 2 ^ 32 }
    requires room { trail.old.atoms + 1 ≤ vec_capacity branches.old }
    requires log_room { budget ≤ log.old.room }
    ensures reader { (reader.new.clauses ≡ reader.old.clauses) × (reader.new.atoms ≡ reader.old.atoms) }
    ensures looks { reader.new.looks ≤ reader.old.looks + (length reader.old.clauses + nodes_of result budget * (length reader.old.clauses + total reader.old.clauses)) }
    ensures room { (vec_capacity watches.new.slots ≡ vec_capacity watches.old.slots) × (length watches.new.chains.lists ≡ length watches.old.chains.lists) × (watches.new.chains.slots ≡ watches.old.chains.slots) }
    ensures branch_room { (vec_capacity branches.new ≡ vec_capacity branches.old) × (log.new.room ≡ log.old.room) × (trail.new.atoms ≡ trail.old.atoms) }
    ensures says { (t : Tree) → IsTree reader.old.clauses (on []) t → Answers result budget log.new.lines (on trail.new.literals) t }
{
    branches.truncate(0);
    log.clear();
    trail.undo(0);
    if !watches.attach(reader, trail) {
        log.push(TreeNode::Leaf);
        return Verdict::Closed(1);
    }
    search(watches, reader, trail, branches, log, budget)
}
