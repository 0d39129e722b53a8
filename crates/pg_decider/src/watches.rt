//! The watches of the clauses.

ghost use Rattle.std.specs.Prelude.{◌≡◌, ℕ, Bool, List, ◌+◌, ◌-◌, ◌*◌, ◌/◌, ◌<◌, ◌≤◌, true, false, not, ◌&&◌, [], ◌∷◌, ◌++◌, length, take, slice_set, vec_capacity, MatchOption};
ghost use Rattle.pg_region.specs.Literal.{Literal, same, negated};
ghost use Rattle.pg_region.specs.Pieces.{total};
ghost use Rattle.pg_region.specs.Region.{clause_at};
ghost use Rattle.pg_decider.specs.Assignment.{on, added, Within, Forces, IsClosed, HasConflict};
ghost use Rattle.pg_decider.specs.Chains.{chain, with_chain, IsFree, AreChains};
ghost use Rattle.pg_decider.specs.Trail.{lit};
ghost use Rattle.pg_decider.specs.Watch.{place, other, Placed, Watching, Watched, Shape, Grown, KeepsWatched, KeepsWatching};

use crate::chains::Chains;
use crate::trail::Trail;
use pg_region::{ClauseReader, Lit};

/// For each clause two slots with the literals that it watches, and for each literal the chain of its slots.
#[derive(Drop)]
pub struct Watches {
    pub slots: Vec<Lit>,
    pub chains: Chains,
}

impl Watches {
    /// Visits a slot that watches f, which is false: another literal is watched in place of f, or the clause
    /// forces a literal, or it is all false, and then the answer is false.
    pub fn visit(
        &mut self,
        reader: &mut ClauseReader,
        trail: &mut Trail,
        slot: u32,
        f: Lit,
        calm: bool,
    ) -> bool
        requires shape { Shape reader.old.clauses self.old.slots.items self.old.chains trail.old }
        requires placed { Placed reader.old.clauses self.old.slots.items self.old.chains.lists (place f) slot }
        requires free { IsFree self.old.chains slot }
        requires slot { (slot < length self.old.slots.items) × (lit self.old.slots.items slot ≡ f) }
        requires falsified { on trail.old.literals (negated f) ≡ true }
        requires calm { calm ≡ false → HasConflict reader.old.clauses (on trail.old.literals) }
        ensures reader { (reader.new.clauses ≡ reader.old.clauses) × (reader.new.atoms ≡ reader.old.atoms) }
        ensures looks { reader.new.looks ≤ reader.old.looks + 1 }
        ensures room { (vec_capacity self.new.slots ≡ vec_capacity self.old.slots) × (length self.new.chains.lists ≡ length self.old.chains.lists) × (self.new.chains.slots ≡ self.old.chains.slots) }
        ensures shape { Shape reader.old.clauses self.new.slots.items self.new.chains trail.new }
        ensures placed { Placed reader.old.clauses self.new.slots.items self.new.chains.lists (place f) (length self.new.slots.items) }
        ensures rest { chain self.new.chains.lists 0 ≡ chain self.old.chains.lists 0 }
        ensures grown { Grown reader.old.clauses trail.old trail.new }
        ensures shut { result ≡ false → HasConflict reader.old.clauses (on trail.new.literals) }
        ensures calmer { result ≡ true → calm ≡ true }
        ensures watching { KeepsWatching reader.old.clauses self.old.slots.items self.new.slots.items (chain self.old.chains.lists 0) (on trail.old.literals) (on trail.new.literals) slot result }
        ensures keeps { KeepsWatched reader.old.clauses self.old.slots.items self.new.slots.items (on trail.old.literals) }
    {
        let second = self.slots[other_of(slot) as usize];
        if !calm {
            self.chains.push(place_of(f), slot);
            return false;
        }
        if trail.is_true(second) {
            self.chains.push(place_of(f), slot);
            return true;
        }
        let clause = reader.clause(slot / 2 + 1);
        if let Some(next) = find(clause, trail, second) {
            self.slots[slot as usize] = next;
            self.chains.push(place_of(next), slot);
            return true;
        }
        self.chains.push(place_of(f), slot);
        add_forced(trail, second, slot / 2 + 1)
    }

    /// Visits each slot that watches f, which is false. False is the answer where a clause is all false.
    pub fn drain(&mut self, reader: &mut ClauseReader, trail: &mut Trail, f: Lit) -> bool
        requires shape { Shape reader.old.clauses self.old.slots.items self.old.chains trail.old }
        requires placed { Placed reader.old.clauses self.old.slots.items self.old.chains.lists 0 (length self.old.slots.items) }
        requires empty { chain self.old.chains.lists 0 ≡ [] }
        requires atom { f.atom ≤ trail.old.atoms }
        requires falsified { on trail.old.literals (negated f) ≡ true }
        ensures reader { (reader.new.clauses ≡ reader.old.clauses) × (reader.new.atoms ≡ reader.old.atoms) }
        ensures looks { reader.new.looks ≤ reader.old.looks + length (chain self.old.chains.lists (place f)) }
        ensures chains { AreChains self.old.chains.lists self.old.chains.slots }
        ensures room { (vec_capacity self.new.slots ≡ vec_capacity self.old.slots) × (length self.new.chains.lists ≡ length self.old.chains.lists) × (self.new.chains.slots ≡ self.old.chains.slots) }
        ensures shape { Shape reader.old.clauses self.new.slots.items self.new.chains trail.new }
        ensures placed { Placed reader.old.clauses self.new.slots.items self.new.chains.lists 0 (length self.new.slots.items) }
        ensures empty { chain self.new.chains.lists 0 ≡ [] }
        ensures grown { Grown reader.old.clauses trail.old trail.new }
        ensures shut { result ≡ false → HasConflict reader.old.clauses (on trail.new.literals) }
        ensures watching { (p : Literal → Bool) → Within p (on trail.old.literals) → Watching reader.old.clauses self.old.slots.items [] p (on trail.old.literals) (length self.old.slots.items) → result ≡ true → Watching reader.old.clauses self.new.slots.items [] (added (negated f) p) (on trail.new.literals) (length self.new.slots.items) }
        ensures keeps { KeepsWatched reader.old.clauses self.old.slots.items self.new.slots.items (on trail.old.literals) }
    {
        self.chains.detach(place_of(f));
        let mut calm = true;
        'slots: while let Some(slot) = self.chains.pop(0) {
            calm = self.visit(reader, trail, slot, f, calm);
        }
        calm
    }

    /// Goes through the literals of the trail from the one at `from` on. False is the answer where a clause is
    /// all false.
    pub fn propagate(&mut self, reader: &mut ClauseReader, trail: &mut Trail, from: u32) -> bool
        requires shape { Shape reader.old.clauses self.old.slots.items self.old.chains trail.old }
        requires placed { Placed reader.old.clauses self.old.slots.items self.old.chains.lists 0 (length self.old.slots.items) }
        requires empty { chain self.old.chains.lists 0 ≡ [] }
        requires from { from ≤ length trail.old.literals }
        requires watching { Watching reader.old.clauses self.old.slots.items [] (on (take from trail.old.literals)) (on trail.old.literals) (length self.old.slots.items) }
        ensures reader { (reader.new.clauses ≡ reader.old.clauses) × (reader.new.atoms ≡ reader.old.atoms) }
        ensures looks { reader.new.looks ≤ reader.old.looks + total reader.old.clauses }
        ensures room { (vec_capacity self.new.slots ≡ vec_capacity self.old.slots) × (length self.new.chains.lists ≡ length self.old.chains.lists) × (self.new.chains.slots ≡ self.old.chains.slots) }
        ensures shape { Shape reader.old.clauses self.new.slots.items self.new.chains trail.new }
        ensures placed { Placed reader.old.clauses self.new.slots.items self.new.chains.lists 0 (length self.new.slots.items) }
        ensures empty { chain self.new.chains.lists 0 ≡ [] }
        ensures grown { Grown reader.old.clauses trail.old trail.new }
        ensures shut { result ≡ false → HasConflict reader.old.clauses (on trail.new.literals) }
        ensures closed { result ≡ true → IsClosed reader.old.clauses (on trail.new.literals) }
        ensures calm { result ≡ true → HasConflict reader.old.clauses (on trail.new.literals) → ⊥ }
        ensures watched { result ≡ true → Watched reader.old.clauses self.new.slots.items (on trail.new.literals) }
        ensures keeps { KeepsWatched reader.old.clauses self.old.slots.items self.new.slots.items (on trail.old.literals) }
    {
        let mut next = from;
        'literals: while next < trail.len() {
            let literal = trail.at(next);
            next += 1;
            if !self.drain(reader, trail, literal.negated()) {
                return false;
            }
        }
        true
    }
}

/// The number of the chain of a literal.
pub fn place_of(literal: Lit) -> usize
    ensures { result ≡ place literal }
{
    literal.word() as usize + 1
}

/// The other slot of the clause.
fn other_of(slot: u32) -> u32
    requires { slot < 4294967294 }
    ensures { result ≡ other slot }
{
    if slot % 2 == 0 { slot + 1 } else { slot - 1 }
}

/// A literal of a clause, other than `second`, that is not false.
fn find(clause: &[Lit], trail: &Trail, second: Lit) -> Option<Lit>
    requires { (l : Literal) → on clause.now l ≡ true → l.atom ≤ trail.now.atoms }
    ensures { MatchOption result ((m : Literal) → on clause.now m ≡ true → same m second ≡ false → on trail.now.literals (negated m) ≡ true) (λ m. (on clause.now m ≡ true) × (same m second ≡ false) × (on trail.now.literals (negated m) ≡ false)) }
{
    for literal in clause {
        if serves(*literal, trail, second) {
            return Some(*literal);
        }
    }
    None
}

/// Whether a literal can be watched beside `second`.
fn serves(literal: Lit, trail: &Trail, second: Lit) -> bool
    requires { literal.atom ≤ trail.now.atoms }
    ensures { result ≡ (not (same literal second) && not (on trail.now.literals (negated literal))) }
{
    !literal.is(second) && !trail.is_true(literal.negated())
}

/// Adds a literal that is not true, and that the clause with the number `reason` forces. False is the answer where it is false.
pub fn add_forced(trail: &mut Trail, literal: Lit, reason: u32) -> bool
    requires atom { literal.atom ≤ trail.old.atoms }
    requires unmet { on trail.old.literals literal ≡ false }
    ensures grown { (cs : List (List Literal)) (k : ℕ) → k < length cs → reason ≡ k + 1 → Forces (on trail.old.literals) (clause_at cs k) literal → Grown cs trail.old trail.new }
    ensures added { result ≡ true → on trail.new.literals literal ≡ true }
    ensures shut { result ≡ false → on trail.new.literals (negated literal) ≡ true }
{
    if trail.is_true(literal.negated()) {
        return false;
    }
    trail.add(literal, reason);
    true
}
