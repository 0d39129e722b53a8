//! The watches that the clauses begin with.

ghost use Rattle.std.specs.Prelude.{◌≡◌, ℕ, Bool, List, ◌+◌, ◌-◌, ◌*◌, ◌/◌, ◌^◌, ◌<◌, ◌≤◌, true, false, [], ◌∷◌, ◌++◌, length, take, vec_capacity, replicate};
ghost use Rattle.pg_region.specs.Literal.{Literal, same, negated};
ghost use Rattle.pg_region.specs.Region.{clause_at};
ghost use Rattle.pg_decider.specs.Assignment.{on, Forces, HasConflict};
ghost use Rattle.pg_decider.specs.Chains.{chain, with_chain, IsFree};
ghost use Rattle.pg_decider.specs.Reached.{AreWithin};
ghost use Rattle.pg_decider.specs.Watch.{place, Placed, Watching, Shape, Grown, Attaching};

use crate::trail::Trail;
use crate::watches::{Watches, add_forced, place_of};
use pg_region::{ClauseReader, Lit};

impl Watches {
    /// Gives each clause its two watches, with one look at each. False is the answer where a clause is all false.
    pub fn attach(&mut self, reader: &mut ClauseReader, trail: &mut Trail) -> bool
        requires over { AreWithin trail.old.atoms reader.old.clauses }
        requires lists { 2 * trail.old.atoms + 3 ≤ length self.old.chains.lists }
        requires slots { 2 * length reader.old.clauses ≤ self.old.chains.slots }
        requires room { 2 * length reader.old.clauses ≤ vec_capacity self.old.slots }
        requires few { 2 * length reader.old.clauses < 2 ^ 32 }
        ensures reader { (reader.new.clauses ≡ reader.old.clauses) × (reader.new.atoms ≡ reader.old.atoms) }
        ensures looks { reader.new.looks ≤ reader.old.looks + length reader.old.clauses }
        ensures room { (vec_capacity self.new.slots ≡ vec_capacity self.old.slots) × (length self.new.chains.lists ≡ length self.old.chains.lists) × (self.new.chains.slots ≡ self.old.chains.slots) }
        ensures grown { Grown reader.old.clauses trail.old trail.new }
        ensures shut { result ≡ false → HasConflict reader.old.clauses (on trail.new.literals) }
        ensures shape { result ≡ true → Shape reader.old.clauses self.new.slots.items self.new.chains trail.new }
        ensures placed { result ≡ true → Placed reader.old.clauses self.new.slots.items self.new.chains.lists 0 (length self.new.slots.items) }
        ensures empty { result ≡ true → chain self.new.chains.lists 0 ≡ [] }
        ensures watching { result ≡ true → Watching reader.old.clauses self.new.slots.items [] (on []) (on trail.new.literals) (length self.new.slots.items) }
    {
        self.slots.truncate(0);
        self.chains.clear();
        let count = reader.count();
        'clauses: for k in 0..count {
            if !self.attach_clause(reader, trail, k) {
                return false;
            }
        }
        true
    }

    /// Gives clause k, counted from 0, its two watches.
    fn attach_clause(&mut self, reader: &mut ClauseReader, trail: &mut Trail, k: u32) -> bool
        requires attaching { Attaching reader.old.clauses self.old.slots.items self.old.chains trail.old trail.old k }
        requires room { 2 * length reader.old.clauses ≤ vec_capacity self.old.slots }
        requires k { k < length reader.old.clauses }
        ensures reader { (reader.new.clauses ≡ reader.old.clauses) × (reader.new.atoms ≡ reader.old.atoms) }
        ensures looks { reader.new.looks ≤ reader.old.looks + 1 }
        ensures room { (vec_capacity self.new.slots ≡ vec_capacity self.old.slots) × (length self.new.chains.lists ≡ length self.old.chains.lists) × (self.new.chains.slots ≡ self.old.chains.slots) }
        ensures grown { Grown reader.old.clauses trail.old trail.new }
        ensures shut { result ≡ false → HasConflict reader.old.clauses (on trail.new.literals) }
        ensures attaching { result ≡ true → Attaching reader.old.clauses self.new.slots.items self.new.chains trail.new trail.new (k + 1) }
    {
        let clause = reader.clause(k + 1);
        if clause.is_empty() {
            return false;
        }
        let first = clause[0];
        let second = second_of(clause, first);
        self.attach_slot(first);
        self.attach_slot(second);
        if first.is(second) {
            return force(trail, first, k + 1);
        }
        true
    }

    /// Makes a slot for a literal.
    fn attach_slot(&mut self, literal: Lit)
        requires list { place literal < length self.old.chains.lists }
        requires free { IsFree self.old.chains (length self.old.slots.items) }
        requires room { length self.old.slots.items < vec_capacity self.old.slots }
        requires few { length self.old.slots.items < 2 ^ 32 }
        ensures slots { self.new.slots.items ≡ self.old.slots.items ++ literal ∷ [] }
        ensures room { vec_capacity self.new.slots ≡ vec_capacity self.old.slots }
        ensures chains { self.new.chains ≡ with_chain self.old.chains (place literal) (length self.old.slots.items ∷ chain self.old.chains.lists (place literal)) }
    {
        let slot = self.slots.len() as u32;
        self.chains.push(place_of(literal), slot);
        self.slots.push_reserved(literal);
    }
}

/// A literal of a clause, other than its first where it has one.
fn second_of(clause: &[Lit], first: Lit) -> Lit
    requires { on clause.now first ≡ true }
    ensures on { on clause.now result ≡ true }
    ensures one { result ≡ first → (m : Literal) → on clause.now m ≡ true → m ≡ first }
{
    for literal in clause {
        if !literal.is(first) {
            return *literal;
        }
    }
    first
}

/// Adds a literal that the clause with the number `reason` forces. False is the answer where it is false.
fn force(trail: &mut Trail, literal: Lit, reason: u32) -> bool
    requires { literal.atom ≤ trail.old.atoms }
    ensures grown { (cs : List (List Literal)) (k : ℕ) → k < length cs → reason ≡ k + 1 → Forces (on trail.old.literals) (clause_at cs k) literal → Grown cs trail.old trail.new }
    ensures added { result ≡ true → on trail.new.literals literal ≡ true }
    ensures shut { result ≡ false → on trail.new.literals (negated literal) ≡ true }
{
    if trail.is_true(literal) {
        return true;
    }
    add_forced(trail, literal, reason)
}
