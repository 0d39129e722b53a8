//! The clauses that close a leaf.

ghost use Rattle.std.specs.Prelude.{◌≡◌, ℕ, Bool, List, ◌+◌, ◌-◌, ◌*◌, ◌^◌, ◌<◌, ◌≤◌, true, false, ◌||◌, [], ◌∷◌, length, take, drop, slice_index_or, vec_capacity};
ghost use Rattle.pg_region.specs.Literal.{Literal, negated};
ghost use Rattle.pg_region.specs.Region.{clause_at};
ghost use Rattle.pg_decider.specs.Assignment.{on, AreFalse, HasConflict};
ghost use Rattle.pg_decider.specs.Leaf.{IsLeaf};
ghost use Rattle.pg_decider.specs.Lean.{AreUnits, AreMarks};
ghost use Rattle.pg_decider.specs.Reached.{AreWithin};
ghost use Rattle.pg_decider.specs.Tree.{IsNode};
ghost use Rattle.pg_decider.specs.Watch.{place, Grown};
ghost use Rattle.pg_decider.specs.declared.settle.Node.TheVariants.{Shut};

use crate::trail::Trail;
use crate::watches::{Watches, place_of};
use pg_region::{ClauseReader, Lit};

/// Closes a node that is shut, from its path on the trail.
pub fn shut(watches: &mut Watches, reader: &mut ClauseReader, trail: &mut Trail)
    requires over { AreWithin trail.old.atoms reader.old.clauses }
    requires lists { 2 * trail.old.atoms + 3 ≤ length watches.old.chains.lists }
    requires slots { 2 * length reader.old.clauses ≤ watches.old.chains.slots }
    requires slot_room { 2 * length reader.old.clauses ≤ vec_capacity watches.old.slots }
    requires few { 2 * length reader.old.clauses < 2 ^ 32 }
    requires node { IsNode reader.old.clauses (on trail.old.literals) Shut }
    ensures reader { reader.new.clauses ≡ reader.old.clauses }
    ensures room { (vec_capacity watches.new.slots ≡ vec_capacity watches.old.slots) × (length watches.new.chains.lists ≡ length watches.old.chains.lists) × (watches.new.chains.slots ≡ watches.old.chains.slots) }
    ensures grown { Grown reader.old.clauses trail.old trail.new }
    ensures shut { HasConflict reader.old.clauses (on trail.new.literals) }
{
    if !watches.attach(reader, trail) {
        return;
    }
    watches.propagate(reader, trail, 0);
}

/// Whether each literal of a clause is false.
fn is_false(clause: &[Lit], trail: &Trail) -> bool
    requires { (l : Literal) → on clause.now l ≡ true → l.atom ≤ trail.now.atoms }
    ensures yes { result ≡ true → AreFalse (on trail.now.literals) clause.now }
    ensures no { result ≡ false → AreFalse (on trail.now.literals) clause.now → ⊥ }
{
    for literal in clause {
        if !trail.is_true(literal.negated()) {
            return false;
        }
    }
    true
}

/// The number of a clause that is all false.
pub fn conflict_of(reader: &mut ClauseReader, trail: &Trail) -> u32
    requires over { AreWithin trail.now.atoms reader.old.clauses }
    requires some { HasConflict reader.old.clauses (on trail.now.literals) }
    ensures reader { reader.new.clauses ≡ reader.old.clauses }
    ensures number { (1 ≤ result) × (result ≤ length reader.old.clauses) }
    ensures shut { AreFalse (on trail.now.literals) (clause_at reader.old.clauses (result - 1)) }
{
    let count = reader.count();
    'clauses: for k in 0..count {
        if is_false(reader.clause(k + 1), trail) {
            return k + 1;
        }
    }
    unreachable!()
}

/// Takes all marks away.
fn clear(marks: &mut [bool])
    ensures { (i : ℕ) → slice_index_or marks.new i false ≡ false }
{
    for i in 0..marks.len() {
        marks[i] = false;
    }
}

/// Marks the negations of a clause's literals.
fn mark(marks: &mut [bool], clause: &[Lit])
    requires { (l : Literal) → on clause.now l ≡ true → place (negated l) < length marks.old }
    ensures { (l : Literal) → place l < length marks.old → slice_index_or marks.new (place l) false ≡ (slice_index_or marks.old (place l) false || on clause.now (negated l)) }
{
    for literal in clause {
        marks[place_of(literal.negated())] = true;
    }
}

/// Writes to the end of the list the reasons that lead from the first `path` literals of the trail to a clause that is all false, and
/// that clause. Answers where they begin.
pub fn lean(
    reader: &mut ClauseReader,
    trail: &Trail,
    path: u32,
    conflict: u32,
    marks: &mut [bool],
    list: &mut [u32],
) -> usize
    requires over { AreWithin trail.now.atoms reader.old.clauses }
    requires path { path ≤ length trail.now.literals }
    requires units { AreUnits reader.old.clauses trail.now path }
    requires number { (1 ≤ conflict) × (conflict ≤ length reader.old.clauses) }
    requires shut { AreFalse (on trail.now.literals) (clause_at reader.old.clauses (conflict - 1)) }
    requires marks { length marks.old ≡ 2 * trail.now.atoms + 3 }
    requires list { length list.old ≡ trail.now.atoms + 2 }
    ensures from { result ≤ length list.new }
    ensures leaf { IsLeaf reader.old.clauses (on (take path trail.now.literals)) (drop result list.new) }
{
    clear(marks);
    let mut from = list.len() - 1;
    list[from] = conflict;
    mark(marks, reader.clause(conflict));
    let mut j = trail.len();
    'literals: while j > path {
        j -= 1;
        let literal = trail.at(j);
        if marks[place_of(literal)] {
            let number = trail.reason(j);
            from -= 1;
            list[from] = number;
            mark(marks, reader.clause(number));
        }
    }
    from
}
