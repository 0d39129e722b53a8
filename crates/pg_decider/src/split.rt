//! The split literal of a node, found in one pass over the clauses.

ghost use Rattle.std.specs.Prelude.{◌≡◌, ℕ, Bool, List, ◌+◌, ◌-◌, ◌<◌, ◌≤◌, true, false, not, ◌&&◌, ◌||◌, [], ◌∷◌, length, IfSome};
ghost use Rattle.pg_region.specs.Literal.{Literal, negated, same};
ghost use Rattle.pg_region.specs.Region.{clause_at};
ghost use Rattle.pg_decider.specs.Assignment.{on};
ghost use Rattle.pg_decider.specs.Noted.{noted, better, or_first, picked, least, AreLong};
ghost use Rattle.pg_decider.specs.Reached.{AreWithin};
ghost use Rattle.pg_decider.specs.Split.{any_true, any_false, first_free, free_count, split_literal};

use crate::trail::Trail;
use pg_region::{ClauseReader, Lit};

/// What is known of the split clause after some clauses: its first literal without a value, and, where it has
/// a false literal, how many literals without a value it has.
#[derive(Clone, Copy, Drop)]
pub enum Found {
    /// Each clause had a true literal.
    Nothing,
    /// The first clause without a true literal.
    Untouched(Option<Lit>),
    /// The best clause with a false literal.
    Touched(usize, Option<Lit>),
}

/// Whether a clause has a true literal.
fn is_met(clause: &[Lit], trail: &Trail) -> bool
    requires { (l : Literal) → on clause.now l ≡ true → l.atom ≤ trail.now.atoms }
    ensures { result ≡ any_true (on trail.now.literals) clause.now }
{
    for literal in clause {
        if trail.is_true(*literal) {
            return true;
        }
    }
    false
}

/// Whether a clause has a false literal.
fn is_touched(clause: &[Lit], trail: &Trail) -> bool
    requires { (l : Literal) → on clause.now l ≡ true → l.atom ≤ trail.now.atoms }
    ensures { result ≡ any_false (on trail.now.literals) clause.now }
{
    for literal in clause {
        if trail.is_true(literal.negated()) {
            return true;
        }
    }
    false
}

/// The first literal of a clause without a value.
pub fn free_literal(clause: &[Lit], trail: &Trail) -> Option<Lit>
    requires { (l : Literal) → on clause.now l ≡ true → l.atom ≤ trail.now.atoms }
    ensures { result ≡ first_free (on trail.now.literals) clause.now }
{
    for literal in clause {
        if is_free(*literal, trail) {
            return Some(*literal);
        }
    }
    None
}

pub fn is_free(literal: Lit, trail: &Trail) -> bool
    requires { literal.atom ≤ trail.now.atoms }
    ensures { result ≡ (not (on trail.now.literals literal) && not (on trail.now.literals (negated literal))) }
{
    !trail.is_true(literal) && !trail.is_true(literal.negated())
}

/// Whether a literal stands in a clause.
fn stands_in(literal: Lit, clause: &[Lit]) -> bool
    ensures { result ≡ on clause.now literal }
{
    for other in clause {
        if other.is(literal) {
            return true;
        }
    }
    false
}

/// How many literals of a clause have no value; one that stands twice counts once.
fn count_free(clause: &[Lit], trail: &Trail) -> usize
    requires { (l : Literal) → on clause.now l ≡ true → l.atom ≤ trail.now.atoms }
    ensures { result ≡ free_count (on trail.now.literals) clause.now }
{
    let mut count = 0;
    for i in 0..clause.len() {
        let literal = clause[i];
        if is_free(literal, trail) && !stands_in(literal, &clause[i + 1..]) {
            count += 1;
        }
    }
    count
}

fn or_better(found: Found, count: usize, literal: Option<Lit>) -> Found
    ensures { result ≡ better found count literal }
{
    match found {
        Found::Touched(least, other) => {
            if count < least {
                Found::Touched(count, literal)
            } else {
                Found::Touched(least, other)
            }
        }
        _ => Found::Touched(count, literal),
    }
}

fn or_its(found: Found, literal: Option<Lit>) -> Found
    ensures { result ≡ or_first found literal }
{
    match found {
        Found::Nothing => Found::Untouched(literal),
        other => other,
    }
}

/// What is found after one more clause.
fn note(found: Found, clause: &[Lit], trail: &Trail) -> Found
    requires { (l : Literal) → on clause.now l ≡ true → l.atom ≤ trail.now.atoms }
    ensures { result ≡ noted (on trail.now.literals) found clause.now }
{
    if is_met(clause, trail) {
        return found;
    }
    let literal = free_literal(clause, trail);
    if is_touched(clause, trail) {
        return or_better(found, count_free(clause, trail), literal);
    }
    or_its(found, literal)
}

fn pick(found: Found) -> Option<Lit>
    ensures { result ≡ picked found }
{
    match found {
        Found::Nothing => None,
        Found::Untouched(literal) => literal,
        Found::Touched(_, literal) => literal,
    }
}

/// Whether no later clause is better: one without a true literal has two literals without a value, once all is propagated.
fn is_least(found: &Found) -> bool
    ensures { result ≡ least found.now }
{
    match found {
        Found::Touched(count, _) => *count <= 2,
        _ => false,
    }
}

/// The split literal, with one look at each clause up to the one that has it or, where no clause has as few literals without a value
/// as one can have, at all of them.
pub fn split(reader: &mut ClauseReader, trail: &Trail) -> Option<Lit>
    requires over { AreWithin trail.now.atoms reader.old.clauses }
    requires long { AreLong (on trail.now.literals) reader.old.clauses }
    ensures reader { (reader.new.clauses ≡ reader.old.clauses) × (reader.new.atoms ≡ reader.old.atoms) }
    ensures looks { reader.new.looks ≤ reader.old.looks + length reader.old.clauses }
    ensures exact { result ≡ split_literal (on trail.now.literals) reader.old.clauses }
{
    let count = reader.count();
    let mut found = Found::Nothing;
    'clauses: for k in 0..count {
        let clause = reader.clause(k + 1);
        found = note(found, clause, trail);
        if is_least(&found) {
            return pick(found);
        }
    }
    pick(found)
}
