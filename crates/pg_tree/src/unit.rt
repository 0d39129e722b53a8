//! What a clause says in the literals of a path.

ghost use Rattle.std.specs.Prelude.{◌≡◌, ℕ, ◌≤◌, true};
ghost use Rattle.pg_region.specs.Literal.{Literal};
ghost use Rattle.pg_decider.specs.Assignment.{on};
ghost use Rattle.pg_decider.specs.Split.{free, first_free};
ghost use Rattle.pg_tree.specs.Fault.{all_false, others_false, unit};

use crate::path::Path;
use pg_region::Lit;

/// Whether a literal has no value.
pub fn is_free(literal: Lit, path: &Path) -> bool
    requires { literal.atom ≤ path.now.atoms }
    ensures { result ≡ free (on path.now.literals) literal }
{
    !path.is_true(literal) && !path.is_true(literal.negated())
}

/// The first literal of a clause without a value.
fn free_literal(clause: &[Lit], path: &Path) -> Option<Lit>
    requires { (l : Literal) → on clause.now l ≡ true → l.atom ≤ path.now.atoms }
    ensures { result ≡ first_free (on path.now.literals) clause.now }
{
    for literal in clause {
        if is_free(*literal, path) {
            return Some(*literal);
        }
    }
    None
}

/// Whether each literal of a clause is false, but for one.
fn are_others_false(clause: &[Lit], but: Lit, path: &Path) -> bool
    requires { (l : Literal) → on clause.now l ≡ true → l.atom ≤ path.now.atoms }
    ensures { result ≡ others_false (on path.now.literals) but clause.now }
{
    for literal in clause {
        if !literal.is(but) && !path.is_true(literal.negated()) {
            return false;
        }
    }
    true
}

/// Whether each literal of a clause is false.
pub fn are_all_false(clause: &[Lit], path: &Path) -> bool
    requires { (l : Literal) → on clause.now l ≡ true → l.atom ≤ path.now.atoms }
    ensures { result ≡ all_false (on path.now.literals) clause.now }
{
    for literal in clause {
        if !path.is_true(literal.negated()) {
            return false;
        }
    }
    true
}

/// The one literal of a clause without a value, where all others are false.
pub fn unit_of(clause: &[Lit], path: &Path) -> Option<Lit>
    requires { (l : Literal) → on clause.now l ≡ true → l.atom ≤ path.now.atoms }
    ensures { result ≡ unit (on path.now.literals) clause.now }
{
    match free_literal(clause, path) {
        None => None,
        Some(literal) => {
            if are_others_false(clause, literal, path) {
                Some(literal)
            } else {
                None
            }
        }
    }
}
