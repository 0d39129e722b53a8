//! What holds of derivations, by their definition. No function here does anything: its contract is the law.

ghost use Rattle.pg_derive.specs.Laws.{AnswerIsUnique, VerifiedIsProved, DerivedIsVerified};

use pg_axioms::axioms_are_counted;
use pg_rules_access::access_rules_are_counted;
use pg_rules_persist::persist_rules_are_counted;

/// A derivation has at most one answer but for want of memory.
pub fn a_derivation_has_one_answer()
    ensures { AnswerIsUnique }
{}

/// Where a derivation is verified each obligation follows, and so the outline is safe.
pub fn what_is_verified_is_proved()
    ensures { VerifiedIsProved }
{}

/// What is derived of an outline that is accepted is the text of a derivation, and that is verified. The text can be read: there are
/// so few obligations, and so few atoms and clauses in each, that it says their numbers.
pub fn what_is_derived_is_verified()
    ensures { DerivedIsVerified }
{
    axioms_are_counted();
    access_rules_are_counted();
    persist_rules_are_counted();
}
