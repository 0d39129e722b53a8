//! What holds of the texts of derivations, by the definition that `parse_derivation` answers by. No function here does anything: its
//! contract is the law.

ghost use Rattle.pg_derivation.specs.Laws.{FoundIsSpelled, SpelledIsFound};

/// A text without a fault is spelled as its trees are, each byte of it.
pub fn texts_without_a_fault_are_spelled()
    ensures { FoundIsSpelled }
{}

/// What is spelled as trees are has no fault, and these trees are read: so no text has a second reading, and what is printed is read
/// again.
pub fn spelled_texts_have_no_fault()
    ensures { SpelledIsFound }
{}
