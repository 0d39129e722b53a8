//! What holds of the persistency rules. No function here does anything: its contract is the law.

ghost use Rattle.pg_rules_persist.specs.Bound.{HasAtMost, CasHas, FlushHas, most_persist_1, most_persist_literals_1, most_persist_2, most_persist_literals_2};

/// How many clauses a step has, and how many literals in all of them together: at most so many in version 1, where there are
/// at most 4 values, 6 locations and 4 threads, and so many in version 2, where there are at most 6 values and 8 locations. In the
/// largest layout a cas has as many clauses and literals in version 1, and as many literals in version 2; and a flush of a line on
/// which all locations stand has as many clauses in version 2.
pub fn persist_rules_are_counted()
    ensures most_1 { HasAtMost 1 most_persist_1 most_persist_literals_1 }
    ensures most_2 { HasAtMost 2 most_persist_2 most_persist_literals_2 }
    ensures cas_1 { CasHas 1 most_persist_1 most_persist_literals_1 }
    ensures cas_2 { CasHas 2 732 most_persist_literals_2 }
    ensures flush_2 { FlushHas 2 most_persist_2 1776 }
{}
