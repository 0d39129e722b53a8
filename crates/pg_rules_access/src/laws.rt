//! What holds of the access rules. No function here does anything: its contract is the law.

ghost use Rattle.pg_rules_access.specs.Bound.{HasAtMost, most_access_rules_1, most_access_literals_1, most_access_rules_2, most_access_literals_2};

/// How many access rules a step has at most, and how many literals in all of them together: so many in version 1, where there
/// are at most 4 values, 16 scalars, 6 locations and 4 threads, and so many in version 2, where there are at most 6 values and
/// 8 locations.
pub fn access_rules_are_counted()
    ensures most_1 { HasAtMost 1 most_access_rules_1 most_access_literals_1 }
    ensures most_2 { HasAtMost 2 most_access_rules_2 most_access_literals_2 }
{}
