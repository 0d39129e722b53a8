//! What the clauses of an obligation decide. No function here does anything: its contract is the law.

ghost use Rattle.pg_layers.specs.Decide.{ClausesDecide};

/// An obligation of an outline follows exactly where no assignment of truth values to the numbers of atoms makes each of its clauses
/// true.
pub fn clauses_decide_obligations()
    ensures { ClausesDecide }
{}
