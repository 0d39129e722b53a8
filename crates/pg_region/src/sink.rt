//! What clauses are given to.

ghost use Rattle.std.specs.Prelude.{◌≡◌, ℕ, Bool, List, ◌∷◌, []};
ghost use Rattle.pg_region.specs.Literal.{Literal};
ghost use Rattle.pg_region.specs.Sink.{Capacity, SinkView, Takes, sink_of, takes_in};

use crate::literal::Lit;
use crate::region::{Full, Region};

/// Takes clauses one by one. It has a list of clauses, a capacity, which never changes, and a count of the clauses that it took.
/// Whether it takes a clause is told by the list, the capacity and the clause.
pub trait ClauseSink {
    /// Why a clause is not taken.
    type Fault;

    /// What the sink holds.
    ghost view: { Self → SinkView };

    /// Whether a sink with this list and capacity takes a clause.
    ghost takes: { List (List Literal) → Capacity → List Literal → Bool };

    /// Gives it a clause. After a fault nothing has changed.
    fn clause(&mut self, clause: &[Lit]) -> Result<(), Self::Fault>
        ensures { Takes takes result (view self.old) (view self.new) clause.now };
}

impl ClauseSink for Region {
    type Fault = Full;

    ghost view = { sink_of };

    ghost takes = { takes_in };

    fn clause(&mut self, clause: &[Lit]) -> Result<(), Full> {
        match self.push(clause) {
            Ok(_) => Ok(()),
            Err(Full) => Err(Full),
        }
    }
}
