//! Which clauses of a region are those of one obligation.

ghost use Rattle.std.specs.Prelude.{◌≡◌, ◌-◌, ◌≤◌, length};
ghost use Rattle.pg_region.specs.Region.{clause_at};
ghost use Rattle.pg_region.specs.Range.{count_of, listed, IsRange, IsWithin};

use crate::literal::Lit;
use crate::region::{ClauseId, Region};

/// The clauses of one obligation in three parts of a region, each from one place to another: the clauses of its formulas, the
/// rules of its step and the axioms. Numbers from 1 on run through the parts in this order.
#[derive(Clone, Copy, Debug, Drop)]
pub struct ClauseRange {
    pub top_from: u32,
    pub top_to: u32,
    pub rules_from: u32,
    pub rules_to: u32,
    pub axioms_from: u32,
    pub axioms_to: u32,
}

/// The clauses of one obligation, and the greatest number of its atoms.
#[derive(Clone, Copy, Debug, Drop)]
pub struct Loaded {
    pub range: ClauseRange,
    pub atoms: u32,
}

impl ClauseRange {
    /// How many clauses there are.
    pub fn count(&self) -> u32
        requires { IsRange self.now }
        ensures { result ≡ count_of self.now }
    {
        (self.top_to - self.top_from)
            + ((self.rules_to - self.rules_from) + (self.axioms_to - self.axioms_from))
    }

    /// The clause with a number, from 1 on.
    pub fn clause<'a>(&self, region: &'a Region, n: u32) -> &'a [Lit]
        requires range { IsRange self.now }
        requires within { IsWithin self.now (length region.now.clauses) }
        requires number { (1 ≤ n) × (n ≤ count_of self.now) }
        ensures { result.now ≡ clause_at (listed region.now.clauses self.now) (n - 1) }
    {
        let k = n - 1;
        let top = self.top_to - self.top_from;
        if k < top {
            return region.get(ClauseId::at(self.top_from + k));
        }
        let rules = self.rules_to - self.rules_from;
        if k - top < rules {
            return region.get(ClauseId::at(self.rules_from + (k - top)));
        }
        region.get(ClauseId::at(self.axioms_from + (k - top - rules)))
    }
}
