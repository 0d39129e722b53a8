//! The clauses of one obligation, lent one by one.

ghost use Rattle.std.specs.Prelude.{◌≡◌, ◌-◌, ◌<◌, ◌≤◌, ◌^◌, length, All};
ghost use Rattle.pg_region.specs.Region.{clause_at, counted};
ghost use Rattle.pg_region.specs.Range.{listed, Fits};

use crate::literal::Lit;
use crate::range::Loaded;
use crate::region::Region;
use std::marker::Model;

/// Lends the clauses of one obligation, and counts how often one is looked at; at the greatest number the count stays. Clauses
/// and atoms never change.
#[derive(Drop)]
pub struct ClauseReader<'a> {
    region: &'a Region,
    loaded: Loaded,
    looks: u64,
}

impl<'a> Model for ClauseReader<'a> {
    ghost use Rattle.pg_region.specs.Range.{listed, Fits};
    ghost use Rattle.pg_region.specs.Reading.{Reading};

    ghost Value = { Reading };

    ghost view = { λ r. record { clauses = listed r.region.now.clauses r.loaded.range; atoms = r.loaded.atoms; looks = r.looks } };

    ghost invariant = { λ r. Fits r.loaded r.region.now.clauses };
}

impl<'a> ClauseReader<'a> {
    /// A reader of what was loaded into a region.
    pub fn of(region: &'a Region, loaded: Loaded) -> ClauseReader<'a>
        requires { Fits loaded region.now.clauses }
        ensures { result ≡ record { clauses = listed region.now.clauses loaded.range; atoms = loaded.atoms; looks = 0 } }
    {
        ClauseReader {
            region,
            loaded,
            looks: 0,
        }
    }

    /// How many clauses there are.
    pub fn count(&self) -> u32
        ensures { result ≡ length self.now.clauses }
    {
        self.loaded.range.count()
    }

    /// The greatest number of an atom. No literal of the clauses has an atom above it.
    pub fn atoms(&self) -> u32
        ensures atoms { result ≡ self.now.atoms }
        ensures few { self.now.atoms < 2 ^ 31 }
        ensures over { All (All (λ x. x.atom ≤ self.now.atoms)) self.now.clauses }
    {
        self.loaded.atoms
    }

    /// How often a clause was looked at.
    pub fn looks(&self) -> u64
        ensures { result ≡ self.now.looks }
    {
        self.looks
    }

    /// The clause with a number, from 1 on. It is looked at.
    pub fn clause(&mut self, n: u32) -> &'a [Lit]
        requires { (1 ≤ n) × (n ≤ length self.old.clauses) }
        ensures clause { result.now ≡ clause_at self.old.clauses (n - 1) }
        ensures looks { self.new ≡ record self.old { looks = counted self.old.looks } }
    {
        self.looks = self.looks.saturating_add(1);
        self.loaded.range.clause(self.region, n)
    }
}
