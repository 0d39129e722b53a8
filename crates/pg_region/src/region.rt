//! The region: a stack of clauses, with room that was taken once.

ghost use Rattle.std.specs.Prelude.{◌≡◌, ℕ, ◌+◌, ◌<◌, ◌≤◌, true, false, [], ◌∷◌, ◌++◌, length, slice_index_or, IfOk, OnErr, vec_capacity};
ghost use Rattle.pg_region.specs.Pieces.{pieces, total, AreEnds};
ghost use Rattle.pg_region.specs.Region.{takes, pushed, released, clause_at};

use crate::literal::Lit;
use std::alloc::{AllocError, Global};
use std::marker::Model;
use thiserror::Error;

/// A clause of a region, by its place from 0.
#[derive(Clone, Copy, Debug, Drop)]
pub struct ClauseId {
    place: u32,
}

impl Model for ClauseId {
    ghost use Rattle.std.specs.Prelude.{ℕ, refl};

    ghost Value = { ℕ };

    ghost view = { λ c. c.place };

    ghost inverse = { λ n. record { place = n } };

    ghost inverse_ok = { λ _ _. refl };
}

impl ClauseId {
    /// The clause at a place, from 0 on.
    pub(crate) fn at(place: u32) -> ClauseId
        ensures { result ≡ place }
    {
        ClauseId { place }
    }
}

/// How many clauses a region had when the mark was made.
#[derive(Clone, Copy, Debug, Drop)]
pub struct Mark {
    length: u32,
}

impl Model for Mark {
    ghost use Rattle.std.specs.Prelude.{ℕ, refl};

    ghost Value = { ℕ };

    ghost view = { λ m. m.length };

    ghost inverse = { λ n. record { length = n } };

    ghost inverse_ok = { λ _ _. refl };
}

/// A clause did not fit: it has more literals than there are spare words, or no span is spare.
#[derive(Clone, Copy, Debug, PartialEq, Eq, Error)]
#[error("the region is full")]
pub struct Full;

/// A stack of clauses in one region of words: their literals one after the other, and where each clause ends, its span.
#[derive(Drop)]
pub struct Region {
    words: Vec<Lit>,
    ends: Vec<u32>,
    pushes: u64,
}

impl Model for Region {
    ghost use Rattle.std.specs.Prelude.{◌-◌, vec_len, vec_capacity};
    ghost use Rattle.pg_region.specs.Pieces.{pieces};
    ghost use Rattle.pg_region.specs.Region.{RegionTable};
    ghost use Rattle.pg_region.specs.Room.{IsRegion};

    ghost Value = { RegionTable };

    ghost view = { λ r. record {
      clauses = pieces r.words.items 0 r.ends.items;
      spare_words = vec_capacity r.words - vec_len r.words;
      spare_spans = vec_capacity r.ends - vec_len r.ends;
      pushes = r.pushes;
    } };

    ghost invariant = { λ r. IsRegion r.words.items r.ends.items (vec_capacity r.words) (vec_capacity r.ends) };
}

impl Region {
    /// An empty region with so many spare words and spans.
    pub fn make(alloc: Global, words: u32, spans: u32) -> Result<Region, AllocError>
        ensures { IfOk result (λ r. r ≡ record { clauses = []; spare_words = words; spare_spans = spans; pushes = 0 }) }
    {
        let words = Vec::with_capacity(alloc, words as usize)?;
        let ends = Vec::with_capacity(alloc, spans as usize)?;
        Ok(Region {
            words,
            ends,
            pushes: 0,
        })
    }

    /// Appends a clause. Takes no memory.
    pub fn push(&mut self, clause: &[Lit]) -> Result<ClauseId, Full>
        ensures ok { IfOk result (λ id. (takes self.old clause.now ≡ true) × (id ≡ length self.old.clauses) × (self.new ≡ pushed self.old clause.now)) }
        ensures full { OnErr result ((takes self.old clause.now ≡ false) × (self.new ≡ self.old)) }
    {
        if clause.len() > self.words.capacity() - self.words.len()
            || self.ends.len() >= self.ends.capacity()
        {
            return Err(Full);
        }
        let place = self.ends.len() as u32;
        append(&mut self.words, clause);
        self.ends.push_reserved(self.words.len() as u32);
        self.pushes = self.pushes.saturating_add(1);
        Ok(ClauseId { place })
    }

    /// The present length of the list.
    pub fn mark(&self) -> Mark
        ensures { result ≡ length self.now.clauses }
    {
        Mark {
            length: self.ends.len() as u32,
        }
    }

    /// Cuts the list back to its length at the mark. The words and spans of the clauses that are cut become spare.
    pub fn release(&mut self, mark: Mark)
        requires { mark ≤ length self.old.clauses }
        ensures { self.new ≡ released self.old mark }
    {
        let keep = mark.length as usize;
        let end = end_of(&self.ends, keep);
        self.words.truncate(end);
        self.ends.truncate(keep);
    }

    /// The clause.
    pub fn get(&self, id: ClauseId) -> &[Lit]
        requires { id < length self.now.clauses }
        ensures { result.now ≡ clause_at self.now.clauses id }
    {
        piece(&self.words, &self.ends, id.place as usize)
    }

    /// How many more literals there is room for.
    pub fn spare_words(&self) -> u32
        ensures { result ≡ self.now.spare_words }
    {
        (self.words.capacity() - self.words.len()) as u32
    }

    /// How many more clauses there is room for.
    pub fn spare_spans(&self) -> u32
        ensures { result ≡ self.now.spare_spans }
    {
        (self.ends.capacity() - self.ends.len()) as u32
    }

    /// The literals of all clauses together.
    pub fn words(&self) -> u32
        ensures { result ≡ total self.now.clauses }
    {
        self.words.len() as u32
    }

    /// The number of clauses.
    pub fn clauses(&self) -> u32
        ensures { result ≡ length self.now.clauses }
    {
        self.ends.len() as u32
    }

    /// How many clauses were pushed since the region was made; at the greatest number it stays.
    pub fn pushes(&self) -> u64
        ensures { result ≡ self.now.pushes }
    {
        self.pushes
    }
}

/// Where the first `count` pieces end.
fn end_of(ends: &[u32], count: usize) -> usize
    requires { count ≤ length ends.now }
    ensures { result ≡ slice_index_or (0 ∷ ends.now) count 0 }
{
    if count == 0 {
        0
    } else {
        ends[count - 1] as usize
    }
}

/// The piece with this place.
fn piece<'a>(words: &'a [Lit], ends: &[u32], place: usize) -> &'a [Lit]
    requires ends { AreEnds 0 ends.now (length words.now) }
    requires place { place < length ends.now }
    ensures { result.now ≡ clause_at (pieces words.now 0 ends.now) place }
{
    let from = end_of(ends, place);
    let to = ends[place] as usize;
    &words[from..to]
}

/// Appends literals to words that have room for them.
fn append(words: &mut Vec<Lit>, literals: &[Lit])
    requires { length words.old.items + length literals.now ≤ vec_capacity words.old }
    ensures items { words.new.items ≡ words.old.items ++ literals.now }
    ensures capacity { vec_capacity words.new ≡ vec_capacity words.old }
{
    for literal in literals {
        words.push_reserved(*literal);
    }
}
