//! Chains of slots, linked in two arrays. A slot stands in one chain at most.

ghost use Rattle.std.specs.Prelude.{◌≡◌, ℕ, ◌+◌, ◌-◌, ◌<◌, ◌≤◌, ◌^◌, List, [], ◌∷◌, length, replicate, slice_set, drop, map, MatchOption, IfOk};
ghost use Rattle.pg_decider.specs.Chains.{chain, with_chain, times, held, IsFree, AreChains};
ghost use Rattle.pg_decider.specs.Weigh.{weigh};

use std::alloc::{AllocError, Global};
use std::marker::Model;

/// The first slot of a chain, and how many slots it has.
#[derive(Clone, Copy, Drop)]
pub struct Start {
    head: u32,
    size: u32,
}

/// Where each chain begins, and for each slot the next one of its chain. Chains are numbered from 0, and slots too.
#[derive(Drop)]
pub struct Chains {
    starts: Vec<Start>,
    next: Vec<u32>,
}

impl Model for Chains {
    ghost use Rattle.std.specs.Prelude.{◌<◌, ◌^◌, map, length};
    ghost use Rattle.pg_decider.specs.Chains.{ChainTable, AreChains};
    ghost use Rattle.pg_decider.specs.Starts.{lists_of};

    ghost Value = { ChainTable };

    ghost view = { λ c. record { lists = lists_of c.next.items c.starts.items; slots = length c.next.items } };

    ghost invariant = { λ c. (AreChains (lists_of c.next.items c.starts.items) (length c.next.items)) × (length c.next.items < 2 ^ 32) };
}

impl Chains {
    /// So many empty chains, for so many slots.
    pub fn make(alloc: Global, lists: usize, slots: u32) -> Result<Chains, AllocError>
        ensures { IfOk result (λ c. c ≡ record { lists = replicate lists []; slots = slots }) }
    {
        let starts = no_starts(alloc, lists)?;
        let next = vec![in alloc; 0; slots as usize]?;
        Ok(Chains { starts, next })
    }

    /// Empties each chain.
    pub fn clear(&mut self)
        ensures { self.new ≡ record { lists = replicate (length self.old.lists) []; slots = self.old.slots } }
    {
        empty_all(self.starts.as_mut_slice());
    }

    /// Moves what stands in a chain to chain 0, which is empty.
    pub fn detach(&mut self, list: usize)
        requires list { (0 < list) × (list < length self.old.lists) }
        requires empty { chain self.old.lists 0 ≡ [] }
        ensures moved { self.new ≡ with_chain (with_chain self.old 0 (chain self.old.lists list)) list [] }
        ensures chains { AreChains self.old.lists self.old.slots }
    {
        let start = self.starts[list];
        self.starts[0] = start;
        self.starts[list] = Start { head: 0, size: 0 };
    }

    /// Takes the first slot of a chain.
    pub fn pop(&mut self, list: usize) -> Option<u32>
        requires { list < length self.old.lists }
        ensures { MatchOption result ((chain self.old.lists list ≡ []) × (self.new ≡ self.old)) (λ x. (chain self.old.lists list ≡ x ∷ drop 1 (chain self.old.lists list)) × (self.new ≡ with_chain self.old list (drop 1 (chain self.old.lists list))) × IsFree self.new x) }
    {
        let start = self.starts[list];
        if start.size == 0 {
            return None;
        }
        self.starts[list] = Start {
            head: self.next[start.head as usize],
            size: start.size - 1,
        };
        Some(start.head)
    }

    /// Puts a slot that stands in no chain at the head of a chain.
    pub fn push(&mut self, list: usize, slot: u32)
        requires list { list < length self.old.lists }
        requires free { IsFree self.old slot }
        ensures { self.new ≡ with_chain self.old list (slot ∷ chain self.old.lists list) }
    {
        let start = self.starts[list];
        self.next[slot as usize] = start.head;
        self.starts[list] = Start {
            head: slot,
            size: start.size + 1,
        };
    }
}

/// Makes each chain an empty one.
fn empty_all(starts: &mut [Start])
    ensures { weigh (λ s. s.size) starts.new ≡ 0 }
{
    for i in 0..starts.len() {
        starts[i] = Start { head: 0, size: 0 };
    }
}

/// The starts of so many empty chains.
fn no_starts(alloc: Global, lists: usize) -> Result<Vec<Start>, AllocError>
    ensures empty { IfOk result (λ v. weigh (λ s. s.size) v.items ≡ 0) }
    ensures length { IfOk result (λ v. length v.items ≡ lists) }
{
    let mut starts = Vec::with_capacity(alloc, lists)?;
    'lists: for _ in 0..lists {
        starts.push(Start { head: 0, size: 0 })?;
    }
    Ok(starts)
}
