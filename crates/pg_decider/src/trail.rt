//! The trail: the literals that are true, which are taken back in the opposite order.

ghost use Rattle.std.specs.Prelude.{◌≡◌, ℕ, ◌+◌, ◌-◌, ◌<◌, ◌≤◌, ◌^◌, false, [], ◌∷◌, ◌++◌, length, take, IfOk};
ghost use Rattle.pg_region.specs.Literal.{Literal, negated};
ghost use Rattle.pg_decider.specs.Assignment.{on};
ghost use Rattle.pg_decider.specs.Trail.{lit, code, IsTrail, reason, added_to, cut};

use pg_region::Lit;
use std::alloc::{AllocError, Global};
use std::marker::Model;

/// The literals in the order in which they were added, with the clause that forced each, and for each atom its value.
#[derive(Drop)]
pub struct Trail {
    values: Vec<u8>,
    literals: Vec<Lit>,
    reasons: Vec<u32>,
}

impl Model for Trail {
    ghost use Rattle.std.specs.Prelude.{◌≡◌, ◌≤◌, ◌-◌, length, vec_capacity};
    ghost use Rattle.pg_decider.specs.Trail.{TrailTable, AreValues};

    ghost Value = { TrailTable };

    ghost view = { λ t. record { atoms = length t.values.items - 1; literals = t.literals.items; reasons = t.reasons.items } };

    ghost invariant = { λ t. AreValues t.values.items t.literals.items (vec_capacity t.literals) × (length t.reasons.items ≡ length t.literals.items) × (length t.values.items ≤ vec_capacity t.reasons) };
}

impl Trail {
    /// An empty trail over the atoms up to `atoms`.
    pub fn make(alloc: Global, atoms: u32) -> Result<Trail, AllocError>
        requires { atoms < 2 ^ 31 }
        ensures { IfOk result (λ t. t ≡ record { atoms = atoms; literals = []; reasons = [] }) }
    {
        let values = vec![in alloc; 0; atoms as usize + 1]?;
        let literals = Vec::with_capacity(alloc, atoms as usize + 1)?;
        let reasons = Vec::with_capacity(alloc, atoms as usize + 1)?;
        Ok(Trail {
            values,
            literals,
            reasons,
        })
    }

    /// How many atoms it is over.
    pub fn atoms(&self) -> u32
        ensures { result ≡ self.now.atoms }
    {
        (self.values.len() - 1) as u32
    }

    /// How many literals it has.
    pub fn len(&self) -> u32
        ensures length { result ≡ length self.now.literals }
        ensures trail { IsTrail self.now.atoms self.now.literals }
    {
        self.literals.len() as u32
    }

    /// The literal that was added as the i-th, from 0 on.
    pub fn at(&self, i: u32) -> Lit
        requires { i < length self.now.literals }
        ensures { result ≡ lit self.now.literals i }
    {
        self.literals[i as usize]
    }

    /// The number of the clause that forced the i-th literal, 0 for one that was chosen.
    pub fn reason(&self, i: u32) -> u32
        requires { i < length self.now.literals }
        ensures { result ≡ reason self.now i }
    {
        self.reasons[i as usize]
    }

    /// Whether a literal is true.
    pub fn is_true(&self, l: Lit) -> bool
        requires { l.atom ≤ self.now.atoms }
        ensures value { result ≡ on self.now.literals l }
        ensures trail { IsTrail self.now.atoms self.now.literals }
    {
        self.values[l.atom() as usize] == coded(l.positive())
    }

    /// Adds a literal that the clause with the number `reason` forces, or one that is chosen, with the reason 0. There is room for it.
    pub fn add(&mut self, l: Lit, reason: u32)
        requires atom { l.atom ≤ self.old.atoms }
        requires free { on self.old.literals l ≡ false }
        requires open { on self.old.literals (negated l) ≡ false }
        ensures added { self.new ≡ added_to self.old l reason }
        ensures reasons { length self.old.reasons ≡ length self.old.literals }
    {
        self.values[l.atom() as usize] = coded(l.positive());
        self.literals.push_reserved(l);
        self.reasons.push_reserved(reason);
    }

    /// Takes back the literals that were added since the trail had `mark` of them.
    pub fn undo(&mut self, mark: u32)
        requires { mark ≤ length self.old.literals }
        ensures { self.new ≡ cut self.old mark }
    {
        while self.literals.len() > mark as usize {
            if let Some(l) = self.literals.pop() {
                self.values[l.atom() as usize] = 0;
            }
        }
        self.reasons.truncate(mark as usize);
    }
}

/// The value of an atom with a true literal; 0 is that of one without a value.
fn coded(positive: bool) -> u8
    ensures { result ≡ code positive }
{
    if positive { 1 } else { 2 }
}
