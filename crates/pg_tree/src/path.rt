//! The literals that are true, which are taken back in the opposite order.

ghost use Rattle.std.specs.Prelude.{◌≡◌, ◌+◌, ◌<◌, ◌≤◌, ◌^◌, false, [], ◌∷◌, ◌++◌, take, IfOk};
ghost use Rattle.pg_region.specs.Literal.{Literal, negated};
ghost use Rattle.pg_decider.specs.Assignment.{on};
ghost use Rattle.pg_decider.specs.Trail.{lit, code, IsTrail};

use pg_region::Lit;
use std::alloc::{AllocError, Global};
use std::marker::Model;

/// The literals in the order in which they were added, and for each atom its value.
#[derive(Drop)]
pub struct Path {
    values: Vec<u8>,
    literals: Vec<Lit>,
}

impl Model for Path {
    ghost use Rattle.std.specs.Prelude.{◌-◌, length, vec_capacity};
    ghost use Rattle.pg_decider.specs.Trail.{AreValues};
    ghost use Rattle.pg_tree.specs.Path.{PathTable};

    ghost Value = { PathTable };

    ghost view = { λ p. record { atoms = length p.values.items - 1; literals = p.literals.items } };

    ghost invariant = { λ p. AreValues p.values.items p.literals.items (vec_capacity p.literals) };
}

impl Path {
    ghost use Rattle.std.specs.Prelude.{◌≡◌, ◌++◌, ◌∷◌, [], length, take};

    /// No literal, over the atoms up to `atoms`.
    pub fn make(alloc: Global, atoms: u32) -> Result<Path, AllocError>
        requires { atoms < 2 ^ 31 }
        ensures { IfOk result (λ p. p ≡ record { atoms = atoms; literals = [] }) }
    {
        let values = vec![in alloc; 0; atoms as usize + 1]?;
        let literals = Vec::with_capacity(alloc, atoms as usize + 1)?;
        Ok(Path { values, literals })
    }

    /// How many atoms it is over.
    pub fn atoms(&self) -> u32
        ensures { result ≡ self.now.atoms }
    {
        (self.values.len() - 1) as u32
    }

    /// How many literals it has.
    pub fn len(&self) -> u32
        ensures length { result ≡ length self.now.literals }
        ensures trail { IsTrail self.now.atoms self.now.literals }
    {
        self.literals.len() as u32
    }

    /// The literal that was added as the i-th, from 0 on.
    pub fn at(&self, i: u32) -> Lit
        requires { i < length self.now.literals }
        ensures literal { result ≡ lit self.now.literals i }
        ensures trail { IsTrail self.now.atoms self.now.literals }
    {
        self.literals[i as usize]
    }

    /// Whether a literal is true.
    pub fn is_true(&self, l: Lit) -> bool
        requires { l.atom ≤ self.now.atoms }
        ensures { result ≡ on self.now.literals l }
    {
        self.values[l.atom() as usize] == coded(l.positive())
    }

    /// Adds a literal. There is room for it.
    pub fn add(&mut self, l: Lit)
        requires atom { l.atom ≤ self.old.atoms }
        requires free { on self.old.literals l ≡ false }
        requires open { on self.old.literals (negated l) ≡ false }
        ensures { self.new ≡ record self.old { literals = self.old.literals ++ l ∷ [] } }
    {
        self.values[l.atom() as usize] = coded(l.positive());
        self.literals.push_reserved(l);
    }

    /// Takes back the literals that were added since there were `mark` of them.
    pub fn undo(&mut self, mark: u32)
        requires { mark ≤ length self.old.literals }
        ensures { self.new ≡ record self.old { literals = take mark self.old.literals } }
    {
        while self.literals.len() > mark as usize {
            if let Some(l) = self.literals.pop() {
                self.values[l.atom() as usize] = 0;
            }
        }
    }
}

/// The value of an atom with a true literal; 0 is that of one without a value.
fn coded(positive: bool) -> u8
    ensures { result ≡ code positive }
{
    if positive { 1 } else { 2 }
}
