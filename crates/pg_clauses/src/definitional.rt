//! The definitional clauses of a formula. After Tseitin, with a clause for each direction of each connective.

ghost use Rattle.std.specs.Prelude.{◌≡◌, ◌<◌, ◌≤◌, ◌^◌};
ghost use Rattle.pg_assertion.specs.Formula.{plain, with_atoms, AllAtoms};
ghost use Rattle.pg_clauses.specs.Definitional.{after, literal, clauses};
ghost use Rattle.pg_clauses.specs.Made.{AreBelow, Fits, Makes, Clausifies};

use crate::fresh::Fresh;
use crate::node::{Made, conjunction, constant, disjunction, implication};
use pg_assertion::{Formula, Numbering, Side};
use pg_region::{ClauseSink, Lit};

/// Gives the definitional clauses of a formula to a sink, and answers the formula's literal. Each node but atoms and negations
/// takes a new atom, those of a node's parts before its own. After a fault the sink has the clauses before the one that it did
/// not take, and no atom was taken.
pub fn clausify<T, M: Numbering<T>, S: ClauseSink>(
    f: &Formula<T>,
    numbers: &M,
    side: Side,
    fresh: &mut Fresh,
    into: &mut S,
) -> Result<Lit, S::Fault>
    requires atoms { AllAtoms (M.has numbers.now) (plain f.now) }
    requires below { AreBelow fresh.old (with_atoms (λ a. M.number_on numbers.now a side) (plain f.now)) }
    requires some { 1 ≤ fresh.old }
    requires few { after fresh.old (with_atoms (λ a. M.number_on numbers.now a side) (plain f.now)) ≤ 2 ^ 31 }
    ensures { Clausifies S.takes result (S.view into.old) (S.view into.new) fresh.old fresh.new (with_atoms (λ a. M.number_on numbers.now a side) (plain f.now)) }
{
    let made = defined(f, numbers, side, fresh.next(), into)?;
    *fresh = Fresh::from(made.next);
    Ok(made.literal)
}

/// The same, where the next new atom has the number `next`.
#[tactic(auto, unfolding(pg_assertion::specs::Formula::with_atoms))]
fn defined<T, M: Numbering<T>, S: ClauseSink>(
    f: &Formula<T>,
    numbers: &M,
    side: Side,
    next: u32,
    into: &mut S,
) -> Result<Made, S::Fault>
    requires atoms { AllAtoms (M.has numbers.now) (plain f.now) }
    requires fits { Fits next (with_atoms (λ a. M.number_on numbers.now a side) (plain f.now)) }
    ensures { let g = with_atoms (λ a. M.number_on numbers.now a side) (plain f.now) in
        Makes S.takes result (S.view into.old) (S.view into.new) (literal next g) (after next g) (clauses next g) }
{
    match f {
        Formula::True => constant(next, true, into),
        Formula::False => constant(next, false, into),
        Formula::Atom(a) => Ok(Made {
            literal: Lit::of(numbers.number_at(a, side), true),
            next,
        }),
        Formula::Not(f) => {
            let made = defined(f.get(), numbers, side, next, into)?;
            Ok(Made {
                literal: made.literal.negated(),
                next: made.next,
            })
        }
        Formula::And(f, g) => {
            let a = defined(f.get(), numbers, side, next, into)?;
            let b = defined(g.get(), numbers, side, a.next, into)?;
            conjunction(b.next, a.literal, b.literal, into)
        }
        Formula::Or(f, g) => {
            let a = defined(f.get(), numbers, side, next, into)?;
            let b = defined(g.get(), numbers, side, a.next, into)?;
            disjunction(b.next, a.literal, b.literal, into)
        }
        Formula::Implies(f, g) => {
            let a = defined(f.get(), numbers, side, next, into)?;
            let b = defined(g.get(), numbers, side, a.next, into)?;
            implication(b.next, a.literal, b.literal, into)
        }
    }
}
