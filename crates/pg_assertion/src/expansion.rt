//! The expansion of a crash formula into a formula about one state of the machine, after this project's own
//! definition in `specs/Expansion.antt`.

ghost use Rattle.std.specs.Prelude.{◌≡◌, ℕ, ◌<◌, ◌≤◌, ◌↔◌, IsErrOf, length, map, option_map, [], Some, None, IfOk, OnOk};
ghost use Rattle.pg_program.specs.Limits.{IsDomainSize};
ghost use Rattle.pg_assertion.specs.Limits.{most_nodes, most_named, most_expansion_nodes};
ghost use Rattle.pg_assertion.specs.Formula.{plain, nodes, AllAtoms};
ghost use Rattle.pg_assertion.specs.Expansion.{mentions, named, value_in, fill, constant, connected, HasValueBelow, conjunction, can_persist, term, terms, joined, joined_all, or_true, expansion_over, expansion, expansion_size, ExpansionsHaveTheirSize, VectorsAreTheChoices, IsAtomOf};

use crate::atom::{CrashAtom, ViewAtom};
use crate::formula::Formula;
use pg_program::Names;
use std::alloc::{AllocError, Global};
use thiserror::Error;

/// How many nodes an expansion may have.
pub const MAX_EXPANSION_NODES: u64 = 8192;

/// Why a crash formula was not expanded.
#[derive(Clone, Copy, Debug, PartialEq, Eq, Error)]
pub enum ExpandFault {
    #[error("the expansion has {0} nodes")]
    TooLarge(u64),
    #[error("out of memory")]
    NoMemory,
}

/// What connects two formulas.
#[derive(Clone, Copy)]
enum Connective {
    And,
    Or,
    Implies,
}

/// The expansion of a crash formula: a conjunction over all choices of values of the locations that it names, the
/// first location slowest, grouped to the left. For each choice there is a term: if a crash may leave each of these
/// values in its location, the formula holds with these values put in. A formula that names no location stays as
/// it is.
///
/// `TooLarge` has the number of nodes that the expansion would have; no memory is taken then.
pub fn expand(
    alloc: Global,
    f: &Formula<CrashAtom>,
    names: &Names,
) -> Result<Formula<ViewAtom>, ExpandFault>
    requires domain { IsDomainSize names.now.domain }
    requires few_nodes { nodes (plain f.now) ≤ most_nodes }
    requires atoms { AllAtoms (IsAtomOf names.now) (plain f.now) }
    requires few_locations { length (named (length names.now.locations) (plain f.now)) ≤ most_named }
    ensures expanded { IfOk result (λ g. plain g ≡ expansion names.now (plain f.now)) }
    ensures small { IfOk result (λ g. nodes (plain g) ≤ most_expansion_nodes) }
    ensures too_large { (n : ℕ) → IsErrOf result (ExpandFault.TooLarge n) ↔ ((n ≡ nodes (expansion names.now (plain f.now))) × (most_expansion_nodes < n)) }
{
    let domain = names.domain() as u8;
    let locations = names.locations();
    let size = expansion_size(f, domain, locations);
    let is_too_large = size > MAX_EXPANSION_NODES;
    if is_too_large {
        return Err(ExpandFault::TooLarge(size));
    }
    match expanded(alloc, f, domain, locations) {
        Ok(g) => Ok(g),
        Err(_) => Err(ExpandFault::NoMemory),
    }
}

/// An expansion over D values of a formula of n nodes that names k locations, one at least, has
/// `D^k * (n + 2k) + D^k - 1` nodes; if it names none, it has n.
pub fn expansions_have_their_size()
    ensures { ExpansionsHaveTheirSize }
{}

/// The vectors that an expansion goes over are all choices of a value for each named location.
pub fn vectors_are_the_choices()
    ensures { VectorsAreTheChoices }
{}

/// The number of nodes of the expansion, which is not built.
fn expansion_size(f: &Formula<CrashAtom>, domain: u8, locations: u8) -> u64
    requires domain { IsDomainSize domain }
    requires few_nodes { nodes (plain f.now) ≤ most_nodes }
    requires few_locations { length (named locations (plain f.now)) ≤ most_named }
    ensures { result ≡ expansion_size domain (length (named locations (plain f.now))) (nodes (plain f.now)) }
{
    let nodes = f.nodes();
    let named = named_count(f, locations) as u32;
    if named == 0 {
        return nodes;
    }
    let terms = u64::from(domain).pow(named);
    terms * (nodes + 2 * u64::from(named)) + terms - 1
}

/// Whether the formula names the location.
fn mentions(f: &Formula<CrashAtom>, x: u8) -> bool
    ensures { result ≡ mentions x (plain f.now) }
{
    match f {
        Formula::True | Formula::False => false,
        Formula::Atom(CrashAtom::Scalar { .. }) => false,
        Formula::Atom(CrashAtom::Location { x: y, .. }) => *y == x,
        Formula::Not(f) => mentions(f.get(), x),
        Formula::And(f, g) | Formula::Or(f, g) | Formula::Implies(f, g) => {
            mentions(f.get(), x) || mentions(g.get(), x)
        }
    }
}

/// The declared locations that the formula names, in their order.
fn named(alloc: Global, f: &Formula<CrashAtom>, locations: u8) -> Result<Vec<u8>, AllocError>
    ensures { IfOk result (λ v. v.items ≡ named locations (plain f.now)) }
{
    let mut named = Vec::new(alloc);
    for x in 0..locations {
        if mentions(f, x) {
            named.push(x)?;
        }
    }
    Ok(named)
}

/// How many of so many declared locations the formula names.
pub fn named_count(f: &Formula<CrashAtom>, locations: u8) -> usize
    ensures { result ≡ length (named locations (plain f.now)) }
{
    (0..locations).filter(|x| mentions(f, *x)).count()
}

/// The value that a choice of values has for a location.
fn value_in(vector: &[(u8, u8)], x: u8) -> u8
    ensures { result ≡ value_in vector.now x }
{
    match vector {
        [] => 0,
        [(y, v), rest @ ..] => { if *y == x { *v } else { value_in(rest, x) } }
    }
}

/// The formula with the chosen values put in.
#[cycle(filled)]
fn filled(
    alloc: Global,
    f: &Formula<CrashAtom>,
    vector: &[(u8, u8)],
) -> Result<Formula<ViewAtom>, AllocError>
    requires { AllAtoms (HasValueBelow 256) (plain f.now) }
    ensures { IfOk result (λ g. plain g ≡ fill vector.now (plain f.now)) }
{
    match f {
        Formula::True => Ok(Formula::True),
        Formula::False => Ok(Formula::False),
        Formula::Atom(CrashAtom::Scalar { r, k }) => Ok(Formula::Atom(ViewAtom::Scalar {
            r: *r,
            k: *k as u8,
        })),
        Formula::Atom(CrashAtom::Location { x, v }) => Ok(constant(
            u32::from(value_in(vector, *x)) == *v,
        )),
        Formula::Not(f) => Formula::not(alloc, filled(alloc, f.get(), vector)?),
        Formula::And(f, g) => both_filled(alloc, Connective::And, f.get(), g.get(), vector),
        Formula::Or(f, g) => both_filled(alloc, Connective::Or, f.get(), g.get(), vector),
        Formula::Implies(f, g) => both_filled(alloc, Connective::Implies, f.get(), g.get(), vector),
    }
}

/// Two formulas with the chosen values put in, and connected.
#[cycle(filled)]
fn both_filled(
    alloc: Global,
    connective: Connective,
    f: &Formula<CrashAtom>,
    g: &Formula<CrashAtom>,
    vector: &[(u8, u8)],
) -> Result<Formula<ViewAtom>, AllocError>
    requires left { AllAtoms (HasValueBelow 256) (plain f.now) }
    requires right { AllAtoms (HasValueBelow 256) (plain g.now) }
    ensures { IfOk result (λ h. plain h ≡ connected connective (fill vector.now (plain f.now)) (fill vector.now (plain g.now))) }
{
    let f = filled(alloc, f, vector)?;
    let g = filled(alloc, g, vector)?;
    connected(alloc, connective, f, g)
}

/// Two formulas, connected.
fn connected(
    alloc: Global,
    connective: Connective,
    f: Formula<ViewAtom>,
    g: Formula<ViewAtom>,
) -> Result<Formula<ViewAtom>, AllocError>
    ensures { IfOk result (λ h. plain h ≡ connected connective (plain f) (plain g)) }
{
    match connective {
        Connective::And => Formula::and(alloc, f, g),
        Connective::Or => Formula::or(alloc, f, g),
        Connective::Implies => Formula::implies(alloc, f, g),
    }
}

/// `true` or `false` as a formula.
fn constant(is_true: bool) -> Formula<ViewAtom>
    ensures { plain result ≡ constant is_true }
{
    if is_true {
        Formula::True
    } else {
        Formula::False
    }
}

/// One more conjunct after those that are there.
fn join(
    alloc: Global,
    whole: &mut Option<Formula<ViewAtom>>,
    next: Formula<ViewAtom>,
) -> Result<(), AllocError>
    ensures { OnOk result (option_map plain whole.new ≡ Some (joined (option_map plain whole.old) (plain next))) }
{
    *whole = Some(match whole.take() {
        Some(before) => Formula::and(alloc, before, next)?,
        None => next,
    });
    Ok(())
}

/// The conjunction that was joined, `true` where nothing was.
fn or_true(whole: Option<Formula<ViewAtom>>) -> Formula<ViewAtom>
    ensures { plain result ≡ or_true (option_map plain whole) }
{
    match whole {
        Some(whole) => whole,
        None => Formula::True,
    }
}

/// That a crash may leave each of these values in its location.
fn premise(alloc: Global, vector: &[(u8, u8)]) -> Result<Formula<ViewAtom>, AllocError>
    ensures { IfOk result (λ g. plain g ≡ conjunction (map can_persist vector.now)) }
{
    let mut whole = None;
    for (x, v) in vector {
        let next = Formula::Atom(ViewAtom::Persist { x: *x, v: *v });
        join(alloc, &mut whole, next)?;
    }
    Ok(or_true(whole))
}

/// The term of a choice of values.
fn term(
    alloc: Global,
    f: &Formula<CrashAtom>,
    vector: &[(u8, u8)],
) -> Result<Formula<ViewAtom>, AllocError>
    requires { AllAtoms (HasValueBelow 256) (plain f.now) }
    ensures { IfOk result (λ g. plain g ≡ term (plain f.now) vector.now) }
{
    Formula::implies(alloc, premise(alloc, vector)?, filled(alloc, f, vector)?)
}

/// Joins the terms of the choices that begin with `chosen` and go on over the other locations.
fn join_terms(
    alloc: Global,
    f: &Formula<CrashAtom>,
    domain: u8,
    others: &[u8],
    chosen: &mut Vec<(u8, u8)>,
    whole: &mut Option<Formula<ViewAtom>>,
) -> Result<(), AllocError>
    requires { AllAtoms (HasValueBelow 256) (plain f.now) }
    ensures kept { OnOk result (chosen.new.items ≡ chosen.old.items) }
    ensures all { OnOk result (option_map plain whole.new ≡ joined_all (option_map plain whole.old) (terms domain others.now chosen.old.items (plain f.now))) }
{
    let [x, rest @ ..] = others else {
        return join(alloc, whole, term(alloc, f, chosen)?);
    };
    for v in 0..domain {
        chosen.push((*x, v))?;
        join_terms(alloc, f, domain, rest, chosen, whole)?;
        chosen.pop();
    }
    Ok(())
}

/// The terms of all choices of values of the named locations, joined.
fn all_terms(
    alloc: Global,
    f: &Formula<CrashAtom>,
    domain: u8,
    named: &[u8],
) -> Result<Formula<ViewAtom>, AllocError>
    requires { AllAtoms (HasValueBelow 256) (plain f.now) }
    ensures { IfOk result (λ g. plain g ≡ or_true (joined_all None (terms domain named.now [] (plain f.now)))) }
{
    let mut whole = None;
    join_terms(alloc, f, domain, named, &mut Vec::new(alloc), &mut whole)?;
    Ok(or_true(whole))
}

/// The expansion over the values below `domain`, with no limit on its size.
fn expanded(
    alloc: Global,
    f: &Formula<CrashAtom>,
    domain: u8,
    locations: u8,
) -> Result<Formula<ViewAtom>, AllocError>
    requires { AllAtoms (HasValueBelow 256) (plain f.now) }
    ensures { IfOk result (λ g. plain g ≡ expansion_over domain (named locations (plain f.now)) (plain f.now)) }
{
    let named = named(alloc, f, locations)?;
    if named.is_empty() {
        return filled(alloc, f, &[]);
    }
    all_terms(alloc, f, domain, &named)
}
