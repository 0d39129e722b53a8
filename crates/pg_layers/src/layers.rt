//! The layers of clauses on a region, from below: the axioms of both sides, the rules of a step, and the top part of an obligation.

ghost use Rattle.std.specs.Prelude.{◌≡◌, ◌↔◌, [], List, IsTrue, None, Some};
ghost use Rattle.pg_assertion.specs.Layout.{IsWithinLimits};
ghost use Rattle.pg_region.specs.Literal.{Literal};
ghost use Rattle.pg_tables.specs.Steps.{IsStepOf};
ghost use Rattle.pg_region.specs.Sink.{Appended, sink_of};
ghost use Rattle.pg_obligations.specs.Follow.{axioms_of};
ghost use Rattle.pg_layers.specs.Clauses.{layout_of, rules_of, by_numbers};
ghost use Rattle.pg_layers.specs.Members.{IsObligationOf};
ghost use Rattle.pg_layers.specs.Layers.{left_by};
ghost use Rattle.pg_layers.specs.Laid.{AreBounded, Fit, HasRoom, IsStepIf, AreKept, Lies, ruled_in, last_in, IsBased, IsRuled, IsTopped};

use crate::obligation::{offer_axioms, offer_rules, offer_top};
use pg_assertion::{Layout, Side};
use pg_axioms::axioms_are_counted;
use pg_obligations::Obligation;
use pg_outline::Outline;
use pg_program::Step;
use pg_region::{Mark, Region};
use pg_rules_access::access_rules_are_counted;
use pg_rules_persist::persist_rules_are_counted;

/// The axioms of both sides, and the rules of a step on them.
#[derive(Clone, Copy)]
pub struct Layers {
    /// The step whose rules lie there.
    pub ruled: Option<Step>,
    /// Where the axioms of the side before end, those of both sides, and the rules.
    pub middle: u32,
    pub base_to: u32,
    pub rules_to: u32,
    /// The last two again, as marks.
    pub base: Mark,
    pub rules: Mark,
}

/// What lies on a region: these layers, and the top part of an obligation on them.
#[derive(Clone, Copy)]
pub struct Laid {
    pub layers: Layers,
    pub last: Obligation,
}

/// Lays the axioms of both sides, unless they lie there.
pub fn with_axioms(o: &Outline, layout: &Layout, laid: Option<Laid>, region: &mut Region) -> Layers
    requires layout { layout.now ≡ layout_of o.now }
    requires kept { AreKept o.now laid }
    requires laid { region.old.clauses ≡ left_by o.now (ruled_in laid) (last_in laid) }
    requires room { HasRoom region.old }
    ensures { IsBased o.now laid result region.old region.new }
{
    match laid {
        Some(laid) => laid.layers,
        None => first_axioms(o, layout, region),
    }
}

/// Lays the axioms of both sides on an empty region.
fn first_axioms(o: &Outline, layout: &Layout, region: &mut Region) -> Layers
    requires layout { layout.now ≡ layout_of o.now }
    requires empty { region.old.clauses ≡ [] }
    requires room { HasRoom region.old }
    ensures { IsBased o.now None result region.old region.new }
{
    bounded(o, layout);
    lay_axioms(o, layout, Side::Before, region);
    let middle = region.clauses();
    lay_axioms(o, layout, Side::After, region);
    Layers {
        ruled: None,
        middle,
        base_to: region.clauses(),
        rules_to: region.clauses(),
        base: region.mark(),
        rules: region.mark(),
    }
}

// How large the axioms of a side and the rules of a step are at most, by the laws that bound them.
fn bounded(o: &Outline, layout: &Layout)
    requires { layout.now ≡ layout_of o.now }
    ensures bounds { AreBounded o.now }
    ensures limits { IsWithinLimits (layout_of o.now) }
{
    let _made = o.program();
    let _limits = layout.domain();
    axioms_are_counted();
    access_rules_are_counted();
    persist_rules_are_counted();
}

/// Lays the axioms of a side.
fn lay_axioms(o: &Outline, layout: &Layout, side: Side, region: &mut Region)
    requires layout { layout.now ≡ layout_of o.now }
    requires room { Fit region.old (by_numbers (layout_of o.now) (axioms_of o.now.program side)) }
    ensures { Appended (sink_of region.old) (sink_of region.new) (by_numbers (layout_of o.now) (axioms_of o.now.program side)) }
{
    match offer_axioms(o, layout, side, region) {
        Ok(()) => {}
        Err(_) => unreachable!(),
    }
}

/// Lays the rules of a step.
fn lay_rules(o: &Outline, layout: &Layout, step: &Step, region: &mut Region)
    requires layout { layout.now ≡ layout_of o.now }
    requires step { IsStepOf o.now.program step.now }
    requires room { Fit region.old (by_numbers (layout_of o.now) (rules_of o.now.program step.now)) }
    ensures { Appended (sink_of region.old) (sink_of region.new) (by_numbers (layout_of o.now) (rules_of o.now.program step.now)) }
{
    match offer_rules(o, layout, step, region) {
        Ok(()) => {}
        Err(_) => unreachable!(),
    }
}

/// Whether the rules of this step are those that lie there.
fn is_kept(kept: Option<Step>, step: &Step) -> bool
    ensures { IsTrue result ↔ (kept ≡ Some step.now) }
{
    match kept {
        Some(kept) => kept == *step,
        None => false,
    }
}

/// Lays the rules of a step, where there is one and they do not lie there yet, and takes away what lay on them.
pub fn with_rules(
    o: &Outline,
    layout: &Layout,
    k: Layers,
    step: Option<Step>,
    region: &mut Region,
) -> Layers
    requires layout { layout.now ≡ layout_of o.now }
    requires step { IsStepIf o.now step }
    requires lies { (rest : List (List Literal)) × Lies o.now k rest region.old.clauses }
    requires room { HasRoom region.old }
    ensures { IsRuled o.now step k result region.old region.new }
{
    match step {
        Some(step) => with_rules_of(o, layout, k, step, region),
        None => {
            region.release(k.rules);
            k
        }
    }
}

/// Lays the rules of this step, unless they lie there, and takes away what lay on them.
fn with_rules_of(o: &Outline, layout: &Layout, k: Layers, step: Step, region: &mut Region) -> Layers
    requires layout { layout.now ≡ layout_of o.now }
    requires step { IsStepOf o.now.program step }
    requires lies { (rest : List (List Literal)) × Lies o.now k rest region.old.clauses }
    requires room { HasRoom region.old }
    ensures { IsRuled o.now (Some step) k result region.old region.new }
{
    if is_kept(k.ruled, &step) {
        region.release(k.rules);
        return k;
    }
    bounded(o, layout);
    region.release(k.base);
    lay_rules(o, layout, &step, region);
    Layers {
        ruled: Some(step),
        middle: k.middle,
        base_to: k.base_to,
        rules_to: region.clauses(),
        base: k.base,
        rules: region.mark(),
    }
}

/// Lays the top part of an obligation on the layers.
pub fn with_top(o: &Outline, layout: &Layout, k: &Layers, ob: Obligation, region: &mut Region)
    requires layout { layout.now ≡ layout_of o.now }
    requires ob { IsObligationOf o.now.program ob }
    requires lies { Lies o.now k.now [] region.old.clauses }
    requires room { HasRoom region.old }
    ensures { IsTopped o.now ob k.now region.old region.new }
{
    let _made = o.program();
    bounded(o, layout);
    match offer_top(o, layout, ob, region) {
        Ok(()) => {}
        Err(_) => unreachable!(),
    }
}
