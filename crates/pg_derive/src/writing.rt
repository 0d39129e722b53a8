//! Judging an outline, and writing its derivation.

ghost use Rattle.std.specs.Prelude.{◌≡◌, ◌≤◌, IfOk, OnOk, length};
ghost use Rattle.pg_decider.specs.Assignment.{on};
ghost use Rattle.pg_decider.specs.Leaf.{IsLog};
ghost use Rattle.pg_outline.specs.Made.{IsOutline};
ghost use Rattle.pg_layers.specs.Clauses.{obligation, obligation_clauses};
ghost use Rattle.pg_judge.specs.Limits.{most_budget};
ghost use Rattle.pg_layers.specs.Needs.{IsMostAtoms};
ghost use Rattle.pg_judge.specs.Outcome.{IsOutcome, outcome_of, obligation_count};
ghost use Rattle.pg_judge.specs.Laws.{Says};
ghost use Rattle.pg_judge.specs.Bench.{IsReady, IsAt, IsEnd, HasFewAtoms};
ghost use Rattle.pg_derive.specs.Puts.{Puts};
ghost use Rattle.pg_derive.specs.Derived.{IsDerivation, IsDerivationUnder};
ghost use Rattle.pg_derive.specs.Begun.{AreTexts, IsWholeText, IsPartText, IsBegun, IsEndText, IsTurned, closed_at, end_line};

use crate::fault::DeriveFault;
use crate::lines::{put_header, put_last, put_obligation};
use crate::tree::put_tree;
use pg_decider::Verdict;
use pg_io::Sink;
use pg_judge::Judgement;
use pg_judge::bench::{Bench, End};
use pg_obligations::Obligations;
use pg_outline::Outline;
use pg_region::Loaded;
use std::alloc::Global;

/// Judges an outline under a budget of nodes for each of its obligations, and puts its derivation, line by line: the tree of each
/// obligation as soon as it is closed, and where the outline is accepted the last line.
pub fn derive<K: Sink>(
    alloc: Global,
    o: &Outline,
    budget: u32,
    out: &mut K,
) -> Result<Judgement, DeriveFault>
    requires budget { (1 ≤ budget) × (budget ≤ most_budget) }
    ensures outcome { IfOk result (λ j. IsOutcome o.now budget (outcome_of j)) }
    ensures says { IfOk result (λ j. Says o.now (outcome_of j)) }
    ensures derivation { Puts (λ j text. IsDerivation o.now (outcome_of j) text) (IsDerivationUnder o.now budget) result (K.written out.old) (K.written out.new) (K.faults out.old) (K.faults out.new) }
    ensures faults { K.faults out.old ≤ K.faults out.new }
{
    let _scalars = o.program().names().scalars();
    let mut bench = Bench::make(alloc, o, budget)?;
    let truths = Vec::with_capacity(alloc, bench.loader.needs().atoms as usize + 1)?;
    let mut line = Vec::new(alloc);
    let count = Obligations::of(o).count();
    let end = put_derivation(&mut bench, count, budget, &mut line, out)?;
    Ok(bench.judgement(end, truths))
}

/// Puts the header, the trees of the obligations up to the first that is not closed, and the last line if there is none.
fn put_derivation<K: Sink>(
    bench: &mut Bench<'_>,
    count: u32,
    budget: u32,
    line: &mut Vec<u8>,
    out: &mut K,
) -> Result<End, DeriveFault>
    requires budget { (1 ≤ budget) × (budget ≤ most_budget) }
    requires count { count ≡ obligation_count bench.old.loader.outline }
    requires made { IsOutline bench.old.loader.outline }
    requires ready { IsReady bench.old.loader.outline budget bench.old.loader bench.old.region bench.old.workspace bench.old.log }
    ensures end { IfOk result (λ end. IsEnd bench.old.loader.outline budget (on bench.new.workspace.literals) end) }
    ensures few { IfOk result (λ end. HasFewAtoms bench.new.workspace.atoms end) }
    ensures room { OnOk result (IsMostAtoms bench.old.loader.outline bench.new.workspace.atoms) }
    ensures derivation { Puts (λ end text. IsEndText bench.old.loader.outline end text) (IsDerivationUnder bench.old.loader.outline budget) result (K.written out.old) (K.written out.new) (K.faults out.old) (K.faults out.new) }
    ensures faults { K.faults out.old ≤ K.faults out.new }
{
    let end = put_trees(bench, count, budget, line, out)?;
    put_end(end, line, out)?;
    Ok(end)
}

/// Puts the header and the trees of the obligations up to the first that is not closed.
fn put_trees<K: Sink>(
    bench: &mut Bench<'_>,
    count: u32,
    budget: u32,
    line: &mut Vec<u8>,
    out: &mut K,
) -> Result<End, DeriveFault>
    requires budget { (1 ≤ budget) × (budget ≤ most_budget) }
    requires count { count ≡ obligation_count bench.old.loader.outline }
    requires ready { IsReady bench.old.loader.outline budget bench.old.loader bench.old.region bench.old.workspace bench.old.log }
    ensures end { IfOk result (λ end. IsEnd bench.old.loader.outline budget (on bench.new.workspace.literals) end) }
    ensures few { IfOk result (λ end. HasFewAtoms bench.new.workspace.atoms end) }
    ensures room { OnOk result (IsMostAtoms bench.old.loader.outline bench.new.workspace.atoms) }
    ensures trees { Puts (λ end text. AreTexts bench.old.loader.outline (closed_at end) text) (IsBegun bench.old.loader.outline budget) result (K.written out.old) (K.written out.new) (K.faults out.old) (K.faults out.new) }
    ensures faults { K.faults out.old ≤ K.faults out.new }
{
    put_header(line, out)?;
    let mut nodes: u64 = 0;
    'obligations: for i in 0..count {
        let decided = bench.decide(i + 1, budget);
        match decided.verdict {
            Verdict::Closed(visited) => {
                put_part(bench, i + 1, decided.loaded, line, out)?;
                nodes += u64::from(visited);
            }
            Verdict::Model(_) => {
                return Ok(End::Met {
                    i: i + 1,
                    atoms: decided.loaded.atoms,
                });
            }
            Verdict::Spent => return Ok(End::Spent { i: i + 1 }),
        }
    }
    Ok(End::Behind { count, nodes })
}

/// Puts the line of obligation i, which is closed, and its tree.
fn put_part<K: Sink>(
    bench: &mut Bench<'_>,
    i: u32,
    loaded: Loaded,
    line: &mut Vec<u8>,
    out: &mut K,
) -> Result<(), DeriveFault>
    requires at { IsAt bench.old.loader.outline i bench.old.region.clauses loaded }
    requires atoms { loaded.atoms ≤ bench.old.workspace.atoms }
    requires clauses { length (obligation_clauses bench.old.loader.outline (obligation bench.old.loader.outline i)) ≤ bench.old.workspace.clauses }
    requires log { IsLog (obligation_clauses bench.old.loader.outline (obligation bench.old.loader.outline i)) bench.old.log.lines }
    ensures bench { IsTurned bench.old.loader bench.new.loader bench.old.region bench.new.region bench.old.workspace bench.new.workspace bench.old.log bench.new.log }
    ensures part { Puts (λ _ text. IsWholeText bench.old.loader.outline i text) (IsPartText bench.old.loader.outline i) result (K.written out.old) (K.written out.new) (K.faults out.old) (K.faults out.new) }
    ensures faults { K.faults out.old ≤ K.faults out.new }
{
    put_obligation(i, line, out)?;
    put_tree(
        &mut bench.workspace,
        &bench.region,
        loaded,
        &bench.log,
        line,
        out,
    )
}

/// Puts the last line, where all obligations are closed.
fn put_end<K: Sink>(end: End, line: &mut Vec<u8>, out: &mut K) -> Result<(), DeriveFault>
    ensures line { Puts (λ _ text. text ≡ end_line end) (λ text. text ≡ end_line end) result (K.written out.old) (K.written out.new) (K.faults out.old) (K.faults out.new) }
    ensures faults { K.faults out.old ≤ K.faults out.new }
{
    match end {
        End::Behind { .. } => put_last(line, out),
        End::Met { .. } | End::Spent { .. } => Ok(()),
    }
}
