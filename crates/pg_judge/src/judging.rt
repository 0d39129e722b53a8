//! Judging an outline: its obligations are decided one after the other, on one region.

ghost use Rattle.std.specs.Prelude.{◌≡◌, ◌≤◌, IfOk};
ghost use Rattle.pg_decider.specs.Assignment.{on};
ghost use Rattle.pg_judge.specs.Limits.{most_budget};
ghost use Rattle.pg_layers.specs.Needs.{IsMostAtoms};
ghost use Rattle.pg_judge.specs.Outcome.{IsOutcome, outcome_of, obligation_count};
ghost use Rattle.pg_judge.specs.Laws.{Says};
ghost use Rattle.pg_judge.specs.Bench.{IsReady, IsEnd, HasFewAtoms};

use crate::bench::{Bench, End};
use crate::judgement::Judgement;
use pg_decider::Verdict;
use pg_obligations::Obligations;
use pg_outline::Outline;
use std::alloc::{AllocError, Global};

/// The greatest budget of nodes.
pub const MAX_BUDGET: u32 = 1_000_000;

/// Judges an outline under a budget of nodes for each of its obligations. All memory is taken before the first one.
pub fn check(alloc: Global, o: &Outline, budget: u32) -> Result<Judgement, AllocError>
    requires budget { (1 ≤ budget) × (budget ≤ most_budget) }
    ensures outcome { IfOk result (λ j. IsOutcome o.now budget (outcome_of j)) }
    ensures says { IfOk result (λ j. Says o.now (outcome_of j)) }
{
    let _scalars = o.program().names().scalars();
    let mut bench = Bench::make(alloc, o, budget)?;
    let truths = Vec::with_capacity(alloc, bench.loader.needs().atoms as usize + 1)?;
    let end = end_of(&mut bench, Obligations::of(o).count(), budget);
    Ok(bench.judgement(end, truths))
}

/// Decides the obligations up to the first that is not closed.
fn end_of(bench: &mut Bench<'_>, count: u32, budget: u32) -> End
    requires budget { (1 ≤ budget) × (budget ≤ most_budget) }
    requires count { count ≡ obligation_count bench.old.loader.outline }
    requires ready { IsReady bench.old.loader.outline budget bench.old.loader bench.old.region bench.old.workspace bench.old.log }
    ensures end { IsEnd bench.old.loader.outline budget (on bench.new.workspace.literals) result }
    ensures few { HasFewAtoms bench.new.workspace.atoms result }
    ensures room { IsMostAtoms bench.old.loader.outline bench.new.workspace.atoms }
{
    let mut nodes: u64 = 0;
    'obligations: for i in 0..count {
        let decided = bench.decide(i + 1, budget);
        match decided.verdict {
            Verdict::Closed(visited) => nodes += u64::from(visited),
            Verdict::Model(_) => {
                return End::Met {
                    i: i + 1,
                    atoms: decided.loaded.atoms,
                };
            }
            Verdict::Spent => return End::Spent { i: i + 1 },
        }
    }
    End::Behind { count, nodes }
}
