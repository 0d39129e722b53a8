//! What obligations are decided with. Its memory is taken once.

ghost use Rattle.std.specs.Prelude.{◌≡◌, ℕ, ◌+◌, ◌≤◌, [], length, IfOk, vec_capacity};
ghost use Rattle.pg_decider.specs.Assignment.{on};
ghost use Rattle.pg_decider.specs.Leaf.{IsLog};
ghost use Rattle.pg_decider.specs.Outcome as decider;
ghost use Rattle.pg_outline.specs.Outline.{OutlineTable};
ghost use Rattle.pg_layers.specs.Clauses.{obligation, obligation_clauses, obligation_atoms};
ghost use Rattle.pg_judge.specs.Outcome.{IsOutcome, outcome_of, obligation_count, truths_of};
ghost use Rattle.pg_judge.specs.Bench.{IsReady, IsAt, IsEnd, HasFewAtoms};

use crate::judgement::Judgement;
use pg_decider::{TreeLog, Verdict, Workspace};
use pg_layers::Loader;
use pg_outline::Outline;
use pg_region::{ClauseReader, Loaded, Region};
use std::alloc::{AllocError, Global};

/// A region for the clauses of one obligation after the other, and what they are decided with.
#[derive(Drop)]
pub struct Bench<'a> {
    pub loader: Loader<'a>,
    pub region: Region,
    pub workspace: Workspace,
    pub log: TreeLog,
}

/// What is found of an obligation, and where its clauses lie.
#[derive(Clone, Copy)]
pub struct Decided {
    pub verdict: Verdict,
    pub loaded: Loaded,
}

/// Where the obligations end that are closed: behind the last one, or at one that has a model, with the number of its atoms, or at
/// one that spends the budget.
#[derive(Clone, Copy)]
pub enum End {
    Behind { count: u32, nodes: u64 },
    Met { i: u32, atoms: u32 },
    Spent { i: u32 },
}

impl<'a> Bench<'a> {
    /// A bench for the obligations of an outline, with a log of so many nodes.
    pub fn make(alloc: Global, o: &'a Outline, nodes: u32) -> Result<Bench<'a>, AllocError>
        ensures { IfOk result (λ b. IsReady o.now nodes b.loader b.region b.workspace b.log) }
    {
        let loader = Loader::of(o);
        let needs = loader.needs();
        let region = Region::make(alloc, needs.words, needs.spans)?;
        let workspace = Workspace::make(alloc, needs.atoms, needs.spans)?;
        let log = TreeLog::make(alloc, nodes)?;
        Ok(Bench {
            loader,
            region,
            workspace,
            log,
        })
    }

    /// Decides obligation i. After a closed tree the log is that tree.
    pub fn decide(&mut self, i: u32, budget: u32) -> Decided
        requires number { (1 ≤ i) × (i ≤ obligation_count self.old.loader.outline) }
        requires budget { 1 ≤ budget }
        requires ready { IsReady self.old.loader.outline budget self.old.loader self.old.region self.old.workspace self.old.log }
        ensures ready { IsReady self.old.loader.outline budget self.new.loader self.new.region self.new.workspace self.new.log }
        ensures decided { decider.IsOutcome (obligation_clauses self.old.loader.outline (obligation self.old.loader.outline i)) result.verdict budget self.new.log.lines (on self.new.workspace.literals) }
        ensures closed { decider.IfClosed result.verdict (IsLog (obligation_clauses self.old.loader.outline (obligation self.old.loader.outline i)) self.new.log.lines) }
        ensures loaded { IsAt self.old.loader.outline i self.new.region.clauses result.loaded }
        ensures few { result.loaded.atoms ≤ self.new.workspace.atoms }
        ensures fit { length (obligation_clauses self.old.loader.outline (obligation self.old.loader.outline i)) ≤ self.new.workspace.clauses }
    {
        let loaded = match self.loader.load(i, &mut self.region) {
            Ok(loaded) => loaded,
            Err(_) => unreachable!(),
        };
        let mut reader = ClauseReader::of(&self.region, loaded);
        let verdict = self.workspace.decide(&mut reader, budget, &mut self.log);
        Decided { verdict, loaded }
    }

    /// Appends the truths of the model that was found last, of the atoms up to a greatest one, to an empty list that has room for them.
    pub fn tell(&self, atoms: u32, truths: &mut Vec<bool>)
        requires atoms { atoms ≤ self.now.workspace.atoms }
        requires empty { truths.old.items ≡ [] }
        requires room { atoms + 1 ≤ vec_capacity truths.old }
        ensures { truths.new.items ≡ truths_of atoms (on self.now.workspace.literals) }
    {
        truths.push_reserved(false);
        for a in 0..atoms {
            truths.push_reserved(self.workspace.truth(a + 1));
        }
    }
    /// The judgement of an end. There is room for the truths of a model.
    pub fn judgement(&self, end: End, truths: Vec<bool>) -> Judgement
        requires few { HasFewAtoms self.now.workspace.atoms end }
        requires empty { truths.items ≡ [] }
        requires room { self.now.workspace.atoms + 1 ≤ vec_capacity truths }
        ensures { (o : OutlineTable) (budget : ℕ) → IsEnd o budget (on self.now.workspace.literals) end → IsOutcome o budget (outcome_of result) }
    {
        match end {
            End::Behind { count, nodes } => Judgement::Accepted { count, nodes },
            End::Met { i, atoms } => {
                let mut truths = truths;
                self.tell(atoms, &mut truths);
                Judgement::Rejected { i, truths }
            }
            End::Spent { i } => Judgement::Spent { i },
        }
    }
}
