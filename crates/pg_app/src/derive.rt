//! Judging an outline, and writing its derivation. What is promised is that status and text are those of the outline's outcome under the
//! budget.

ghost use Rattle.std.specs.Prelude.{◌≡◌};
ghost use Rattle.pg_judge.specs.Outcome.{outcome_of};
ghost use Rattle.pg_report.specs.Judged.{IsToldOf};
ghost use Rattle.pg_app.specs.Answer.{IsDerived, IsJudged, rest_of, status_of};
ghost use Rattle.pg_app.specs.Command.{IsBudget};
ghost use Rattle.pg_app.specs.Put.{Puts};

use crate::judge::put_judgement;
use crate::status::{ACCEPTED, NO_MEMORY, NOT_WRITTEN};
use pg_derive::{DeriveFault, derive};
use pg_io::Sink;
use pg_judge::{Judgement, outcomes_are_true};
use pg_outline::Outline;
use pg_report::outcomes_are_told;
use std::alloc::Global;

/// Judges an outline under a budget of nodes, and puts its derivation, the tree of each obligation as soon as it is closed; and behind
/// it the text of the judgement, unless the outline is accepted.
pub fn derive_outline<K: Sink>(alloc: Global, outline: &Outline, budget: u32, out: &mut K) -> u8
    requires budget { IsBudget budget }
    ensures { Puts (IsJudged IsDerived budget outline.now)
        result (K.written out.old) (K.written out.new) (K.faults out.old) (K.faults out.new) }
{
    let _scalars = outline.program().names().scalars();
    outcomes_are_true();
    outcomes_are_told();
    match derive(alloc, outline, budget, out) {
        Ok(judgement) => put_rest(alloc, outline, &judgement, out),
        Err(DeriveFault::Write) => NOT_WRITTEN,
        Err(DeriveFault::NoMemory) => NO_MEMORY,
    }
}

// Puts what stands behind a derivation.
fn put_rest<K: Sink>(alloc: Global, outline: &Outline, judgement: &Judgement, out: &mut K) -> u8
    requires { IsToldOf outline.now (outcome_of judgement.now) }
    ensures { Puts (λ due text. (due ≡ status_of (outcome_of judgement.now)) × (text ≡ rest_of outline.now (outcome_of judgement.now)))
        result (K.written out.old) (K.written out.new) (K.faults out.old) (K.faults out.new) }
{
    match judgement {
        Judgement::Accepted { .. } => ACCEPTED,
        Judgement::Rejected { .. } | Judgement::Spent { .. } => {
            put_judgement(alloc, outline, judgement, out)
        }
    }
}
