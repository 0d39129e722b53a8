//! Judging an outline, and putting the text of its judgement. What is promised is that status and text are those of the outline's
//! outcome under the budget.

ghost use Rattle.std.specs.Prelude.{◌≡◌};
ghost use Rattle.pg_judge.specs.Outcome.{outcome_of};
ghost use Rattle.pg_report.specs.Judged.{IsToldOf, judgement_text};
ghost use Rattle.pg_app.specs.Answer.{IsJudged, IsJudgement, status_of};
ghost use Rattle.pg_app.specs.Command.{IsBudget};
ghost use Rattle.pg_app.specs.Put.{Puts};

use crate::put::reported;
use crate::status::{ACCEPTED, NO_MEMORY, REJECTED, SPENT};
use pg_io::Sink;
use pg_judge::{Judgement, check};
use pg_outline::Outline;
use pg_report::{outcomes_are_told, report_judgement};
use std::alloc::Global;

/// Judges an outline under a budget of nodes, and puts the text of the judgement.
pub fn judge_outline<K: Sink>(alloc: Global, outline: &Outline, budget: u32, out: &mut K) -> u8
    requires budget { IsBudget budget }
    ensures { Puts (IsJudged IsJudgement budget outline.now)
        result (K.written out.old) (K.written out.new) (K.faults out.old) (K.faults out.new) }
{
    outcomes_are_told();
    match check(alloc, outline, budget) {
        Ok(judgement) => put_judgement(alloc, outline, &judgement, out),
        Err(_) => NO_MEMORY,
    }
}

/// Puts the text of a judgement.
pub fn put_judgement<K: Sink>(
    alloc: Global,
    outline: &Outline,
    judgement: &Judgement,
    out: &mut K,
) -> u8
    requires { IsToldOf outline.now (outcome_of judgement.now) }
    ensures { Puts (λ due text. (due ≡ status_of (outcome_of judgement.now)) × (text ≡ judgement_text outline.now (outcome_of judgement.now)))
        result (K.written out.old) (K.written out.new) (K.faults out.old) (K.faults out.new) }
{
    let status = judgement_status(judgement);
    reported(report_judgement(alloc, outline, judgement, out), status)
}

/// The status of a judgement.
pub fn judgement_status(judgement: &Judgement) -> u8
    ensures { result ≡ status_of (outcome_of judgement.now) }
{
    match judgement {
        Judgement::Accepted { .. } => ACCEPTED,
        Judgement::Rejected { .. } => REJECTED,
        Judgement::Spent { .. } => SPENT,
    }
}
