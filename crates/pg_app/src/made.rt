//! Judging the made outline, and putting the text of its judgement. What is promised is that status and text are those of its outcome
//! under the budget.

ghost use Rattle.std.specs.Prelude.{◌≡◌};
ghost use Rattle.pg_made.specs.Made.{made_outline};
ghost use Rattle.pg_judge.specs.Outcome.{outcome_of};
ghost use Rattle.pg_report.specs.Judged.{IsToldOf};
ghost use Rattle.pg_report.specs.Made.{made_text};
ghost use Rattle.pg_app.specs.Answer.{IsJudged, IsMadeJudgement, status_of};
ghost use Rattle.pg_app.specs.Command.{IsBudget, IsStatements};
ghost use Rattle.pg_app.specs.Put.{Puts};

use crate::judge::judgement_status;
use crate::put::reported;
use crate::status::NO_MEMORY;
use pg_io::Sink;
use pg_judge::{Judgement, check};
use pg_made::made;
use pg_outline::Outline;
use pg_report::{outcomes_are_told, report_made};
use std::alloc::Global;

/// Judges the made outline with so many statements in each thread under a budget of nodes, and puts the text of the judgement.
pub fn judge_made<K: Sink>(alloc: Global, statements: u32, budget: u32, out: &mut K) -> u8
    requires statements { IsStatements statements }
    requires budget { IsBudget budget }
    ensures { Puts (IsJudged (IsMadeJudgement statements) budget (made_outline statements))
        result (K.written out.old) (K.written out.new) (K.faults out.old) (K.faults out.new) }
{
    match made(alloc, statements) {
        Ok(outline) => judge(alloc, statements, &outline, budget, out),
        Err(_) => NO_MEMORY,
    }
}

// Judges an outline as the made one.
fn judge<K: Sink>(alloc: Global, statements: u32, outline: &Outline, budget: u32, out: &mut K) -> u8
    requires budget { IsBudget budget }
    ensures { Puts (IsJudged (IsMadeJudgement statements) budget outline.now)
        result (K.written out.old) (K.written out.new) (K.faults out.old) (K.faults out.new) }
{
    outcomes_are_told();
    match check(alloc, outline, budget) {
        Ok(judgement) => put_judgement(alloc, statements, outline, &judgement, out),
        Err(_) => NO_MEMORY,
    }
}

// Puts the text of a judgement of the made outline.
fn put_judgement<K: Sink>(
    alloc: Global,
    statements: u32,
    outline: &Outline,
    judgement: &Judgement,
    out: &mut K,
) -> u8
    requires { IsToldOf outline.now (outcome_of judgement.now) }
    ensures { Puts (λ due text. (due ≡ status_of (outcome_of judgement.now)) × (text ≡ made_text statements outline.now (outcome_of judgement.now)))
        result (K.written out.old) (K.written out.new) (K.faults out.old) (K.faults out.new) }
{
    let status = judgement_status(judgement);
    let report = report_made(alloc, statements, outline, judgement, out);
    reported(report, status)
}
