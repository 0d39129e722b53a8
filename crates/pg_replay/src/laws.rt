//! What holds of replays, by their definition. No function here does anything: its contract is the law.

ghost use Rattle.pg_replay.specs.Laws.{HasAnswer, HasOneAnswer, SafeShowsNoViolation};

/// A schedule has an answer on an outline, with its trace, and no other one.
pub fn a_schedule_has_one_answer()
    ensures some { HasAnswer }
    ensures one { HasOneAnswer }
{}

/// Where an outline is safe, and its executions may begin in the fresh state, a replay whose lines are all taken shows no violation.
pub fn a_safe_outline_shows_no_violation()
    ensures { SafeShowsNoViolation }
{}
