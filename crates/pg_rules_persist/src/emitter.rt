//! The persistency rules of a step.

ghost use Rattle.std.specs.Prelude.{◌≡◌, ◌<◌, None, length};
ghost use Rattle.pg_assertion.specs.Layout.{IsThreadNumber, sizes};
ghost use Rattle.pg_program.specs.declared.syntax.Act.{out-Act};
ghost use Rattle.pg_region.specs.Sink.{Emitted};
ghost use Rattle.pg_tables.specs.Clause.{written};
ghost use Rattle.pg_tables.specs.Steps.{IsStepOf};
ghost use Rattle.pg_rules_persist.specs.Persist.{IsActOver, act_row, persist_rows, persist};

use crate::atoms::PersistRows;
use crate::rows::{ActRows, Kind};
use pg_assertion::Layout;
use pg_program::{Act, Names, PointId, Program, Step};
use pg_region::ClauseSink;
use pg_tables::offer;

/// Gives the persistency rules of a step to a sink, in their order. After a fault it has those before the one that it did not take.
pub fn persist_rules<S: ClauseSink>(
    p: &Program,
    layout: &Layout,
    step: &Step,
    into: &mut S,
) -> Result<(), S::Fault>
    requires layout { layout.now ≡ sizes p.now.names (length p.now.threads) }
    requires step { IsStepOf p.now step.now }
    ensures { Emitted S.takes result (S.view into.old) (S.view into.new) (written (record { layout = layout.now; case = None }) (persist p.now step.now)) }
{
    let at = PointId {
        thread: step.thread,
        point: step.point,
    };
    match p.stmt(at) {
        Some(stmt) => offer_act(p.names(), step.thread, &stmt.act, layout, into),
        None => Ok(()),
    }
}

/// Gives the rules of an act of a thread to a sink.
fn offer_act<S: ClauseSink>(
    names: &Names,
    thread: u8,
    act: &Act,
    layout: &Layout,
    into: &mut S,
) -> Result<(), S::Fault>
    requires locations { layout.now.locations ≡ length names.now.locations }
    requires thread { IsThreadNumber layout.now thread }
    requires act { IsActOver layout.now (out-Act act.now) }
    ensures { Emitted S.takes result (S.view into.old) (S.view into.new) (written (record { layout = layout.now; case = None }) (persist_rows layout.now (act_row names.now thread (out-Act act.now)))) }
{
    let kind = Kind::of(act);
    let rows = ActRows {
        names,
        thread,
        kind,
    };
    offer(&PersistRows(rows), layout, into)
}
