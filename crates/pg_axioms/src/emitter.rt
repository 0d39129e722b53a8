//! The axioms of a side, one after the other.

ghost use Rattle.std.specs.Prelude.{◌≡◌, ◌++◌, None};
ghost use Rattle.pg_region.specs.Sink.{Emitted};
ghost use Rattle.pg_tables.specs.Clause.{written};
ghost use Rattle.pg_axioms.specs.Axioms as spec;

use crate::rows::{
    LastIsReadThen, LastIsShown, LastMayPersist, LastValues, NewestIsCovered, NewestLoadKeeps,
    NewestReadIsLast, PendingMayPersist, ReadIsReadAgain, ScalarValues, ThenWasReadable,
};
use crate::sets::SetsNest;
use pg_assertion::{Layout, Side};
use pg_region::ClauseSink;
use pg_tables::{ExactlyOne, PerLocation, PerScalar, PerThread, PerValue, Then, offer};

/// Gives the axioms of a side to a sink, in their order. After a fault it has those before the one that it did not take.
pub fn axioms<S: ClauseSink>(layout: &Layout, side: Side, into: &mut S) -> Result<(), S::Fault>
    ensures { Emitted S.takes result (S.view into.old) (S.view into.new) (written (record { layout = layout.now; case = None }) (spec.axioms layout.now side)) }
{
    offer_last_values(layout, side, into)?;
    offer_views(layout, side, into)?;
    offer_loads(layout, side, into)
}

/// Those of one value of each location and scalar, and of what shows the last one.
fn offer_last_values<S: ClauseSink>(
    layout: &Layout,
    side: Side,
    into: &mut S,
) -> Result<(), S::Fault>
    ensures { Emitted S.takes result (S.view into.old) (S.view into.new) (written (record { layout = layout.now; case = None }) (spec.one_value layout.now side ++ spec.last_is_shown layout.now side)) }
{
    let one_value = Then(
        PerLocation(ExactlyOne(LastValues { side })),
        PerScalar(ExactlyOne(ScalarValues { side })),
    );
    let last_is_shown = PerLocation(PerValue(Then(
        LastMayPersist { side },
        PerThread(LastIsShown { side }),
    )));
    offer(&Then(one_value, last_is_shown), layout, into)
}

/// Those of the views of a thread.
fn offer_views<S: ClauseSink>(layout: &Layout, side: Side, into: &mut S) -> Result<(), S::Fault>
    ensures { Emitted S.takes result (S.view into.old) (S.view into.new) (written (record { layout = layout.now; case = None }) (spec.pending_may_persist layout.now side ++ (spec.newest_read_is_last layout.now side ++ spec.newest_is_covered layout.now side))) }
{
    let pending_may_persist = PerThread(PerLocation(PerValue(PendingMayPersist { side })));
    let newest_read_is_last = PerThread(PerLocation(PerValue(NewestReadIsLast { side })));
    let newest_is_covered = PerThread(PerLocation(NewestIsCovered { side }));
    offer(
        &Then(
            pending_may_persist,
            Then(newest_read_is_last, newest_is_covered),
        ),
        layout,
        into,
    )
}

/// Those of what may be read after a load, and of the sets of values.
fn offer_loads<S: ClauseSink>(layout: &Layout, side: Side, into: &mut S) -> Result<(), S::Fault>
    ensures { Emitted S.takes result (S.view into.old) (S.view into.new) (written (record { layout = layout.now; case = None }) (spec.then_was_readable layout.now side ++ (spec.last_is_read_then layout.now side ++ (spec.newest_load_keeps layout.now side ++ spec.sets_nest layout.now side)))) }
{
    let then_was_readable = PerThread(PerLocation(PerValue(PerLocation(PerValue(ThenWasReadable {
        side,
    })))));
    let last_is_read_then = Then(
        PerThread(PerLocation(PerValue(PerLocation(PerValue(LastIsReadThen { side }))))),
        PerThread(PerLocation(PerValue(ReadIsReadAgain { side }))),
    );
    let newest_load_keeps = PerThread(PerLocation(PerValue(PerLocation(PerValue(NewestLoadKeeps {
        side,
    })))));
    let sets_nest = PerLocation(SetsNest { side });
    offer(
        &Then(
            then_was_readable,
            Then(last_is_read_then, Then(newest_load_keeps, sets_nest)),
        ),
        layout,
        into,
    )
}
