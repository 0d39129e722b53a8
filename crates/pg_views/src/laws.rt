//! What holds of the meanings, by their definitions. No function here does anything: its contract is the law.

ghost use Rattle.pg_views.specs.CrashLaw.{ExpansionIsEnough, ExpansionIsNeeded, ExpansionIsExact, PersistsWhereLeft};
ghost use Rattle.pg_views.specs.Axioms.{HasOneLastValue, HasOneScalarValue, LastIsShown, PendingMayPersist, NewestReadIsLast, NewestIsOrdered, OrderedIsFenced, ThenWasReadable, LastIsReadThen, ReadIsReadAgain, NewestLoadKeepsThen};
ghost use Rattle.pg_views.specs.Version1.{LinesOfTheirOwnAgree, Version1HasOwnLines};
ghost use Rattle.pg_views.specs.Laws.{ReachedIsUpSet, ReachedNests, ShownNests, ValueSetsNest, NewestLoadKeepsReads, NewestLoadKeepsValues, RaisesViews, RaisedReachesLess, RaisedReadsLess, LoadAtCoherenceRaisesNothing};

/// Where the expansion of a crash formula is true in a well-formed state, the crash formula holds at a crash.
pub fn the_expansion_is_enough()
    ensures { ExpansionIsEnough }
{}

/// Where a crash formula holds at a crash in a well-formed state, and names no two locations of one line, its expansion is true.
pub fn the_expansion_is_needed()
    ensures { ExpansionIsNeeded }
{}

/// In a well-formed state the expansion of a crash formula that names no two locations of one line is true exactly where the
/// crash formula holds at a crash.
pub fn the_expansion_is_exact()
    ensures { ExpansionIsExact }
{}

/// In a well-formed state a value may persist in a location just where a crash may leave it there.
pub fn what_may_persist_is_what_crashes_leave()
    ensures { PersistsWhereLeft }
{}

/// With a position of a location that is reached each later position of it is.
pub fn reached_positions_are_an_up_set()
    ensures { ReachedIsUpSet }
{}

/// Of any two sets of positions of a location that are reached the one contains the other.
pub fn reached_positions_nest()
    ensures { ReachedNests }
{}

/// Of any two sets of values of a location that are shown the one contains the other.
pub fn shown_values_nest()
    ensures { ShownNests }
{}

/// Of what threads may read of a location, what may persist of it, and what may persist of it after a fence, any two sets nest.
pub fn value_sets_nest()
    ensures { ValueSetsNest }
{}

/// Where a thread may read a location at its last position alone, to load it there changes nothing of what it may read.
pub fn loading_the_newest_keeps_what_may_be_read()
    ensures reads { NewestLoadKeepsReads }
    ensures values { NewestLoadKeepsValues }
{}

/// Views whose read view, or whose coherence view and read view, are raised show less: the positions at which a thread may read
/// only shrink, and so do the values that it may read, those before and those after a load.
pub fn raised_views_read_less()
    ensures raises { RaisesViews }
    ensures positions { RaisedReachesLess }
    ensures less { RaisedReadsLess }
{}

/// A load at the coherence view of its location leaves all views.
pub fn a_load_at_the_coherence_view_raises_nothing()
    ensures { LoadAtCoherenceRaisesNothing }
{}

/// In a well-formed state exactly one value is the last one of a location, and a scalar has exactly one value.
pub fn there_is_one_value()
    ensures location { HasOneLastValue }
    ensures scalar { HasOneScalarValue }
{}

/// In a well-formed state the last value of a location may persist, also after a fence, and each thread may read it.
pub fn the_last_value_is_shown()
    ensures { LastIsShown }
{}

/// What may persist after a fence of a thread may persist.
pub fn what_is_pending_may_persist()
    ensures { PendingMayPersist }
{}

/// A thread that may read a location at its last position alone reads the last value.
pub fn the_newest_read_is_the_last_value()
    ensures { NewestReadIsLast }
{}

/// In a well-formed state a last position that alone may be read is covered by what a `flushopt` is ordered after, and what
/// this covers by what a `flush` is ordered after.
pub fn what_is_newest_is_covered()
    ensures ordered { NewestIsOrdered }
    ensures fenced { OrderedIsFenced }
{}

/// What a thread may read after a load, and what it loads, it may read.
pub fn what_is_read_then_was_readable()
    ensures { ThenWasReadable }
{}

/// After a load a thread may read what it loaded; and in a well-formed state it may read the last value of each location then,
/// and, where it loaded a location at its last position, which alone it may read, all that it may read before.
pub fn what_may_be_read_then()
    ensures again { ReadIsReadAgain }
    ensures last { LastIsReadThen }
    ensures newest { NewestLoadKeepsThen }
{}

/// Where each location has a cache line of its own, steps, crashes and atoms are those of version 1; and in a well-formed state
/// of a program of version 1 each location has one.
pub fn a_line_for_each_location_is_version_1()
    ensures agree { LinesOfTheirOwnAgree }
    ensures own { Version1HasOwnLines }
{}
