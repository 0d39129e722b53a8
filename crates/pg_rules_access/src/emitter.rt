//! The access rules of a step: what its expressions say, its scalars, its bracket, and the atoms of memory.

ghost use Rattle.std.specs.Prelude.{◌≡◌, ◌<◌, ◌++◌, [], None, length};
ghost use Rattle.pg_assertion.specs.declared.atom.ViewAtom.{ViewAtom};
ghost use Rattle.pg_assertion.specs.Layout.{IsAtom, sizes};
ghost use Rattle.pg_assertion.specs.declared.step_atom.StepAtom.TheVariants.{Value, Expected};
ghost use Rattle.pg_program.specs.declared.syntax.Act.{out-Act};
ghost use Rattle.pg_program.specs.Expr.{reads};
ghost use Rattle.pg_region.specs.Sink.{Emitted};
ghost use Rattle.pg_tables.specs.Clause.{written};
ghost use Rattle.pg_tables.specs.Shapes.{frame};
ghost use Rattle.pg_tables.specs.Steps.{IsStepOf};
ghost use Rattle.pg_rules_access.specs.Values.{value_rules, expects_last, test_rules, AreScalars, AreFew};
ghost use Rattle.pg_rules_access.specs.Access.{IsContext, IsActOver, rules, act_values, act_row, access};
ghost use Rattle.pg_rules_access.specs.Cas.{cas};
ghost use Rattle.pg_rules_access.specs.Fence.{mfence, sfence};
ghost use Rattle.pg_rules_access.specs.Load.{assign, load};
ghost use Rattle.pg_rules_access.specs.Store.{store};

use crate::atoms::{AccessRows, ScalarRows};
use crate::cas::Cas;
use crate::fence::{Mfence, Sfence};
use crate::load::{Assign, Load};
use crate::shape::{Shape, Shaped};
use crate::store::Store;
use crate::tuples::Tuples;
use crate::values::{
    Bracket, ExpectedValues, Expects, ExpectsLast, Stored, StoredValues, TakenOn, Tests,
};
use pg_assertion::{Layout, ViewAtom};
use pg_program::{Act, AuxAssign, Branch, Cond, Expr, MAX_SCALARS, Names, PointId, Program, Step};
use pg_region::ClauseSink;
use pg_tables::{Case, Clause, ExactlyOne, PerValue, Rows, Then, Under, offer};

/// Gives the access rules of a step to a sink, in their order. After a fault it has those before the one that it did not take.
pub fn access_rules<S: ClauseSink>(
    p: &Program,
    layout: &Layout,
    step: &Step,
    into: &mut S,
) -> Result<(), S::Fault>
    requires layout { layout.now ≡ sizes p.now.names (length p.now.threads) }
    requires step { IsStepOf p.now step.now }
    ensures { Emitted S.takes result (S.view into.old) (S.view into.new) (written (record { layout = layout.now; case = None }) (access p.now step.now)) }
{
    let few = layout.scalars() <= u32::from(MAX_SCALARS);
    prove!(few);
    let at = PointId {
        thread: step.thread,
        point: step.point,
    };
    match p.stmt(at) {
        Some(stmt) => {
            let context = StepContext {
                names: p.names(),
                thread: step.thread,
                branch: step.branch,
                aux: stmt.aux.as_slice(),
            };
            offer_act(&context, &stmt.act, layout, into)
        }
        None => Ok(()),
    }
}

/// Whose step it is: the names of the program, the acting thread, the branch that the step takes, and the bracket.
#[derive(Clone, Copy)]
struct StepContext<'a> {
    names: &'a Names,
    thread: u8,
    branch: Branch,
    aux: &'a [AuxAssign],
}

/// Gives the rules of a statement to a sink, by its act.
fn offer_act<S: ClauseSink>(
    context: &StepContext<'_>,
    act: &Act,
    layout: &Layout,
    into: &mut S,
) -> Result<(), S::Fault>
    requires context { IsContext layout.now context.now.names.now context.now.thread context.now.aux.now }
    requires act { IsActOver layout.now (out-Act act.now) }
    ensures { Emitted S.takes result (S.view into.old) (S.view into.new) (written (record { layout = layout.now; case = None }) (rules layout.now context.now.names.now context.now.aux.now (act_values layout.now context.now.branch (out-Act act.now)) (act_row layout.now context.now.names.now context.now.thread (out-Act act.now)))) }
{
    match act {
        Act::Assign { target, expr } => offer_assign(context, *target, expr, layout, into),
        Act::Store { location, expr } => offer_store(context, *location, expr, layout, into),
        Act::Load { target, location } => offer_load(context, *target, *location, layout, into),
        Act::Cas {
            target,
            location,
            expected,
            desired,
        } => offer_cas(context, *target, *location, expected, desired, layout, into),
        Act::Mfence => offer_mfence(context, layout, into),
        Act::Sfence => offer_sfence(context, layout, into),
        Act::Flush { .. } | Act::Flushopt { .. } => offer_frames(context, layout, into),
        Act::If { test, .. } | Act::While { test, .. } => offer_test(context, test, layout, into),
    }
}

/// Gives the rules of an assignment to a sink.
fn offer_assign<S: ClauseSink>(
    context: &StepContext<'_>,
    target: u8,
    expr: &Expr,
    layout: &Layout,
    into: &mut S,
) -> Result<(), S::Fault>
    requires context { IsContext layout.now context.now.names.now context.now.thread context.now.aux.now }
    requires target { target < layout.now.scalars }
    requires scalars { AreScalars (reads expr.now) }
    requires few { AreFew layout.now (reads expr.now) }
    ensures { Emitted S.takes result (S.view into.old) (S.view into.new) (written (record { layout = layout.now; case = None }) (rules layout.now context.now.names.now context.now.aux.now (value_rules layout.now expr.now Value) (assign target))) }
{
    let values = Then(Tuples(Stored { expr }), ExactlyOne(StoredValues));
    offer_rules(values, Shaped(Assign { target }), context, layout, into)
}

/// Gives the rules of a store to a sink.
fn offer_store<S: ClauseSink>(
    context: &StepContext<'_>,
    location: u8,
    expr: &Expr,
    layout: &Layout,
    into: &mut S,
) -> Result<(), S::Fault>
    requires context { IsContext layout.now context.now.names.now context.now.thread context.now.aux.now }
    requires location { location < layout.now.locations }
    requires scalars { AreScalars (reads expr.now) }
    requires few { AreFew layout.now (reads expr.now) }
    ensures { Emitted S.takes result (S.view into.old) (S.view into.new) (written (record { layout = layout.now; case = None }) (rules layout.now context.now.names.now context.now.aux.now (value_rules layout.now expr.now Value) (store context.now.names.now context.now.thread location))) }
{
    let values = Then(Tuples(Stored { expr }), ExactlyOne(StoredValues));
    let rows = Shaped(Store {
        names: context.names,
        thread: context.thread,
        location,
    });
    offer_rules(values, rows, context, layout, into)
}

/// Gives the rules of a load to a sink.
fn offer_load<S: ClauseSink>(
    context: &StepContext<'_>,
    target: u8,
    location: u8,
    layout: &Layout,
    into: &mut S,
) -> Result<(), S::Fault>
    requires context { IsContext layout.now context.now.names.now context.now.thread context.now.aux.now }
    requires target { target < layout.now.scalars }
    requires location { location < layout.now.locations }
    ensures { Emitted S.takes result (S.view into.old) (S.view into.new) (written (record { layout = layout.now; case = None }) (rules layout.now context.now.names.now context.now.aux.now ([]) (load layout.now context.now.thread target location))) }
{
    let none: [Clause; 0] = [];
    let rows = Load {
        thread: context.thread,
        target,
        location,
    };
    offer_rules(none, rows, context, layout, into)
}

/// Gives the rules of a cas to a sink.
fn offer_cas<S: ClauseSink>(
    context: &StepContext<'_>,
    target: u8,
    location: u8,
    expected: &Expr,
    desired: &Expr,
    layout: &Layout,
    into: &mut S,
) -> Result<(), S::Fault>
    requires context { IsContext layout.now context.now.names.now context.now.thread context.now.aux.now }
    requires target { target < layout.now.scalars }
    requires location { location < layout.now.locations }
    requires expected_scalars { AreScalars (reads expected.now) }
    requires expected_few { AreFew layout.now (reads expected.now) }
    requires desired_scalars { AreScalars (reads desired.now) }
    requires desired_few { AreFew layout.now (reads desired.now) }
    ensures { Emitted S.takes result (S.view into.old) (S.view into.new) (written (record { layout = layout.now; case = None }) (rules layout.now context.now.names.now context.now.aux.now (value_rules layout.now expected.now Expected ++ (value_rules layout.now desired.now Value ++ expects_last layout.now location)) (cas layout.now context.now.names.now context.now.thread target location))) }
{
    let expects = Then(
        Tuples(Expects { expr: expected }),
        ExactlyOne(ExpectedValues),
    );
    let stores = Then(Tuples(Stored { expr: desired }), ExactlyOne(StoredValues));
    let last = Under(Case::Succeeds, PerValue(ExpectsLast { location }));
    let rows = Cas {
        names: context.names,
        thread: context.thread,
        target,
        location,
    };
    offer_rules(
        Then(expects, Then(stores, last)),
        rows,
        context,
        layout,
        into,
    )
}

/// Gives the rules of an `mfence` to a sink.
fn offer_mfence<S: ClauseSink>(
    context: &StepContext<'_>,
    layout: &Layout,
    into: &mut S,
) -> Result<(), S::Fault>
    requires context { IsContext layout.now context.now.names.now context.now.thread context.now.aux.now }
    ensures { Emitted S.takes result (S.view into.old) (S.view into.new) (written (record { layout = layout.now; case = None }) (rules layout.now context.now.names.now context.now.aux.now ([]) (mfence context.now.thread))) }
{
    let none: [Clause; 0] = [];
    offer_rules(
        none,
        Shaped(Mfence {
            thread: context.thread,
        }),
        context,
        layout,
        into,
    )
}

/// Gives the rules of an `sfence` to a sink.
fn offer_sfence<S: ClauseSink>(
    context: &StepContext<'_>,
    layout: &Layout,
    into: &mut S,
) -> Result<(), S::Fault>
    requires context { IsContext layout.now context.now.names.now context.now.thread context.now.aux.now }
    ensures { Emitted S.takes result (S.view into.old) (S.view into.new) (written (record { layout = layout.now; case = None }) (rules layout.now context.now.names.now context.now.aux.now ([]) (sfence context.now.thread))) }
{
    let none: [Clause; 0] = [];
    offer_rules(
        none,
        Shaped(Sfence {
            thread: context.thread,
        }),
        context,
        layout,
        into,
    )
}

/// Gives the rules of a flush to a sink: no atom of memory changes.
fn offer_frames<S: ClauseSink>(
    context: &StepContext<'_>,
    layout: &Layout,
    into: &mut S,
) -> Result<(), S::Fault>
    requires context { IsContext layout.now context.now.names.now context.now.thread context.now.aux.now }
    ensures { Emitted S.takes result (S.view into.old) (S.view into.new) (written (record { layout = layout.now; case = None }) (rules layout.now context.now.names.now context.now.aux.now ([]) (frame))) }
{
    let none: [Clause; 0] = [];
    offer_rules(none, Shape::Frame, context, layout, into)
}

/// Gives the rules of a test to a sink.
fn offer_test<S: ClauseSink>(
    context: &StepContext<'_>,
    test: &Cond,
    layout: &Layout,
    into: &mut S,
) -> Result<(), S::Fault>
    requires context { IsContext layout.now context.now.names.now context.now.thread context.now.aux.now }
    requires left { AreScalars (reads test.now.left) }
    requires right { AreScalars (reads test.now.right) }
    requires few { AreFew layout.now (reads test.now.left ++ reads test.now.right) }
    ensures { Emitted S.takes result (S.view into.old) (S.view into.new) (written (record { layout = layout.now; case = None }) (rules layout.now context.now.names.now context.now.aux.now (test_rules layout.now test.now context.now.branch) (frame))) }
{
    let values = Then(
        Tuples(Tests { test }),
        TakenOn {
            branch: context.branch,
        },
    );
    offer_rules(values, Shape::Frame, context, layout, into)
}

/// Gives what the expressions say, the rows of the scalars, the bracket and the rows of the atoms of memory to a sink.
fn offer_rules<V: Rows<()> + Drop, R: Rows<ViewAtom> + Copy, S: ClauseSink>(
    values: V,
    rows: R,
    context: &StepContext<'_>,
    layout: &Layout,
    into: &mut S,
) -> Result<(), S::Fault>
    requires values { V.fits (record { layout = layout.now; case = None }) values tt }
    requires rows { (a : ViewAtom) → IsAtom layout.now a → R.fits (record { layout = layout.now; case = None }) rows a }
    requires context { IsContext layout.now context.now.names.now context.now.thread context.now.aux.now }
    ensures { Emitted S.takes result (S.view into.old) (S.view into.new) (written (record { layout = layout.now; case = None }) (rules layout.now context.now.names.now context.now.aux.now (V.rows layout.now values tt) (R.rows layout.now rows))) }
{
    let scalars = ScalarRows {
        rows,
        aux: context.aux,
    };
    let bracket = Bracket {
        names: context.names,
        aux: context.aux,
    };
    offer(
        &Then(values, Then(scalars, Then(bracket, AccessRows(rows)))),
        layout,
        into,
    )
}
