//! The rows of what a crash may leave, for each kind of act.

ghost use Rattle.std.specs.Prelude.{◌≡◌, ℕ, ◌<◌, ◌==◌, None, length};
ghost use Rattle.pg_assertion.specs.declared.atom.ViewAtom.TheVariants.{Persist, Async};
ghost use Rattle.pg_assertion.specs.declared.step_atom.StepAtom.{StepAtom};
ghost use Rattle.pg_assertion.specs.Layout.{Sizes, IsAtom, IsThreadNumber};
ghost use Rattle.pg_program.specs.declared.syntax.Act.{out-Act};
ghost use Rattle.pg_program.specs.NameTable.{NameTable};
ghost use Rattle.pg_tables.specs.Shapes.{before, after};
ghost use Rattle.pg_rules_persist.specs.Persist.{IsActOver, act_row};
ghost use Rattle.pg_rules_persist.specs.Rows.{store_gains, fence_async, flush_persist, flush_async, flushopt_async, cas_persist, cas_async};
ghost use Rattle.pg_rules_persist.specs.Shape.{row_of, AreInRow, kind_row, IsKindWithin};

use crate::shape::{Row, Shape};
use pg_assertion::{StepAtom, ViewAtom};
use pg_program::{Act, Names};
use pg_region::ClauseSink;
use pg_tables::{Rows, Setting, after, before, same_line};

/// What an act does to what a crash may leave, and to which location.
#[derive(Clone, Copy)]
pub enum Kind {
    Store(u8),
    Cas(u8),
    /// An `mfence` or an `sfence`, which commits each line.
    Fence,
    /// A `flush`, of the line of a location.
    Flush(u8),
    /// A `flushopt`, of the line of a location.
    Flushopt(u8),
    /// Nothing.
    Other,
}

impl Kind {
    /// The kind of an act.
    pub fn of(act: &Act) -> Kind
        ensures row { (names : NameTable) (s : ℕ) → kind_row names s result ≡ act_row names s (out-Act act.now) }
        ensures within { (l : Sizes) → IsActOver l (out-Act act.now) → IsKindWithin l.locations result }
    {
        match act {
            Act::Store { location, .. } => Kind::Store(*location),
            Act::Cas { location, .. } => Kind::Cas(*location),
            Act::Mfence | Act::Sfence => Kind::Fence,
            Act::Flush { location } => Kind::Flush(*location),
            Act::Flushopt { location } => Kind::Flushopt(*location),
            Act::Assign { .. } | Act::Load { .. } | Act::If { .. } | Act::While { .. } => {
                Kind::Other
            }
        }
    }
}

/// The rows of an act of a thread.
#[derive(Clone, Copy)]
pub struct ActRows<'a> {
    pub names: &'a Names,
    pub thread: u8,
    pub kind: Kind,
}

impl<'a> Rows<ViewAtom> for ActRows<'a> {
    ghost rows = { λ l c i. kind_row c.names.now c.thread c.kind i };

    ghost fits = { λ s c i. (s.case ≡ None) × IsAtom s.layout i × IsThreadNumber s.layout c.thread × (s.layout.locations ≡ length c.names.now.locations) × IsKindWithin s.layout.locations c.kind };

    fn offer_at<S: ClauseSink>(
        &self,
        i: ViewAtom,
        setting: &Setting,
        into: &mut S,
    ) -> Result<(), S::Fault> {
        match i {
            ViewAtom::Persist { x, v } => self.persist(x, v).offer_at(i, setting, into),
            ViewAtom::Async { t, x, v } => self.pending(t, x, v).offer_at(i, setting, into),
            _ => Shape::Frame.offer_at(i, setting, into),
        }
    }
}

impl<'a> ActRows<'a> {
    // What a crash may leave after the act.
    fn persist(&self, x: u8, v: u8) -> Row
        requires x { x < length self.now.names.now.locations }
        requires kind { IsKindWithin (length self.now.names.now.locations) self.now.kind }
        ensures row { row_of result (Persist x v) ≡ kind_row self.now.names.now self.now.thread self.now.kind (Persist x v) }
        ensures within { (l : Sizes) → IsThreadNumber l self.now.thread → x < l.locations → v < l.domain → AreInRow l result }
    {
        match self.kind {
            Kind::Store(location) => stored(x == location, ViewAtom::Persist { x, v }, v),
            Kind::Cas(location) => cas_persist(x == location, self.thread, x, v),
            Kind::Fence => Row::Plain(Shape::Becomes(committed(self.thread, x, v))),
            Kind::Flush(location) => {
                flush_persist(same_line(self.names, location, x), self.thread, x, v)
            }
            Kind::Flushopt(_) | Kind::Other => Row::Plain(Shape::Frame),
        }
    }

    // What a crash may leave after the act and a fence of a thread.
    fn pending(&self, t: u8, x: u8, v: u8) -> Row
        requires x { x < length self.now.names.now.locations }
        requires kind { IsKindWithin (length self.now.names.now.locations) self.now.kind }
        ensures row { row_of result (Async t x v) ≡ kind_row self.now.names.now self.now.thread self.now.kind (Async t x v) }
        ensures within { (l : Sizes) → IsThreadNumber l self.now.thread → IsThreadNumber l t → x < l.locations → v < l.domain → AreInRow l result }
    {
        let own = t == self.thread;
        match self.kind {
            Kind::Store(location) => stored(x == location, ViewAtom::Async { t, x, v }, v),
            Kind::Cas(location) => cas_async(own, x == location, self.thread, t, x, v),
            Kind::Fence => fence_async(own, self.thread, t, x, v),
            Kind::Flush(location) => flush_async(same_line(self.names, location, x), x, v),
            Kind::Flushopt(location) => {
                flushopt_async(own, same_line(self.names, location, x), t, x, v)
            }
            Kind::Other => Row::Plain(Shape::Frame),
        }
    }
}

// What a fence of a thread commits may leave `v` at `x`.
fn committed(t: u8, x: u8, v: u8) -> StepAtom
    ensures { result ≡ before (Async t x v) }
{
    before(ViewAtom::Async { t, x, v })
}

// A new message may persist, whatever is committed.
fn stored(here: bool, atom: ViewAtom, v: u8) -> Row
    ensures row { row_of result atom ≡ store_gains here atom v }
    ensures within { (l : Sizes) → IsAtom l atom → v < l.domain → AreInRow l result }
{
    Row::Plain(if here {
        Shape::Gains(before(atom), StepAtom::Value { v })
    } else {
        Shape::Frame
    })
}

// Of what thread `t` would commit and what the acting one has committed, the greater one counts.
fn fence_async(own: bool, s: u8, t: u8, x: u8, v: u8) -> Row
    ensures row { row_of result (Async t x v) ≡ fence_async own s t x v }
    ensures within { (l : Sizes) → IsThreadNumber l s → x < l.locations → v < l.domain → AreInRow l result }
{
    if own {
        Row::Plain(Shape::Frame)
    } else {
        Row::Plain(Shape::Narrows(committed(s, x, v)))
    }
}

// A flush leaves what the thread could read where the location stands on the line.
fn flush_persist(near: bool, t: u8, x: u8, v: u8) -> Row
    ensures row { row_of result (Persist x v) ≡ flush_persist near t x v }
    ensures within { (l : Sizes) → IsThreadNumber l t → x < l.locations → v < l.domain → AreInRow l result }
{
    if near {
        Row::Plain(Shape::Flushed(t, x, v))
    } else {
        Row::Plain(Shape::Frame)
    }
}

// A thread commits no more of the line than the flush leaves.
fn flush_async(near: bool, x: u8, v: u8) -> Row
    ensures row { (t : ℕ) → row_of result (Async t x v) ≡ flush_async near t x v }
    ensures within { (l : Sizes) → x < l.locations → v < l.domain → AreInRow l result }
{
    if near {
        Row::Plain(Shape::Narrows(after(ViewAtom::Persist { x, v })))
    } else {
        Row::Plain(Shape::Frame)
    }
}

// A thread begins to write the line back: only a fence of its own commits that.
fn flushopt_async(own: bool, near: bool, t: u8, x: u8, v: u8) -> Row
    ensures row { row_of result (Async t x v) ≡ flushopt_async own near t x v }
    ensures within { (l : Sizes) → IsThreadNumber l t → x < l.locations → v < l.domain → AreInRow l result }
{
    match (own, near) {
        (true, true) => Row::Plain(Shape::FlushBegun(t, x, v)),
        (true, false) | (false, _) => Row::Plain(Shape::Frame),
    }
}

// A cas commits what its thread has pending, and where it succeeds stores too.
fn cas_persist(here: bool, s: u8, x: u8, v: u8) -> Row
    ensures row { row_of result (Persist x v) ≡ cas_persist here s x v }
    ensures within { (l : Sizes) → IsThreadNumber l s → x < l.locations → v < l.domain → AreInRow l result }
{
    let pending = committed(s, x, v);
    if here {
        let stored = Shape::Gains(pending, StepAtom::Value { v });
        Row::Split(stored, Shape::Becomes(pending))
    } else {
        Row::Plain(Shape::Becomes(pending))
    }
}

// What a thread would commit after a cas of the acting one, which fences, and where it succeeds stores.
fn cas_async(own: bool, here: bool, s: u8, t: u8, x: u8, v: u8) -> Row
    ensures row { row_of result (Async t x v) ≡ cas_async own here s t x v }
    ensures within { (l : Sizes) → IsThreadNumber l s → IsThreadNumber l t → x < l.locations → v < l.domain → AreInRow l result }
{
    let committed = committed(s, x, v);
    let value = StepAtom::Value { v };
    match (own, here) {
        (true, true) => {
            let was = before(ViewAtom::Async { t, x, v });
            Row::Split(Shape::Gains(was, value), Shape::Frame)
        }
        (true, false) => Row::Plain(Shape::Frame),
        (false, true) => {
            Row::Split(
                Shape::NarrowsOr(committed, value),
                Shape::Narrows(committed),
            )
        }
        (false, false) => Row::Plain(Shape::Narrows(committed)),
    }
}
