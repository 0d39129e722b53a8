//! The rows of a store.

ghost use Rattle.std.specs.Prelude.{◌≡◌, ℕ, ◌<◌, ◌==◌, true, false, length};
ghost use Rattle.pg_assertion.specs.declared.atom.ViewAtom.TheVariants.{Last, Read, Then as SeenThen, Newest, Ordered, Fenced};
ghost use Rattle.pg_assertion.specs.declared.step_atom.StepAtom.{StepAtom};
ghost use Rattle.pg_assertion.specs.Layout.{Sizes, IsAtom};
ghost use Rattle.pg_rules_access.specs.Shape.{row_of, AreInShape};
ghost use Rattle.pg_rules_access.specs.Store.{store_last, store_read, store_then, store_newest, store_ordered, store_fenced, store, store_twice, twice};

use crate::shape::{HasShapes, Shape};
use pg_assertion::{Layout, StepAtom, ViewAtom};
use pg_program::Names;
use pg_tables::{Clause, before, implies, same_line};

/// A store of a thread to a location.
#[derive(Clone, Copy)]
pub struct Store<'a> {
    pub names: &'a Names,
    pub thread: u8,
    pub location: u8,
}

impl<'a> HasShapes for Store<'a> {
    ghost rows = { λ c i. store c.names.now c.thread c.location i };

    ghost fits = { λ l c. (l.locations ≡ length c.names.now.locations) × (c.location < l.locations) };

    fn shape(&self, i: ViewAtom, _layout: &Layout) -> Shape {
        match i {
            ViewAtom::Last { x, v } => store_last(x == self.location, v),
            ViewAtom::Read { t, x, v } => { store_read(t == self.thread, x == self.location, v) }
            ViewAtom::Then { t, x, v, y, w } => {
                let here = (x == self.location, y == self.location);
                store_then(t == self.thread, here, t, (x, v), (y, w))
            }
            ViewAtom::Newest { t, x } => store_newest(t == self.thread, x == self.location),
            ViewAtom::Ordered { t, x } => {
                let near = same_line(self.names, self.location, x);
                store_ordered(t == self.thread, x == self.location, near)
            }
            ViewAtom::Fenced { t, x } => store_fenced(t == self.thread, x == self.location),
            _ => Shape::Frame,
        }
    }
}

/// The last value of a location.
fn store_last(here: bool, v: u8) -> Shape
    ensures row { (x : ℕ) → row_of result (Last x v) ≡ store_last here x v }
    ensures within { (l : Sizes) → v < l.domain → AreInShape l result }
{
    if here {
        Shape::Becomes(StepAtom::Value { v })
    } else {
        Shape::Frame
    }
}

/// What a thread may read: the acting one the stored value alone, and others that too.
fn store_read(own: bool, here: bool, v: u8) -> Shape
    ensures row { (t x : ℕ) → row_of result (Read t x v) ≡ store_read own here t x v }
    ensures within { (l : Sizes) → v < l.domain → AreInShape l result }
{
    let stored = StepAtom::Value { v };
    match (own, here) {
        (true, true) => Shape::Becomes(stored),
        (false, true) => Shape::Gains(stored),
        (_, false) => Shape::Frame,
    }
}

/// What a thread may read, and then read.
fn store_then(own: bool, here: (bool, bool), t: u8, first: (u8, u8), second: (u8, u8)) -> Shape
    ensures row { row_of result (SeenThen t first.0 first.1 second.0 second.1) ≡ store_then own here.0 here.1 (first.1 == second.1) t first.0 first.1 second.0 second.1 }
    ensures within { (l : Sizes) → IsAtom l (SeenThen t first.0 first.1 second.0 second.1) → AreInShape l result }
{
    if own {
        own_then(here, t, first, second)
    } else {
        other_then(here, t, first, second)
    }
}

/// What the acting thread may read, and then read: the stored value alone where it reads from the location of the store.
fn own_then(here: (bool, bool), t: u8, first: (u8, u8), second: (u8, u8)) -> Shape
    ensures row { row_of result (SeenThen t first.0 first.1 second.0 second.1) ≡ store_then true here.0 here.1 (first.1 == second.1) t first.0 first.1 second.0 second.1 }
    ensures within { (l : Sizes) → IsAtom l (SeenThen t first.0 first.1 second.0 second.1) → AreInShape l result }
{
    let ((x, v), (y, w)) = (first, second);
    let from = StepAtom::Value { v };
    let to = StepAtom::Value { v: w };
    match here {
        (true, true) if v == w => Shape::Becomes(from),
        (true, true) => Shape::BecomesBoth(from, to),
        (true, false) => Shape::BecomesBoth(from, before(ViewAtom::Read { t, x: y, v: w })),
        (false, true) => Shape::BecomesBoth(before(ViewAtom::Read { t, x, v }), to),
        (false, false) => Shape::Frame,
    }
}

/// What another thread may read, and then read: the stored value too.
fn other_then(here: (bool, bool), t: u8, first: (u8, u8), second: (u8, u8)) -> Shape
    ensures row { row_of result (SeenThen t first.0 first.1 second.0 second.1) ≡ store_then false here.0 here.1 (first.1 == second.1) t first.0 first.1 second.0 second.1 }
    ensures within { (l : Sizes) → IsAtom l (SeenThen t first.0 first.1 second.0 second.1) → AreInShape l result }
{
    let ((x, v), (y, w)) = (first, second);
    let read = before(ViewAtom::Read { t, x, v });
    match here {
        (true, true) => Shape::Twice(read, v, w),
        (true, false) => {
            let last = before(ViewAtom::Last { x: y, v: w });
            Shape::GainsBoth(StepAtom::Value { v }, last)
        }
        (false, true) => Shape::GainsBoth(read, StepAtom::Value { v: w }),
        (false, false) => Shape::Frame,
    }
}

/// Whether the newest message of a location is all that a thread may read.
fn store_newest(own: bool, here: bool) -> Shape
    ensures row { (t x : ℕ) → row_of result (Newest t x) ≡ store_newest own here t x }
    ensures within { (l : Sizes) → AreInShape l result }
{
    match (own, here) {
        (true, true) => Shape::Always,
        (false, true) => Shape::Never,
        (_, false) => Shape::Frame,
    }
}

/// What a thread's flushes are ordered after: its own store on each location of the line.
fn store_ordered(own: bool, here: bool, near: bool) -> Shape
    ensures row { (t x : ℕ) → row_of result (Ordered t x) ≡ store_ordered own here near t x }
    ensures within { (l : Sizes) → AreInShape l result }
{
    match (own, here, near) {
        (true, _, true) => Shape::Always,
        (false, true, _) => Shape::Never,
        (true, _, false) | (false, false, _) => Shape::Frame,
    }
}

/// What a thread's flushes are fenced after: the acting one has read no later than its own store.
fn store_fenced(own: bool, here: bool) -> Shape
    ensures row { (t x : ℕ) → row_of result (Fenced t x) ≡ store_fenced own here t x }
    ensures within { (l : Sizes) → AreInShape l result }
{
    match (own, here) {
        (true, _) => Shape::Always,
        (false, true) => Shape::Never,
        (false, false) => Shape::Frame,
    }
}

/// Another thread may read `v` from the location of a store, and then `w` from it.
pub fn store_twice(is: StepAtom, was: StepAtom, read: StepAtom, v: u8, w: u8) -> [Clause; 5]
    ensures { result ≡ store_twice is was read (StepAtom.Value v) (StepAtom.Value w) (twice (v == w) v w) }
{
    let from = StepAtom::Value { v };
    let to = StepAtom::Value { v: w };
    let both = if v == w {
        implies(&[from], &[is])
    } else {
        implies(&[from, to], &[is])
    };
    [
        implies(&[is], &[was, to]),
        implies(&[is], &[was, read, from]),
        implies(&[was], &[is]),
        implies(&[read, to], &[is]),
        both,
    ]
}
