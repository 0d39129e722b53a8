//! The rows of a cas.

ghost use Rattle.std.specs.Prelude.{◌≡◌, ℕ, ◌<◌, ◌==◌, ◌&&◌, ◌||◌, length, None};
ghost use Rattle.pg_assertion.specs.declared.atom.ViewAtom.TheVariants.{Read, Then as SeenThen, Fenced};
ghost use Rattle.pg_assertion.specs.Layout.{Sizes, IsAtom, IsThreadNumber};
ghost use Rattle.pg_rules_access.specs.Parts.{cas_shapes};
ghost use Rattle.pg_rules_access.specs.Shape.{cas_row_of, AreInCasShape};
ghost use Rattle.pg_rules_access.specs.Cas.{if_stored, cas_scalar, own_read, own_then, cas_view, own_fenced, cas_fenced, cas};

use crate::load::{Load, ReadThen};
use crate::shape::{CasShape, HasShapes, Shape};
use crate::store::Store;
use pg_assertion::{Layout, StepAtom, ViewAtom};
use pg_program::Names;
use pg_region::ClauseSink;
use pg_tables::{
    Case, PerValue, Rows, Setting, Then, Under, after, becomes, before, frame, implies, only_where,
};

/// A cas of a thread on a location, which reads into a scalar.
#[derive(Clone, Copy)]
pub struct Cas<'a> {
    pub names: &'a Names,
    pub thread: u8,
    pub target: u8,
    pub location: u8,
}

impl<'a> Rows<ViewAtom> for Cas<'a> {
    ghost rows = { λ l c i. cas l c.names.now c.thread c.target c.location i };

    ghost fits = { λ s c i. (s.case ≡ None) × IsAtom s.layout i × (s.layout.locations ≡ length c.names.now.locations) × IsThreadNumber s.layout c.thread × (c.target < s.layout.scalars) × (c.location < s.layout.locations) };

    fn offer_at<S: ClauseSink>(
        &self,
        i: ViewAtom,
        setting: &Setting,
        into: &mut S,
    ) -> Result<(), S::Fault> {
        match i {
            ViewAtom::Scalar { r, k } => {
                CasScalar { load: self.load() }.offer_at((r, k), setting, into)
            }
            ViewAtom::Read { t, x, v } if t == self.thread => {
                OwnRead { load: self.load() }.offer_at((x, v), setting, into)
            }
            _ => self.shape(i, &setting.layout).offer_at(i, setting, into),
        }
    }
}

impl<'a> Cas<'a> {
    // The load of a cas that fails.
    fn load(&self) -> Load
        ensures { result ≡ record { thread = self.now.thread; target = self.now.target; location = self.now.location } }
    {
        Load {
            thread: self.thread,
            target: self.target,
            location: self.location,
        }
    }

    // The row of an atom other than a scalar, and than what the acting thread may read.
    fn shape(&self, i: ViewAtom, layout: &Layout) -> CasShape
        requires atom { IsAtom layout.now i }
        requires locations { layout.now.locations ≡ length self.now.names.now.locations }
        requires location { self.now.location < layout.now.locations }
        ensures row { cas_row_of result i ≡ cas_shapes self.now.names.now self.now.thread self.now.location i }
        ensures within { AreInCasShape layout.now result }
    {
        match i {
            ViewAtom::Last { x, .. } | ViewAtom::Read { x, .. } => {
                self.if_stored(x == self.location, i, layout)
            }
            ViewAtom::Then { t, x, v, y, w } => {
                if t == self.thread {
                    own_then(t, (x, v), (y, w))
                } else {
                    self.if_stored(is_either(x, y, self.location), i, layout)
                }
            }
            ViewAtom::Newest { t, x } | ViewAtom::Ordered { t, x } => self.view(t, x, i, layout),
            ViewAtom::Fenced { t, x } => self.fenced(t, x, layout),
            _ => CasShape::Plain(Shape::Frame),
        }
    }

    // An atom that a store would change: it is what the store makes it where the cas succeeds, and what it was where it fails.
    fn if_stored(&self, changed: bool, i: ViewAtom, layout: &Layout) -> CasShape
        requires atom { IsAtom layout.now i }
        requires locations { layout.now.locations ≡ length self.now.names.now.locations }
        requires location { self.now.location < layout.now.locations }
        ensures row { cas_row_of result i ≡ if_stored changed self.now.names.now self.now.thread self.now.location i }
        ensures within { AreInCasShape layout.now result }
    {
        if changed {
            let store = Store {
                names: self.names,
                thread: self.thread,
                location: self.location,
            };
            CasShape::Split(store.shape(i, layout), Shape::Frame)
        } else {
            CasShape::Plain(Shape::Frame)
        }
    }

    // What of a thread is newest or ordered: all where the cas succeeds, and what is fenced where it fails.
    fn view(&self, t: u8, x: u8, i: ViewAtom, layout: &Layout) -> CasShape
        requires atom { IsAtom layout.now i }
        requires fenced { IsAtom layout.now (Fenced t x) }
        requires locations { layout.now.locations ≡ length self.now.names.now.locations }
        requires location { self.now.location < layout.now.locations }
        ensures row { cas_row_of result i ≡ cas_view (t == self.now.thread) (x == self.now.location) self.now.names.now self.now.thread self.now.location t x i }
        ensures within { AreInCasShape layout.now result }
    {
        if t == self.thread {
            let fenced = after(ViewAtom::Fenced { t, x });
            CasShape::Split(Shape::Always, Shape::Becomes(fenced))
        } else {
            self.if_stored(x == self.location, i, layout)
        }
    }

    // What a thread's flushes are fenced after.
    fn fenced(&self, t: u8, x: u8, layout: &Layout) -> CasShape
        requires atom { IsAtom layout.now (Fenced t x) }
        requires locations { layout.now.locations ≡ length self.now.names.now.locations }
        requires location { self.now.location < layout.now.locations }
        ensures row { cas_row_of result (Fenced t x) ≡ cas_fenced (t == self.now.thread) (x == self.now.location) self.now.names.now self.now.thread self.now.location t x }
        ensures within { AreInCasShape layout.now result }
    {
        if t == self.thread {
            own_fenced(t, x == self.location, self.location)
        } else {
            self.if_stored(x == self.location, ViewAtom::Fenced { t, x }, layout)
        }
    }
}

/// What the acting thread may read, and then read: last values where the cas succeeds, and less than before where it fails.
fn own_then(t: u8, first: (u8, u8), second: (u8, u8)) -> CasShape
    ensures row { cas_row_of result (SeenThen t first.0 first.1 second.0 second.1) ≡ own_then (first.0 == second.0 && first.1 == second.1) t first.0 first.1 second.0 second.1 }
    ensures within { (l : Sizes) → IsAtom l (SeenThen t first.0 first.1 second.0 second.1) → AreInCasShape l result }
{
    let ((x, v), (y, w)) = (first, second);
    let fails = Shape::OnlyWhere(before(ViewAtom::Then { t, x, v, y, w }));
    let last = after(ViewAtom::Last { x, v });
    if is_same(first, second) {
        CasShape::Split(Shape::Becomes(last), fails)
    } else {
        let then = after(ViewAtom::Last { x: y, v: w });
        CasShape::Split(Shape::BecomesBoth(last, then), fails)
    }
}

/// Whether two reads are of the same value of the same location.
fn is_same(first: (u8, u8), second: (u8, u8)) -> bool
    ensures { result ≡ (first.0 == second.0 && first.1 == second.1) }
{
    first.0 == second.0 && first.1 == second.1
}

/// Whether one of two locations is that of the cas.
fn is_either(x: u8, y: u8, location: u8) -> bool
    ensures { result ≡ (x == location || y == location) }
{
    x == location || y == location
}

/// What the acting thread's flushes of a location are ordered after, which may be that of the cas.
fn own_fenced(t: u8, here: bool, location: u8) -> CasShape
    ensures row { (z : ℕ) → cas_row_of result (Fenced t z) ≡ own_fenced here t location z }
    ensures within { (l : Sizes) → IsAtom l (Fenced t location) → AreInCasShape l result }
{
    if here {
        CasShape::Split(Shape::Always, Shape::Keeps)
    } else {
        let fenced = before(ViewAtom::Fenced { t, x: location });
        CasShape::Split(Shape::Always, Shape::Grows(fenced))
    }
}

/// A scalar, and a value of it.
#[derive(Drop)]
struct CasScalar {
    load: Load,
}

impl Rows<(u8, u8)> for CasScalar {
    ghost rows = { λ l c i. cas_scalar (i.0 == c.load.target) c.load.thread c.load.location i.0 i.1 };

    ghost fits = { λ s c i. (s.case ≡ None) × (i.0 < s.layout.scalars) × (i.1 < s.layout.domain) × IsThreadNumber s.layout c.load.thread × (c.load.location < s.layout.locations) };

    fn offer_at<S: ClauseSink>(
        &self,
        i: (u8, u8),
        setting: &Setting,
        into: &mut S,
    ) -> Result<(), S::Fault> {
        let (r, k) = i;
        let atom = ViewAtom::Scalar { r, k };
        if r == self.load.target {
            let (t, x) = (self.load.thread, self.load.location);
            let expected = StepAtom::Expected { v: k };
            let read = before(ViewAtom::Read { t, x, v: k });
            let fenced = before(ViewAtom::Fenced { t, x });
            let last = before(ViewAtom::Last { x, v: k });
            let fails = [
                implies(&[after(atom), expected], &[]),
                implies(&[after(atom)], &[read]),
                implies(&[after(atom), fenced], &[last]),
            ];
            Then(
                Under(Case::Succeeds, becomes(after(atom), expected)),
                Under(Case::Fails, fails),
            )
            .offer_at((), setting, into)
        } else {
            frame(atom).offer_at((), setting, into)
        }
    }
}

/// What the acting thread may read of a location: the last value where the cas succeeds, and what a load leaves where it fails.
#[derive(Drop)]
struct OwnRead {
    load: Load,
}

impl Rows<(u8, u8)> for OwnRead {
    ghost rows = { λ l c i. own_read l c.load.thread c.load.target c.load.location i.0 i.1 };

    ghost fits = { λ s c i. (s.case ≡ None) × IsAtom s.layout (Read c.load.thread i.0 i.1) × (c.load.target < s.layout.scalars) × (c.load.location < s.layout.locations) };

    fn offer_at<S: ClauseSink>(
        &self,
        i: (u8, u8),
        setting: &Setting,
        into: &mut S,
    ) -> Result<(), S::Fault> {
        let (x, v) = i;
        let atom = ViewAtom::Read {
            t: self.load.thread,
            x,
            v,
        };
        let last = after(ViewAtom::Last { x, v });
        let read_then = PerValue(ReadThen {
            load: self.load,
            location: x,
            value: v,
        });
        Then(
            Under(Case::Succeeds, becomes(after(atom), last)),
            Under(
                Case::Fails,
                Then(only_where(after(atom), before(atom)), read_then),
            ),
        )
        .offer_at((), setting, into)
    }
}
