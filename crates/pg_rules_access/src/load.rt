//! The rows of an assignment to a scalar, and of a load.

ghost use Rattle.std.specs.Prelude.{◌≡◌, ◌<◌, ◌∷◌, ◌++◌, [], ◌==◌};
ghost use Rattle.pg_assertion.specs.declared.atom.ViewAtom.{ViewAtom};
ghost use Rattle.pg_assertion.specs.declared.atom.ViewAtom.TheVariants.{Scalar, Read, Then as SeenThen, Newest};
ghost use Rattle.pg_assertion.specs.Layout.{Sizes, IsAtom, IsThreadNumber};
ghost use Rattle.pg_tables.specs.Clause.{implies};
ghost use Rattle.pg_tables.specs.Shapes.{before, after};
ghost use Rattle.pg_rules_access.specs.Load.{assign, load, load_scalar, load_read, load_then, load_view};
ghost use Rattle.pg_rules_access.specs.Parts.{load_shapes};
ghost use Rattle.pg_rules_access.specs.Shape.{row_of, AreInShape};

use crate::shape::{HasShapes, Shape, Shaped};
use pg_assertion::{Layout, StepAtom, ViewAtom};
use pg_region::ClauseSink;
use pg_tables::{PerValue, Rows, Setting, Then, after, before, frame, implies, only_where};

/// An assignment to a scalar.
#[derive(Clone, Copy)]
pub struct Assign {
    pub target: u8,
}

impl HasShapes for Assign {
    ghost rows = { λ c i. assign c.target i };

    ghost fits = { λ l c. Unit {0} };

    fn shape(&self, i: ViewAtom, _layout: &Layout) -> Shape {
        match i {
            ViewAtom::Scalar { r, k } if r == self.target => Shape::Becomes(StepAtom::Value {
                v: k,
            }),
            _ => Shape::Frame,
        }
    }
}

/// A load of a thread from a location into a scalar.
#[derive(Clone, Copy)]
pub struct Load {
    pub thread: u8,
    pub target: u8,
    pub location: u8,
}

impl Load {
    // The thread could read the last message of the location alone.
    fn newest(&self) -> StepAtom
        ensures { result ≡ before (Newest self.now.thread self.now.location) }
    {
        before(ViewAtom::Newest {
            t: self.thread,
            x: self.location,
        })
    }

    // A scalar, and a value of it: the target only has values that the thread could read.
    fn scalar(&self, r: u8, k: u8) -> Shape
        ensures row { row_of result (Scalar r k) ≡ load_scalar (r == self.now.target) self.now.thread self.now.location r k }
        ensures within { (l : Sizes) → IsThreadNumber l self.now.thread → self.now.location < l.locations → k < l.domain → AreInShape l result }
    {
        if r == self.target {
            Shape::OnlyWhere(before(ViewAtom::Read {
                t: self.thread,
                x: self.location,
                v: k,
            }))
        } else {
            Shape::Frame
        }
    }

    // What a thread may read, and then read: the acting one loses.
    fn then(&self, t: u8) -> Shape
        ensures row { (a : ViewAtom) → row_of result a ≡ load_then (t == self.now.thread) self.now.thread self.now.location a }
        ensures within { (l : Sizes) → IsThreadNumber l self.now.thread → self.now.location < l.locations → AreInShape l result }
    {
        if t == self.thread {
            Shape::Loses(self.newest())
        } else {
            Shape::Frame
        }
    }

    // What is newest, ordered or fenced: the acting thread's atoms gain.
    fn view(&self, t: u8) -> Shape
        ensures row { (a : ViewAtom) → row_of result a ≡ load_view (t == self.now.thread) self.now.thread self.now.location a }
        ensures within { (l : Sizes) → IsThreadNumber l self.now.thread → self.now.location < l.locations → AreInShape l result }
    {
        if t == self.thread {
            Shape::Grows(self.newest())
        } else {
            Shape::Frame
        }
    }
}

impl Rows<ViewAtom> for Load {
    ghost rows = { λ l c i. load l c.thread c.target c.location i };

    ghost fits = { λ s c i. IsAtom s.layout i × IsThreadNumber s.layout c.thread × (c.target < s.layout.scalars) × (c.location < s.layout.locations) };

    fn offer_at<S: ClauseSink>(
        &self,
        i: ViewAtom,
        setting: &Setting,
        into: &mut S,
    ) -> Result<(), S::Fault> {
        match i {
            ViewAtom::Read { t, x, v } => {
                LoadRead { load: *self }.offer_at(((t, x), v), setting, into)
            }
            _ => Shaped(LoadShapes { load: *self }).offer_at(i, setting, into),
        }
    }
}

/// All but what a thread may read.
#[derive(Clone, Copy)]
struct LoadShapes {
    load: Load,
}

impl HasShapes for LoadShapes {
    ghost rows = { λ c i. load_shapes c.load.thread c.load.target c.load.location i };

    ghost fits = { λ l c. IsThreadNumber l c.load.thread × (c.load.location < l.locations) };

    fn shape(&self, i: ViewAtom, _layout: &Layout) -> Shape {
        match i {
            ViewAtom::Scalar { r, k } => self.load.scalar(r, k),
            ViewAtom::Then { t, .. } => self.load.then(t),
            ViewAtom::Newest { t, .. } | ViewAtom::Ordered { t, .. } | ViewAtom::Fenced { t, .. } =>
                { self.load.view(t) }
            _ => Shape::Frame,
        }
    }
}

/// What a thread may read: the acting one loses, and loses nothing where it could read the last message of the location alone.
#[derive(Drop)]
struct LoadRead {
    load: Load,
}

impl Rows<((u8, u8), u8)> for LoadRead {
    ghost rows = { λ l c i. load_read l (i.0.0 == c.load.thread) c.load.thread c.load.target c.load.location i.0.0 i.0.1 i.1 };

    ghost fits = { λ s c i. IsAtom s.layout (Read i.0.0 i.0.1 i.1) × IsThreadNumber s.layout c.load.thread × (c.load.target < s.layout.scalars) × (c.load.location < s.layout.locations) };

    fn offer_at<S: ClauseSink>(
        &self,
        i: ((u8, u8), u8),
        setting: &Setting,
        into: &mut S,
    ) -> Result<(), S::Fault> {
        let ((t, x), v) = i;
        let atom = ViewAtom::Read { t, x, v };
        if t == self.load.thread {
            let newest = self.load.newest();
            let read_then = PerValue(ReadThen {
                load: self.load,
                location: x,
                value: v,
            });
            let kept = [implies(&[newest, before(atom)], &[after(atom)])];
            Then(only_where(after(atom), before(atom)), Then(read_then, kept)).offer_at(
                (),
                setting,
                into,
            )
        } else {
            frame(atom).offer_at((), setting, into)
        }
    }
}

/// What a thread reads of a location at a load, or at a cas that fails, it could read after the value that this gave.
#[derive(Drop)]
pub struct ReadThen {
    pub load: Load,
    pub location: u8,
    pub value: u8,
}

impl Rows<((), u8)> for ReadThen {
    ghost rows = { λ l c i. implies (after (Scalar c.load.target i.1) ∷ after (Read c.load.thread c.location c.value) ∷ []) (before (SeenThen c.load.thread c.load.location i.1 c.location c.value) ∷ []) ∷ [] };

    ghost fits = { λ s c i. IsAtom s.layout (Scalar c.load.target i.1) × IsAtom s.layout (SeenThen c.load.thread c.load.location i.1 c.location c.value) };

    fn offer_at<S: ClauseSink>(
        &self,
        i: ((), u8),
        setting: &Setting,
        into: &mut S,
    ) -> Result<(), S::Fault> {
        let (_, v) = i;
        let Load {
            thread,
            target,
            location,
        } = self.load;
        let loaded = after(ViewAtom::Scalar { r: target, k: v });
        let read = after(ViewAtom::Read {
            t: thread,
            x: self.location,
            v: self.value,
        });
        let then = before(ViewAtom::Then {
            t: thread,
            x: location,
            v,
            y: self.location,
            w: self.value,
        });
        [implies(&[loaded, read], &[then])].offer_at((), setting, into)
    }
}
