//! The meaning of each atom, after the sets of positions that it speaks of.

ghost use Rattle.std.specs.Prelude.{◌≡◌, ℕ, ◌<◌, ◌≤◌, length};
ghost use Rattle.pg_program.specs.NameTable.{line_count};
ghost use Rattle.pg_program.specs.Program.{ProgramTable};
ghost use Rattle.pg_assertion.specs.Layout.{sizes, IsAtom};
ghost use Rattle.pg_machine.specs.State.{IsWellFormed, coh_of, committed};
ghost use Rattle.pg_machine.specs.Moves.{load_seen};
ghost use Rattle.pg_machine.specs.Step.{views_of, seen_by};
ghost use Rattle.pg_views.specs.Atom.{atom_holds, may_read, may_read_then, reads_newest, covers_ordered, covers_fenced, may_persist, may_persist_after_fence};
ghost use Rattle.pg_views.specs.Parts.{Has};

use crate::window::Window;
use pg_assertion::ViewAtom;
use pg_machine::State;
use pg_program::Program;

/// Whether an atom holds in a state. No atom takes more time than is linear in the messages, and in the number of threads.
pub fn holds_atom(s: &State, p: &Program, a: &ViewAtom) -> bool
    requires formed { IsWellFormed p.now s.now.state }
    requires atom { IsAtom (sizes p.now.names (length p.now.threads)) a.now }
    ensures { result ≡ atom_holds s.now.state a.now }
{
    match a {
        ViewAtom::Scalar { r, k } => s.scalars()[usize::from(*r)] == *k,
        ViewAtom::Last { x, v } => s.memory().last_value(*x) == *v,
        ViewAtom::Read { t, x, v } => readable(s, *t, *x).is_shown(s.memory(), *v),
        ViewAtom::Persist { x, v } => may_persist(s, p, *x, *v),
        ViewAtom::Async { t, x, v } => may_persist_after_fence(s, p, *t, *x, *v),
        ViewAtom::Then { t, x, v, y, w } => may_read_then(s, *t, *x, *v, *y, *w),
        ViewAtom::Newest { t, x } => reads_newest(s, *t, *x),
        ViewAtom::Ordered { t, x } => covers_ordered(s, *t, *x),
        ViewAtom::Fenced { t, x } => s.memory().last(*x) <= s.maxcoh(*t),
    }
}

/// The positions at which a thread may read a location.
fn readable(s: &State, t: u8, x: u8) -> Window
    requires { Has s.now.state t x }
    ensures location { result.location ≡ x }
    ensures from { result.from ≡ coh_of (views_of s.now.state t) x }
    ensures upto { result.upto ≡ (views_of s.now.state t).vrn }
{
    Window {
        location: x,
        from: s.coh(t, x),
        upto: s.vrn(t),
    }
}

/// The positions at which a thread may read `y` once it has loaded `x` at a position.
fn readable_after(s: &State, t: u8, x: u8, position: u32, y: u8) -> Window
    requires from { Has s.now.state t x }
    requires to { Has s.now.state t y }
    ensures location { result.location ≡ y }
    ensures from { result.from ≡ coh_of (load_seen (views_of s.now.state t) x position) y }
    ensures upto { result.upto ≡ (load_seen (views_of s.now.state t) x position).vrn }
{
    let is_seen = position == s.coh(t, x);
    Window {
        location: y,
        from: if y == x { position } else { s.coh(t, y) },
        upto: if is_seen {
            s.vrn(t)
        } else {
            s.vrn(t).max(position)
        },
    }
}

/// Whether a thread may read `v` from `x`, and then `w` from `y`. The later it reads `v`, the less it may read then: so
/// its first position decides.
fn may_read_then(s: &State, t: u8, x: u8, v: u8, y: u8, w: u8) -> bool
    requires from { Has s.now.state t x }
    requires to { Has s.now.state t y }
    ensures { result ≡ may_read_then (seen_by s.now.state t) x v y w }
{
    match readable(s, t, x).first(s.memory(), v) {
        Some(position) => readable_after(s, t, x, position, y).is_shown(s.memory(), w),
        None => false,
    }
}

/// Whether a thread may read a location at its last position alone.
fn reads_newest(s: &State, t: u8, x: u8) -> bool
    requires { Has s.now.state t x }
    ensures { result ≡ reads_newest (seen_by s.now.state t) x }
{
    let window = readable(s, t, x);
    let last = s.memory().last(x);
    for position in 0..s.messages() + 1 {
        if position != last && window.reaches(s.memory(), position) {
            return false;
        }
    }
    true
}

/// Whether a thread's `flushopt` of a location is ordered after its last position.
fn covers_ordered(s: &State, t: u8, x: u8) -> bool
    requires { Has s.now.state t x }
    ensures { result ≡ covers_ordered (seen_by s.now.state t) x }
{
    s.memory().last(x) <= s.lcoh(t, s.line(x)).max(s.vpr(t))
}

/// Whether a crash may leave a value in a location.
fn may_persist(s: &State, p: &Program, x: u8, v: u8) -> bool
    requires formed { IsWellFormed p.now s.now.state }
    requires location { x < length s.now.state.memory.initial }
    ensures { result ≡ may_persist s.now.state x v }
{
    let window = Window {
        location: x,
        from: 0,
        upto: committed(s, p, s.line(x)),
    };
    window.is_shown(s.memory(), v)
}

/// Whether a crash may leave a value in a location once a fence of the thread has committed what it has begun to write back.
fn may_persist_after_fence(s: &State, p: &Program, t: u8, x: u8, v: u8) -> bool
    requires formed { IsWellFormed p.now s.now.state }
    requires has { Has s.now.state t x }
    ensures { result ≡ may_persist_after_fence s.now.state t x v }
{
    let line = s.line(x);
    let window = Window {
        location: x,
        from: 0,
        upto: committed(s, p, line).max(s.vpa(t, line)),
    };
    window.is_shown(s.memory(), v)
}

/// What was committed to a line: the greatest committed view of it of all threads.
pub fn committed(s: &State, p: &Program, line: u8) -> u32
    requires formed { IsWellFormed p.now s.now.state }
    requires line { line < line_count s.now.state.memory.lines }
    ensures { result ≡ committed s.now.state line }
{
    let mut most: u32 = 0;
    for t in 0..p.threads() {
        most = most.max(s.vpc(t + 1, line));
    }
    most
}
