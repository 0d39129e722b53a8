//! The numbers of atoms. A layout knows how many values, scalars, locations and threads there are, and so which
//! atoms a side of a step has. They are numbered from 1 without a gap, in the order of their kinds
//! `r = k`, `L`, `R`, `P`, `A`, `C`, `N`, `O`, `F`, and within a kind by their arguments as written, the first
//! slowest. This project's own.

ghost use Rattle.std.specs.Prelude.{◌≡◌, ℕ, ◌+◌, ◌*◌, ◌<◌, ◌≤◌};
ghost use Rattle.pg_assertion.specs.declared.layout.Side.{Side};
ghost use Rattle.pg_assertion.specs.Layout.{IsWithinLimits, IsAtom, IsThreadNumber, number, number_on, place_of, atoms, AtomsStandInOrder, PlacesAreNumbers, AtomsAreCounted, LargestHasMost, NumbersTellAtomsApart, NumbersHaveNoGap, NumbersTellSidesApart};

use crate::atom::ViewAtom;
use pg_program::Names;
use std::marker::Model;

/// Before or after a step.
#[derive(Clone, Copy, Debug, PartialEq, Eq)]
pub enum Side {
    Before,
    After,
}

/// How many atoms a side has at most: with 6 values, 16 scalars, 8 locations and 4 threads.
pub const MAX_ATOMS: u32 = 9_888;

// Kind by kind: `r = k`; `L` and `P`; `R` and `A`; `C`; `N`, `O` and `F`.
const _: () = prove!(
    MAX_ATOMS == 6 * 16 + 2 * (6 * 8) + 2 * (6 * 8 * 4) + 6 * 8 * (6 * 8 * 4) + 3 * (8 * 4)
);

/// The atoms of a side, over the values, scalars, locations and threads of a program, and their numbers.
#[derive(Clone, Copy, Debug, PartialEq, Eq)]
pub struct Layout {
    domain: u32,
    scalars: u32,
    locations: u32,
    threads: u32,
}

impl Model for Layout {
    ghost use Rattle.pg_assertion.specs.Layout.{Sizes, IsWithinLimits};

    ghost Value = { Sizes };

    ghost view = { λ l. record { domain = l.domain; scalars = l.scalars; locations = l.locations; threads = l.threads } };

    ghost invariant = { λ l. IsWithinLimits (record { domain = l.domain; scalars = l.scalars; locations = l.locations; threads = l.threads }) };

    ghost inverse = { λ s. record { domain = s.domain; scalars = s.scalars; locations = s.locations; threads = s.threads } };
}

impl Layout {
    ghost use Rattle.pg_program.specs.Limits.{IsDomainSize, most_threads};
    ghost use Rattle.pg_assertion.specs.Limits.{most_atoms};
    ghost use Rattle.pg_assertion.specs.Layout.{sizes, scalar_cells, cells, seen_cells, cell_pairs, thread_locations, scalar_place, cell_place, seen_place, pair_place, view_place, last_start, read_start, persist_start, async_start, then_start, newest_start, ordered_start, fenced_start};

    /// The layout over these names and this many threads.
    pub fn of(names: &Names, threads: u8) -> Layout
        requires domain { IsDomainSize names.now.domain }
        requires threads { (1 ≤ threads) × (threads ≤ most_threads) }
        ensures { result ≡ sizes names.now threads }
    {
        Layout {
            domain: names.domain(),
            scalars: u32::from(names.scalars()),
            locations: u32::from(names.locations()),
            threads: u32::from(threads),
        }
    }

    /// How many values, scalars, locations and threads there are.
    pub fn domain(&self) -> u32
        ensures count { result ≡ self.now.domain }
        ensures limits { IsWithinLimits self.now }
    {
        self.domain
    }

    pub fn scalars(&self) -> u32
        ensures count { result ≡ self.now.scalars }
        ensures limits { IsWithinLimits self.now }
    {
        self.scalars
    }

    pub fn locations(&self) -> u32
        ensures count { result ≡ self.now.locations }
        ensures limits { IsWithinLimits self.now }
    {
        self.locations
    }

    pub fn threads(&self) -> u32
        ensures count { result ≡ self.now.threads }
        ensures limits { IsWithinLimits self.now }
    {
        self.threads
    }

    /// How many atoms a side has.
    pub fn atoms(&self) -> u32
        ensures count { result ≡ atoms self.now }
        ensures few { result ≤ most_atoms }
        ensures limits { IsWithinLimits self.now }
    {
        self.fenced_start() + self.thread_locations()
    }

    /// The number of an atom.
    pub fn number(&self, a: &ViewAtom) -> u32
        requires { IsAtom self.now a.now }
        ensures number { result ≡ number self.now a.now }
        ensures within { (1 ≤ result) × (result ≤ atoms self.now) }
        ensures few { result ≤ most_atoms }
    {
        1 + self.place_of(a)
    }

    /// The atom with this number.
    pub fn atom(&self, n: u32) -> ViewAtom
        requires { (1 ≤ n) × (n ≤ atoms self.now) }
        ensures atom { IsAtom self.now result }
        ensures number { number self.now result ≡ n }
    {
        let place = n - 1;
        if place < self.then_start() {
            self.atom_of_one_cell(place)
        } else {
            self.atom_of_a_thread(place)
        }
    }

    fn place_of(&self, a: &ViewAtom) -> u32
        requires { IsAtom self.now a.now }
        ensures place { result ≡ place_of self.now a.now }
        ensures few { result < most_atoms }
    {
        match *a {
            ViewAtom::Scalar { r, k } => self.scalar_place(r, k),
            ViewAtom::Last { x, v } => self.last_start() + self.cell_place(x, v),
            ViewAtom::Read { t, x, v } => self.read_start() + self.seen_place(t, x, v),
            ViewAtom::Persist { x, v } => self.persist_start() + self.cell_place(x, v),
            ViewAtom::Async { t, x, v } => self.async_start() + self.seen_place(t, x, v),
            ViewAtom::Then { t, x, v, y, w } => self.then_start() + self.pair_place(t, x, v, y, w),
            ViewAtom::Newest { t, x } => self.newest_start() + self.view_place(t, x),
            ViewAtom::Ordered { t, x } => self.ordered_start() + self.view_place(t, x),
            ViewAtom::Fenced { t, x } => self.fenced_start() + self.view_place(t, x),
        }
    }

    // The atom at a place before those of kind `C`.
    fn atom_of_one_cell(&self, place: u32) -> ViewAtom
        requires { place < then_start self.now }
        ensures atom { IsAtom self.now result }
        ensures place { place_of self.now result ≡ place }
    {
        if place < self.last_start() {
            let (r, k) = self.scalar_at(place);
            return ViewAtom::Scalar { r, k };
        }
        if place < self.read_start() {
            let (x, v) = self.cell_at(place - self.last_start());
            return ViewAtom::Last { x, v };
        }
        if place < self.persist_start() {
            let (t, x, v) = self.seen_at(place - self.read_start());
            return ViewAtom::Read { t, x, v };
        }
        if place < self.async_start() {
            let (x, v) = self.cell_at(place - self.persist_start());
            return ViewAtom::Persist { x, v };
        }
        let (t, x, v) = self.seen_at(place - self.async_start());
        ViewAtom::Async { t, x, v }
    }

    // The atom at a place from those of kind `C` on.
    fn atom_of_a_thread(&self, place: u32) -> ViewAtom
        requires from { then_start self.now ≤ place }
        requires within { place < atoms self.now }
        ensures atom { IsAtom self.now result }
        ensures place { place_of self.now result ≡ place }
    {
        if place < self.newest_start() {
            let (t, x, v, y, w) = self.pair_at(place - self.then_start());
            return ViewAtom::Then { t, x, v, y, w };
        }
        if place < self.ordered_start() {
            let (t, x) = self.view_at(place - self.newest_start());
            return ViewAtom::Newest { t, x };
        }
        if place < self.fenced_start() {
            let (t, x) = self.view_at(place - self.ordered_start());
            return ViewAtom::Ordered { t, x };
        }
        let (t, x) = self.view_at(place - self.fenced_start());
        ViewAtom::Fenced { t, x }
    }

    // How many scalars with a value there are, locations with a value, these for each thread, pairs of a location
    // with a value for each thread, and locations for each thread.

    fn scalar_cells(&self) -> u32
        ensures count { result ≡ scalar_cells self.now }
        ensures few { result ≤ 96 }
    {
        self.domain * self.scalars
    }

    fn cells(&self) -> u32
        ensures count { result ≡ cells self.now }
        ensures few { result ≤ 48 }
        ensures limits { IsWithinLimits self.now }
    {
        self.domain * self.locations
    }

    fn seen_cells(&self) -> u32
        ensures count { result ≡ seen_cells self.now }
        ensures few { result ≤ 192 }
    {
        self.cells() * self.threads
    }

    fn cell_pairs(&self) -> u32
        ensures count { result ≡ cell_pairs self.now }
        ensures few { result ≤ 9_216 }
    {
        self.cells() * self.seen_cells()
    }

    fn thread_locations(&self) -> u32
        ensures count { result ≡ thread_locations self.now }
        ensures few { result ≤ 32 }
        ensures limits { IsWithinLimits self.now }
    {
        self.locations * self.threads
    }

    // How many atoms stand before those of a kind.

    fn last_start(&self) -> u32
        ensures count { result ≡ last_start self.now }
        ensures few { result ≤ 96 }
    {
        self.scalar_cells()
    }

    fn read_start(&self) -> u32
        ensures count { result ≡ read_start self.now }
        ensures few { result ≤ 144 }
    {
        self.last_start() + self.cells()
    }

    fn persist_start(&self) -> u32
        ensures count { result ≡ persist_start self.now }
        ensures few { result ≤ 336 }
    {
        self.read_start() + self.seen_cells()
    }

    fn async_start(&self) -> u32
        ensures count { result ≡ async_start self.now }
        ensures few { result ≤ 384 }
    {
        self.persist_start() + self.cells()
    }

    fn then_start(&self) -> u32
        ensures count { result ≡ then_start self.now }
        ensures few { result ≤ 576 }
    {
        self.async_start() + self.seen_cells()
    }

    fn newest_start(&self) -> u32
        ensures count { result ≡ newest_start self.now }
        ensures few { result ≤ 9_792 }
    {
        self.then_start() + self.cell_pairs()
    }

    fn ordered_start(&self) -> u32
        ensures count { result ≡ ordered_start self.now }
        ensures few { result ≤ 9_824 }
    {
        self.newest_start() + self.thread_locations()
    }

    fn fenced_start(&self) -> u32
        ensures count { result ≡ fenced_start self.now }
        ensures few { result ≤ 9_856 }
    {
        self.ordered_start() + self.thread_locations()
    }

    // The place of each among its own, from 0.

    fn scalar_place(&self, r: u8, k: u8) -> u32
        requires { IsAtom self.now (ViewAtom.Scalar r k) }
        ensures place { result ≡ scalar_place self.now r k }
        ensures within { result < scalar_cells self.now }
        ensures few { result < 96 }
    {
        u32::from(r) * self.domain + u32::from(k)
    }

    fn cell_place(&self, x: u8, v: u8) -> u32
        requires { (x < self.now.locations) × (v < self.now.domain) }
        ensures place { result ≡ cell_place self.now x v }
        ensures within { result < cells self.now }
        ensures few { result < 48 }
    {
        u32::from(x) * self.domain + u32::from(v)
    }

    fn seen_place(&self, t: u8, x: u8, v: u8) -> u32
        requires { IsThreadNumber self.now t × (x < self.now.locations) × (v < self.now.domain) }
        ensures place { result ≡ seen_place self.now t x v }
        ensures within { result < seen_cells self.now }
        ensures few { result < 192 }
    {
        (u32::from(t) - 1) * self.cells() + self.cell_place(x, v)
    }

    fn pair_place(&self, t: u8, x: u8, v: u8, y: u8, w: u8) -> u32
        requires { IsAtom self.now (ViewAtom.Then t x v y w) }
        ensures place { result ≡ pair_place self.now t x v y w }
        ensures within { result < cell_pairs self.now }
        ensures few { result < 9_216 }
    {
        self.seen_place(t, x, v) * self.cells() + self.cell_place(y, w)
    }

    fn view_place(&self, t: u8, x: u8) -> u32
        requires { IsThreadNumber self.now t × (x < self.now.locations) }
        ensures place { result ≡ view_place self.now t x }
        ensures within { result < thread_locations self.now }
        ensures few { result < 32 }
    {
        (u32::from(t) - 1) * self.locations + u32::from(x)
    }

    // What stands at a place.

    fn scalar_at(&self, place: u32) -> (u8, u8)
        requires { place < scalar_cells self.now }
        ensures scalar { result.0 < self.now.scalars }
        ensures value { result.1 < self.now.domain }
        ensures place { scalar_place self.now result.0 result.1 ≡ place }
    {
        ((place / self.domain) as u8, (place % self.domain) as u8)
    }

    fn cell_at(&self, place: u32) -> (u8, u8)
        requires { place < cells self.now }
        ensures location { result.0 < self.now.locations }
        ensures value { result.1 < self.now.domain }
        ensures place { cell_place self.now result.0 result.1 ≡ place }
    {
        ((place / self.domain) as u8, (place % self.domain) as u8)
    }

    fn seen_at(&self, place: u32) -> (u8, u8, u8)
        requires { place < seen_cells self.now }
        ensures thread { IsThreadNumber self.now result.0 }
        ensures location { result.1 < self.now.locations }
        ensures value { result.2 < self.now.domain }
        ensures place { seen_place self.now result.0 result.1 result.2 ≡ place }
    {
        let (x, v) = self.cell_at(place % self.cells());
        ((place / self.cells() + 1) as u8, x, v)
    }

    fn pair_at(&self, place: u32) -> (u8, u8, u8, u8, u8)
        requires { place < cell_pairs self.now }
        ensures atom { IsAtom self.now (ViewAtom.Then result.0 result.1 result.2 result.3 result.4) }
        ensures place { pair_place self.now result.0 result.1 result.2 result.3 result.4 ≡ place }
    {
        let (t, x, v) = self.seen_at(place / self.cells());
        let (y, w) = self.cell_at(place % self.cells());
        (t, x, v, y, w)
    }

    fn view_at(&self, place: u32) -> (u8, u8)
        requires { place < thread_locations self.now }
        ensures thread { IsThreadNumber self.now result.0 }
        ensures location { result.1 < self.now.locations }
        ensures place { view_place self.now result.0 result.1 ≡ place }
    {
        (
            (place / self.locations + 1) as u8,
            (place % self.locations) as u8,
        )
    }
}

/// The numbers of atoms of any kind, on both sides of a step.
pub trait Numbering<T> {
    // the atoms that it has
    ghost has: { Self → T → Type 0 };

    // the number of an atom on a side
    ghost number_on: { Self → T → Side → ℕ };

    /// The number of an atom on a side.
    fn number_at(&self, a: &T, side: Side) -> u32
        requires { has self.now a.now }
        ensures { result ≡ number_on self.now a.now side };
}

/// The atoms whose arguments are in range. After a step each has its number before it, plus the count of atoms.
impl Numbering<ViewAtom> for Layout {
    ghost has = { λ l a. IsAtom l a };

    ghost number_on = { λ l a side. number_on l a side };

    fn number_at(&self, a: &ViewAtom, side: Side) -> u32 {
        match side {
            Side::Before => self.number(a),
            Side::After => self.number(a) + self.atoms(),
        }
    }
}

// What holds of the numbers, for each count of values, scalars, locations and threads. No function below does
// anything: its contract is the law.

/// In the list of all atoms in their order an atom with the number n is the n-th.
pub fn atoms_stand_in_order()
    ensures { AtomsStandInOrder }
{}

/// The n-th of that list is an atom whose arguments are in range, and its number is n.
pub fn places_are_numbers()
    ensures { PlacesAreNumbers }
{}

/// The list has as many entries as a side has atoms, and the largest layout has as many as a side may have.
pub fn atoms_are_counted()
    ensures counted { AtomsAreCounted }
    ensures most { LargestHasMost }
{}

/// No two atoms have one number.
pub fn numbers_tell_atoms_apart()
    ensures { NumbersTellAtomsApart }
{}

/// Each atom has a number from 1 to their count, and each of these is the number of an atom.
pub fn numbers_have_no_gap()
    ensures { NumbersHaveNoGap }
{}

/// The numbers of both sides go from 1 to twice the count of atoms, and each is of one atom on one side.
pub fn numbers_tell_sides_apart()
    ensures { NumbersTellSidesApart }
{}
