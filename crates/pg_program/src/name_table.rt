//! The table of declared names: the version of the language, the domain's size, the locations and the scalars.

ghost use Rattle.pg_program.specs.NameTable.{place_in, by_bytes};
ghost use Rattle.pg_program.specs.Limits.{IsVersion, most_locations, most_locations_2, most_scalars};
ghost use Rattle.std.specs.Prelude.{IsSome, ◌≡◌, ℕ, ◌+◌, ◌<◌, ◌≤◌, map, ◌↔◌, List, [], ◌∷◌, ◌++◌, length, string_bytes, IsTrue, IsErrOf, IfOk, OnOk, OnErr, Some, None, slice_get, option_map, true, false};

use indexmap::IndexMap;
use std::alloc::{AllocError, Global};
use std::marker::Model;
use thiserror::Error;

/// How many locations a table may have in version 1 of the language.
pub const MAX_LOCATIONS: u8 = 6;

/// How many locations a table may have in version 2.
pub const MAX_LOCATIONS_2: u8 = 8;

/// How many scalars, registers and auxiliaries together, a table may have.
pub const MAX_SCALARS: u8 = 16;

/// What a declared name stands for.
#[derive(Clone, Copy, PartialEq, Eq)]
pub enum NameKind {
    /// A place in persistent memory, with its initial value, that begins a cache line.
    Location { init: u32 },
    /// A place in persistent memory that stands on the cache line of the location declared before it. In version 2 alone.
    LocationWith { init: u32 },
    /// A register of one thread, which is numbered from 1.
    Register { owner: u32 },
    /// A variable of the outline alone, which no statement reads.
    Auxiliary,
}

/// The place of a name among the locations, or among the scalars, from 0 in the order of declaration.
#[derive(Clone, Copy, PartialEq, Eq)]
pub enum NameRef {
    Location(u8),
    Scalar(u8),
}

/// What a scalar is: a register with its owning thread, or an auxiliary.
#[derive(Clone, Copy, PartialEq, Eq)]
pub enum ScalarKind {
    Register { owner: u32 },
    Auxiliary,
}

/// Why a name was not declared. The table is then as it was.
#[derive(Clone, Copy, Debug, PartialEq, Eq, Error)]
pub enum DeclareFault {
    #[error("the name is declared already")]
    Redeclared,
    #[error("there are too many names of this kind")]
    TooMany,
    #[error("out of memory")]
    NoMemory,
}

/// What is kept of a location beside its name: its initial value, and the cache line that it stands on.
#[derive(Clone, Copy)]
struct Placed {
    init: u32,
    line: u8,
}

/// The declared names of a program, with the version of the language and the size of the domain of values.
#[derive(Drop)]
pub struct Names {
    alloc: Global,
    version: u32,
    domain: u32,
    lines: u8,
    locations: IndexMap<String, Placed>,
    scalars: IndexMap<String, ScalarKind>,
}

impl Model for Names {
    ghost use Rattle.std.specs.Prelude.{◌≡◌, map};
    ghost use Rattle.pg_program.specs.NameTable.{NameTable, by_bytes, location_of, lines, line_count, IsNameTable};

    ghost Value = { NameTable };

    ghost view = { λ n. record { version = n.version; domain = n.domain; locations = map location_of (by_bytes n.locations.entries); scalars = by_bytes n.scalars.entries } };

    ghost invariant = { λ n.
        (n.lines ≡ line_count (map (λ l. l.line) (map location_of (by_bytes n.locations.entries))))
        × IsNameTable (record { version = n.version; domain = n.domain; locations = map location_of (by_bytes n.locations.entries); scalars = by_bytes n.scalars.entries }) };
}

impl Names {
    ghost use Rattle.pg_program.specs.NameTable.{empty_table, find, is_full, next_place, with_name, with_location, kind_of, lines, line_count, location_names, scalar_names, MayJoin, Declares, IsNameTable};

    /// A table without names, of a version of the language and over the values below `domain`.
    pub fn make(alloc: Global, domain: u32, version: u32) -> Names
        requires { IsVersion version }
        ensures { result ≡ empty_table domain version }
    {
        Names {
            alloc,
            version,
            domain,
            lines: 0,
            locations: IndexMap::new(alloc),
            scalars: IndexMap::new(alloc),
        }
    }

    /// Declares a name, as the last of its kind. A refused call leaves the table as it was; want of memory aside,
    /// a name that is there is refused first. There may be 6 locations in version 1, 8 in version 2, and 16 scalars.
    pub fn declare(&mut self, name: &str, kind: NameKind) -> Result<NameRef, DeclareFault>
        requires { MayJoin kind self.old }
        ensures ok { IfOk result (Declares self.old self.new name.now kind) }
        ensures redeclared { IsErrOf result DeclareFault.Redeclared ↔ IsSome (find name.now self.old) }
        ensures too_many { IsErrOf result DeclareFault.TooMany ↔ ((find name.now self.old ≡ None) × IsTrue (is_full kind self.old)) }
        ensures err { OnErr result (self.new ≡ self.old) }
    {
        if self.find(name).is_some() {
            return Err(DeclareFault::Redeclared);
        }
        if self.is_full(kind) {
            return Err(DeclareFault::TooMany);
        }
        let place = self.next_place(kind);
        match self.put(name, kind) {
            Ok(()) => Ok(place),
            Err(_) => Err(DeclareFault::NoMemory),
        }
    }

    /// What the name stands for, if it is declared.
    pub fn find(&self, name: &str) -> Option<NameRef>
        ensures place { result ≡ find name.now self.now }
        ensures distinct { IsNameTable self.now }
    {
        match index_of(&self.locations, name) {
            Some(x) => Some(NameRef::Location(x)),
            None => match index_of(&self.scalars, name) {
                Some(r) => Some(NameRef::Scalar(r)),
                None => None,
            },
        }
    }

    /// Whether there are as many names of this kind as a table may have.
    pub fn is_full(&self, kind: NameKind) -> bool
        ensures { result ≡ is_full kind self.now }
    {
        match kind {
            NameKind::Location { .. } | NameKind::LocationWith { .. } => {
                self.locations() >= max_locations(self.version)
            }
            NameKind::Register { .. } | NameKind::Auxiliary => self.scalars() >= MAX_SCALARS,
        }
    }

    fn next_place(&self, kind: NameKind) -> NameRef
        ensures { result ≡ next_place kind self.now }
    {
        match kind {
            NameKind::Location { .. } | NameKind::LocationWith { .. } => {
                NameRef::Location(self.locations())
            }
            NameKind::Register { .. } | NameKind::Auxiliary => NameRef::Scalar(self.scalars()),
        }
    }

    fn put(&mut self, name: &str, kind: NameKind) -> Result<(), AllocError>
        requires absent { find name.now self.old ≡ None }
        requires room { is_full kind self.old ≡ false }
        requires join { MayJoin kind self.old }
        ensures ok { OnOk result (self.new ≡ with_name name.now kind self.old) }
        ensures err { OnErr result (self.new ≡ self.old) }
    {
        match kind {
            NameKind::Location { init } => self.put_location(name, init, self.lines),
            NameKind::LocationWith { init } => self.put_location(name, init, self.lines - 1),
            NameKind::Register { owner } => self.put_scalar(name, ScalarKind::Register { owner }),
            NameKind::Auxiliary => self.put_scalar(name, ScalarKind::Auxiliary),
        }
    }

    /// Adds a location that stands on the last line or begins the next one.
    fn put_location(&mut self, name: &str, init: u32, line: u8) -> Result<(), AllocError>
        requires absent { find name.now self.old ≡ None }
        requires room { length self.old.locations < most_locations self.old.version }
        requires line { (line ≤ line_count (lines self.old)) × (line_count (lines self.old) ≤ line + 1) }
        requires apart { self.old.version ≡ 1 → line ≡ length self.old.locations }
        ensures ok { OnOk result (self.new ≡ with_location (record { name = name.now; init = init; line = line }) self.old) }
        ensures err { OnErr result (self.new ≡ self.old) }
    {
        append(self.alloc, &mut self.locations, name, Placed { init, line })?;
        self.lines = line + 1;
        Ok(())
    }

    fn put_scalar(&mut self, name: &str, kind: ScalarKind) -> Result<(), AllocError>
        requires absent { find name.now self.old ≡ None }
        requires room { length self.old.scalars < most_scalars }
        ensures ok { OnOk result (self.new ≡ record self.old { scalars = self.old.scalars ++ (name.now, kind) ∷ [] }) }
        ensures err { OnErr result (self.new ≡ self.old) }
    {
        append(self.alloc, &mut self.scalars, name, kind)
    }

    /// The version of the language: 1 or 2.
    pub fn version(&self) -> u32
        ensures version { result ≡ self.now.version }
        ensures one { IsVersion result }
    {
        self.version
    }

    /// The size of the domain of values.
    pub fn domain(&self) -> u32
        ensures { result ≡ self.now.domain }
    {
        self.domain
    }

    /// How many locations are declared.
    pub fn locations(&self) -> u8
        ensures count { result ≡ length self.now.locations }
        ensures few { result ≤ most_locations_2 }
        ensures distinct { IsNameTable self.now }
    {
        self.locations.len() as u8
    }

    /// How many cache lines the locations stand on.
    pub fn lines(&self) -> u8
        ensures count { result ≡ line_count (lines self.now) }
        ensures few { result ≤ length self.now.locations }
    {
        self.lines
    }

    /// How many scalars are declared.
    pub fn scalars(&self) -> u8
        ensures count { result ≡ length self.now.scalars }
        ensures few { result ≤ most_scalars }
    {
        self.scalars.len() as u8
    }

    /// The name of the location with this number.
    pub fn location_name(&self, x: u8) -> &str
        requires { x < length self.now.locations }
        ensures { option_map (λ l. l.name) (slice_get self.now.locations x) ≡ Some result.now }
    {
        match self.locations.get_index(usize::from(x)) {
            Some((name, _)) => name.as_str(),
            None => unreachable!(),
        }
    }

    /// The initial value of the location with this number.
    pub fn init(&self, x: u8) -> u32
        requires { x < length self.now.locations }
        ensures { option_map (λ l. l.init) (slice_get self.now.locations x) ≡ Some result }
    {
        match self.locations.get_index(usize::from(x)) {
            Some((_, placed)) => placed.init,
            None => unreachable!(),
        }
    }

    /// The cache line of the location with this number. Lines are numbered from 0, in the order of declaration.
    pub fn line(&self, x: u8) -> u8
        requires { x < length self.now.locations }
        ensures line { option_map (λ l. l.line) (slice_get self.now.locations x) ≡ Some result }
        ensures within { result < line_count (lines self.now) }
    {
        match self.locations.get_index(usize::from(x)) {
            Some((_, placed)) => placed.line,
            None => unreachable!(),
        }
    }

    /// The name of the scalar with this number.
    pub fn scalar_name(&self, r: u8) -> &str
        requires { r < length self.now.scalars }
        ensures { option_map (λ e. e.0) (slice_get self.now.scalars r) ≡ Some result.now }
    {
        match self.scalars.get_index(usize::from(r)) {
            Some((name, _)) => name.as_str(),
            None => unreachable!(),
        }
    }

    /// What the scalar with this number was declared as: a register or an auxiliary.
    pub fn kind(&self, r: u8) -> NameKind
        requires { r < length self.now.scalars }
        ensures { option_map (λ e. kind_of e.1) (slice_get self.now.scalars r) ≡ Some result }
    {
        match self.scalars.get_index(usize::from(r)) {
            Some((_, ScalarKind::Register { owner })) => NameKind::Register { owner: *owner },
            Some((_, ScalarKind::Auxiliary)) => NameKind::Auxiliary,
            None => unreachable!(),
        }
    }
}

/// How many locations there may be in a version of the language.
fn max_locations(version: u32) -> u8
    ensures limit { result ≡ most_locations version }
    ensures few { result ≤ most_locations_2 }
{
    if version == 1 {
        MAX_LOCATIONS
    } else {
        MAX_LOCATIONS_2
    }
}

/// The place of a name in a map of at most 255 names.
fn index_of<V>(entries: &IndexMap<String, V>, name: &str) -> Option<u8>
    requires { length entries.now.entries ≤ 255 }
    ensures { result ≡ place_in name.now (map (λ e. e.0) (by_bytes entries.now.entries)) }
{
    match entries.get_index_of(name) {
        Some(i) => Some(i as u8),
        None => None,
    }
}

/// Adds a name that is not there, as the last one.
fn append<V: Drop>(
    alloc: Global,
    entries: &mut IndexMap<String, V>,
    name: &str,
    value: V,
) -> Result<(), AllocError>
    requires { place_in name.now (map (λ e. e.0) (by_bytes entries.old.entries)) ≡ None }
    ensures ok { OnOk result (by_bytes entries.new.entries ≡ by_bytes entries.old.entries ++ (name.now, value) ∷ []) }
    ensures err { OnErr result (by_bytes entries.new.entries ≡ by_bytes entries.old.entries) }
{
    let owned = String::from_str(alloc, name)?;
    entries.insert(owned, value)?;
    Ok(())
}
