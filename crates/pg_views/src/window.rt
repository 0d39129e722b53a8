//! Windows on the positions of a location: what a view shows of it.

ghost use Rattle.std.specs.Prelude.{◌≡◌, ℕ, ◌<◌, ◌≤◌, true, false, length, MatchOption};
ghost use Rattle.pg_machine.specs.Memory.{reaches};
ghost use Rattle.pg_views.specs.Atom.{shows, is_shown};
ghost use Rattle.pg_views.specs.Parts.{IsFirstShown};

use pg_machine::Memory;

/// The positions of a location from `from` on that no message to it up to `upto` hides.
#[derive(Clone, Copy)]
pub struct Window {
    pub location: u8,
    pub from: u32,
    pub upto: u32,
}

impl Window {
    /// Whether a position is one of them.
    pub fn reaches(self, memory: &Memory, position: u32) -> bool
        ensures { result ≡ reaches memory.now.memory.messages self.location self.from self.upto position }
    {
        if !memory.is_at(self.location, position) {
            return false;
        }
        self.from <= position && memory.hiding(self.location, position, self.upto).is_none()
    }

    /// Whether a position is one of them and has this value.
    fn shows(self, memory: &Memory, value: u8, position: u32) -> bool
        requires { self.location < length memory.now.memory.initial }
        ensures { result ≡ shows memory.now.memory self.location self.from self.upto value position }
    {
        self.reaches(memory, position) && memory.value_at(self.location, position) == value
    }

    /// The first of them that has this value. All scans together take a time that is linear in the messages: a position that
    /// is hidden is hidden by the next one of its location, and those that are not hidden lie after `upto`, but for the first.
    pub fn first(self, memory: &Memory, value: u8) -> Option<u32>
        requires { self.location < length memory.now.memory.initial }
        ensures { MatchOption result (is_shown memory.now.memory self.location self.from self.upto value ≡ false) (λ p. IsFirstShown memory.now.memory self.location self.from self.upto value p) }
    {
        for position in 0..memory.len() + 1 {
            if self.shows(memory, value, position) {
                return Some(position);
            }
        }
        None
    }

    /// Whether one of them has this value.
    pub fn is_shown(self, memory: &Memory, value: u8) -> bool
        requires { self.location < length memory.now.memory.initial }
        ensures { result ≡ is_shown memory.now.memory self.location self.from self.upto value }
    {
        self.first(memory, value).is_some()
    }
}
