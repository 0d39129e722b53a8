//! The memory: the initial values and the cache lines of the locations, and the messages.

ghost use Rattle.std.specs.Prelude.{◌≡◌, ℕ, ◌+◌, ◌-◌, ◌<◌, ◌≤◌, true, [], ◌∷◌, ◌++◌, length, slice_index, slice_index_or, MatchOption, All, IfOk, IfErr, OnOk, OnErr};
ghost use Rattle.pg_program.specs.NameTable.{initial, lines, line_count};
ghost use Rattle.pg_machine.specs.Memory.{line_of, is_at, value_at, last, last_value, is_clear, message_appended};
ghost use Rattle.pg_machine.specs.Fault.{IsLeastHiding, IsFull};
ghost use Rattle.pg_machine.specs.Refusal.{IsRefusal};
ghost use Rattle.pg_machine.specs.Limits.{most_messages};

use crate::fault::{MAX_MESSAGES, StepFault};
use crate::messages;
use pg_program::Names;
use std::alloc::{AllocError, Global};
use std::marker::Model;

/// The initial value and the cache line of each location, and the messages, each with its location and value. Locations and
/// lines are numbered from 0; a position is 0 for the initial values, and else counts the messages from 1.
#[derive(Drop)]
pub struct Memory {
    initial: Vec<u8>,
    lines: Vec<u8>,
    messages: Vec<(u8, u8)>,
}

impl Model for Memory {
    ghost use Rattle.std.specs.Prelude.{◌≡◌, ◌-◌, ◌≤◌, length, vec_len, vec_capacity};
    ghost use Rattle.pg_machine.specs.Held.{HeldMemory};
    ghost use Rattle.pg_machine.specs.Limits.{most_messages};

    ghost Value = { HeldMemory };

    ghost view = { λ m. record { memory = record { initial = m.initial.items; lines = m.lines.items; messages = m.messages.items }; spare = vec_capacity m.messages - vec_len m.messages } };

    ghost invariant = { λ m. (length m.lines.items ≡ length m.initial.items) × (length m.messages.items ≤ most_messages) };
}

impl Memory {
    /// The memory without messages, with the initial values and the lines that are declared.
    pub fn fresh(alloc: Global, names: &Names) -> Result<Memory, AllocError>
        requires { All (λ v. v < 256) (initial names.now) }
        ensures { IfOk result (λ m. m.memory ≡ record { initial = initial names.now; lines = lines names.now; messages = [] }) }
    {
        Ok(Memory {
            initial: declared_values(alloc, names)?,
            lines: declared_lines(alloc, names)?,
            messages: Vec::new(alloc),
        })
    }

    /// Makes room for more messages.
    pub fn reserve(&mut self, messages: u32) -> Result<(), AllocError>
        ensures memory { self.new.memory ≡ self.old.memory }
        ensures room { OnOk result (messages ≤ self.new.spare) }
        ensures spare { self.old.spare ≤ self.new.spare }
    {
        self.messages.reserve(messages as usize)
    }

    /// The number of messages.
    pub fn len(&self) -> u32
        ensures count { result ≡ length self.now.memory.messages }
        ensures few { result ≤ most_messages }
    {
        self.messages.len() as u32
    }

    /// The message at a position, counted from 1, with its location and value.
    pub fn message(&self, position: u32) -> (u8, u8)
        requires { (1 ≤ position) × (position ≤ length self.now.memory.messages) }
        ensures { result ≡ slice_index_or self.now.memory.messages (position - 1) (0, 0) }
    {
        self.messages[position as usize - 1]
    }

    /// The initial value of a location.
    pub fn init(&self, location: u8) -> u8
        requires { location < length self.now.memory.initial }
        ensures { result ≡ slice_index self.now.memory.initial location }
    {
        self.initial[usize::from(location)]
    }

    /// The cache line of a location.
    pub fn line(&self, location: u8) -> u8
        requires { location < length self.now.memory.initial }
        ensures line { result ≡ line_of self.now.memory location }
        ensures within { result < line_count self.now.memory.lines }
    {
        self.lines[usize::from(location)]
    }

    /// The cache line of each location.
    pub fn location_lines(&self) -> &[u8]
        ensures lines { result.now ≡ self.now.memory.lines }
        ensures each { length result.now ≡ length self.now.memory.initial }
    {
        self.lines.as_slice()
    }

    /// Whether a position is one of the location.
    pub fn is_at(&self, location: u8, position: u32) -> bool
        ensures { result ≡ is_at self.now.memory.messages location position }
    {
        messages::is_at(&self.messages, location, position)
    }

    /// The value at a position of the location: at 0 the initial one, and else that of the message.
    pub fn value_at(&self, location: u8, position: u32) -> u8
        requires location { location < length self.now.memory.initial }
        requires position { is_at self.now.memory.messages location position ≡ true }
        ensures { result ≡ value_at self.now.memory location position }
    {
        messages::value_at(&self.initial, &self.messages, location, position)
    }

    /// The greatest position of the location.
    pub fn last(&self, location: u8) -> u32
        ensures { result ≡ last self.now.memory.messages location }
    {
        messages::last(&self.messages, location)
    }

    /// The value at the greatest position of the location.
    pub fn last_value(&self, location: u8) -> u8
        requires { location < length self.now.memory.initial }
        ensures { result ≡ last_value self.now.memory location }
    {
        let last = messages::last(&self.messages, location);
        messages::value_at(&self.initial, &self.messages, location, last)
    }

    /// The least position of the location that is above one of its positions and at most `bound`.
    pub fn hiding(&self, location: u8, position: u32, bound: u32) -> Option<u32>
        requires { is_at self.now.memory.messages location position ≡ true }
        ensures { MatchOption result (is_clear self.now.memory.messages location position bound ≡ true) (λ q. IsLeastHiding self.now.memory.messages location position bound q) }
    {
        messages::hiding(&self.messages, location, position, bound)
    }

    /// Appends a message. A refusal leaves the memory as it was.
    pub fn append(&mut self, location: u8, value: u8) -> Result<u32, StepFault>
        ensures ok { IfOk result (λ p. (p ≡ length self.old.memory.messages + 1) × (p ≤ most_messages) × (self.new.memory ≡ message_appended self.old.memory (location, value))) }
        ensures err { IfErr result (λ f. IsRefusal (λ g. IsFull self.old.memory × (g ≡ StepFault.MessagesFull)) self.old.spare f) }
        ensures unchanged { OnErr result (self.new.memory ≡ self.old.memory) }
        ensures spare { self.old.spare + length self.old.memory.messages ≤ self.new.spare + length self.new.memory.messages }
    {
        if self.len() >= MAX_MESSAGES {
            return Err(StepFault::MessagesFull);
        }
        match self.messages.push((location, value)) {
            Ok(()) => Ok(self.len()),
            Err(_) => Err(StepFault::NoMemory),
        }
    }
}

/// The initial values that are declared, in the order of the locations.
fn declared_values(alloc: Global, names: &Names) -> Result<Vec<u8>, AllocError>
    requires { All (λ v. v < 256) (initial names.now) }
    ensures { IfOk result (λ vs. vs.items ≡ initial names.now) }
{
    let mut values = Vec::new(alloc);
    for location in 0..names.locations() {
        values.push(names.init(location) as u8)?;
    }
    Ok(values)
}

/// The cache lines that are declared, in the order of the locations.
fn declared_lines(alloc: Global, names: &Names) -> Result<Vec<u8>, AllocError>
    ensures { IfOk result (λ ls. ls.items ≡ lines names.now) }
{
    let mut lines = Vec::new(alloc);
    for location in 0..names.locations() {
        lines.push(names.line(location))?;
    }
    Ok(lines)
}
