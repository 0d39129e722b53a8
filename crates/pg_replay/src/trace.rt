//! The lines of the trace, as texts.

ghost use Rattle.std.specs.Prelude.{◌≡◌, ℕ, ◌<◌, ◌++◌, length, codes, decimal, IfOk, OnOk};
ghost use Rattle.std.specs.List.{flat_map, range_with_len};
ghost use Rattle.pg_replay.specs.Trace as spec;

use crate::moves::{Moves, Write};
use itoa::Buffer;
use pg_program::Names;
use pg_views::Nvm;
use std::alloc::{AllocError, Global};

/// The line of a step.
pub fn step_text(alloc: Global, line: u32, moves: Moves) -> Result<Vec<u8>, AllocError>
    ensures { IfOk result (λ text. text.items ≡ spec.step_text line moves) }
{
    let mut text = Vec::new(alloc);
    append_points(line, moves, &mut text)?;
    append_read(moves.read, &mut text)?;
    append_write(moves.write, &mut text)?;
    text.extend_from_slice(b"\n")?;
    Ok(text)
}

/// The line of a crash that leaves this memory.
pub fn crash_text(
    alloc: Global,
    names: &Names,
    line: u32,
    memory: &Nvm,
) -> Result<Vec<u8>, AllocError>
    requires { length memory.now ≡ length names.now.locations }
    ensures { IfOk result (λ text. text.items ≡ spec.crash_text names.now line memory.now) }
{
    let mut text = Vec::new(alloc);
    append_number(line, &mut text)?;
    text.extend_from_slice(b" crash")?;
    append_memory(names, memory, &mut text)?;
    text.extend_from_slice(b"\n")?;
    Ok(text)
}

/// Appends the line's number, and the points before and after the step.
fn append_points(line: u32, moves: Moves, text: &mut Vec<u8>) -> Result<(), AllocError>
    ensures { OnOk result (text.new.items ≡ text.old.items ++ spec.points_text line moves) }
{
    append_number(line, text)?;
    text.extend_from_slice(b" ")?;
    append_point(moves.thread, moves.from, text)?;
    text.extend_from_slice(b" > ")?;
    append_point(moves.thread, moves.to, text)
}

/// Appends a point by the numbers of its thread and its own.
fn append_point(thread: u8, point: u8, text: &mut Vec<u8>) -> Result<(), AllocError>
    ensures { OnOk result (text.new.items ≡ text.old.items ++ spec.point_text thread point) }
{
    append_number(u32::from(thread), text)?;
    text.extend_from_slice(b".")?;
    append_number(u32::from(point), text)
}

/// Appends the value that is read, if one is.
fn append_read(read: Option<u8>, text: &mut Vec<u8>) -> Result<(), AllocError>
    ensures { OnOk result (text.new.items ≡ text.old.items ++ spec.read_text read) }
{
    match read {
        Some(value) => {
            text.extend_from_slice(b" read ")?;
            append_number(u32::from(value), text)
        }
        None => Ok(()),
    }
}

/// Appends the message that is written, if one is.
fn append_write(write: Option<Write>, text: &mut Vec<u8>) -> Result<(), AllocError>
    ensures { OnOk result (text.new.items ≡ text.old.items ++ spec.write_text write) }
{
    match write {
        Some(write) => append_message(write, text),
        None => Ok(()),
    }
}

/// Appends a message by its value and its position.
fn append_message(write: Write, text: &mut Vec<u8>) -> Result<(), AllocError>
    ensures { OnOk result (text.new.items ≡ text.old.items ++ spec.message_text write) }
{
    text.extend_from_slice(b" write ")?;
    append_number(u32::from(write.value), text)?;
    text.extend_from_slice(b" at ")?;
    append_number(write.position, text)
}

/// Appends each location with its value.
fn append_memory(names: &Names, memory: &Nvm, text: &mut Vec<u8>) -> Result<(), AllocError>
    requires { length memory.now ≡ length names.now.locations }
    ensures { OnOk result (text.new.items ≡ text.old.items ++ spec.memory_text names.now memory.now) }
{
    'locations: for x in 0..names.locations() {
        append_location(names, memory, x, text)?;
    }
    Ok(())
}

/// Appends a location with its value.
fn append_location(names: &Names, memory: &Nvm, x: u8, text: &mut Vec<u8>) -> Result<(), AllocError>
    requires location { x < length names.now.locations }
    requires size { length memory.now ≡ length names.now.locations }
    ensures { OnOk result (text.new.items ≡ text.old.items ++ spec.location_text names.now memory.now x) }
{
    text.extend_from_slice(b" ")?;
    text.extend_from_slice(names.location_name(x).as_bytes())?;
    text.extend_from_slice(b"=")?;
    append_number(u32::from(memory.value(x)), text)
}

fn append_number(number: u32, text: &mut Vec<u8>) -> Result<(), AllocError>
    ensures { OnOk result (text.new.items ≡ text.old.items ++ decimal number) }
{
    text.extend_from_slice(Buffer::new().format(number).as_bytes())
}
