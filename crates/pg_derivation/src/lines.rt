//! The lines of a derivation's text.

ghost use Rattle.std.specs.Prelude.{◌≡◌, ◌++◌, OnOk, codes, decimal};
ghost use Rattle.pg_derivation.specs.Text.{header_text, obligation_text, split_text, leaf_text, end_text, literal_text, numbers_text};

use itoa::Buffer;
use pg_region::Lit;
use std::alloc::AllocError;

/// Appends the first line.
pub fn append_header(line: &mut Vec<u8>) -> Result<(), AllocError>
    ensures { OnOk result (line.new.items ≡ line.old.items ++ header_text) }
{
    line.extend_from_slice(b"derivation 1\n")?;
    Ok(())
}

/// Appends the line of an obligation.
pub fn append_obligation(line: &mut Vec<u8>, i: u32) -> Result<(), AllocError>
    ensures { OnOk result (line.new.items ≡ line.old.items ++ obligation_text i) }
{
    line.extend_from_slice(b"obligation ")?;
    append_number(line, i)?;
    line.extend_from_slice(b"\n")?;
    Ok(())
}

/// Appends the line of a split.
pub fn append_split(line: &mut Vec<u8>, literal: Lit) -> Result<(), AllocError>
    ensures { OnOk result (line.new.items ≡ line.old.items ++ split_text literal) }
{
    line.extend_from_slice(b"split ")?;
    if !literal.positive() {
        line.extend_from_slice(b"-")?;
    }
    append_number(line, literal.atom())?;
    line.extend_from_slice(b"\n")?;
    Ok(())
}

/// Appends the line of a leaf with these numbers of clauses.
pub fn append_leaf(line: &mut Vec<u8>, numbers: &[u32]) -> Result<(), AllocError>
    ensures { OnOk result (line.new.items ≡ line.old.items ++ leaf_text numbers.now) }
{
    line.extend_from_slice(b"leaf")?;
    append_numbers(line, numbers)?;
    line.extend_from_slice(b"\n")?;
    Ok(())
}

/// Appends the last line.
pub fn append_end(line: &mut Vec<u8>) -> Result<(), AllocError>
    ensures { OnOk result (line.new.items ≡ line.old.items ++ end_text) }
{
    line.extend_from_slice(b"end\n")?;
    Ok(())
}

/// Appends numbers, each with a blank in front of it.
fn append_numbers(line: &mut Vec<u8>, numbers: &[u32]) -> Result<(), AllocError>
    ensures { OnOk result (line.new.items ≡ line.old.items ++ numbers_text numbers.now) }
{
    for number in numbers {
        line.extend_from_slice(b" ")?;
        append_number(line, *number)?;
    }
    Ok(())
}

/// Appends a number.
fn append_number(line: &mut Vec<u8>, number: u32) -> Result<(), AllocError>
    ensures { OnOk result (line.new.items ≡ line.old.items ++ decimal number) }
{
    let mut buffer = Buffer::new();
    line.extend_from_slice(buffer.format(number).as_bytes())?;
    Ok(())
}
