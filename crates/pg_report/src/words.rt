//! Words, numbers and atoms of a line.

ghost use Rattle.std.specs.Prelude.{◌≡◌, ◌++◌, OnOk, codes, decimal};
ghost use Rattle.pg_assertion.specs.Atom.{NamesDeclared};
ghost use Rattle.pg_assertion_text.specs.Spelling.{spell_atom};

use itoa::Buffer;
use pg_assertion::{Formula, ViewAtom};
use pg_assertion_text::print_formula;
use pg_program::Names;
use std::alloc::AllocError;

/// Appends a number.
pub fn append_number(number: u32, text: &mut Vec<u8>) -> Result<(), AllocError>
    ensures { OnOk result (text.new.items ≡ text.old.items ++ decimal number) }
{
    text.extend_from_slice(Buffer::new().format(number).as_bytes())
}

/// Appends a label and a number.
pub fn append_counted(label: &[u8], number: u32, text: &mut Vec<u8>) -> Result<(), AllocError>
    ensures { OnOk result (text.new.items ≡ text.old.items ++ (label.now ++ decimal number)) }
{
    text.extend_from_slice(label)?;
    append_number(number, text)
}

/// Appends a line of a label and a number.
pub fn append_line(label: &[u8], number: u32, text: &mut Vec<u8>) -> Result<(), AllocError>
    ensures { OnOk result (text.new.items ≡ text.old.items ++ (label.now ++ (decimal number ++ codes "\n"))) }
{
    append_counted(label, number, text)?;
    text.extend_from_slice(b"\n")
}

/// Appends an atom.
#[tactic(auto, unfolding(pg_assertion_text::specs::Spelling::spell))]
pub fn append_view_atom(atom: ViewAtom, names: &Names, text: &mut Vec<u8>) -> Result<(), AllocError>
    requires { NamesDeclared names.now atom }
    ensures { OnOk result (text.new.items ≡ text.old.items ++ spell_atom names.now atom) }
{
    print_formula(&Formula::Atom(atom), names, text)
}
