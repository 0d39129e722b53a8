//! What is given of the fresh state: each scalar is 0; each location has its declared value as its last one, which each thread may
//! read alone; and no other value may persist.

ghost use Rattle.std.specs.Prelude.{◌≡◌, ◌++◌, ◌<◌, ◌≤◌, length, OnOk, slice_index};
ghost use Rattle.std.specs.List.{flat_map};
ghost use Rattle.pg_program.specs.NameTable.{initial};
ghost use Rattle.pg_program.specs.Limits.{largest_domain_2};
ghost use Rattle.pg_assertion.specs.Atom.{NamesDeclared};
ghost use Rattle.pg_report.specs.Obligations.{givens, given_line};
ghost use Rattle.pg_report.specs.Fresh as spec;

use crate::words::append_view_atom;
use pg_assertion::ViewAtom;
use pg_obligations::Obligation;
use pg_outline::Outline;
use pg_program::{Names, Program};
use std::alloc::AllocError;

/// Appends a line for each given of the fresh state.
pub fn append_fresh(o: &Outline, text: &mut Vec<u8>) -> Result<(), AllocError>
    ensures { OnOk result (text.new.items ≡ text.old.items ++ flat_map (given_line o.now.program.names) (givens o.now Obligation.Fresh)) }
{
    append_program(o.program(), text)
}

/// Appends the lines of the fresh state of a program.
fn append_program(p: &Program, text: &mut Vec<u8>) -> Result<(), AllocError>
    ensures { OnOk result (text.new.items ≡ text.old.items ++ spec.fresh_lines p.now) }
{
    append_scalars(p.names(), text)?;
    append_lasts(p, text)?;
    append_newest(p, text)?;
    append_absent(p, text)
}

/// Appends that each scalar is 0.
fn append_scalars(names: &Names, text: &mut Vec<u8>) -> Result<(), AllocError>
    ensures { OnOk result (text.new.items ≡ text.old.items ++ spec.scalar_lines names.now) }
{
    'scalars: for r in 0..names.scalars() {
        append_true(ViewAtom::Scalar { r, k: 0 }, names, text)?;
    }
    Ok(())
}

/// Appends the last value of each location.
fn append_lasts(p: &Program, text: &mut Vec<u8>) -> Result<(), AllocError>
    ensures { OnOk result (text.new.items ≡ text.old.items ++ spec.last_lines p.now.names) }
{
    let names = p.names();
    'locations: for x in 0..names.locations() {
        append_true(
            ViewAtom::Last {
                x,
                v: first_value(p, x),
            },
            names,
            text,
        )?;
    }
    Ok(())
}

/// The declared value of a location.
fn first_value(p: &Program, x: u8) -> u8
    requires { x < length p.now.names.locations }
    ensures { result ≡ slice_index (initial p.now.names) x }
{
    p.names().init(x) as u8
}

/// Appends that each thread may read the last value alone.
fn append_newest(p: &Program, text: &mut Vec<u8>) -> Result<(), AllocError>
    ensures { OnOk result (text.new.items ≡ text.old.items ++ spec.newest_lines p.now) }
{
    'threads: for t in 1..p.threads() + 1 {
        append_newest_of(p.names(), t, text)?;
    }
    Ok(())
}

fn append_newest_of(names: &Names, t: u8, text: &mut Vec<u8>) -> Result<(), AllocError>
    ensures { OnOk result (text.new.items ≡ text.old.items ++ spec.own_newest_lines names.now t) }
{
    'locations: for x in 0..names.locations() {
        append_true(ViewAtom::Newest { t, x }, names, text)?;
    }
    Ok(())
}

/// Appends that no other value may persist.
fn append_absent(p: &Program, text: &mut Vec<u8>) -> Result<(), AllocError>
    ensures { OnOk result (text.new.items ≡ text.old.items ++ spec.absent_lines p.now.names) }
{
    'locations: for x in 0..p.names().locations() {
        append_absent_of(p.names(), x, first_value(p, x), text)?;
    }
    Ok(())
}

fn append_absent_of(names: &Names, x: u8, first: u8, text: &mut Vec<u8>) -> Result<(), AllocError>
    requires location { x < length names.now.locations }
    requires domain { names.now.domain ≤ largest_domain_2 }
    requires first { first ≡ slice_index (initial names.now) x }
    ensures { OnOk result (text.new.items ≡ text.old.items ++ spec.absent_lines_of names.now x) }
{
    'values: for v in 0..names.domain() as u8 {
        append_absent_value(names, x, v, first, text)?;
    }
    Ok(())
}

/// Appends that a value may not persist, unless it is the location's first one.
fn append_absent_value(
    names: &Names,
    x: u8,
    v: u8,
    first: u8,
    text: &mut Vec<u8>,
) -> Result<(), AllocError>
    requires location { x < length names.now.locations }
    requires first { first ≡ slice_index (initial names.now) x }
    ensures { OnOk result (text.new.items ≡ text.old.items ++ spec.absent_line names.now x v) }
{
    if v == first {
        return Ok(());
    }
    append_false(ViewAtom::Persist { x, v }, names, text)
}

/// Appends the line that an atom is true.
#[tactic(auto, unfolding(pg_assertion_text::specs::Spelling::spell))]
fn append_true(atom: ViewAtom, names: &Names, text: &mut Vec<u8>) -> Result<(), AllocError>
    requires { NamesDeclared names.now atom }
    ensures { OnOk result (text.new.items ≡ text.old.items ++ spec.true_line names.now atom) }
{
    text.extend_from_slice(b"given ")?;
    append_view_atom(atom, names, text)?;
    text.extend_from_slice(b"\n")
}

/// Appends the line that an atom is not true.
#[tactic(auto, unfolding(pg_assertion_text::specs::Spelling::spell))]
fn append_false(atom: ViewAtom, names: &Names, text: &mut Vec<u8>) -> Result<(), AllocError>
    requires { NamesDeclared names.now atom }
    ensures { OnOk result (text.new.items ≡ text.old.items ++ spec.false_line names.now atom) }
{
    text.extend_from_slice(b"given ")?;
    text.extend_from_slice(b"!")?;
    append_view_atom(atom, names, text)?;
    text.extend_from_slice(b"\n")
}
