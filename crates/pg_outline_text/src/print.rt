//! Outlines, printed in their canonical text, one item on each line.

ghost use Rattle.std.specs.Prelude.{◌≡◌, ◌-◌, ◌<◌, ◌≤◌, ◌++◌, [], length, decimal, codes, slice_get, slice_index_or, IfOk, IfSome, OnOk};
ghost use Rattle.std.specs.List.{flat_map};
ghost use Rattle.pg_assertion.specs.Formula.{plain, AllAtoms};
ghost use Rattle.pg_assertion.specs.Atom.{NamesDeclared, CrashDeclared};
ghost use Rattle.pg_assertion_text.specs.Spelling.{spell_atom, spell_crash};
ghost use Rattle.pg_program.specs.Program.{thread_of};
ghost use Rattle.pg_program.specs.declared.name_table.ScalarKind.TheVariants.{Auxiliary};
ghost use Rattle.pg_outline.specs.Made.{IsOutline};
ghost use Rattle.pg_outline_text.specs.Limits.{known_version};
ghost use Rattle.pg_outline_text.specs.Spelling as spec;
ghost use Rattle.pg_outline_text.specs.SpellingLaws.{IsWritableOutline};
ghost use Rattle.pg_outline_text.specs.Text.{StandsFor};

use itoa::Buffer;
use pg_assertion::{CrashAtom, Formula, ViewAtom};
use pg_assertion_text::{print_crash, print_formula};
use pg_outline::Outline;
use pg_program::{NameKind, Names};
use pg_program_text::print_thread;
use std::alloc::{AllocError, Global};

/// The canonical text of an outline of version 1; one of version 2 has no text yet. Within the limits of a text it stands for this
/// outline again, so that `parse_outline` gives it back.
pub fn print_outline(alloc: Global, o: &Outline) -> Result<Vec<u8>, AllocError>
    requires { o.now.program.names.version ≡ known_version }
    ensures text { IfOk result (λ v. v.items ≡ spec.spell_outline o.now) }
    ensures again { IsWritableOutline o.now → StandsFor (spec.spell_outline o.now) o.now }
{
    let mut text = Vec::new(alloc);
    put_outline(o, &mut text)?;
    Ok(text)
}

/// Appends the canonical text of an outline.
fn put_outline(o: &Outline, into: &mut Vec<u8>) -> Result<(), AllocError>
    ensures text { OnOk result (into.new.items ≡ into.old.items ++ spec.spell_outline o.now) }
    ensures made { IsOutline o.now }
{
    let names = o.program().names();
    put_head(names, into)?;
    put_pre(o.pre(), names, into)?;
    put_crash(o.crash(), names, into)?;
    put_threads(o, into)
}

/// Appends the version, the domain and the declarations.
#[tactic(auto, unfolding(crate::specs::Spelling::head_lines))]
fn put_head(names: &Names, into: &mut Vec<u8>) -> Result<(), AllocError>
    ensures { OnOk result (into.new.items ≡ into.old.items ++ spec.head_lines names.now) }
{
    put_version(into)?;
    put_domain(names.domain(), into)?;
    put_locations(names, into)?;
    put_scalars(names, into)
}

/// Appends the line of the version.
#[tactic(auto, unfolding(crate::specs::Spelling::version_line))]
fn put_version(into: &mut Vec<u8>) -> Result<(), AllocError>
    ensures { OnOk result (into.new.items ≡ into.old.items ++ spec.version_line) }
{
    into.extend_from_slice(b"pierogi 1;\n")
}

/// Appends the line of the size of the domain.
#[tactic(auto, unfolding(crate::specs::Spelling::domain_line))]
fn put_domain(size: u32, into: &mut Vec<u8>) -> Result<(), AllocError>
    ensures { OnOk result (into.new.items ≡ into.old.items ++ spec.domain_line size) }
{
    into.extend_from_slice(b"values ")?;
    put_number(size, into)?;
    into.extend_from_slice(b";\n")
}

/// Appends a line for each location.
fn put_locations(names: &Names, into: &mut Vec<u8>) -> Result<(), AllocError>
    ensures { OnOk result (into.new.items ≡ into.old.items ++ spec.location_lines names.now.locations) }
{
    'locations: for x in 0..names.locations() {
        put_location(names, x, into)?;
    }
    Ok(())
}

/// Appends the line of a location.
fn put_location(names: &Names, x: u8, into: &mut Vec<u8>) -> Result<(), AllocError>
    requires { x < length names.now.locations }
    ensures { OnOk result (IfSome (slice_get names.now.locations x) (λ l. into.new.items ≡ into.old.items ++ spec.location_line l.name l.init)) }
{
    let name = names.location_name(x).as_bytes();
    put_entry(b"location ", name, b" = ", names.init(x), into)
}

/// Appends a line of a word, a name, a word between, and a number.
fn put_entry(
    word: &[u8],
    name: &[u8],
    between: &[u8],
    number: u32,
    into: &mut Vec<u8>,
) -> Result<(), AllocError>
    ensures { OnOk result (into.new.items ≡ into.old.items ++ (word.now ++ (name.now ++ (between.now ++ (decimal number ++ codes ";\n"))))) }
{
    into.extend_from_slice(word)?;
    into.extend_from_slice(name)?;
    into.extend_from_slice(between)?;
    put_number(number, into)?;
    into.extend_from_slice(b";\n")
}

/// Appends a line for each scalar.
fn put_scalars(names: &Names, into: &mut Vec<u8>) -> Result<(), AllocError>
    ensures { OnOk result (into.new.items ≡ into.old.items ++ flat_map spec.scalar_line names.now.scalars) }
{
    'scalars: for r in 0..names.scalars() {
        put_scalar(names, r, into)?;
    }
    Ok(())
}

/// Appends the line of a scalar.
#[tactic(auto, using(crate::proofs::SpellingParts::register_line, crate::proofs::SpellingParts::auxiliary_line))]
fn put_scalar(names: &Names, r: u8, into: &mut Vec<u8>) -> Result<(), AllocError>
    requires { r < length names.now.scalars }
    ensures { OnOk result (into.new.items ≡ into.old.items ++ spec.scalar_line (slice_index_or names.now.scalars r ([], Auxiliary))) }
{
    let name = names.scalar_name(r).as_bytes();
    match names.kind(r) {
        NameKind::Register { owner } => put_entry(b"register ", name, b" of ", owner, into),
        NameKind::Auxiliary => put_auxiliary(name, into),
        NameKind::Location { .. } | NameKind::LocationWith { .. } => unreachable!(),
    }
}

/// Appends the line of an auxiliary.
fn put_auxiliary(name: &[u8], into: &mut Vec<u8>) -> Result<(), AllocError>
    ensures { OnOk result (into.new.items ≡ into.old.items ++ spec.scalar_line (name.now, Auxiliary)) }
{
    into.extend_from_slice(b"auxiliary ")?;
    into.extend_from_slice(name)?;
    into.extend_from_slice(b";\n")
}

/// Whether a formula is `true`.
fn is_true<T>(f: &Formula<T>) -> bool
    ensures { result ≡ spec.is_top (plain f.now) }
{
    matches!(f, Formula::True)
}

/// Appends the line of the precondition, unless it is `true`.
#[tactic(auto, unfolding(crate::specs::Spelling::given_line))]
fn put_pre(f: &Formula<ViewAtom>, names: &Names, into: &mut Vec<u8>) -> Result<(), AllocError>
    requires { AllAtoms (NamesDeclared names.now) (plain f.now) }
    ensures { OnOk result (into.new.items ≡ into.old.items ++ spec.given_line (codes "pre ") (spell_atom names.now) (plain f.now)) }
{
    if is_true(f) {
        return Ok(());
    }
    into.extend_from_slice(b"pre ")?;
    print_formula(f, names, into)?;
    into.extend_from_slice(b";\n")
}

/// Appends the line of the crash formula, unless it is `true`.
#[tactic(auto, unfolding(crate::specs::Spelling::given_line))]
fn put_crash(f: &Formula<CrashAtom>, names: &Names, into: &mut Vec<u8>) -> Result<(), AllocError>
    requires { AllAtoms (CrashDeclared names.now) (plain f.now) }
    ensures { OnOk result (into.new.items ≡ into.old.items ++ spec.given_line (codes "crash ") (spell_crash names.now) (plain f.now)) }
{
    if is_true(f) {
        return Ok(());
    }
    into.extend_from_slice(b"crash ")?;
    print_crash(f, names, into)?;
    into.extend_from_slice(b";\n")
}

/// Appends the lines of the threads.
fn put_threads(o: &Outline, into: &mut Vec<u8>) -> Result<(), AllocError>
    ensures { OnOk result (into.new.items ≡ into.old.items ++ spec.threads_lines o.now.program.names 1 o.now.program.threads o.now.notes) }
{
    'threads: for i in 0..o.program().threads() {
        put_thread(o, i + 1, into)?;
    }
    Ok(())
}

/// Appends the lines of the thread with this number.
fn put_thread(o: &Outline, k: u8, into: &mut Vec<u8>) -> Result<(), AllocError>
    requires { (1 ≤ k) × (k ≤ length o.now.program.threads) }
    ensures { OnOk result (into.new.items ≡ into.old.items ++ spec.thread_lines o.now.program.names k (thread_of o.now.program k) (slice_index_or o.now.notes (k - 1) [])) }
{
    let program = o.program();
    into.extend_from_slice(b"thread ")?;
    put_number(u32::from(k), into)?;
    into.extend_from_slice(b" {\n")?;
    print_thread(program.thread(k), o.thread_notes(k), program.names(), into)?;
    into.extend_from_slice(b"}\n")
}

/// Appends a number.
fn put_number(n: u32, into: &mut Vec<u8>) -> Result<(), AllocError>
    ensures { OnOk result (into.new.items ≡ into.old.items ++ decimal n) }
{
    into.extend_from_slice(Buffer::new().format(n).as_bytes())
}
