//! Formulas, printed in their canonical spelling: one blank on each side of a sign, none after `!`, and brackets just
//! where the formula would be read otherwise.

ghost use Rattle.std.specs.Prelude.{◌≡◌, ◌<◌, ◌++◌, [], ◌∷◌, length, decimal, codes, OnOk, OnErr};
ghost use Rattle.pg_assertion.specs.Formula.{plain, AllAtoms};
ghost use Rattle.pg_assertion.specs.Atom.{NamesDeclared, CrashDeclared};
ghost use Rattle.pg_assertion_text.specs.Spelling as spec;
ghost use Rattle.pg_assertion_text.specs.Parts.{rule};
ghost use Rattle.pg_assertion_text.specs.ReadAgain.{IsReadAgain, IsCrashReadAgain};

use itoa::Buffer;
use pg_assertion::{CrashAtom, Formula, ViewAtom};
use pg_program::Names;
use std::alloc::AllocError;

/// What a part of a formula has to be in the grammar.
#[derive(Clone, Copy)]
enum Part {
    Unary,
    Conj,
    Disj,
}

/// Appends the canonical spelling of an assertion. Its locations and scalars have to be declared. Want of memory leaves
/// `into` as it was. Reading what was printed gives the formula again.
pub fn print_formula(
    f: &Formula<ViewAtom>,
    names: &Names,
    into: &mut Vec<u8>,
) -> Result<(), AllocError>
    requires { AllAtoms (NamesDeclared names.now) (plain f.now) }
    ensures ok { OnOk result (into.new.items ≡ into.old.items ++ spec.spell (spec.spell_atom names.now) (plain f.now)) }
    ensures err { OnErr result (into.new.items ≡ into.old.items) }
    ensures again { IsReadAgain names.now (plain f.now) }
{
    print(f, names, into)
}

/// Appends the canonical spelling of a crash formula. Its locations and scalars have to be declared. Want of memory
/// leaves `into` as it was. Reading what was printed gives the formula again.
pub fn print_crash(
    f: &Formula<CrashAtom>,
    names: &Names,
    into: &mut Vec<u8>,
) -> Result<(), AllocError>
    requires { AllAtoms (CrashDeclared names.now) (plain f.now) }
    ensures ok { OnOk result (into.new.items ≡ into.old.items ++ spec.spell (spec.spell_crash names.now) (plain f.now)) }
    ensures err { OnErr result (into.new.items ≡ into.old.items) }
    ensures again { IsCrashReadAgain names.now (plain f.now) }
{
    print(f, names, into)
}

/// Appends the spelling of a formula, or nothing.
fn print<T: PrintAtom>(f: &Formula<T>, names: &Names, into: &mut Vec<u8>) -> Result<(), AllocError>
    requires { AllAtoms (T.declared names.now) (plain f.now) }
    ensures ok { OnOk result (into.new.items ≡ into.old.items ++ spec.spell (T.spelled names.now) (plain f.now)) }
    ensures err { OnErr result (into.new.items ≡ into.old.items) }
{
    let mut text = Vec::new(*into.allocator());
    spell(f, names, &mut text)?;
    into.extend_from_slice(&text)
}

/// Appends the spelling of a formula.
#[cycle(print)]
#[tactic(auto, unfolding(crate::specs::Spelling::spell))]
fn spell<T: PrintAtom>(f: &Formula<T>, names: &Names, into: &mut Vec<u8>) -> Result<(), AllocError>
    requires { AllAtoms (T.declared names.now) (plain f.now) }
    ensures { OnOk result (into.new.items ≡ into.old.items ++ spec.spell (T.spelled names.now) (plain f.now)) }
{
    match f {
        Formula::True => into.extend_from_slice(b"true"),
        Formula::False => into.extend_from_slice(b"false"),
        Formula::Atom(a) => a.print(names, into),
        Formula::Not(f) => {
            into.extend_from_slice(b"!")?;
            spell_part(Part::Unary, f.get(), names, into)
        }
        Formula::And(f, g) => {
            spell_part(Part::Conj, f.get(), names, into)?;
            into.extend_from_slice(b" & ")?;
            spell_part(Part::Unary, g.get(), names, into)
        }
        Formula::Or(f, g) => {
            spell_part(Part::Disj, f.get(), names, into)?;
            into.extend_from_slice(b" | ")?;
            spell_part(Part::Conj, g.get(), names, into)
        }
        Formula::Implies(f, g) => {
            spell_part(Part::Disj, f.get(), names, into)?;
            into.extend_from_slice(b" -> ")?;
            spell(g.get(), names, into)
        }
    }
}

/// Appends the spelling of a part of a formula, in brackets where it needs them.
#[cycle(print)]
fn spell_part<T: PrintAtom>(
    part: Part,
    f: &Formula<T>,
    names: &Names,
    into: &mut Vec<u8>,
) -> Result<(), AllocError>
    requires { AllAtoms (T.declared names.now) (plain f.now) }
    ensures { OnOk result (into.new.items ≡ into.old.items ++ spec.in_brackets (spec.is_loose (rule part) (plain f.now)) (spec.spell (T.spelled names.now) (plain f.now))) }
{
    if is_loose(part, f) {
        into.extend_from_slice(b"(")?;
        spell(f, names, into)?;
        into.extend_from_slice(b")")
    } else {
        spell(f, names, into)
    }
}

/// Whether a part needs brackets.
fn is_loose<T>(part: Part, f: &Formula<T>) -> bool
    ensures { result ≡ spec.is_loose (rule part) (plain f.now) }
{
    match f {
        Formula::And(_, _) => matches!(part, Part::Unary),
        Formula::Or(_, _) => !matches!(part, Part::Disj),
        Formula::Implies(_, _) => true,
        Formula::True | Formula::False | Formula::Atom(_) | Formula::Not(_) => false,
    }
}

/// A kind of atom that formulas are printed over.
trait PrintAtom {
    ghost use Rattle.std.specs.Prelude.{ℕ, List};
    ghost use Rattle.pg_program.specs.NameTable.{NameTable};

    /// Its spelling.
    ghost spelled: { NameTable → Self → List ℕ };

    /// Its names are declared.
    ghost declared: { NameTable → Self → Type 0 };

    /// Appends the spelling.
    fn print(&self, names: &Names, into: &mut Vec<u8>) -> Result<(), AllocError>
        requires { declared names.now self.now }
        ensures { OnOk result (into.new.items ≡ into.old.items ++ spelled names.now self.now) };
}

impl PrintAtom for ViewAtom {
    ghost use Rattle.pg_assertion_text.specs.Spelling.{spell_atom};
    ghost use Rattle.pg_assertion.specs.Atom.{NamesDeclared};

    ghost spelled = { spell_atom };

    ghost declared = { NamesDeclared };

    fn print(&self, names: &Names, into: &mut Vec<u8>) -> Result<(), AllocError> {
        match *self {
            ViewAtom::Scalar { r, k } => equation(names.scalar_name(r), u32::from(k), into),
            ViewAtom::Last { x, v } => value(b"L(", x, v, names, into),
            ViewAtom::Read { t, x, v } => read(b"R(", t, x, v, names, into),
            ViewAtom::Persist { x, v } => value(b"P(", x, v, names, into),
            ViewAtom::Async { t, x, v } => read(b"A(", t, x, v, names, into),
            ViewAtom::Then { t, x, v, y, w } => two_reads(b"C(", t, (x, v), (y, w), names, into),
            ViewAtom::Newest { t, x } => place(b"N(", t, x, names, into),
            ViewAtom::Ordered { t, x } => place(b"O(", t, x, names, into),
            ViewAtom::Fenced { t, x } => place(b"F(", t, x, names, into),
        }
    }
}

impl PrintAtom for CrashAtom {
    ghost use Rattle.pg_assertion_text.specs.Spelling.{spell_crash};
    ghost use Rattle.pg_assertion.specs.Atom.{CrashDeclared};

    ghost spelled = { spell_crash };

    ghost declared = { CrashDeclared };

    fn print(&self, names: &Names, into: &mut Vec<u8>) -> Result<(), AllocError> {
        match *self {
            CrashAtom::Scalar { r, k } => equation(names.scalar_name(r), k, into),
            CrashAtom::Location { x, v } => equation(names.location_name(x), v, into),
        }
    }
}

/// Appends `name = k`.
fn equation(name: &str, k: u32, into: &mut Vec<u8>) -> Result<(), AllocError>
    ensures { OnOk result (into.new.items ≡ into.old.items ++ spec.equation name.now k) }
{
    into.extend_from_slice(name.as_bytes())?;
    into.extend_from_slice(b" = ")?;
    number(k, into)
}

/// Appends `x,v)`.
fn cell(x: u8, v: u8, names: &Names, into: &mut Vec<u8>) -> Result<(), AllocError>
    requires { x < length names.now.locations }
    ensures { OnOk result (into.new.items ≡ into.old.items ++ spec.arguments (spec.location_name names.now x ∷ decimal v ∷ [])) }
{
    into.extend_from_slice(names.location_name(x).as_bytes())?;
    into.extend_from_slice(b",")?;
    number(u32::from(v), into)?;
    into.extend_from_slice(b")")
}

/// Appends the letter and `(x,v)`.
fn value(opening: &[u8], x: u8, v: u8, names: &Names, into: &mut Vec<u8>) -> Result<(), AllocError>
    requires { x < length names.now.locations }
    ensures { OnOk result (into.new.items ≡ into.old.items ++ (opening.now ++ spec.arguments (spec.location_name names.now x ∷ decimal v ∷ []))) }
{
    into.extend_from_slice(opening)?;
    cell(x, v, names, into)
}

/// Appends the letter and `(t,`.
fn of_thread(opening: &[u8], t: u8, into: &mut Vec<u8>) -> Result<(), AllocError>
    ensures { OnOk result (into.new.items ≡ into.old.items ++ (opening.now ++ (decimal t ++ codes ","))) }
{
    into.extend_from_slice(opening)?;
    thread(t, into)
}

/// Appends the letter and `(t,x,v)`.
fn read(
    opening: &[u8],
    t: u8,
    x: u8,
    v: u8,
    names: &Names,
    into: &mut Vec<u8>,
) -> Result<(), AllocError>
    requires { x < length names.now.locations }
    ensures { OnOk result (into.new.items ≡ into.old.items ++ (opening.now ++ spec.arguments (decimal t ∷ spec.location_name names.now x ∷ decimal v ∷ []))) }
{
    of_thread(opening, t, into)?;
    cell(x, v, names, into)
}

/// Appends the letter and `(t,x)`.
fn place(opening: &[u8], t: u8, x: u8, names: &Names, into: &mut Vec<u8>) -> Result<(), AllocError>
    requires { x < length names.now.locations }
    ensures { OnOk result (into.new.items ≡ into.old.items ++ (opening.now ++ spec.arguments (decimal t ∷ spec.location_name names.now x ∷ []))) }
{
    of_thread(opening, t, into)?;
    into.extend_from_slice(names.location_name(x).as_bytes())?;
    into.extend_from_slice(b")")
}

/// Appends the letter and `(t,x,v,y,w)`.
fn two_reads(
    opening: &[u8],
    t: u8,
    first: (u8, u8),
    second: (u8, u8),
    names: &Names,
    into: &mut Vec<u8>,
) -> Result<(), AllocError>
    requires first { first.0 < length names.now.locations }
    requires second { second.0 < length names.now.locations }
    ensures { OnOk result (into.new.items ≡ into.old.items ++ (opening.now ++ spec.arguments (decimal t ∷ spec.location_name names.now first.0 ∷ decimal first.1 ∷ spec.location_name names.now second.0 ∷ decimal second.1 ∷ []))) }
{
    of_thread(opening, t, into)?;
    into.extend_from_slice(names.location_name(first.0).as_bytes())?;
    into.extend_from_slice(b",")?;
    thread(first.1, into)?;
    cell(second.0, second.1, names, into)
}

/// Appends `n,`.
fn thread(n: u8, into: &mut Vec<u8>) -> Result<(), AllocError>
    ensures { OnOk result (into.new.items ≡ into.old.items ++ (decimal n ++ codes ",")) }
{
    number(u32::from(n), into)?;
    into.extend_from_slice(b",")
}

/// Appends a number.
fn number(n: u32, into: &mut Vec<u8>) -> Result<(), AllocError>
    ensures { OnOk result (into.new.items ≡ into.old.items ++ decimal n) }
{
    into.extend_from_slice(Buffer::new().format(n).as_bytes())
}
