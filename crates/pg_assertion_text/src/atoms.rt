//! Atoms, read from their tokens.

ghost use Rattle.std.specs.Prelude.{◌≡◌};
ghost use Rattle.pg_lex.specs.Lex.{lexeme};
ghost use Rattle.pg_assertion_text.specs.Atoms as spec;
ghost use Rattle.pg_assertion_text.specs.Input.{Does};
ghost use Rattle.pg_assertion_text.specs.Words.{IsText};

use crate::tokens::{Tokens, named, refused, unexpected};
use pg_assertion::{CrashAtom, RawAtom};
use pg_lex::{Sign, TextFault, TextKind, Token, TokenKind};
use pg_program::{NameRef, Names};

/// `= k`
#[tactic(auto, unfolding(crate::specs::Atoms::equals))]
fn equals(tokens: &mut Tokens<'_>) -> Result<u32, TextFault>
    ensures { Does (λ k. k) (spec.equals tokens.old) result tokens.new }
{
    tokens.expect(Sign::Equal)?;
    tokens.number()
}

/// `x,v`
#[tactic(auto, unfolding(crate::specs::Atoms::cell))]
fn cell(tokens: &mut Tokens<'_>, names: &Names) -> Result<(u8, u32), TextFault>
    ensures { Does (λ c. c) (spec.cell names.now tokens.old) result tokens.new }
{
    let x = tokens.location(names)?;
    tokens.expect(Sign::Comma)?;
    let v = tokens.number()?;
    Ok((x, v))
}

/// `t,`
#[tactic(auto, unfolding(crate::specs::Atoms::thread))]
fn thread(tokens: &mut Tokens<'_>) -> Result<u32, TextFault>
    ensures { Does (λ t. t) (spec.thread tokens.old) result tokens.new }
{
    let t = tokens.number()?;
    tokens.expect(Sign::Comma)?;
    Ok(t)
}

/// `(x,v)`
#[tactic(auto, unfolding(crate::specs::Atoms::last))]
fn last(tokens: &mut Tokens<'_>, names: &Names) -> Result<(u8, u32), TextFault>
    ensures { Does (λ c. c) (spec.last names.now tokens.old) result tokens.new }
{
    tokens.expect(Sign::Open)?;
    let cell = cell(tokens, names)?;
    tokens.expect(Sign::Close)?;
    Ok(cell)
}

/// `(t,x)`
#[tactic(auto, unfolding(crate::specs::Atoms::seen))]
fn seen(tokens: &mut Tokens<'_>, names: &Names) -> Result<(u32, u8), TextFault>
    ensures { Does (λ a. a) (spec.seen names.now tokens.old) result tokens.new }
{
    tokens.expect(Sign::Open)?;
    let t = thread(tokens)?;
    let x = tokens.location(names)?;
    tokens.expect(Sign::Close)?;
    Ok((t, x))
}

/// `(t,x,v)`
#[tactic(auto, unfolding(crate::specs::Atoms::read))]
fn read(tokens: &mut Tokens<'_>, names: &Names) -> Result<(u32, (u8, u32)), TextFault>
    ensures { Does (λ a. a) (spec.read names.now tokens.old) result tokens.new }
{
    tokens.expect(Sign::Open)?;
    let t = thread(tokens)?;
    let cell = cell(tokens, names)?;
    tokens.expect(Sign::Close)?;
    Ok((t, cell))
}

/// `(t,x,v,y,w)`
#[tactic(auto, unfolding(crate::specs::Atoms::two_reads))]
fn two_reads(
    tokens: &mut Tokens<'_>,
    names: &Names,
) -> Result<(u32, (u8, u32), (u8, u32)), TextFault>
    ensures { Does (λ a. a) (spec.two_reads names.now tokens.old) result tokens.new }
{
    tokens.expect(Sign::Open)?;
    let t = thread(tokens)?;
    let first = cell(tokens, names)?;
    tokens.expect(Sign::Comma)?;
    let second = cell(tokens, names)?;
    tokens.expect(Sign::Close)?;
    Ok((t, first, second))
}

/// What follows the letter of an atom, which stands at this place.
fn lettered(
    tokens: &mut Tokens<'_>,
    names: &Names,
    place: u32,
    letter: u8,
) -> Result<RawAtom, TextFault>
    ensures { Does (λ a. a) (spec.lettered names.now place letter tokens.old) result tokens.new }
{
    match letter {
        b'L' => {
            let (x, v) = last(tokens, names)?;
            Ok(RawAtom::Last { x, v })
        }
        b'P' => {
            let (x, v) = last(tokens, names)?;
            Ok(RawAtom::Persist { x, v })
        }
        b'R' => {
            let (t, (x, v)) = read(tokens, names)?;
            Ok(RawAtom::Read { t, x, v })
        }
        b'A' => {
            let (t, (x, v)) = read(tokens, names)?;
            Ok(RawAtom::Async { t, x, v })
        }
        b'C' => {
            let (t, (x, v), (y, w)) = two_reads(tokens, names)?;
            Ok(RawAtom::Then { t, x, v, y, w })
        }
        b'N' => {
            let (t, x) = seen(tokens, names)?;
            Ok(RawAtom::Newest { t, x })
        }
        b'O' => {
            let (t, x) = seen(tokens, names)?;
            Ok(RawAtom::Ordered { t, x })
        }
        b'F' => {
            let (t, x) = seen(tokens, names)?;
            Ok(RawAtom::Fenced { t, x })
        }
        _ => Err(unexpected(place)),
    }
}

/// The scalar that a token names, or the fault of a token that names none.
fn scalar(names: &Names, token: &Token<'_>) -> Result<u8, TextFault>
    requires { IsText (lexeme token.now) }
    ensures { result ≡ spec.scalar_at names.now (lexeme token.now) }
{
    match named(names, token) {
        Ok(NameRef::Scalar(r)) => Ok(r),
        Ok(NameRef::Location(_)) => Err(unexpected(token.place)),
        Err(kind) => Err(refused(token.place, kind)),
    }
}

/// A kind of atom that formulas are read over.
pub trait ReadAtom: Drop {
    ghost use Rattle.pg_lex.specs.Lex.{Cursor};
    ghost use Rattle.pg_program.specs.NameTable.{NameTable};
    ghost use Rattle.pg_assertion_text.specs.Input.{Parser, Does};
    ghost use Rattle.pg_assertion_text.specs.Laws.{FindsAtoms, ReadsAtoms, BeginsAtoms};

    /// How it is read.
    ghost read: { NameTable → Parser Self };

    /// Its grammar: from one place of a text to another there stands this atom.
    ghost stands: { NameTable → Cursor → Self → Cursor → Type 0 };

    /// Reads an atom. After a fault the tokens stand somewhere in it.
    fn read(tokens: &mut Tokens<'_>, names: &Names) -> Result<Self, TextFault>
        ensures { Does (λ a. a) (read names.now tokens.old) result tokens.new };

    /// Its reader and its grammar agree. The call does nothing: its contract is the law that formulas over such
    /// atoms rest on.
    fn agrees()
        ensures found { FindsAtoms read stands }
        ensures again { ReadsAtoms read stands }
        ensures begins { BeginsAtoms stands };
}

impl ReadAtom for RawAtom {
    ghost use Rattle.pg_assertion_text.specs.Atoms.{raw_atom, IsRaw};

    ghost read = { raw_atom };

    ghost stands = { IsRaw };

    fn agrees() {}

    #[tactic(auto, unfolding(crate::specs::Atoms::raw_atom))]
    fn read(tokens: &mut Tokens<'_>, names: &Names) -> Result<RawAtom, TextFault> {
        let token = tokens.next()?;
        if let TokenKind::Letter(letter) = token.kind {
            tokens.node(token.place)?;
            return lettered(tokens, names, token.place, letter);
        }
        let r = scalar(names, &token)?;
        tokens.node(token.place)?;
        let k = equals(tokens)?;
        Ok(RawAtom::Scalar { r, k })
    }
}

impl ReadAtom for CrashAtom {
    ghost use Rattle.pg_assertion_text.specs.Atoms.{crash_atom, IsCrash};

    ghost read = { crash_atom };

    ghost stands = { IsCrash };

    fn agrees() {}

    #[tactic(auto, unfolding(crate::specs::Atoms::crash_atom))]
    fn read(tokens: &mut Tokens<'_>, names: &Names) -> Result<CrashAtom, TextFault> {
        let token = tokens.next()?;
        let name = match named(names, &token) {
            Ok(name) => name,
            Err(kind) => return Err(refused(token.place, kind)),
        };
        tokens.node(token.place)?;
        let k = equals(tokens)?;
        match name {
            NameRef::Scalar(r) => Ok(CrashAtom::Scalar { r, k }),
            NameRef::Location(x) => Ok(CrashAtom::Location { x, v: k }),
        }
    }
}
