//! Formulas and crash formulas, read at a lexer's place.

ghost use Rattle.std.specs.Prelude.{◌≡◌, IfOk, OnErr};
ghost use Rattle.pg_lex.specs.Lex.{Cursor};
ghost use Rattle.pg_assertion.specs.Formula.{Plain, plain};
ghost use Rattle.pg_assertion.specs.declared.atom.RawAtom.{RawAtom as Raw};
ghost use Rattle.pg_assertion.specs.declared.atom.CrashAtom.{CrashAtom as Crash};
ghost use Rattle.pg_assertion_text.specs.Atoms.{raw_atom, crash_atom, IsRaw, IsCrash};
ghost use Rattle.pg_assertion_text.specs.FirstFaults.{BlamesFirst};
ghost use Rattle.pg_assertion_text.specs.Parsing.{IsFormula, Answers, HasOneReading, formula_at, ReadsAt};

use crate::atoms::ReadAtom;
use crate::formula::formula;
use crate::tokens::Tokens;
use pg_assertion::{CrashAtom, Formula, RawAtom};
use pg_lex::{Lexer, TextFault};
use pg_program::Names;
use std::alloc::Global;

/// How many nodes a formula may have: each constant, atom and connective is one.
pub const MAX_NODES: u32 = 512;

/// How many brackets and `!` of a formula may be open at once.
pub const MAX_OPEN: u32 = 32;

/// Reads the formula of an assertion at the lexer's place, as long as tokens go on with it. The lexer stands after it
/// then, and where it stood if the text is refused.
///
/// A fault is the first one of the text: a token that cannot stand there (`Unexpected`), a name that is not declared
/// (`UnknownName`), the token of node 513 (`TooMany`), the 33rd `(` or `!` that is open (`TooDeep`), or a token that the lexer refuses.
pub fn parse_formula(
    alloc: Global,
    lexer: &mut Lexer<'_>,
    names: &Names,
) -> Result<Formula<RawAtom>, TextFault>
    ensures found { IfOk result (λ f. IsFormula IsRaw names.now lexer.old (plain f) lexer.new) }
    ensures only { (f : Plain Raw) (to : Cursor) → IsFormula IsRaw names.now lexer.old f to → Answers f to result lexer.new }
    ensures exact { ReadsAt (formula_at raw_atom names.now lexer.old) result lexer.new }
    ensures first { BlamesFirst IsRaw names.now lexer.old result }
    ensures err { OnErr result (lexer.new ≡ lexer.old) }
{
    // No name stands twice, which the first fault of a text rests on.
    let _locations = names.locations();
    parsed(alloc, lexer, names)
}

/// Reads a crash formula, in the same way.
pub fn parse_crash(
    alloc: Global,
    lexer: &mut Lexer<'_>,
    names: &Names,
) -> Result<Formula<CrashAtom>, TextFault>
    ensures found { IfOk result (λ f. IsFormula IsCrash names.now lexer.old (plain f) lexer.new) }
    ensures only { (f : Plain Crash) (to : Cursor) → IsFormula IsCrash names.now lexer.old f to → Answers f to result lexer.new }
    ensures exact { ReadsAt (formula_at crash_atom names.now lexer.old) result lexer.new }
    ensures first { BlamesFirst IsCrash names.now lexer.old result }
    ensures err { OnErr result (lexer.new ≡ lexer.old) }
{
    // No name stands twice, which the first fault of a text rests on.
    let _locations = names.locations();
    parsed(alloc, lexer, names)
}

/// Reads a formula over atoms of any kind.
fn parsed<T: ReadAtom>(
    alloc: Global,
    lexer: &mut Lexer<'_>,
    names: &Names,
) -> Result<Formula<T>, TextFault>
    ensures found { IfOk result (λ f. IsFormula T.stands names.now lexer.old (plain f) lexer.new) }
    ensures only { (f : Plain T) (to : Cursor) → IsFormula T.stands names.now lexer.old f to → Answers f to result lexer.new }
    ensures exact { ReadsAt (formula_at T.read names.now lexer.old) result lexer.new }
    ensures err { OnErr result (lexer.new ≡ lexer.old) }
{
    T::agrees();
    read_whole(alloc, lexer, names)
}

/// The same, without the words of the grammar.
#[tactic(auto, unfolding(crate::specs::Parsing::formula_at))]
fn read_whole<T: ReadAtom>(
    alloc: Global,
    lexer: &mut Lexer<'_>,
    names: &Names,
) -> Result<Formula<T>, TextFault>
    ensures exact { ReadsAt (formula_at T.read names.now lexer.old) result lexer.new }
    ensures err { OnErr result (lexer.new ≡ lexer.old) }
{
    let mut tokens = Tokens::new(lexer, MAX_NODES);
    let f = formula(alloc, &mut tokens, names, MAX_OPEN)?;
    *lexer = tokens.lexer();
    Ok(f)
}
