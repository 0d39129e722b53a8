//! Declarations, read from their tokens.

ghost use Rattle.std.specs.Prelude.{◌≡◌, MatchResult, IfOk, Err, Ok, None, false};
ghost use Rattle.pg_assertion_text.specs.Input.{Does};
ghost use Rattle.pg_assertion_text.specs.Words.{IsText};
ghost use Rattle.pg_lex.specs.Lex.{lexeme};
ghost use Rattle.pg_program.specs.NameTable.{with_name, find, is_full, MayJoin};
ghost use Rattle.pg_outline_text.specs.Declaration as spec;
ghost use Rattle.pg_outline_text.specs.Reads.{ReadsNames, ReadsMore};
ghost use Rattle.pg_lex.specs.declared.fault.TextFault.TheVariants.{NoMemory};

use crate::word::{Keyword, expect_word, is_keyword};
use pg_assertion_text::Tokens;
use pg_assertion_text::tokens::{is_reserved, refused};
use pg_lex::{Sign, TextFault, TextKind, Token, TokenKind};
use pg_program::{DeclareFault, MAX_LOCATIONS, MAX_SCALARS, NameKind, Names};

/// How many declarations a text may have.
pub const MAX_DECLARATIONS: u32 = MAX_LOCATIONS as u32 + MAX_SCALARS as u32;

/// The name that a token declares, or why it declares none.
#[tactic(auto, unfolding(crate::specs::Declaration::new_name_in))]
fn new_name<'a>(names: &Names, kind: NameKind, token: &Token<'a>) -> Result<&'a str, TextKind>
    requires { IsText (lexeme token.now) }
    ensures name { MatchResult result (λ w. spec.new_name_in names.now kind (lexeme token.now) ≡ Ok w.now) (λ e. spec.new_name_in names.now kind (lexeme token.now) ≡ Err e) }
    ensures new { IfOk result (λ w. (find w.now names.now ≡ None) × (is_full kind names.now ≡ false)) }
{
    if token.kind != TokenKind::Word {
        return Err(TextKind::Unexpected);
    }
    let word = match str::from_utf8(token.text) {
        Ok(word) => word,
        Err(_) => unreachable!(),
    };
    if is_reserved(word) {
        return Err(TextKind::Unexpected);
    }
    if names.find(word).is_some() {
        return Err(TextKind::Redeclared);
    }
    if names.is_full(kind) {
        return Err(TextKind::TooMany);
    }
    Ok(word)
}

/// Takes a name that is to be declared.
#[tactic(auto, unfolding(crate::specs::Declaration::new_name))]
fn take_name<'a>(
    tokens: &mut Tokens<'a>,
    names: &Names,
    kind: NameKind,
) -> Result<&'a str, TextFault>
    ensures name { Does (λ w. w.now) (spec.new_name names.now kind tokens.old) result tokens.new }
    ensures new { IfOk result (λ w. (find w.now names.now ≡ None) × (is_full kind names.now ≡ false)) }
{
    let token = tokens.next()?;
    match new_name(names, kind, &token) {
        Ok(word) => Ok(word),
        Err(kind) => Err(refused(token.place, kind)),
    }
}

/// Declares a name that is new.
fn declare(names: &mut Names, name: &str, kind: NameKind) -> Result<(), TextFault>
    requires new { (find name.now names.old ≡ None) × (is_full kind names.old ≡ false) }
    requires join { MayJoin kind names.old }
    ensures { MatchResult result (λ _. names.new ≡ with_name name.now kind names.old) (λ e. e ≡ NoMemory) }
{
    match names.declare(name, kind) {
        Ok(_) => Ok(()),
        Err(DeclareFault::NoMemory) => Err(TextFault::NoMemory),
        Err(DeclareFault::Redeclared | DeclareFault::TooMany) => unreachable!(),
    }
}

/// Takes a number and the semicolon after it.
#[tactic(auto, unfolding(crate::specs::Declaration::last_number))]
pub fn last_number(tokens: &mut Tokens<'_>) -> Result<u32, TextFault>
    ensures { Does (λ n. n) (spec.last_number tokens.old) result tokens.new }
{
    let number = tokens.number()?;
    tokens.expect(Sign::Semicolon)?;
    Ok(number)
}

/// Reads the declaration of a location, after its first word.
#[tactic(auto, unfolding(crate::specs::Declaration::location))]
fn location(tokens: &mut Tokens<'_>, names: &mut Names) -> Result<(), TextFault>
    ensures { ReadsNames (spec.location names.old tokens.old) result names.new tokens.new }
{
    let name = match take_name(tokens, names, NameKind::Location { init: 0 }) {
        Ok(name) => name,
        Err(fault) => return Err(fault),
    };
    tokens.expect(Sign::Equal)?;
    let init = last_number(tokens)?;
    declare(names, name, NameKind::Location { init })
}

/// Reads the declaration of a register, after its first word.
#[tactic(auto, unfolding(crate::specs::Declaration::register))]
fn register(tokens: &mut Tokens<'_>, names: &mut Names) -> Result<(), TextFault>
    ensures { ReadsNames (spec.register names.old tokens.old) result names.new tokens.new }
{
    let name = match take_name(tokens, names, NameKind::Register { owner: 0 }) {
        Ok(name) => name,
        Err(fault) => return Err(fault),
    };
    expect_word(tokens, Keyword::Of)?;
    let owner = last_number(tokens)?;
    declare(names, name, NameKind::Register { owner })
}

/// Reads the declaration of an auxiliary, after its first word.
#[tactic(auto, unfolding(crate::specs::Declaration::auxiliary))]
fn auxiliary(tokens: &mut Tokens<'_>, names: &mut Names) -> Result<(), TextFault>
    ensures { ReadsNames (spec.auxiliary names.old tokens.old) result names.new tokens.new }
{
    let name = match take_name(tokens, names, NameKind::Auxiliary) {
        Ok(name) => name,
        Err(fault) => return Err(fault),
    };
    tokens.expect(Sign::Semicolon)?;
    declare(names, name, NameKind::Auxiliary)
}

/// Reads a declaration, if one comes.
#[tactic(auto, unfolding(crate::specs::Declaration::declaration))]
fn declaration(tokens: &mut Tokens<'_>, names: &mut Names) -> Result<bool, TextFault>
    ensures { ReadsMore (spec.declaration names.old tokens.old) result names.old names.new tokens.new }
{
    let token = tokens.peek()?;
    if is_keyword(Keyword::Location, &token) {
        let _taken = tokens.next()?;
        location(tokens, names)?;
        return Ok(true);
    }
    if is_keyword(Keyword::Register, &token) {
        let _taken = tokens.next()?;
        register(tokens, names)?;
        return Ok(true);
    }
    if is_keyword(Keyword::Auxiliary, &token) {
        let _taken = tokens.next()?;
        auxiliary(tokens, names)?;
        return Ok(true);
    }
    Ok(false)
}

/// Reads as many declarations as there are.
pub fn declarations(tokens: &mut Tokens<'_>, names: &mut Names) -> Result<(), TextFault>
    ensures { ReadsNames (spec.declarations names.old tokens.old) result names.new tokens.new }
{
    'declarations: for _i in 0..MAX_DECLARATIONS + 1 {
        if !declaration(tokens, names)? {
            return Ok(());
        }
    }
    Err(refused(0, TextKind::TooMany))
}
