//! Statements with their blocks, and the body of a thread, read from their tokens. A block opens a level; nothing else is
//! read by recursion.

ghost use Rattle.std.specs.Prelude.{◌≡◌, option_map, IfOk, OnOk, OnErr};
ghost use Rattle.pg_lex.specs.Lex.{Cursor, lexeme};
ghost use Rattle.pg_assertion.specs.Formula.{plain};
ghost use Rattle.pg_assertion_text.specs.Input.{Does, Reads};
ghost use Rattle.pg_assertion_text.specs.Words.{IsText};
ghost use Rattle.pg_program_text.specs.Limits.{text_limits};
ghost use Rattle.pg_program_text.specs.Thread as spec;
ghost use Rattle.pg_program_text.specs.Thread.{Lines, with_note, with_stmt, no_lines};
ghost use Rattle.pg_program_text.specs.Text.{lines, noted, ReadsAt, Answers};
ghost use Rattle.pg_program_text.specs.Grammar.{IsThreadText};
ghost use Rattle.pg_program_text.specs.FirstFaults.{BlamesToken};

use crate::keyword::{Keyword, keyword_at};
use crate::stmt::{act, bracket, note, test};
use pg_assertion::{Formula, RawAtom};
use pg_assertion_text::Tokens;
use pg_assertion_text::tokens::{is_sign, named, refused, unexpected};
use pg_lex::{Lexer, Sign, TextFault, TextKind, Token};
use pg_program::{Act, AuxAssign, Cond, Names, Stmt, beside};
use sqlite_items::Items;
use std::alloc::{AllocError, Global};

/// How many points a thread may have.
pub const MAX_POINTS: u32 = 32;

/// How many blocks of branches and loops may be open at once.
pub const MAX_BLOCKS: u32 = 16;

/// The statements of a thread or of a block, and the notes of its points in the order of the text.
#[derive(Drop)]
pub struct ThreadText {
    pub stmts: Vec<Stmt>,
    pub notes: Vec<Formula<RawAtom>>,
}

/// A statement, and the notes of the points within its blocks.
#[derive(Drop)]
struct NotedStmt {
    stmt: Stmt,
    notes: Vec<Formula<RawAtom>>,
}

impl ThreadText {
    ghost use Rattle.pg_program_text.specs.Text.{lines, noted};

    fn new(alloc: Global) -> ThreadText
        ensures { lines result ≡ no_lines }
    {
        ThreadText {
            stmts: Vec::new(alloc),
            notes: Vec::new(alloc),
        }
    }

    /// One more note.
    fn add_note(&mut self, note: Formula<RawAtom>) -> Result<(), AllocError>
        ensures { OnOk result (lines self.new ≡ with_note (lines self.old) (plain note)) }
    {
        self.notes.push(note)?;
        Ok(())
    }

    /// One more statement, and the notes within it.
    fn add_stmt(&mut self, line: NotedStmt) -> Result<(), AllocError>
        ensures { OnOk result (lines self.new ≡ with_stmt (lines self.old) (noted line)) }
    {
        let NotedStmt { stmt, mut notes } = line;
        self.stmts.push(stmt)?;
        self.notes.append(&mut notes)
    }
}

/// A statement whose bracket is empty.
fn bare(alloc: Global, act: Act) -> Stmt
    ensures { result ≡ spec.bare act }
{
    Stmt {
        act,
        aux: Items::new(alloc),
    }
}

/// The bracket of a statement, or none, and its `;`.
#[tactic(auto, unfolding(crate::specs::Thread::ending))]
fn ending(
    alloc: Global,
    tokens: &mut Tokens<'_>,
    names: &Names,
) -> Result<Items<AuxAssign>, TextFault>
    ensures { Reads (λ b. b) (spec.ending text_limits names.now tokens.old) result tokens.new }
{
    let aux = bracket(alloc, tokens, names)?;
    tokens.expect(Sign::Semicolon).and(Ok(aux))
}

/// A statement that is no branch and no loop.
#[tactic(auto, unfolding(crate::specs::Thread::simple))]
fn simple(alloc: Global, tokens: &mut Tokens<'_>, names: &Names) -> Result<NotedStmt, TextFault>
    ensures { Reads noted (spec.simple text_limits names.now tokens.old) result tokens.new }
{
    let act = act(alloc, tokens, names)?;
    let (act, aux) = beside(act, ending(alloc, tokens, names))?;
    Ok(NotedStmt {
        stmt: Stmt { act, aux },
        notes: Vec::new(alloc),
    })
}

/// Whether the block ends here, and its `}` is taken then.
#[tactic(auto, unfolding(crate::specs::Thread::ends))]
fn ends(tokens: &mut Tokens<'_>) -> Result<bool, TextFault>
    ensures { Does (λ b. b) (spec.ends tokens.old) result tokens.new }
{
    let token = tokens.peek()?;
    if is_sign(Sign::CloseBrace, token.kind) {
        let _taken = tokens.next()?;
        Ok(true)
    } else {
        Ok(false)
    }
}

/// Whether a statement begins with this token.
#[tactic(auto, unfolding(crate::specs::Thread::begins))]
fn begins(names: &Names, token: &Token<'_>) -> bool
    requires { IsText (lexeme token.now) }
    ensures { result ≡ spec.begins names.now (lexeme token.now) }
{
    match keyword_at(token) {
        Some(Keyword::Cas | Keyword::Else) => false,
        Some(_) => true,
        None => named(names, token).is_ok(),
    }
}

/// A statement, in which so many blocks may be open at once.
#[cycle(thread)]
fn statement(
    alloc: Global,
    tokens: &mut Tokens<'_>,
    names: &Names,
    levels: u32,
) -> Result<NotedStmt, TextFault>
    ensures { Reads noted (spec.statement text_limits names.now levels tokens.old) result tokens.new }
{
    let below = if levels == 0 { None } else { Some(levels - 1) };
    statement_in(alloc, tokens, names, below)
}

/// The same, with how many levels there are below it, if there may be one.
#[cycle(thread)]
#[tactic(auto, unfolding(crate::specs::Thread::statement_in))]
fn statement_in(
    alloc: Global,
    tokens: &mut Tokens<'_>,
    names: &Names,
    below: Option<u32>,
) -> Result<NotedStmt, TextFault>
    ensures { Reads noted (spec.statement_in text_limits names.now (option_map (spec.statement text_limits names.now) below) tokens.old) result tokens.new }
{
    let token = tokens.peek()?;
    match keyword_at(&token) {
        Some(Keyword::If) => {
            let _taken = tokens.next()?;
            branch(alloc, tokens, names, below)
        }
        Some(Keyword::While) => {
            let _taken = tokens.next()?;
            repeat(alloc, tokens, names, below)
        }
        _ => simple(alloc, tokens, names),
    }
}

/// What stands after `if`.
#[cycle(thread)]
#[tactic(auto, unfolding(crate::specs::Thread::branch))]
fn branch(
    alloc: Global,
    tokens: &mut Tokens<'_>,
    names: &Names,
    below: Option<u32>,
) -> Result<NotedStmt, TextFault>
    ensures { Reads noted (spec.branch text_limits names.now (option_map (spec.statement text_limits names.now) below) tokens.old) result tokens.new }
{
    let test = test(alloc, tokens, names)?;
    let (test, yes) = beside(test, block(alloc, tokens, names, below))?;
    let (read, no) = beside((test, yes), else_part(alloc, tokens, names, below))?;
    let (test, yes) = read;
    Ok(joined(alloc, test, yes, no)?)
}

/// What stands after `while`.
#[cycle(thread)]
#[tactic(auto, unfolding(crate::specs::Thread::repeat))]
fn repeat(
    alloc: Global,
    tokens: &mut Tokens<'_>,
    names: &Names,
    below: Option<u32>,
) -> Result<NotedStmt, TextFault>
    ensures { Reads noted (spec.repeat text_limits names.now (option_map (spec.statement text_limits names.now) below) tokens.old) result tokens.new }
{
    let test = test(alloc, tokens, names)?;
    let (test, body) = beside(test, block(alloc, tokens, names, below))?;
    let act = Act::While {
        test,
        body: Items::from_vec(body.stmts),
    };
    Ok(NotedStmt {
        stmt: bare(alloc, act),
        notes: body.notes,
    })
}

/// The block after `else`, or none.
#[cycle(thread)]
#[tactic(auto, unfolding(crate::specs::Thread::else_part))]
fn else_part(
    alloc: Global,
    tokens: &mut Tokens<'_>,
    names: &Names,
    below: Option<u32>,
) -> Result<ThreadText, TextFault>
    ensures { Reads lines (spec.else_part text_limits names.now (option_map (spec.statement text_limits names.now) below) tokens.old) result tokens.new }
{
    let token = tokens.peek()?;
    if let Some(Keyword::Else) = keyword_at(&token) {
        let _taken = tokens.next()?;
        return block(alloc, tokens, names, below);
    }
    Ok(ThreadText::new(alloc))
}

/// A block with its braces, if one more may be open.
#[cycle(thread)]
fn block(
    alloc: Global,
    tokens: &mut Tokens<'_>,
    names: &Names,
    below: Option<u32>,
) -> Result<ThreadText, TextFault>
    ensures { Reads lines (spec.block text_limits names.now (option_map (spec.statement text_limits names.now) below) tokens.old) result tokens.new }
{
    match below {
        Some(levels) => {
            tokens.expect(Sign::OpenBrace)?;
            block_lines(alloc, tokens, names, levels)
        }
        None => {
            let token = tokens.next()?;
            Err(too_deep(&token))
        }
    }
}

/// The lines of a block, up to its `}`.
#[cycle(thread)]
#[tactic(auto, unfolding(crate::specs::Thread::lines))]
fn block_lines(
    alloc: Global,
    tokens: &mut Tokens<'_>,
    names: &Names,
    levels: u32,
) -> Result<ThreadText, TextFault>
    ensures { Reads lines (spec.lines text_limits names.now (spec.statement text_limits names.now levels) tokens.old) result tokens.new }
{
    let mut text = ThreadText::new(alloc);
    'lines: for _i in 0..tokens.turns() {
        if ends(tokens)? {
            return Ok(text);
        }
        line(alloc, tokens, names, levels, &mut text)?;
    }
    Err(refused(0, TextKind::TooMany))
}

/// One more note and its statement, for the end of the text. After an error the text may have a part of them.
#[cycle(thread)]
#[tactic(auto, unfolding(crate::specs::Thread::line))]
fn line(
    alloc: Global,
    tokens: &mut Tokens<'_>,
    names: &Names,
    levels: u32,
    text: &mut ThreadText,
) -> Result<(), TextFault>
    ensures { Reads (λ u. lines text.new) (spec.line text_limits names.now (spec.statement text_limits names.now levels) (lines text.old) tokens.old) result tokens.new }
{
    let note = note(alloc, tokens, names)?;
    text.add_note(note)?;
    let line = statement(alloc, tokens, names, levels)?;
    text.add_stmt(line)?;
    Ok(())
}

/// A branch of its test and its two blocks.
fn joined(
    alloc: Global,
    test: Cond,
    yes: ThreadText,
    no: ThreadText,
) -> Result<NotedStmt, AllocError>
    ensures { IfOk result (λ n. noted n ≡ spec.joined test (lines yes) (lines no)) }
{
    let ThreadText {
        stmts: yes,
        mut notes,
    } = yes;
    let ThreadText {
        stmts: no,
        notes: mut others,
    } = no;
    notes.append(&mut others)?;
    let act = Act::If {
        test,
        yes: Items::from_vec(yes),
        no: Items::from_vec(no),
    };
    Ok(NotedStmt {
        stmt: bare(alloc, act),
        notes,
    })
}

/// The fault of a block that is one too many, or of a token that begins none.
fn too_deep(token: &Token<'_>) -> TextFault
    ensures { result ≡ spec.block_fault (lexeme token.now) }
{
    if is_sign(Sign::OpenBrace, token.kind) {
        refused(token.place, TextKind::TooDeep)
    } else {
        unexpected(token.place)
    }
}

/// One more note of a body, for the end of the text, and whether the body goes on after it, with its statement then. After
/// an error the text may have a part of them.
#[tactic(auto, unfolding(crate::specs::Thread::line_of_body))]
fn body_line(
    alloc: Global,
    tokens: &mut Tokens<'_>,
    names: &Names,
    text: &mut ThreadText,
) -> Result<bool, TextFault>
    ensures { Reads (λ more. (lines text.new, more)) (spec.line_of_body text_limits names.now (lines text.old) tokens.old) result tokens.new }
{
    let note = note(alloc, tokens, names)?;
    text.add_note(note)?;
    let token = tokens.peek()?;
    if !begins(names, &token) {
        return Ok(false);
    }
    let line = statement(alloc, tokens, names, MAX_BLOCKS)?;
    text.add_stmt(line)?;
    Ok(true)
}

/// The body of a thread: a note, and statements with a note after each.
fn body(alloc: Global, tokens: &mut Tokens<'_>, names: &Names) -> Result<ThreadText, TextFault>
    ensures { Reads lines (spec.body text_limits names.now tokens.old) result tokens.new }
{
    let mut text = ThreadText::new(alloc);
    'lines: for _i in 0..tokens.turns() {
        if !body_line(alloc, tokens, names, &mut text)? {
            return Ok(text);
        }
    }
    Err(refused(0, TextKind::TooMany))
}

/// Reads the body of a thread, without the words of the grammar.
#[tactic(auto, unfolding(crate::specs::Thread::thread_at))]
fn read_thread(alloc: Global, lexer: &mut Lexer<'_>, names: &Names) -> Result<ThreadText, TextFault>
    ensures exact { ReadsAt (spec.thread_at names.now lexer.old) result lexer.new }
    ensures err { OnErr result (lexer.new ≡ lexer.old) }
{
    let mut tokens = Tokens::new(lexer, MAX_POINTS);
    let text = body(alloc, &mut tokens, names)?;
    *lexer = tokens.lexer();
    Ok(text)
}

/// Reads the body of a thread at the lexer's place, as long as tokens go on with it: a note, and statements with a note after
/// each. The lexer stands after it then, and after a refusal where it stood.
///
/// A fault is the first one of the text: a token that cannot stand there (`Unexpected`), a name that is not declared
/// (`UnknownName`), the token of a node, an assignment or a point that is one too many (`TooMany`), a `(`, `!` or `{` that opens
/// one level too many (`TooDeep`), or a token that the lexer refuses.
pub fn parse_thread(
    alloc: Global,
    lexer: &mut Lexer<'_>,
    names: &Names,
) -> Result<ThreadText, TextFault>
    ensures found { IfOk result (λ t. IsThreadText names.now lexer.old (lines t) lexer.new) }
    ensures only { (l : Lines) (to : Cursor) → IsThreadText names.now lexer.old l to → Answers l to result lexer.new }
    ensures exact { ReadsAt (spec.thread_at names.now lexer.old) result lexer.new }
    ensures blames { BlamesToken names.now lexer.old result }
    ensures err { OnErr result (lexer.new ≡ lexer.old) }
{
    read_thread(alloc, lexer, names)
}
