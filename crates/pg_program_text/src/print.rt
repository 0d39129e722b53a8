//! Threads, printed in their canonical text: a line for each note and each statement, indented by two blanks for each brace
//! that is open, and brackets in expressions just where they would be read otherwise.

ghost use Rattle.std.specs.Prelude.{◌≡◌, ◌≤◌, ◌+◌, ◌<◌, ◌^◌, ◌++◌, [], ◌∷◌, length, decimal, codes, map, drop, All, IfOk, OnOk, OnErr, MatchOption};
ghost use Rattle.pg_program.specs.declared.syntax.Act.{out-Act};
ghost use Rattle.pg_program.specs.Block.{block, first_list, second_list};
ghost use Rattle.pg_program.specs.Graph.{size, statements};
ghost use Rattle.pg_program.specs.Program.{IsStmt};
ghost use Rattle.pg_assertion.specs.Formula.{plain, AllAtoms};
ghost use Rattle.pg_assertion_text.specs.Spelling.{in_brackets, location_name, scalar_name};
ghost use Rattle.pg_assertion.specs.Atom.{NamesDeclared};
ghost use Rattle.pg_program_text.specs.Spelling as spec;
ghost use Rattle.pg_program_text.specs.Spelling.{tree};
ghost use Rattle.pg_program_text.specs.DeclaredNames.{IsDeclared, TestDeclared, ActDeclared, AssignmentDeclared, StmtDeclared, BlockDeclared};
ghost use Rattle.pg_program_text.specs.ReadAgain.{ThreadIsReadAgain};

use itoa::Buffer;
use pg_assertion::{Formula, ViewAtom};
use pg_assertion_text::print_formula;
use pg_program::{Act, AuxAssign, Cond, Expr, Names, Stmt, first_within, is_test, second_within};
use std::alloc::AllocError;

// ---- expressions

/// Appends the spelling of an expression.
#[cycle(print)]
#[tactic(auto, unfolding(crate::specs::Spelling::spell, crate::specs::DeclaredNames::Declared))]
pub(crate) fn spell_expr(e: &Expr, names: &Names, into: &mut Vec<u8>) -> Result<(), AllocError>
    requires { IsDeclared names.now e.now }
    ensures { OnOk result (into.new.items ≡ into.old.items ++ spec.spell names.now (tree e.now)) }
{
    match e {
        Expr::Value(v) => into.extend_from_slice(Buffer::new().format(*v).as_bytes()),
        Expr::Scalar(r) => scalar(*r, names, into),
        Expr::Add(a, b) => {
            spell_expr(a.get(), names, into)?;
            into.extend_from_slice(b" + ")?;
            spell_operand(is_sum(b.get()), b.get(), names, into)
        }
        Expr::Sub(a, b) => {
            spell_expr(a.get(), names, into)?;
            into.extend_from_slice(b" - ")?;
            spell_operand(is_sum(b.get()), b.get(), names, into)
        }
        Expr::Mul(a, b) => {
            spell_operand(is_sum(a.get()), a.get(), names, into)?;
            into.extend_from_slice(b" * ")?;
            spell_operand(is_binary(b.get()), b.get(), names, into)
        }
    }
}

/// Appends the spelling of an operand, in brackets or without.
#[cycle(print)]
fn spell_operand(
    bracketed: bool,
    e: &Expr,
    names: &Names,
    into: &mut Vec<u8>,
) -> Result<(), AllocError>
    requires { IsDeclared names.now e.now }
    ensures { OnOk result (into.new.items ≡ into.old.items ++ in_brackets bracketed (spec.spell names.now (tree e.now))) }
{
    if bracketed {
        into.extend_from_slice(b"(")?;
        spell_expr(e, names, into)?;
        into.extend_from_slice(b")")
    } else {
        spell_expr(e, names, into)
    }
}

fn is_sum(e: &Expr) -> bool
    ensures { result ≡ spec.is_sum (tree e.now) }
{
    matches!(e, Expr::Add(_, _) | Expr::Sub(_, _))
}

fn is_binary(e: &Expr) -> bool
    ensures { result ≡ spec.is_binary (tree e.now) }
{
    matches!(e, Expr::Add(_, _) | Expr::Sub(_, _) | Expr::Mul(_, _))
}

/// Appends the name of a scalar.
fn scalar(r: u8, names: &Names, into: &mut Vec<u8>) -> Result<(), AllocError>
    requires { r < length names.now.scalars }
    ensures { OnOk result (into.new.items ≡ into.old.items ++ scalar_name names.now r) }
{
    into.extend_from_slice(names.scalar_name(r).as_bytes())
}

/// Appends the name of a location.
fn location(x: u8, names: &Names, into: &mut Vec<u8>) -> Result<(), AllocError>
    requires { x < length names.now.locations }
    ensures { OnOk result (into.new.items ≡ into.old.items ++ location_name names.now x) }
{
    into.extend_from_slice(names.location_name(x).as_bytes())
}

// ---- statements without their blocks

/// Appends the spelling of a test.
fn spell_test(test: &Cond, names: &Names, into: &mut Vec<u8>) -> Result<(), AllocError>
    requires { TestDeclared names.now test.now }
    ensures { OnOk result (into.new.items ≡ into.old.items ++ spec.spell_test names.now test.now) }
{
    spell_expr(&test.left, names, into)?;
    if test.equal {
        into.extend_from_slice(b" = ")?;
    } else {
        into.extend_from_slice(b" != ")?;
    }
    spell_expr(&test.right, names, into)
}

/// Appends ` := e`.
fn assigned(expr: &Expr, names: &Names, into: &mut Vec<u8>) -> Result<(), AllocError>
    requires { IsDeclared names.now expr.now }
    ensures { OnOk result (into.new.items ≡ into.old.items ++ (codes " := " ++ spec.spell_expr names.now expr.now)) }
{
    into.extend_from_slice(b" := ")?;
    spell_expr(expr, names, into)
}

/// Appends `r := x`.
fn loaded(target: u8, x: u8, names: &Names, into: &mut Vec<u8>) -> Result<(), AllocError>
    requires { (target < length names.now.scalars) × (x < length names.now.locations) }
    ensures { OnOk result (into.new.items ≡ into.old.items ++ (scalar_name names.now target ++ (codes " := " ++ location_name names.now x))) }
{
    scalar(target, names, into)?;
    into.extend_from_slice(b" := ")?;
    location(x, names, into)
}

/// Appends a word and a location.
fn flushed(word: &[u8], x: u8, names: &Names, into: &mut Vec<u8>) -> Result<(), AllocError>
    requires { x < length names.now.locations }
    ensures { OnOk result (into.new.items ≡ into.old.items ++ (word.now ++ location_name names.now x)) }
{
    into.extend_from_slice(word)?;
    location(x, names, into)
}

/// Appends a word and a test.
fn tested(word: &[u8], test: &Cond, names: &Names, into: &mut Vec<u8>) -> Result<(), AllocError>
    requires { TestDeclared names.now test.now }
    ensures { OnOk result (into.new.items ≡ into.old.items ++ (word.now ++ spec.spell_test names.now test.now)) }
{
    into.extend_from_slice(word)?;
    spell_test(test, names, into)
}

/// Appends what a statement does, but for its bracket and its blocks.
fn spell_act(act: &Act, names: &Names, into: &mut Vec<u8>) -> Result<(), AllocError>
    requires { ActDeclared names.now (out-Act act.now) }
    ensures { OnOk result (into.new.items ≡ into.old.items ++ spec.spell_act names.now (out-Act act.now)) }
{
    match act {
        Act::Assign { target, expr } => {
            scalar(*target, names, into)?;
            assigned(expr, names, into)
        }
        Act::Store { location: x, expr } => {
            location(*x, names, into)?;
            assigned(expr, names, into)
        }
        Act::Load {
            target,
            location: x,
        } => loaded(*target, *x, names, into),
        Act::Cas {
            target,
            location: x,
            expected,
            desired,
        } => {
            scalar(*target, names, into)?;
            swapped(*x, expected, desired, names, into)
        }
        Act::Mfence => into.extend_from_slice(b"mfence"),
        Act::Sfence => into.extend_from_slice(b"sfence"),
        Act::Flush { location: x } => flushed(b"flush ", *x, names, into),
        Act::Flushopt { location: x } => flushed(b"flushopt ", *x, names, into),
        Act::If { test, .. } => tested(b"if ", test, names, into),
        Act::While { test, .. } => tested(b"while ", test, names, into),
    }
}

/// Appends ` := cas(x, e, d)`.
fn swapped(
    x: u8,
    expected: &Expr,
    desired: &Expr,
    names: &Names,
    into: &mut Vec<u8>,
) -> Result<(), AllocError>
    requires { (x < length names.now.locations) × IsDeclared names.now expected.now × IsDeclared names.now desired.now }
    ensures { OnOk result (into.new.items ≡ into.old.items ++ (codes " := cas(" ++ (location_name names.now x ++ (codes ", " ++ (spec.spell_expr names.now expected.now ++ (codes ", " ++ (spec.spell_expr names.now desired.now ++ codes ")"))))))) }
{
    into.extend_from_slice(b" := cas(")?;
    location(x, names, into)?;
    operands(expected, desired, names, into)
}

/// Appends `, e, d)`.
fn operands(
    expected: &Expr,
    desired: &Expr,
    names: &Names,
    into: &mut Vec<u8>,
) -> Result<(), AllocError>
    requires { IsDeclared names.now expected.now × IsDeclared names.now desired.now }
    ensures { OnOk result (into.new.items ≡ into.old.items ++ (codes ", " ++ (spec.spell_expr names.now expected.now ++ (codes ", " ++ (spec.spell_expr names.now desired.now ++ codes ")"))))) }
{
    into.extend_from_slice(b", ")?;
    spell_expr(expected, names, into)?;
    into.extend_from_slice(b", ")?;
    spell_expr(desired, names, into)?;
    into.extend_from_slice(b")")
}

/// Appends `a := e`.
fn spell_assignment(assign: &AuxAssign, names: &Names, into: &mut Vec<u8>) -> Result<(), AllocError>
    requires { AssignmentDeclared names.now assign.now }
    ensures { OnOk result (into.new.items ≡ into.old.items ++ spec.spell_assignment names.now assign.now) }
{
    scalar(assign.target, names, into)?;
    assigned(&assign.expr, names, into)
}

/// Appends the assignments after the first one, and the end of the bracket.
fn further(aux: &[AuxAssign], names: &Names, into: &mut Vec<u8>) -> Result<(), AllocError>
    requires { All (AssignmentDeclared names.now) aux.now }
    ensures { OnOk result (into.new.items ≡ into.old.items ++ spec.further names.now aux.now) }
{
    for assign in aux {
        into.extend_from_slice(b", ")?;
        spell_assignment(assign, names, into)?;
    }
    into.extend_from_slice(b" >")
}

/// Appends a bracket, or nothing.
fn spell_bracket(aux: &[AuxAssign], names: &Names, into: &mut Vec<u8>) -> Result<(), AllocError>
    requires { All (AssignmentDeclared names.now) aux.now }
    ensures { OnOk result (into.new.items ≡ into.old.items ++ spec.spell_bracket names.now aux.now) }
{
    match aux {
        [] => Ok(()),
        [first, rest @ ..] => {
            into.extend_from_slice(b" < ")?;
            spell_assignment(first, names, into)?;
            further(rest, names, into)
        }
    }
}

// ---- lines

/// Appends two blanks for each brace that is open.
fn indent(depth: u64, into: &mut Vec<u8>) -> Result<(), AllocError>
    ensures { OnOk result (into.new.items ≡ into.old.items ++ spec.indent depth) }
{
    for _brace in 0..depth {
        into.extend_from_slice(b"  ")?;
    }
    Ok(())
}

/// Appends a line.
fn line(depth: u64, text: &[u8], into: &mut Vec<u8>) -> Result<(), AllocError>
    ensures { OnOk result (into.new.items ≡ into.old.items ++ spec.line depth text.now) }
{
    indent(depth, into)?;
    into.extend_from_slice(text)?;
    into.extend_from_slice(b"\n")
}

/// Appends the line of a note.
fn note_line(
    note: &Formula<ViewAtom>,
    depth: u64,
    names: &Names,
    into: &mut Vec<u8>,
) -> Result<(), AllocError>
    requires { AllAtoms (NamesDeclared names.now) (plain note.now) }
    ensures { OnOk result (into.new.items ≡ into.old.items ++ spec.note_line names.now depth (plain note.now ∷ [])) }
{
    indent(depth, into)?;
    into.extend_from_slice(b"[")?;
    print_formula(note, names, into)?;
    into.extend_from_slice(b"]\n")
}

/// Appends the line of the first note, if there is one, and gives the others.
fn first_note<'a>(
    notes: &'a [Formula<ViewAtom>],
    depth: u64,
    names: &Names,
    into: &mut Vec<u8>,
) -> Result<&'a [Formula<ViewAtom>], AllocError>
    requires { All (AllAtoms (NamesDeclared names.now)) (map plain notes.now) }
    ensures rest { IfOk result (λ rest. map plain rest.now ≡ drop 1 (map plain notes.now)) }
    ensures text { OnOk result (into.new.items ≡ into.old.items ++ spec.note_line names.now depth (map plain notes.now)) }
{
    match notes {
        [] => Ok(notes),
        [note, rest @ ..] => {
            note_line(note, depth, names, into)?;
            Ok(rest)
        }
    }
}

/// Appends the line that a statement begins with.
pub(crate) fn stmt_line(
    stmt: &Stmt,
    depth: u64,
    names: &Names,
    into: &mut Vec<u8>,
) -> Result<(), AllocError>
    requires { StmtDeclared names.now stmt.now }
    ensures { OnOk result (into.new.items ≡ into.old.items ++ spec.stmt_line names.now depth stmt.now) }
{
    indent(depth, into)?;
    spell_act(&stmt.act, names, into)?;
    if is_test(stmt) {
        into.extend_from_slice(b" {\n")
    } else {
        spell_bracket(stmt.aux.as_slice(), names, into)?;
        into.extend_from_slice(b";\n")
    }
}

/// Appends the line between the two blocks of a branch, if the second one is not empty.
fn else_line(no: &[Stmt], depth: u64, into: &mut Vec<u8>) -> Result<(), AllocError>
    ensures { OnOk result (into.new.items ≡ into.old.items ++ spec.else_line depth (block no.now)) }
{
    match no {
        [] => Ok(()),
        [_, ..] => line(depth, b"} else {", into),
    }
}

/// Appends the line that ends a statement with blocks.
fn last_line(stmt: &Stmt, depth: u64, into: &mut Vec<u8>) -> Result<(), AllocError>
    ensures { OnOk result (into.new.items ≡ into.old.items ++ spec.last_line depth stmt.now) }
{
    if is_test(stmt) {
        line(depth, b"}", into)
    } else {
        Ok(())
    }
}

// ---- blocks

/// Appends the lines of a statement with those of its blocks, where so many braces are open, and gives the notes after it.
#[cycle(lines)]
fn spell_stmt<'a>(
    stmt: &Stmt,
    notes: &'a [Formula<ViewAtom>],
    depth: u64,
    names: &Names,
    into: &mut Vec<u8>,
) -> Result<&'a [Formula<ViewAtom>], AllocError>
    requires deep { depth + 1 + (size (block (first_list stmt.now)) + size (block (second_list stmt.now))) < 2 ^ 64 }
    requires stmt { StmtDeclared names.now stmt.now }
    requires first { BlockDeclared names.now (block (first_list stmt.now)) }
    requires second { BlockDeclared names.now (block (second_list stmt.now)) }
    requires notes { All (AllAtoms (NamesDeclared names.now)) (map plain notes.now) }
    ensures rest { IfOk result (λ rest. map plain rest.now ≡ drop (size (block (second_list stmt.now))) (drop (size (block (first_list stmt.now))) (drop 1 (map plain notes.now)))) }
    ensures text { OnOk result (into.new.items ≡ into.old.items ++ spec.stmt_lines names.now depth stmt.now (block (first_list stmt.now)) (block (second_list stmt.now)) (map plain notes.now)) }
{
    let inner = first_note(notes, depth, names, into)?;
    stmt_line(stmt, depth, names, into)?;
    let others = spell_block(first_within(stmt), inner, depth + 1, names, into)?;
    let second = second_within(stmt);
    else_line(second, depth, into)?;
    let rest = spell_block(second, others, depth + 1, names, into)?;
    last_line(stmt, depth, into)?;
    Ok(rest)
}

/// Appends the lines of a block, where so many braces are open, and gives the notes after it.
#[cycle(lines)]
pub(crate) fn spell_block<'a>(
    stmts: &[Stmt],
    notes: &'a [Formula<ViewAtom>],
    depth: u64,
    names: &Names,
    into: &mut Vec<u8>,
) -> Result<&'a [Formula<ViewAtom>], AllocError>
    requires deep { depth + size (block stmts.now) < 2 ^ 64 }
    requires stmts { BlockDeclared names.now (block stmts.now) }
    requires notes { All (AllAtoms (NamesDeclared names.now)) (map plain notes.now) }
    ensures rest { IfOk result (λ rest. map plain rest.now ≡ drop (size (block stmts.now)) (map plain notes.now)) }
    ensures text { OnOk result (into.new.items ≡ into.old.items ++ spec.spell_block names.now depth (block stmts.now) (map plain notes.now)) }
{
    let mut rest = notes;
    'stmts: for stmt in stmts {
        rest = spell_stmt(stmt, rest, depth, names, into)?;
    }
    Ok(rest)
}

/// Appends the canonical text of a thread's body, line by line: before each statement the note of its point, and the note
/// of the thread's end last. There has to be one note for each point, in the order of the text, and all names have to be
/// declared. Want of memory leaves `into` as it was. Within the limits of a text, what was printed is read as these statements
/// and notes again.
pub fn print_thread(
    stmts: &[Stmt],
    notes: &[Formula<ViewAtom>],
    names: &Names,
    into: &mut Vec<u8>,
) -> Result<(), AllocError>
    requires points { length notes.now ≡ size (block stmts.now) + 1 }
    requires stmts { All (IsStmt names.now) (statements (block stmts.now)) }
    requires notes { All (AllAtoms (NamesDeclared names.now)) (map plain notes.now) }
    ensures ok { OnOk result (into.new.items ≡ into.old.items ++ spec.spell_thread names.now stmts.now (map plain notes.now)) }
    ensures err { OnErr result (into.new.items ≡ into.old.items) }
    ensures again { ThreadIsReadAgain names.now stmts.now (map plain notes.now) }
{
    let mut text = Vec::new(*into.allocator());
    let rest = spell_block(stmts, notes, 1, names, &mut text)?;
    let _rest = first_note(rest, 1, names, &mut text)?;
    into.extend_from_slice(&text)
}
