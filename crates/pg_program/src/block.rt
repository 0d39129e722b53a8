//! Blocks of statements: how many statements they have, and the one at a place.

ghost use Rattle.std.specs.Prelude.{◌≡◌, ◌∷◌, ◌<◌, [], MatchOption, slice_get};
ghost use Rattle.std.specs.Option.{option_copied};
ghost use Rattle.pg_program.specs.Block.{done, node, block, first_list, second_list};
ghost use Rattle.pg_program.specs.Graph.{size, statements};

use crate::syntax::{Act, Stmt};

/// A block that is not empty: its first statement, the two lists of statements within that, and the others.
#[derive(Clone, Copy)]
pub struct Node<'a> {
    pub stmt: &'a Stmt,
    pub first: &'a [Stmt],
    pub second: &'a [Stmt],
    pub rest: &'a [Stmt],
}

/// The parts of a block, if it is not empty.
pub fn opened(stmts: &[Stmt]) -> Option<Node<'_>>
    ensures { MatchOption result (block stmts.now ≡ done) (λ n. block stmts.now ≡ node n.stmt.now (block n.first.now) (block n.second.now) (block n.rest.now)) }
{
    let (stmt, rest) = split(stmts)?;
    let first = first_within(stmt);
    let second = second_within(stmt);
    Some(Node {
        stmt,
        first,
        second,
        rest,
    })
}

/// The first item and the others, if there is one.
pub fn split<T>(items: &[T]) -> Option<(&T, &[T])>
    ensures { MatchOption result (items.now ≡ []) (λ p. items.now ≡ p.0.now ∷ p.1.now) }
{
    match items {
        [item, rest @ ..] => Some((item, rest)),
        [] => None,
    }
}

/// The first block within a statement: where its test leads if it holds. Only an `if` and a `while` have one that is
/// not empty.
pub fn first_within(stmt: &Stmt) -> &[Stmt]
    ensures { result.now ≡ first_list stmt.now }
{
    match &stmt.act {
        Act::If { yes, .. } => yes.as_slice(),
        Act::While { body, .. } => body.as_slice(),
        _ => &[],
    }
}

/// The second block within a statement: where its test leads if it does not hold. Only an `if` has one that is not
/// empty.
pub fn second_within(stmt: &Stmt) -> &[Stmt]
    ensures { result.now ≡ second_list stmt.now }
{
    match &stmt.act {
        Act::If { no, .. } => no.as_slice(),
        _ => &[],
    }
}

/// The number of statements, with those of the blocks within them.
pub fn count(stmts: &[Stmt]) -> u8
    requires { size (block stmts.now) < 256 }
    ensures { result ≡ size (block stmts.now) }
{
    match opened(stmts) {
        Some(node) => 1 + count(node.first) + count(node.second) + count(node.rest),
        None => 0,
    }
}

/// The statement at this place of the text, from 0.
pub fn nth(stmts: &[Stmt], place: u8) -> Option<&Stmt>
    requires { size (block stmts.now) < 256 }
    ensures { option_copied result ≡ slice_get (statements (block stmts.now)) place }
{
    let node = opened(stmts)?;
    if place == 0 {
        return Some(node.stmt);
    }
    let within = place - 1;
    let first = count(node.first);
    if within < first {
        return nth(node.first, within);
    }
    let after = within - first;
    let second = count(node.second);
    if after < second {
        return nth(node.second, after);
    }
    nth(node.rest, after - second)
}
