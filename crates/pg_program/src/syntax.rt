//! Expressions, tests and statements, as they stand in a program. Numbers of locations and scalars are their
//! places, from 0, in the order of declaration. `Boxed` and `Items` are a `Box` and a `Vec` that contracts see
//! as the value and as the list of the items, so that statements compare as plain data.

use sqlite_items::{Boxed, Items};

/// An expression over scalars. Its arithmetic is modulo the domain's size.
#[derive(Drop)]
pub enum Expr {
    Value(u32),
    Scalar(u8),
    Add(Boxed<Expr>, Boxed<Expr>),
    Sub(Boxed<Expr>, Boxed<Expr>),
    Mul(Boxed<Expr>, Boxed<Expr>),
}

/// A test: that the two sides are equal, or that they differ.
#[derive(Drop)]
pub struct Cond {
    pub left: Expr,
    pub right: Expr,
    pub equal: bool,
}

/// One assignment of the bracket that stands with a statement.
#[derive(Drop)]
pub struct AuxAssign {
    pub target: u8,
    pub expr: Expr,
}

/// A statement, with the auxiliary assignments that take effect together with it.
#[cycle(stmt)]
#[derive(Drop)]
pub struct Stmt {
    pub act: Act,
    pub aux: Items<AuxAssign>,
}

/// What a statement does. The blocks of a branch or a loop are lists of statements.
#[cycle(stmt)]
#[derive(Drop)]
pub enum Act {
    /// The expression's value goes to a scalar.
    Assign {
        target: u8,
        expr: Expr,
    },
    /// The expression's value is written to a location.
    Store {
        location: u8,
        expr: Expr,
    },
    /// A location is read into a scalar.
    Load {
        target: u8,
        location: u8,
    },
    /// Compare and swap: where the location holds the expected value, the desired one is written. The value read
    /// goes to a scalar.
    Cas {
        target: u8,
        location: u8,
        expected: Expr,
        desired: Expr,
    },
    /// A full fence.
    Mfence,
    /// A store fence.
    Sfence,
    /// A flush of a location to persistent memory.
    Flush {
        location: u8,
    },
    /// An optimised flush of a location, which a later fence completes.
    Flushopt {
        location: u8,
    },
    If {
        test: Cond,
        yes: Items<Stmt>,
        no: Items<Stmt>,
    },
    While {
        test: Cond,
        body: Items<Stmt>,
    },
}
