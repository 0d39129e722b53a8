//! Why a text is refused.

ghost use Rattle.std.specs.Prelude.{◌≡◌};
ghost use Rattle.pg_lex.specs.declared.fault.TextFault.TheVariants.{NoMemory};

use std::alloc::{AllocError, AllocFailed};
use thiserror::Error;

/// A cause. The lexer gives the first four alone; the others are for the parsers above it.
#[derive(Clone, Copy, Debug, PartialEq, Eq, Error)]
pub enum TextKind {
    #[error("a byte above 127 outside a comment")]
    NotAscii,
    #[error("a byte that begins no token")]
    BadCharacter,
    #[error("a number above 4294967295")]
    NumberTooLarge,
    #[error("a word of more than 32 bytes")]
    NameTooLong,
    #[error("a token that cannot stand here")]
    Unexpected,
    #[error("a name that is not declared")]
    UnknownName,
    #[error("a name that is declared already")]
    Redeclared,
    #[error("too many parts")]
    TooMany,
    #[error("parts nested too deeply")]
    TooDeep,
}

/// A fault of a text at its place, or want of memory, which only parsers meet.
#[derive(Clone, Copy, Debug, PartialEq, Eq, Error)]
pub enum TextFault {
    #[error("at byte {place}: {kind}")]
    At { place: u32, kind: TextKind },
    #[error("out of memory")]
    NoMemory,
}

impl From<AllocError> for TextFault {
    ghost from_gives = { λ _ e. e ≡ NoMemory };

    fn from(_cause: AllocError) -> TextFault {
        TextFault::NoMemory
    }
}

impl<T: Drop> From<AllocFailed<T>> for TextFault {
    ghost from_gives = { λ _ e. e ≡ NoMemory };

    fn from(_cause: AllocFailed<T>) -> TextFault {
        TextFault::NoMemory
    }
}
