//! What a token is.

/// A sign, in the order of the grammar: `:= -> != = ! & | + - * ( ) [ ] { } < > ; ,`.
#[derive(Clone, Copy, Debug, PartialEq, Eq)]
pub enum Sign {
    Assign,
    Arrow,
    NotEqual,
    Equal,
    Not,
    And,
    Or,
    Plus,
    Minus,
    Times,
    Open,
    Close,
    OpenSquare,
    CloseSquare,
    OpenBrace,
    CloseBrace,
    Less,
    Greater,
    Semicolon,
    Comma,
}

#[derive(Clone, Copy, Debug, PartialEq, Eq)]
pub enum TokenKind {
    /// A lower-case letter, and lower-case letters, digits and `_` after it.
    Word,
    /// The value of a string of digits.
    Number(u32),
    /// One of `A C F L N O P R`, as its byte.
    Letter(u8),
    Sign(Sign),
    /// The end of the text, which has no bytes.
    End,
}

#[derive(Clone, Copy, Debug, PartialEq, Eq)]
pub struct Token<'a> {
    pub kind: TokenKind,
    /// How many bytes of the text stand in front of the token.
    pub place: u32,
    /// The token's own bytes, a slice of the text.
    pub text: &'a [u8],
}
