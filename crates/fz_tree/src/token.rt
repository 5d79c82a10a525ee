//! Tokens.

use crate::span::Span;

/// A mark of the language: `(` `)` `[` `]` `{` `}` `,` `;` `:` `::` `=` `..`.
#[derive(Clone, Copy, Debug, PartialEq, Eq)]
pub enum Mark {
    OpenParen,
    CloseParen,
    OpenBracket,
    CloseBracket,
    OpenBrace,
    CloseBrace,
    Comma,
    Semicolon,
    Colon,
    ColonColon,
    Equals,
    DotDot,
}

/// What a token is: a word (a name or a reserved word), an integer with its value, a float, a
/// string, or a mark. Floats and strings have no value, only their text as it is written.
#[derive(Clone, Copy, Debug, PartialEq, Eq)]
pub enum TokenKind {
    Word,
    Whole(i64),
    FloatText,
    Str,
    Mark(Mark),
}

/// A token, its byte range in its source, and its text: the slice of the source at that range.
#[derive(Clone, Copy)]
pub struct Token<'a> {
    pub kind: TokenKind,
    pub span: Span,
    pub text: &'a [u8],
}
