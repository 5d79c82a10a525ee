//! What a token can begin.

ghost use Rattle.std.specs.Prelude.{◌≡◌, IfSome};
ghost use Rattle.fz_tree.specs.View.{lexeme};
ghost use Rattle.fz_syntax.specs.Outcome.{plain_token, plain_kind};
ghost use Rattle.fz_syntax.specs.Reading.{is_name, may_lack_value, begins_decl};
ghost use Rattle.fz_syntax.specs.ReadingItems.{dimensions_of, token_dimensions};
ghost use Rattle.fz_syntax.specs.Words.{may_be_reserved};
ghost use Rattle.fz_tree.specs.Text.{is_reserved};

use fz_tree::{LiteralKind, Mark, Token, TokenKind};

pub(crate) fn is_float(token: &Token<'_>) -> bool {
    token.kind == TokenKind::FloatText
        || token.kind == TokenKind::Word && token.text == b"float".as_slice()
}

/// Whether some reserved word has the length of this word and its first byte. For nearly all names
/// none has, so no further comparison is needed.
#[inline(always)]
fn may_be_reserved(word: &[u8]) -> bool
    ensures { result ≡ may_be_reserved word.now }
{
    if word.is_empty() {
        return false;
    }
    let first = word[0];
    match word.len() {
        2 => first == b'o',
        3 => matches!(first, b'v' | b'i' | b's'),
        4 => matches!(first, b'b' | b't'),
        5 => matches!(first, b'a' | b'f' | b's'),
        7 => first == b's',
        8 => first == b'm',
        9 => first == b'p',
        10 => first == b'c',
        _ => false,
    }
}

#[inline(never)]
fn is_listed_word(word: &[u8]) -> bool
    ensures { result ≡ is_reserved word.now }
{
    word == b"array".as_slice()
        || word == b"of".as_slice()
        || word == b"var".as_slice()
        || word == b"bool".as_slice()
        || word == b"int".as_slice()
        || word == b"float".as_slice()
        || word == b"set".as_slice()
        || word == b"true".as_slice()
        || word == b"false".as_slice()
        || word == b"predicate".as_slice()
        || word == b"constraint".as_slice()
        || word == b"solve".as_slice()
        || word == b"satisfy".as_slice()
        || word == b"minimize".as_slice()
        || word == b"maximize".as_slice()
}

#[inline(always)]
#[tactic(auto, using(crate::proofs::Words::not_reserved))]
fn is_reserved(word: &[u8]) -> bool
    ensures { result ≡ is_reserved word.now }
{
    may_be_reserved(word) && is_listed_word(word)
}

#[inline(always)]
pub(crate) fn is_name(token: &Token<'_>) -> bool
    ensures { result ≡ is_name (lexeme token.now) }
{
    token.kind == TokenKind::Word && !is_reserved(token.text)
}

#[inline(always)]
pub(crate) fn is_quoted(token: &Token<'_>) -> bool {
    matches!(token.kind, TokenKind::FloatText | TokenKind::Str)
}

pub(crate) fn begins_literal(token: &Token<'_>) -> bool {
    match token.kind {
        TokenKind::Whole(_) => true,
        TokenKind::Word => { token.text == b"true".as_slice() || token.text == b"false".as_slice() }
        TokenKind::Mark(mark) => mark == Mark::OpenBrace,
        TokenKind::FloatText | TokenKind::Str => false,
    }
}

pub(crate) fn begins_index(token: &Token<'_>) -> bool {
    match token.kind {
        TokenKind::Whole(_) => true,
        TokenKind::Word => token.text == b"int".as_slice(),
        TokenKind::Mark(_) | TokenKind::FloatText | TokenKind::Str => false,
    }
}

#[inline(always)]
pub(crate) fn begins_decl(token: &Token<'_>) -> bool
    ensures { result ≡ begins_decl (lexeme token.now) }
{
    token.kind == TokenKind::Word
        && (token.text == b"var".as_slice()
            || token.text == b"array".as_slice()
            || token.text == b"bool".as_slice()
            || token.text == b"int".as_slice()
            || token.text == b"set".as_slice())
}

pub(crate) fn may_lack_value(is_var: bool, array: Option<usize>) -> bool
    ensures { result ≡ may_lack_value is_var array }
{
    is_var && array.is_none()
}

/// A literal that is one token.
#[derive(Clone, Copy)]
pub(crate) enum Plain {
    Whole(i64),
    Truth(bool),
}

/// The literal that a token is by itself, whatever follows it.
#[inline(always)]
pub(crate) fn plain_of(token: &Token<'_>) -> Option<Plain>
    ensures { IfSome result (λ p. lexeme token.now ≡ plain_token p) }
{
    match token.kind {
        TokenKind::Whole(value) => Some(Plain::Whole(value)),
        TokenKind::Word if token.text == b"true".as_slice() => Some(Plain::Truth(true)),
        TokenKind::Word if token.text == b"false".as_slice() => Some(Plain::Truth(false)),
        _ => None,
    }
}

/// What the literal is.
#[inline(always)]
pub(crate) fn kind_of(plain: Plain) -> LiteralKind
    ensures { result ≡ plain_kind plain }
{
    match plain {
        Plain::Whole(value) => LiteralKind::Whole(value),
        Plain::Truth(value) => LiteralKind::Truth(value),
    }
}

/// How many index sets the array that the word begins has; 0 where it begins none.
fn dimensions_of(word: &[u8]) -> usize
    ensures { result ≡ dimensions_of word.now }
{
    if word == b"array1d".as_slice() {
        1
    } else if word == b"array2d".as_slice() {
        2
    } else if word == b"array3d".as_slice() {
        3
    } else if word == b"array4d".as_slice() {
        4
    } else if word == b"array5d".as_slice() {
        5
    } else if word == b"array6d".as_slice() {
        6
    } else {
        0
    }
}

/// How many index sets the array that the token begins has; 0 where it begins none.
pub(crate) fn dimensions(token: &Token<'_>) -> usize
    ensures { result ≡ token_dimensions (lexeme token.now) }
{
    if token.kind == TokenKind::Word {
        dimensions_of(token.text)
    } else {
        0
    }
}
