//! Goes over a source token by token, and lists its tokens.

ghost use Rattle.std.specs.Prelude.{◌≡◌, ◌≢◌, ◌+◌, ◌<◌, ◌≤◌, ◌∷◌, [], Some, None, IfSome, IfNone, List, length, drop, false, slice_index, IsFalse, IfOk, IfErr, OnErr, MatchResult};
ghost use Rattle.fz_tree.specs.Token as bytes_spec;
ghost use Rattle.fz_tree.specs.Lexing.{SpannedToken, CutBetween};
ghost use Rattle.fz_tree.specs.Found.{AreInOrder, NextFrom, FaultFrom, IsFrontOf, IsLexed};
ghost use Rattle.fz_tree.specs.declared.scanner.Front.TheVariants.{Found};
ghost use Rattle.fz_tree.specs.Spanned.{all_spanned, TextsAreSlices, IsLexicalFault, IsPlacedWithin, most_bytes, LexesWithinLimits};
ghost use Rattle.fz_tree.specs.Ahead.{comma_at, tokens_ahead, stop_ahead};

use crate::error::SyntaxError;
use crate::limits::Limits;
use crate::scanner::{
    Front, comment_len, is_blank, is_word_start, mark_front, read_other_front, short_whole,
};
use crate::span::Span;
use crate::token::{Token, TokenKind};
use crate::word::word_len;
use std::alloc::Global;

/// Skips blanks and whole comments from a byte offset on, and gives the offset where they end.
#[inline(always)]
fn gap_end(source: &[u8], from: usize) -> usize
    requires { from ≤ length source.now }
    ensures within { (from ≤ result) × (result ≤ length source.now) }
    ensures gap { CutBetween source.now from result [] }
    ensures stops { result < length source.now
        → IsFalse (bytes_spec.is_blank (slice_index source.now result))
        × (slice_index source.now result ≢ 37) }
{
    let mut place = from;
    while place < source.len() {
        let byte = source[place];
        // All blanks are below `%`, and nearly all tokens begin with a byte above it.
        if byte > b'%' {
            return place;
        }
        if is_blank(byte) {
            place += 1;
        } else if byte == b'%' {
            place += comment_len(&source[place..]);
        } else {
            return place;
        }
    }
    place
}

/// Goes over a text token by token.
#[derive(Drop)]
pub(crate) struct Lexer<'a> {
    pub(crate) source: &'a [u8],
    pub(crate) place: usize,
    ghost within: { place ≤ length source.now },
    ghost stop: { stop_ahead source.now place ≡ stop_ahead source.now 0 },
}

impl<'a> Lexer<'a> {
    /// Takes the comma, where one is the next byte, and gives its byte range.
    #[inline(always)]
    #[tactic(auto, using(crate::proofs::AheadLaws::ahead_comma))]
    pub(crate) fn eat_comma(&mut self) -> Option<Span>
        ensures source { self.new.source.now ≡ self.old.source.now }
        ensures comma { IfSome result (λ s. (s.start ≡ self.old.place)
            × (s.end ≡ self.old.place + 1) × (self.new.place ≡ self.old.place + 1)) }
        ensures ahead { IfSome result (λ s. tokens_ahead self.old.source.now self.old.place
            ≡ comma_at self.old.place ∷ tokens_ahead self.new.source.now self.new.place) }
        ensures kept { IfNone result (self.new ≡ self.old) }
    {
        let start = self.place;
        if start == self.source.len() || self.source[start] != b',' {
            return None;
        }
        let end = start + 1;
        self.place = end;
        Some(Span { start, end })
    }

    /// Takes the token of this kind and length that begins at an offset.
    #[inline(always)]
    #[tactic(auto, using(crate::proofs::Next::of_found))]
    fn take(&mut self, start: usize, kind: TokenKind, len: usize) -> Token<'a>
        requires within { start ≤ length self.old.source.now }
        requires gap { CutBetween self.old.source.now self.old.place start [] }
        requires front { IsFrontOf (drop start self.old.source.now) (Found kind len) }
        ensures source { self.new.source.now ≡ self.old.source.now }
        ensures next { NextFrom self.old.source.now self.old.place self.new.place (Some result) }
    {
        let end = start + len;
        self.place = end;
        Token {
            kind,
            span: Span { start, end },
            text: &self.source[start..end],
        }
    }

    /// Writes the next token, or none at the end of the text or at a fault, where the lexer stays.
    /// Most tokens are words, marks and short numbers, so each of these has an arm of
    /// its own, in which little is left to be written.
    #[inline(always)]
    pub(crate) fn read(&mut self, next: &mut Option<Token<'a>>) -> Result<(), SyntaxError>
        ensures source { self.new.source.now ≡ self.old.source.now }
        ensures token { IfOk result (λ _. NextFrom self.old.source.now self.old.place
            self.new.place next.new) }
        ensures fault { IfErr result (FaultFrom self.old.source.now self.old.place) }
        ensures none { OnErr result (next.new ≡ None) }
        ensures stays { OnErr result (self.new.place ≡ self.old.place) }
    {
        let start = gap_end(self.source, self.place);
        if start == self.source.len() {
            *next = None;
            return Ok(());
        }
        let bytes = &self.source[start..];
        if is_word_start(bytes[0]) {
            *next = Some(self.take(start, TokenKind::Word, word_len(bytes)));
            return Ok(());
        }
        if let Some((mark, len)) = mark_front(bytes) {
            *next = Some(self.take(start, TokenKind::Mark(mark), len));
            return Ok(());
        }
        if let Some(whole) = short_whole(bytes) {
            *next = Some(self.take(start, TokenKind::Whole(whole.value), whole.len));
            return Ok(());
        }
        *next = None;
        match read_other_front(bytes) {
            Front::Found(kind, len) => {
                *next = Some(self.take(start, kind, len));
                Ok(())
            }
            Front::OutsideLimit(len) => Err(SyntaxError::TooLarge(Span {
                start,
                end: start + len,
            })),
            Front::Nothing => Err(SyntaxError::BadByte(Span {
                start,
                end: start + 1,
            })),
        }
    }

    /// The next token, or none at the end of the text. After an error the lexer is where it was.
    #[inline(always)]
    pub(crate) fn next_token(&mut self) -> Result<Option<Token<'a>>, SyntaxError>
        ensures source { self.new.source.now ≡ self.old.source.now }
        ensures token { IfOk result (NextFrom self.old.source.now self.old.place self.new.place) }
        ensures fault { IfErr result (FaultFrom self.old.source.now self.old.place) }
        ensures stays { OnErr result (self.new.place ≡ self.old.place) }
    {
        let mut next = None;
        self.read(&mut next)?;
        Ok(next)
    }
}

#[tactic(auto, using(crate::proofs::Next::fault_after))]
fn tokens<'a>(alloc: Global, source: &'a [u8]) -> Result<Vec<Token<'a>>, SyntaxError>
    ensures found { IfOk result (λ tokens. IsLexed source.now tokens.items) }
    ensures refused { IfErr result (IsLexicalFault source.now) }
{
    let mut lexer = Lexer { source, place: 0 };
    let mut tokens = Vec::new(alloc);
    while let Some(token) = lexer.next_token()? {
        tokens.push(token)?;
    }
    Ok(tokens)
}

/// The tokens of a text in order, each with its byte range and its text. Blanks and comments are
/// between them, and each token is the longest that begins where it does (MiniZinc Handbook,
/// FlatZinc grammar).
///
/// # Errors
/// `TooLong` where the text has more than 16,777,216 bytes; else the leftmost of `BadByte`, a byte
/// at which nothing begins, and `TooLarge`, an integer outside 64 bits; `Memory` where memory runs
/// out. No other error comes.
#[tactic(auto, using(crate::proofs::Lexed::of_tokens))]
pub fn lex<'a>(alloc: Global, source: &'a [u8]) -> Result<Vec<Token<'a>>, SyntaxError>
    // What is given is what the source lexes to, within the limits.
    ensures found { IfOk result (λ tokens. LexesWithinLimits source.now
        (all_spanned tokens.items)) }
    ensures texts { IfOk result (λ tokens. TextsAreSlices source.now tokens.items) }
    ensures in_order { IfOk result
        (λ tokens. AreInOrder 0 (length source.now) (all_spanned tokens.items)) }
    // What the source lexes to within the limits is given, unless memory runs out.
    ensures only { (tokens : List SpannedToken) → LexesWithinLimits source.now tokens
        → MatchResult result (λ given. all_spanned given.items ≡ tokens)
        (λ e. e ≡ SyntaxError.Memory) }
    // A text that is too long is refused as such. Any other refusal is a lexical fault, or
    // `Memory`.
    ensures too_long { most_bytes < length source.now → result ≡ Err SyntaxError.TooLong }
    ensures refused { IfErr result (IsLexicalFault source.now) }
    ensures placed { IfErr result (IsPlacedWithin (length source.now)) }
{
    if source.len() > Limits::STANDARD.bytes() {
        return Err(SyntaxError::TooLong);
    }
    tokens(alloc, source)
}
