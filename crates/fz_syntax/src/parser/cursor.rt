//! The tokens that are left to read, and how one of them is taken.

ghost use Rattle.std.specs.Prelude.{List, ◌∷◌, ◌≡◌, ◌≤◌, ◌<◌, ◌-◌, drop, length, if◌then◌else◌};
ghost use Rattle.std.specs.Bool.{OnTrue, OnFalse};
ghost use Rattle.std.specs.List.{All};
ghost use Rattle.fz_tree.specs.Spanned.{IsSpanWithin, IsPlacedWithin};
ghost use Rattle.fz_tree.specs.Left.{left};
ghost use Rattle.fz_tree.specs.View.{bare_name};
ghost use Rattle.fz_syntax.specs.Reading.{next_is, next_word, next_passes, mark_at, word_at, name_at, whole_at, is_name, is_whole, begins_decl};

use crate::parser::kinds::{
    begins_decl, begins_index, begins_literal, is_float, is_name, is_quoted,
};
use crate::parser::lists::SpareLists;
use crate::parser::refusal::Refusal;
use fz_tree::{Literal, LiteralKind, Mark, Name, Span, SyntaxError, TokenKind, Tokens};
use std::alloc::Global;

/// The tokens that are left to read. After a refusal they begin with the token that was refused.
#[derive(Drop)]
pub(crate) struct Parser<'a> {
    pub(crate) alloc: Global,
    pub(crate) tokens: Tokens<'a>,
    /// The byte offset where the token that was taken last ended.
    pub(crate) reached: usize,
    /// The length of the source.
    pub(crate) end: usize,
    pub(crate) spare: SpareLists<'a>,
    ghost within: { All (λ t. (t.start ≤ t.end) × (t.end ≤ end)) (left tokens) },
}

impl<'a> Parser<'a> {
    ghost use Rattle.fz_syntax.specs.Outcome.{Gives, IsErrorOf};
    ghost use Rattle.fz_syntax.specs.Walk.{Passed, Passes, Walks, start_of, ahead, lexemes};
    ghost use Rattle.fz_syntax.specs.Placed.{placed_name};
    ghost use Rattle.fz_tree.specs.Lexing.{SpannedToken};
    ghost use Rattle.fz_tree.specs.Ahead.{tokens_ahead};
    ghost use Rattle.fz_tree.specs.Left.{source_of};

    /// A parser at the first token of a source.
    pub(crate) fn new(alloc: Global, source: &'a [u8]) -> Parser<'a>
        ensures all { ahead result ≡ tokens_ahead source.now 0 }
        ensures source { source_of result.tokens ≡ source.now }
        ensures end { result.end ≡ length source.now }
    {
        Parser {
            alloc,
            tokens: Tokens::new(source),
            reached: 0,
            end: source.len(),
            spare: SpareLists::new(alloc),
        }
    }

    /// The byte range of the next token, which is empty at the end of the source.
    #[inline(always)]
    pub(crate) fn place(&self) -> Span
        ensures within { IsSpanWithin self.now.end result }
        ensures start { result.start ≡ start_of (ahead self.now) self.now.end }
    {
        match self.tokens.first() {
            Some(first) => first.span,
            None => Span {
                start: self.end,
                end: self.end,
            },
        }
    }

    /// The literal from an offset up to the end of the token that was taken last.
    #[inline(always)]
    pub(crate) fn literal_since(&self, start: usize, what: LiteralKind) -> Literal
        ensures { result
            ≡ record { span = record { start = start; end = self.now.reached }; what = what } }
    {
        Literal {
            span: Span {
                start,
                end: self.reached,
            },
            what,
        }
    }

    /// The error for a refusal of the next token, with its byte range.
    pub(crate) fn refused(&self, refusal: Refusal) -> SyntaxError
        ensures kind { IsErrorOf refusal result }
        ensures placed { IsPlacedWithin self.now.end result }
    {
        match refusal {
            Refusal::Float => SyntaxError::Float(self.place()),
            Refusal::Syntax => SyntaxError::Syntax(self.place()),
            Refusal::TooDeep => SyntaxError::TooDeep(self.place()),
            Refusal::TooMany => SyntaxError::TooMany(self.place()),
            Refusal::Memory => SyntaxError::Memory,
        }
    }

    /// Takes the next token.
    #[inline(always)]
    pub(crate) fn skip(&mut self)
        ensures left { lexemes self.new ≡ drop 1 (lexemes self.old) }
        ensures shorter { length (lexemes self.new) ≡ length (lexemes self.old) - 1 }
        ensures walked { Passed self.old self.new }
        ensures reached { (t : SpannedToken) (rest : List SpannedToken) → ahead self.old ≡ t ∷ rest
            → (ahead self.new ≡ rest) × (self.new.reached ≡ t.end) }
    {
        if let Some(first) = self.tokens.first() {
            self.reached = first.span.end;
            self.tokens.advance();
        }
    }

    #[inline(always)]
    pub(crate) fn next_is(&self, mark: Mark) -> bool
        ensures { result ≡ next_is mark (lexemes self.now) }
    {
        matches!(self.tokens.first(), Some(first) if first.kind == TokenKind::Mark(mark))
    }

    #[inline(always)]
    pub(crate) fn next_word(&self, word: &[u8]) -> bool
        ensures { result ≡ next_word word.now (lexemes self.now) }
    {
        match self.tokens.first() {
            Some(first) => first.kind == TokenKind::Word && first.text == word,
            None => false,
        }
    }

    /// Why the next token isn't allowed.
    pub(crate) fn unexpected(&self) -> Refusal {
        match self.tokens.first() {
            Some(first) if is_float(&first) => Refusal::Float,
            _ => Refusal::Syntax,
        }
    }

    /// Why a list that is full ends here, where its next element begins or not.
    pub(crate) fn full(&self, begins: bool) -> Refusal {
        if begins {
            Refusal::TooMany
        } else {
            self.unexpected()
        }
    }

    #[inline(always)]
    pub(crate) fn eat(&mut self, mark: Mark) -> bool
        ensures found { result ≡ next_is mark (lexemes self.old) }
        ensures left { lexemes self.new ≡ (if next_is mark (lexemes self.old)
            then drop 1 (lexemes self.old) else lexemes self.old) }
        ensures walked { Passed self.old self.new }
        ensures kept { OnFalse result (self.new ≡ self.old) }
        ensures taken { OnTrue result (length (lexemes self.new) < length (lexemes self.old)) }
    {
        let found = self.next_is(mark);
        if found {
            self.skip();
        }
        found
    }

    #[inline(always)]
    #[tactic(auto, unfolding(crate::specs::Reading::mark_at), using(crate::proofs::Walks::step))]
    pub(crate) fn expect(&mut self, mark: Mark) -> Result<(), Refusal>
        ensures read { Gives self.old self.new result (λ _. tt) (mark_at mark) }
        ensures walked { Passes self.old self.new result }
    {
        if self.eat(mark) {
            Ok(())
        } else {
            Err(self.unexpected())
        }
    }

    #[tactic(auto, unfolding(crate::specs::Reading::word_at), using(crate::proofs::Walks::step))]
    pub(crate) fn expect_word(&mut self, word: &[u8]) -> Result<(), Refusal>
        ensures read { Gives self.old self.new result (λ _. tt) (word_at word.now) }
        ensures walked { Passes self.old self.new result }
    {
        if self.eat_word(word) {
            Ok(())
        } else {
            Err(self.unexpected())
        }
    }

    pub(crate) fn eat_word(&mut self, word: &[u8]) -> bool
        ensures found { result ≡ next_word word.now (lexemes self.old) }
        ensures left { lexemes self.new ≡ (if next_word word.now (lexemes self.old)
            then drop 1 (lexemes self.old) else lexemes self.old) }
        ensures walked { Passed self.old self.new }
        ensures kept { OnFalse result (self.new ≡ self.old) }
        ensures taken { OnTrue result (length (lexemes self.new) < length (lexemes self.old)) }
    {
        let found = self.next_word(word);
        if found {
            self.skip();
        }
        found
    }

    #[inline(always)]
    #[tactic(auto, unfolding(crate::specs::Reading::name_at), using(crate::proofs::Walks::step))]
    pub(crate) fn name(&mut self) -> Result<Name<'a>, Refusal>
        ensures read { Gives self.old self.new result bare_name name_at }
        ensures walked { Walks self.old self.new result placed_name }
    {
        match self.tokens.first() {
            Some(first) if is_name(&first) => {
                self.skip();
                Ok(Name {
                    text: first.text,
                    span: first.span,
                })
            }
            _ => Err(self.unexpected()),
        }
    }

    #[inline(always)]
    #[tactic(auto, unfolding(crate::specs::Reading::whole_at), using(crate::proofs::Walks::step))]
    pub(crate) fn whole(&mut self) -> Result<i64, Refusal>
        ensures read { Gives self.old self.new result (λ n. n) whole_at }
        ensures walked { Passes self.old self.new result }
    {
        match self.tokens.first() {
            Some(first) => match first.kind {
                TokenKind::Whole(n) => {
                    self.skip();
                    Ok(n)
                }
                _ => Err(self.unexpected()),
            },
            None => Err(self.unexpected()),
        }
    }

    #[inline(always)]
    pub(crate) fn begins_whole(&self) -> bool
        ensures { result ≡ next_passes is_whole (lexemes self.now) }
    {
        matches!(self.tokens.first(), Some(first) if matches!(first.kind, TokenKind::Whole(_)))
    }

    #[inline(always)]
    pub(crate) fn begins_name(&self) -> bool
        ensures { result ≡ next_passes is_name (lexemes self.now) }
    {
        matches!(self.tokens.first(), Some(first) if is_name(&first))
    }

    pub(crate) fn begins_literal(&self) -> bool {
        matches!(self.tokens.first(), Some(first) if begins_literal(&first))
    }

    pub(crate) fn begins_index(&self) -> bool {
        matches!(self.tokens.first(), Some(first) if begins_index(&first))
    }

    #[inline(always)]
    pub(crate) fn begins_basic(&self) -> bool {
        matches!(self.tokens.first(), Some(first) if is_name(&first) || begins_literal(&first))
    }

    pub(crate) fn begins_note_basic(&self, depth: usize) -> bool {
        match self.tokens.first() {
            Some(first) => {
                is_quoted(&first) || depth > 0 && is_name(&first) || begins_literal(&first)
            }
            None => false,
        }
    }

    #[inline(always)]
    pub(crate) fn begins_decl(&self) -> bool
        ensures { result ≡ next_passes begins_decl (lexemes self.now) }
    {
        matches!(self.tokens.first(), Some(first) if begins_decl(&first))
    }
}
