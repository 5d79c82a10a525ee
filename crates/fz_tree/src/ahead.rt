//! Reads the tokens of a source one by one, with no list of them.

ghost use Rattle.std.specs.Prelude.{◌≡◌, ◌≢◌, ◌∷◌, [], List, length, drop, IsOk, IfErr, IfSome, IfNone, OnOk};
ghost use Rattle.std.specs.List.{AllByRecursion};
ghost use Rattle.fz_tree.specs.Lexing.{LexesWithin, SpannedToken};
ghost use Rattle.fz_tree.specs.Found.{AreInOrder, IsScanned, IsScanFault};
ghost use Rattle.fz_tree.specs.Spanned.{spanned, IsSpelledAtSpan, IsLexicalFaultWithin, IsPlacedWithin, AreWithinLimit, LexesToSpanned};
ghost use Rattle.fz_tree.specs.Ahead.{tokens_ahead};
ghost use Rattle.fz_tree.specs.declared.limits.Limits.{Limits};
ghost use Rattle.fz_tree.specs.Left.{left, listed_comma, source_of};

use crate::error::SyntaxError;
use crate::lexer::Lexer;
use crate::span::Span;
use crate::token::Token;

/// Goes over the rest of a text.
#[tactic(auto, using(crate::proofs::AheadLaws::fault_scanned, crate::proofs::Next::fault_is_not))]
fn scan(mut lexer: Lexer<'_>) -> Result<(), SyntaxError>
    ensures found { OnOk result (IsScanned lexer.entry.source.now) }
    ensures refused { IfErr result (IsScanFault lexer.entry.source.now) }
{
    while let Some(_token) = lexer.next_token()? {}
    Ok(())
}

/// The tokens of a text that are left to read, up to its end or to its first lexical fault.
#[derive(Drop)]
pub struct Tokens<'a> {
    lexer: Lexer<'a>,
    first: Option<Token<'a>>,
}

/// A token, and the byte range of the comma right after it.
#[derive(Clone, Copy)]
pub struct Listed<'a> {
    pub token: Token<'a>,
    pub comma: Span,
}

impl<'a> Tokens<'a> {
    /// All tokens of a text.
    #[tactic(auto, using(crate::proofs::AheadLaws::of_ahead))]
    pub fn new(source: &'a [u8]) -> Tokens<'a>
        ensures source { source_of result ≡ source.now }
        ensures all { left result ≡ tokens_ahead source.now 0 }
        // Their byte ranges in the source follow one another, and each has its text.
        ensures in_order { AreInOrder 0 (length source.now) (left result) }
        ensures spelled { AllByRecursion (IsSpelledAtSpan source.now) (left result) }
    {
        let lexer = Lexer { source, place: 0 };
        let mut tokens = Tokens { lexer, first: None };
        tokens.load();
        tokens
    }

    /// The first token that is left.
    #[inline]
    pub fn first(&self) -> Option<Token<'a>>
        ensures is { result ≡ self.now.first }
        ensures none { IfNone result (left self.now ≡ []) }
        ensures some { IfSome result (λ t. left self.now ≡ spanned t ∷ drop 1 (left self.now)) }
    {
        self.first
    }

    /// Drops the first token; where none is left, nothing changes.
    #[inline]
    pub fn advance(&mut self)
        ensures left { left self.new ≡ drop 1 (left self.old) }
        ensures source { source_of self.new ≡ source_of self.old }
    {
        if self.first.is_some() {
            self.load();
        }
    }

    /// Takes the first token that is left and the comma after it, where nothing is between them.
    /// Most elements of a list are such tokens, and so take one step each instead of two.
    #[inline(always)]
    pub fn take_listed(&mut self) -> Option<Listed<'a>>
        ensures taken { IfSome result (λ l. left self.old
            ≡ spanned l.token ∷ (listed_comma l ∷ left self.new)) }
        ensures kept { IfNone result (self.new ≡ self.old) }
        ensures source { source_of self.new ≡ source_of self.old }
    {
        let token = self.first?;
        let comma = self.lexer.eat_comma()?;
        self.load();
        Some(Listed { token, comma })
    }

    /// Reads on to the end of the text, and tells whether the whole text consists of tokens, blanks
    /// and comments, with numbers within the limit. It takes no memory.
    ///
    /// # Errors
    /// The leftmost of `BadByte` and `TooLarge`, wherever it is. No other error comes.
    #[tactic(auto, using(crate::proofs::AheadLaws::of_scan))]
    pub fn finish(self) -> Result<(), SyntaxError>
        // The whole text lexes to the tokens ahead of its first byte, with numbers within the
        // limit.
        ensures lexes { OnOk result (LexesToSpanned (source_of self.entry)
            (tokens_ahead (source_of self.entry) 0)) }
        ensures numbers { OnOk result (AreWithinLimit (tokens_ahead (source_of self.entry) 0)) }
        // It doesn't look at the length of the text, so this is so of all limits.
        ensures only { (limits : Limits) (tokens : List SpannedToken)
            → LexesWithin limits (source_of self.entry) tokens → IsOk result }
        ensures refused { (limits : Limits)
            → IfErr result (IsLexicalFaultWithin limits (source_of self.entry)) }
        ensures no_memory { IfErr result (λ e. e ≢ SyntaxError.Memory) }
        ensures any_length { IfErr result (λ e. e ≢ SyntaxError.TooLong) }
        ensures placed { IfErr result (IsPlacedWithin (length (source_of self.entry))) }
    {
        scan(self.lexer)
    }

    fn load(&mut self)
        ensures left { left self.new ≡ tokens_ahead self.old.lexer.source.now self.old.lexer.place }
        ensures source { source_of self.new ≡ source_of self.old }
    {
        let _ = self.lexer.read(&mut self.first);
    }
}
