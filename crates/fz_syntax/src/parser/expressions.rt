//! Reads literals, names and lists of them.

ghost use Rattle.std.specs.Prelude.{◌≡◌, ◌<◌, ◌∷◌, ◌++◌, length, IfOk, IfSome, IfNone, []};
ghost use Rattle.fz_tree.specs.View.{lexeme, bare_literal, bare_expression, bare_expr};
ghost use Rattle.fz_syntax.specs.Outcome.{Gives, IsListed};
ghost use Rattle.fz_syntax.specs.Reading.{whole_at, at_most, separated_at, braces_at, from_whole, literal_at, basic_at, expr_at, literal_basic_at};
ghost use Rattle.fz_tree.specs.Token.{Whole, Marked};
ghost use Rattle.fz_tree.specs.declared.token.Mark.TheVariants.{Comma};
ghost use Rattle.fz_syntax.specs.Placed.{placed_mark, placed_literal, placed_basic, placed_expr};
ghost use Rattle.fz_syntax.specs.Walk.{Walks, Walk, Passes, Passed, placed_listed, lexemes};

use crate::parser::cursor::Parser;
use crate::parser::elements::Basics;
use crate::parser::kinds::{kind_of, plain_of};
use crate::parser::lists::trimmed;
use crate::parser::refusal::Refusal;
use fz_tree::{Basic, Expr, Limits, Literal, LiteralKind, Mark, Token, TokenKind};

impl<'a> Parser<'a> {
    /// Takes the next token and the comma after it, where nothing is between them.
    #[inline(always)]
    fn eat_with_comma(&mut self) -> Option<Token<'a>>
        ensures read { IfSome result (λ t. lexemes self.old
            ≡ lexeme t ∷ (Marked Comma ∷ lexemes self.new)) }
        ensures walked { IfSome result
            (λ t. Walk self.old self.new (placed_listed (lexeme t) t.span)) }
        ensures kept { IfNone result (lexemes self.new ≡ lexemes self.old) }
        ensures stays { IfNone result (Walk self.old self.new []) }
    {
        match self.tokens.take_listed() {
            Some(listed) => {
                self.reached = listed.comma.end;
                Some(listed.token)
            }
            None => None,
        }
    }

    /// Takes a literal of one token and the comma after it, as an element of a list, where they are
    /// next and nothing is between them. Nearly all elements of long lists are such.
    #[inline(always)]
    pub(crate) fn eat_listed(&mut self) -> Option<Literal>
        ensures read { IfSome result (λ l. IsListed (bare_literal l) (lexemes self.old)
            (lexemes self.new)) }
        ensures walked { IfSome result
            (λ l. Walk self.old self.new (placed_literal l ++ placed_mark Comma)) }
        ensures kept { IfNone result (lexemes self.new ≡ lexemes self.old) }
        ensures stays { IfNone result (Walk self.old self.new []) }
    {
        let first = self.tokens.first()?;
        let plain = plain_of(&first)?;
        let taken = self.eat_with_comma()?;
        Some(Literal {
            span: taken.span,
            what: kind_of(plain),
        })
    }

    /// The same for a number in braces, whose list has `count` elements so far and isn't full.
    #[inline(always)]
    fn eat_listed_whole(&mut self, limits: &Limits, count: usize) -> Option<i64>
        ensures room { IfSome result (λ _. count < limits.now.elements) }
        ensures read { IfSome result (λ n. lexemes self.old
            ≡ Whole n ∷ (Marked Comma ∷ lexemes self.new)) }
        ensures shorter { IfSome result
            (λ _. length (lexemes self.new) < length (lexemes self.old)) }
        ensures walked { Passed self.old self.new }
        ensures kept { IfNone result (lexemes self.new ≡ lexemes self.old) }
    {
        if count >= limits.elements() {
            return None;
        }
        let first = self.tokens.first()?;
        let TokenKind::Whole(value) = first.kind else {
            return None;
        };
        self.eat_with_comma()?;
        Some(value)
    }

    /// A number of a list that has `count` elements so far.
    #[tactic(auto, using(crate::proofs::Separated::fails_from))]
    #[inline(always)]
    pub(crate) fn listed_whole(&mut self, limits: &Limits, count: usize) -> Result<i64, Refusal>
        ensures read { Gives self.old self.new result (λ n. n)
            (at_most limits.now.elements whole_at count) }
        ensures walked { Passes self.old self.new result }
    {
        if count >= limits.elements() {
            return Err(self.full(self.begins_whole()));
        }
        self.whole()
    }

    pub(crate) fn numbers(&mut self, limits: &Limits) -> Result<Vec<i64>, Refusal>
        ensures read { Gives self.old self.new result (λ v. v.items)
            (separated_at (at_most limits.now.elements whole_at)) }
        ensures walked { Passes self.old self.new result }
    {
        let mut numbers = Vec::new(self.alloc);
        'numbers: loop {
            // Numbers with a comma right after them: mostly all but the last.
            'listed: while let Some(number) = self.eat_listed_whole(limits, numbers.len()) {
                numbers.push(number)?;
            }
            let number = self.listed_whole(limits, numbers.len())?;
            numbers.push(number)?;
            if !self.eat(Mark::Comma) {
                return Ok(trimmed(self.alloc, numbers));
            }
        }
    }

    /// Numbers after the brace that opened at `start`.
    #[tactic(auto, unfolding(crate::specs::Reading::braces_at, crate::specs::Reading::list_at, crate::specs::Reading::mark_at), using(crate::proofs::Walks::steps))]
    pub(crate) fn braces(&mut self, limits: &Limits, start: usize) -> Result<Literal, Refusal>
        ensures read { Gives self.old self.new result bare_literal (braces_at limits.now) }
        ensures walked { Passes self.old self.new result }
        ensures span { IfOk result (λ l. (l.span.start ≡ start) × (l.span.end ≡ self.new.reached)) }
    {
        if self.eat(Mark::CloseBrace) {
            return Ok(self.literal_since(start, LiteralKind::Braces(Vec::new(self.alloc))));
        }
        let numbers = self.numbers(limits)?;
        self.expect(Mark::CloseBrace)?;
        Ok(self.literal_since(start, LiteralKind::Braces(numbers)))
    }

    #[inline(always)]
    #[tactic(auto, unfolding(crate::specs::Reading::from_whole), using(crate::proofs::Walks::steps))]
    pub(crate) fn from_whole(&mut self, low: i64, start: usize) -> Result<Literal, Refusal>
        ensures read { Gives self.old self.new result bare_literal (from_whole low) }
        ensures walked { Passes self.old self.new result }
        ensures span { IfOk result (λ l. (l.span.start ≡ start) × (l.span.end ≡ self.new.reached)) }
    {
        if !self.eat(Mark::DotDot) {
            return Ok(self.literal_since(start, LiteralKind::Whole(low)));
        }
        let high = self.whole()?;
        Ok(self.literal_since(start, LiteralKind::Range(low, high)))
    }

    /// A literal whose first token starts at `start`.
    #[inline(always)]
    #[tactic(auto, unfolding(crate::specs::Reading::literal_at), using(crate::proofs::Walks::steps))]
    fn literal_from(&mut self, limits: &Limits, start: usize) -> Result<Literal, Refusal>
        ensures read { Gives self.old self.new result bare_literal (literal_at limits.now) }
        ensures walked { Passes self.old self.new result }
        ensures span { IfOk result (λ l. (l.span.start ≡ start) × (l.span.end ≡ self.new.reached)) }
    {
        if self.begins_whole() {
            let low = self.whole()?;
            self.from_whole(low, start)
        } else if self.eat_word(b"true") {
            Ok(self.literal_since(start, LiteralKind::Truth(true)))
        } else if self.eat_word(b"false") {
            Ok(self.literal_since(start, LiteralKind::Truth(false)))
        } else if self.eat(Mark::OpenBrace) {
            self.braces(limits, start)
        } else {
            Err(self.unexpected())
        }
    }

    #[inline(always)]
    pub(crate) fn literal(&mut self, limits: &Limits) -> Result<Literal, Refusal>
        ensures read { Gives self.old self.new result bare_literal (literal_at limits.now) }
        ensures walked { Walks self.old self.new result placed_literal }
    {
        let start = self.place().start;
        self.literal_from(limits, start)
    }

    #[inline(always)]
    #[tactic(auto, unfolding(crate::specs::Reading::basic_at), using(crate::proofs::Walks::steps))]
    pub(crate) fn basic(&mut self, limits: &Limits) -> Result<Basic<'a>, Refusal>
        ensures read { Gives self.old self.new result bare_expression (basic_at limits.now) }
        ensures walked { Walks self.old self.new result placed_basic }
    {
        if self.begins_name() {
            Ok(Basic::Named(self.name()?))
        } else {
            Ok(Basic::Lit(self.literal(limits)?))
        }
    }

    #[inline(always)]
    #[tactic(auto, unfolding(crate::specs::Reading::expr_at), using(crate::proofs::Walks::steps))]
    pub(crate) fn expr(&mut self, limits: &Limits) -> Result<Expr<'a>, Refusal>
        ensures read { Gives self.old self.new result bare_expr (expr_at limits.now) }
        ensures walked { Walks self.old self.new result placed_expr }
    {
        if self.eat(Mark::OpenBracket) {
            Ok(Expr::List(self.list::<Basics>(limits, Mark::CloseBracket)?))
        } else {
            Ok(Expr::One(self.basic(limits)?))
        }
    }

    #[tactic(auto, unfolding(crate::specs::Reading::literal_basic_at), using(crate::proofs::Walks::steps))]
    pub(crate) fn literal_basic(&mut self, limits: &Limits) -> Result<Basic<'a>, Refusal>
        ensures read { Gives self.old self.new result bare_expression
            (literal_basic_at limits.now) }
        ensures walked { Walks self.old self.new result placed_basic }
    {
        Ok(Basic::Lit(self.literal(limits)?))
    }
}
