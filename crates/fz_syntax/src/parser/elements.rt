//! Lists of elements with commas between them.

ghost use Rattle.std.specs.Prelude.{ℕ, List, [], ◌∷◌, Ok, ◌≡◌, ◌<◌, ◌++◌, length, map, IfSome, IfNone};
ghost use Rattle.fz_tree.specs.Token.{Marked};
ghost use Rattle.fz_tree.specs.declared.token.Mark.TheVariants.{Comma};
ghost use Rattle.fz_tree.specs.declared.limits.Limits.{Limits};
ghost use Rattle.fz_tree.specs.Tree as tree;
ghost use Rattle.fz_tree.specs.View.{bare_expr, bare_expression, bare_literal, bare_param};
ghost use Rattle.fz_syntax.specs.Outcome.{Gives};
ghost use Rattle.fz_syntax.specs.Reading.{Reader, any_number, at_most, basic_at, expr_at, list_at, literal_at, literal_basic_at, param_at, separated_at};
ghost use Rattle.fz_syntax.specs.Placed.{PlacedToken, placed_basic, placed_expr, placed_literal, placed_mark, placed_param, placed_separated};
ghost use Rattle.fz_syntax.specs.Walk.{Walk, Walks, lexemes};

use crate::parser::cursor::Parser;
use crate::parser::lists::trimmed;
use crate::parser::refusal::Refusal;
use fz_tree::{Basic, Expr, Limits, Literal, Mark, Param};

/// What the elements of a list are.
pub(crate) trait Element<'a> {
    type Item: Drop;

    /// What an element is read as, its tokens, and how it is read behind so many others.
    ghost Plain: { Type 0 };

    ghost bare: { Self.Item → Plain };

    ghost placed: { Self.Item → List PlacedToken };

    ghost reading: { Limits → ℕ → Reader Plain };

    /// An empty list.
    fn none(parser: &mut Parser<'a>) -> Vec<Self::Item>
        ensures empty { result.items ≡ [] }
        ensures tokens { parser.new.tokens ≡ parser.old.tokens }
        ensures reached { parser.new.reached ≡ parser.old.reached }
        ensures end { parser.new.end ≡ parser.old.end };

    /// The next element of a list that has `count` elements so far.
    fn next(parser: &mut Parser<'a>, limits: &Limits, count: usize) -> Result<Self::Item, Refusal>
        ensures read { Gives parser.old parser.new result bare (reading limits.now count) }
        ensures walked { Walks parser.old parser.new result placed };

    /// The next element and the comma after it, where this is quickly seen. Nearly all elements of
    /// long lists are such, of some kinds.
    fn listed(parser: &mut Parser<'a>, limits: &Limits, count: usize) -> Option<Self::Item>
        ensures read { IfSome result (λ x. reading limits.now count (lexemes parser.old)
            ≡ Ok (bare x, Marked Comma ∷ lexemes parser.new)) }
        ensures walked { IfSome result
            (λ x. Walk parser.old parser.new (placed x ++ placed_mark Comma)) }
        ensures kept { IfNone result (lexemes parser.new ≡ lexemes parser.old) }
        ensures stays { IfNone result (Walk parser.old parser.new []) };

    /// The list, which has all of its elements.
    fn filled(parser: &Parser<'a>, list: Vec<Self::Item>) -> Vec<Self::Item>
        ensures { result.items ≡ list.items };
}

/// The arguments of a constraint.
pub(crate) struct Arguments;

impl<'a> Element<'a> for Arguments {
    type Item = Expr<'a>;

    ghost Plain = { tree.Expr };

    ghost bare = { bare_expr };

    ghost placed = { placed_expr };

    ghost reading = { λ limits. any_number (expr_at limits) };

    fn none(parser: &mut Parser<'a>) -> Vec<Expr<'a>> {
        parser.spare.exprs.list(parser.alloc)
    }

    fn next(parser: &mut Parser<'a>, limits: &Limits, _count: usize) -> Result<Expr<'a>, Refusal> {
        parser.expr(limits)
    }

    #[inline(always)]
    fn listed(_parser: &mut Parser<'a>, _limits: &Limits, _count: usize) -> Option<Expr<'a>> {
        None
    }

    fn filled(parser: &Parser<'a>, list: Vec<Expr<'a>>) -> Vec<Expr<'a>>
        ensures { result.items ≡ list.entry.items }
    {
        parser.spare.exprs.filled(parser.alloc, list)
    }
}

/// The parameters of a predicate.
pub(crate) struct Parameters;

impl<'a> Element<'a> for Parameters {
    type Item = Param<'a>;

    ghost Plain = { tree.Param };

    ghost bare = { bare_param };

    ghost placed = { placed_param };

    ghost reading = { λ limits. any_number (param_at limits) };

    fn none(parser: &mut Parser<'a>) -> Vec<Param<'a>> {
        Vec::new(parser.alloc)
    }

    fn next(parser: &mut Parser<'a>, limits: &Limits, _count: usize) -> Result<Param<'a>, Refusal> {
        parser.param(limits)
    }

    #[inline(always)]
    fn listed(_parser: &mut Parser<'a>, _limits: &Limits, _count: usize) -> Option<Param<'a>> {
        None
    }

    fn filled(parser: &Parser<'a>, list: Vec<Param<'a>>) -> Vec<Param<'a>>
        ensures { result.items ≡ list.entry.items }
    {
        trimmed(parser.alloc, list)
    }
}

/// The elements of a list among the values.
pub(crate) struct Basics;

impl<'a> Element<'a> for Basics {
    type Item = Basic<'a>;

    ghost Plain = { tree.Basic };

    ghost bare = { bare_expression };

    ghost placed = { placed_basic };

    ghost reading = { λ limits. at_most limits.elements (basic_at limits) };

    fn none(parser: &mut Parser<'a>) -> Vec<Basic<'a>> {
        parser.spare.basics.list(parser.alloc)
    }

    #[tactic(auto, using(crate::proofs::Separated::fails_from))]
    #[inline(always)]
    fn next(parser: &mut Parser<'a>, limits: &Limits, count: usize) -> Result<Basic<'a>, Refusal> {
        if count >= limits.elements() {
            return Err(parser.full(parser.begins_basic()));
        }
        parser.basic(limits)
    }

    #[inline(always)]
    fn listed(_parser: &mut Parser<'a>, _limits: &Limits, _count: usize) -> Option<Basic<'a>> {
        None
    }

    fn filled(parser: &Parser<'a>, list: Vec<Basic<'a>>) -> Vec<Basic<'a>>
        ensures { result.items ≡ list.entry.items }
    {
        parser.spare.basics.filled(parser.alloc, list)
    }
}

/// The elements of a list of literals.
pub(crate) struct Literals;

impl<'a> Element<'a> for Literals {
    type Item = Basic<'a>;

    ghost Plain = { tree.Basic };

    ghost bare = { bare_expression };

    ghost placed = { placed_basic };

    ghost reading = { λ limits. at_most limits.elements (literal_basic_at limits) };

    fn none(parser: &mut Parser<'a>) -> Vec<Basic<'a>> {
        parser.spare.basics.list(parser.alloc)
    }

    #[tactic(auto, using(crate::proofs::Separated::fails_from))]
    fn next(parser: &mut Parser<'a>, limits: &Limits, count: usize) -> Result<Basic<'a>, Refusal> {
        if count >= limits.elements() {
            return Err(parser.full(parser.begins_literal()));
        }
        parser.literal_basic(limits)
    }

    #[inline(always)]
    fn listed(_parser: &mut Parser<'a>, _limits: &Limits, _count: usize) -> Option<Basic<'a>> {
        None
    }

    fn filled(parser: &Parser<'a>, list: Vec<Basic<'a>>) -> Vec<Basic<'a>>
        ensures { result.items ≡ list.entry.items }
    {
        parser.spare.basics.filled(parser.alloc, list)
    }
}

/// The elements of a printed array.
pub(crate) struct Elements;

impl<'a> Element<'a> for Elements {
    type Item = Literal;

    ghost Plain = { tree.Literal };

    ghost bare = { bare_literal };

    ghost placed = { placed_literal };

    ghost reading = { λ limits. at_most limits.elements (literal_at limits) };

    fn none(parser: &mut Parser<'a>) -> Vec<Literal> {
        Vec::new(parser.alloc)
    }

    #[inline(always)]
    fn listed(parser: &mut Parser<'a>, limits: &Limits, count: usize) -> Option<Literal> {
        if count >= limits.elements() {
            return None;
        }
        parser.eat_listed()
    }

    #[tactic(auto, using(crate::proofs::Separated::fails_from))]
    fn next(parser: &mut Parser<'a>, limits: &Limits, count: usize) -> Result<Literal, Refusal> {
        if count >= limits.elements() {
            return Err(parser.full(parser.begins_literal()));
        }
        parser.literal(limits)
    }

    fn filled(_parser: &Parser<'a>, list: Vec<Literal>) -> Vec<Literal>
        ensures { result.items ≡ list.items }
    {
        list
    }
}

impl<'a> Parser<'a> {
    /// One element, and those after commas.
    #[inline(always)]
    fn separated<E: Element<'a>>(&mut self, limits: &Limits) -> Result<Vec<E::Item>, Refusal>
        requires shrinks { (i : ℕ) (tokens : _) (x : E.Plain) (rest : _)
            → E.reading limits.now i tokens ≡ Ok (x, rest) → length rest < length tokens }
        ensures read { Gives self.old self.new result (λ v. map E.bare v.items)
            (separated_at (E.reading limits.now)) }
        ensures walked { Walks self.old self.new result (λ v. placed_separated E.placed v.items) }
    {
        let mut list = E::none(self);
        'elements: loop {
            'quick: while let Some(element) = E::listed(self, limits, list.len()) {
                list.push(element)?;
            }
            let element = E::next(self, limits, list.len())?;
            list.push(element)?;
            if !self.eat(Mark::Comma) {
                return Ok(E::filled(self, list));
            }
        }
    }

    /// Elements up to the mark that closes their list.
    #[tactic(auto, unfolding(crate::specs::Reading::list_at, crate::specs::Reading::mark_at), using(crate::proofs::Walks::steps))]
    pub(crate) fn list<E: Element<'a>>(
        &mut self,
        limits: &Limits,
        close: Mark,
    ) -> Result<Vec<E::Item>, Refusal>
        requires shrinks { (i : ℕ) (tokens : _) (x : E.Plain) (rest : _)
            → E.reading limits.now i tokens ≡ Ok (x, rest) → length rest < length tokens }
        ensures read { Gives self.old self.new result (λ v. map E.bare v.items)
            (list_at close (E.reading limits.now)) }
        ensures walked { Walks self.old self.new result
            (λ v. placed_separated E.placed v.items ++ placed_mark close) }
    {
        if self.eat(close) {
            return Ok(Vec::new(self.alloc));
        }
        let list = self.separated::<E>(limits)?;
        self.expect(close)?;
        Ok(list)
    }
}
