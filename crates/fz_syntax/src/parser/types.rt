//! Reads types and the lengths of arrays.

ghost use Rattle.std.specs.Prelude.{◌≡◌, length, IfOk};
ghost use Rattle.fz_tree.specs.View.{bare_literal, bare_bounds, bare_base, bare_indexes};
ghost use Rattle.fz_syntax.specs.Outcome.{Gives};
ghost use Rattle.fz_syntax.specs.Reading.{range_at, bounds_at, int_at, base_at, plain_at, one_at, size_at, index_at, any_index_at, listed_index, separated_at, param_prefix_at, prefix_at, type_at};
ghost use Rattle.fz_syntax.specs.Placed.{placed_literal, placed_bounds, placed_base};
ghost use Rattle.fz_syntax.specs.Walk.{Walks, Passes};

use crate::parser::cursor::Parser;
use crate::parser::refusal::Refusal;
use fz_tree::{Base, Limits, Literal, LiteralKind, Mark, TokenKind};

/// The most index sets of an array.
const MOST_INDEXES: usize = 6;

impl<'a> Parser<'a> {
    /// A range whose first number starts at `start`.
    #[tactic(auto, unfolding(crate::specs::Reading::range_at), using(crate::proofs::Walks::steps))]
    fn range(&mut self, start: usize) -> Result<Literal, Refusal>
        ensures read { Gives self.old self.new result bare_literal range_at }
        ensures walked { Passes self.old self.new result }
        ensures span { IfOk result (λ l. (l.span.start ≡ start) × (l.span.end ≡ self.new.reached)) }
    {
        let low = self.whole()?;
        self.expect(Mark::DotDot)?;
        let high = self.whole()?;
        Ok(self.literal_since(start, LiteralKind::Range(low, high)))
    }

    /// Bounds whose first token starts at `start`.
    #[tactic(auto, unfolding(crate::specs::Reading::bounds_at), using(crate::proofs::Walks::steps))]
    fn bounds_from(&mut self, limits: &Limits, start: usize) -> Result<Literal, Refusal>
        ensures read { Gives self.old self.new result bare_literal (bounds_at limits.now) }
        ensures walked { Passes self.old self.new result }
        ensures span { IfOk result (λ l. (l.span.start ≡ start) × (l.span.end ≡ self.new.reached)) }
    {
        if self.eat(Mark::OpenBrace) {
            self.braces(limits, start)
        } else {
            self.range(start)
        }
    }

    pub(crate) fn bounds(&mut self, limits: &Limits) -> Result<Literal, Refusal>
        ensures read { Gives self.old self.new result bare_literal (bounds_at limits.now) }
        ensures walked { Walks self.old self.new result placed_literal }
    {
        let start = self.place().start;
        self.bounds_from(limits, start)
    }

    /// The word `int`, or bounds.
    #[tactic(auto, unfolding(crate::specs::Reading::int_at), using(crate::proofs::Walks::steps))]
    pub(crate) fn int(&mut self, limits: &Limits) -> Result<Option<Literal>, Refusal>
        ensures read { Gives self.old self.new result bare_bounds (int_at limits.now) }
        ensures walked { Walks self.old self.new result placed_bounds }
    {
        if self.eat_word(b"int") {
            Ok(None)
        } else {
            Ok(Some(self.bounds(limits)?))
        }
    }

    #[tactic(auto, unfolding(crate::specs::Reading::base_at), using(crate::proofs::Walks::steps))]
    pub(crate) fn base(&mut self, limits: &Limits) -> Result<Base, Refusal>
        ensures read { Gives self.old self.new result bare_base (base_at limits.now) }
        ensures walked { Walks self.old self.new result placed_base }
    {
        if self.eat_word(b"bool") {
            Ok(Base::Bool)
        } else if self.eat_word(b"set") {
            self.expect_word(b"of")?;
            Ok(Base::Set(self.int(limits)?))
        } else {
            Ok(Base::Int(self.int(limits)?))
        }
    }

    /// The type of a parameter.
    #[tactic(auto, unfolding(crate::specs::Reading::plain_at), using(crate::proofs::Walks::steps))]
    pub(crate) fn plain(&mut self) -> Result<Base, Refusal>
        ensures read { Gives self.old self.new result bare_base plain_at }
        ensures walked { Walks self.old self.new result placed_base }
    {
        if self.eat_word(b"bool") {
            Ok(Base::Bool)
        } else if self.eat_word(b"set") {
            self.expect_word(b"of")?;
            self.expect_word(b"int")?;
            Ok(Base::Set(None))
        } else {
            self.expect_word(b"int")?;
            Ok(Base::Int(None))
        }
    }

    #[tactic(auto, unfolding(crate::specs::Reading::one_at), using(crate::proofs::Walks::steps))]
    pub(crate) fn one(&mut self) -> Result<(), Refusal>
        ensures read { Gives self.old self.new result (λ _. tt) one_at }
        ensures walked { Passes self.old self.new result }
    {
        match self.tokens.first() {
            Some(first) => {
                if first.kind == TokenKind::Whole(1) {
                    self.skip();
                    Ok(())
                } else {
                    Err(self.unexpected())
                }
            }
            None => Err(self.unexpected()),
        }
    }

    #[tactic(auto, unfolding(crate::specs::Reading::size_at), using(crate::proofs::Walks::steps))]
    pub(crate) fn size(&mut self, limits: &Limits) -> Result<usize, Refusal>
        ensures read { Gives self.old self.new result (λ n. n) (size_at limits.now) }
        ensures walked { Passes self.old self.new result }
    {
        match self.tokens.first() {
            Some(first) => match first.kind {
                TokenKind::Whole(n) => match usize::try_from(n) {
                    Ok(size) => {
                        if size <= limits.size() {
                            self.skip();
                            Ok(size)
                        } else {
                            Err(Refusal::TooMany)
                        }
                    }
                    Err(_) => Err(self.unexpected()),
                },
                _ => Err(self.unexpected()),
            },
            None => Err(self.unexpected()),
        }
    }

    #[tactic(auto, unfolding(crate::specs::Reading::index_at), using(crate::proofs::Walks::steps))]
    pub(crate) fn index(&mut self, limits: &Limits) -> Result<usize, Refusal>
        ensures read { Gives self.old self.new result (λ n. n) (index_at limits.now) }
        ensures walked { Passes self.old self.new result }
    {
        self.one()?;
        self.expect(Mark::DotDot)?;
        self.size(limits)
    }

    #[tactic(auto, unfolding(crate::specs::Reading::any_index_at), using(crate::proofs::Walks::steps))]
    pub(crate) fn any_index(&mut self, limits: &Limits) -> Result<Option<usize>, Refusal>
        ensures read { Gives self.old self.new result (λ n. n) (any_index_at limits.now) }
        ensures walked { Passes self.old self.new result }
    {
        if self.eat_word(b"int") {
            Ok(None)
        } else {
            Ok(Some(self.index(limits)?))
        }
    }

    /// An index set of an array that has `count` index sets so far.
    #[tactic(auto, using(crate::proofs::Separated::fails_from))]
    fn listed_index(&mut self, limits: &Limits, count: usize) -> Result<Option<usize>, Refusal>
        ensures read { Gives self.old self.new result (λ n. n)
            (listed_index limits.now count) }
        ensures walked { Passes self.old self.new result }
    {
        if count >= MOST_INDEXES {
            return Err(self.full(self.begins_index()));
        }
        self.any_index(limits)
    }

    /// The index sets of an array, up to the bracket after them.
    fn indexes(&mut self, limits: &Limits) -> Result<Vec<Option<usize>>, Refusal>
        ensures read { Gives self.old self.new result (λ v. v.items)
            (separated_at (listed_index limits.now)) }
        ensures walked { Passes self.old self.new result }
    {
        let mut indexes = Vec::new(self.alloc);
        indexes.push(self.listed_index(limits, 0)?)?;
        while self.eat(Mark::Comma) {
            let index = self.listed_index(limits, indexes.len())?;
            indexes.push(index)?;
        }
        Ok(indexes)
    }

    #[tactic(auto, unfolding(crate::specs::Reading::param_prefix_at, crate::specs::Reading::array_at), using(crate::proofs::Walks::steps))]
    pub(crate) fn param_prefix(
        &mut self,
        limits: &Limits,
    ) -> Result<Option<Vec<Option<usize>>>, Refusal>
        ensures read { Gives self.old self.new result bare_indexes (param_prefix_at limits.now) }
        ensures walked { Passes self.old self.new result }
    {
        if !self.eat_word(b"array") {
            return Ok(None);
        }
        self.expect(Mark::OpenBracket)?;
        let indexes = self.indexes(limits)?;
        self.expect(Mark::CloseBracket)?;
        self.expect_word(b"of")?;
        Ok(Some(indexes))
    }

    #[tactic(auto, unfolding(crate::specs::Reading::prefix_at, crate::specs::Reading::array_at), using(crate::proofs::Walks::steps))]
    pub(crate) fn prefix(&mut self, limits: &Limits) -> Result<Option<usize>, Refusal>
        ensures read { Gives self.old self.new result (λ n. n) (prefix_at limits.now) }
        ensures walked { Passes self.old self.new result }
    {
        if !self.eat_word(b"array") {
            return Ok(None);
        }
        self.expect(Mark::OpenBracket)?;
        let length = self.index(limits)?;
        self.expect(Mark::CloseBracket)?;
        self.expect_word(b"of")?;
        Ok(Some(length))
    }

    #[tactic(auto, unfolding(crate::specs::Reading::type_at), using(crate::proofs::Walks::steps))]
    pub(crate) fn element_type(&mut self, limits: &Limits, is_var: bool) -> Result<Base, Refusal>
        ensures read { Gives self.old self.new result bare_base (type_at limits.now is_var) }
        ensures walked { Walks self.old self.new result placed_base }
    {
        if is_var {
            self.base(limits)
        } else {
            self.plain()
        }
    }
}
