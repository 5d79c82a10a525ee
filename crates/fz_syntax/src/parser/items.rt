//! Reads the items of a model.

ghost use Rattle.std.specs.Prelude.{◌≡◌, codes, length, true};
ghost use Rattle.fz_tree.specs.View.{bare_expr, bare_param, bare_predicate, bare_constraint, bare_goal, bare_solve, bare_value, bare_decl};
ghost use Rattle.fz_syntax.specs.Outcome.{Gives};
ghost use Rattle.fz_syntax.specs.Reading.{param_at, predicate_at, next_word, constraint_at, goal_at, solve_at, decl_at, value_at, given_value_at, may_lack_value};
ghost use Rattle.fz_syntax.specs.Placed.{placed_expr, placed_param, placed_predicate, placed_constraint, placed_goal, placed_solve, placed_value, placed_decl};
ghost use Rattle.fz_syntax.specs.Walk.{Walks, lexemes};

use crate::parser::cursor::Parser;
use crate::parser::elements::{Arguments, Basics, Literals, Parameters};
use crate::parser::kinds::may_lack_value;
use crate::parser::refusal::Refusal;
use fz_tree::{Constraint, Decl, Expr, Goal, Limits, Mark, Param, Predicate, Solve};

impl<'a> Parser<'a> {
    #[tactic(auto, unfolding(crate::specs::Reading::param_at, crate::specs::Reading::var_at), using(crate::proofs::Walks::steps))]
    pub(crate) fn param(&mut self, limits: &Limits) -> Result<Param<'a>, Refusal>
        ensures read { Gives self.old self.new result bare_param (param_at limits.now) }
        ensures walked { Walks self.old self.new result placed_param }
    {
        let array = self.param_prefix(limits)?;
        let is_var = self.eat_word(b"var");
        let base = self.base(limits)?;
        self.expect(Mark::Colon)?;
        let name = self.name()?;
        Ok(Param {
            array,
            is_var,
            base,
            name,
        })
    }

    #[tactic(auto, unfolding(crate::specs::Reading::predicate_at), using(crate::proofs::Walks::steps))]
    pub(crate) fn predicate(&mut self, limits: &Limits) -> Result<Predicate<'a>, Refusal>
        ensures read { Gives self.old self.new result bare_predicate (predicate_at limits.now) }
        ensures walked { Walks self.old self.new result placed_predicate }
    {
        self.expect_word(b"predicate")?;
        let name = self.name()?;
        self.expect(Mark::OpenParen)?;
        let params = self.list::<Parameters>(limits, Mark::CloseParen)?;
        self.expect(Mark::Semicolon)?;
        Ok(Predicate { name, params })
    }

    #[tactic(auto, unfolding(crate::specs::Reading::constraint_at, crate::specs::Reading::word_at), using(crate::proofs::Walks::steps))]
    /// A constraint, whose first word has been looked at.
    pub(crate) fn constraint(&mut self, limits: &Limits) -> Result<Constraint<'a>, Refusal>
        requires begun { next_word (codes "constraint") (lexemes self.old) ≡ true }
        ensures read { Gives self.old self.new result bare_constraint (constraint_at limits.now) }
        ensures walked { Walks self.old self.new result placed_constraint }
    {
        self.skip();
        let name = self.name()?;
        self.expect(Mark::OpenParen)?;
        let args = self.list::<Arguments>(limits, Mark::CloseParen)?;
        let notes = self.notes(limits)?;
        self.expect(Mark::Semicolon)?;
        Ok(Constraint { name, args, notes })
    }

    #[tactic(auto, unfolding(crate::specs::Reading::goal_at), using(crate::proofs::Walks::steps))]
    pub(crate) fn goal(&mut self, limits: &Limits) -> Result<Goal<'a>, Refusal>
        ensures read { Gives self.old self.new result bare_goal (goal_at limits.now) }
        ensures walked { Walks self.old self.new result placed_goal }
    {
        if self.eat_word(b"minimize") {
            Ok(Goal::Minimize(self.basic(limits)?))
        } else if self.eat_word(b"maximize") {
            Ok(Goal::Maximize(self.basic(limits)?))
        } else {
            self.expect_word(b"satisfy")?;
            Ok(Goal::Satisfy)
        }
    }

    #[tactic(auto, unfolding(crate::specs::Reading::solve_at), using(crate::proofs::Walks::steps))]
    pub(crate) fn solve(&mut self, limits: &Limits) -> Result<Solve<'a>, Refusal>
        ensures read { Gives self.old self.new result bare_solve (solve_at limits.now) }
        ensures walked { Walks self.old self.new result placed_solve }
    {
        self.expect_word(b"solve")?;
        let notes = self.notes(limits)?;
        let goal = self.goal(limits)?;
        self.expect(Mark::Semicolon)?;
        Ok(Solve { notes, goal })
    }

    #[tactic(auto, unfolding(crate::specs::Reading::value_at), using(crate::proofs::Walks::steps))]
    pub(crate) fn value(
        &mut self,
        limits: &Limits,
        is_var: bool,
        array: Option<usize>,
    ) -> Result<Expr<'a>, Refusal>
        ensures read { Gives self.old self.new result bare_expr (value_at limits.now is_var array) }
        ensures walked { Walks self.old self.new result placed_expr }
    {
        match (is_var, array) {
            (true, None) => Ok(Expr::One(self.basic(limits)?)),
            (false, None) => Ok(Expr::One(self.literal_basic(limits)?)),
            (true, Some(_)) => {
                self.expect(Mark::OpenBracket)?;
                Ok(Expr::List(self.list::<Basics>(limits, Mark::CloseBracket)?))
            }
            (false, Some(_)) => {
                self.expect(Mark::OpenBracket)?;
                Ok(Expr::List(self.list::<Literals>(limits, Mark::CloseBracket)?))
            }
        }
    }

    #[tactic(auto, unfolding(crate::specs::Reading::given_value_at), using(crate::proofs::Walks::steps))]
    pub(crate) fn given_value(
        &mut self,
        limits: &Limits,
        is_var: bool,
        array: Option<usize>,
    ) -> Result<Option<Expr<'a>>, Refusal>
        ensures read { Gives self.old self.new result bare_value
            (given_value_at limits.now is_var array) }
        ensures walked { Walks self.old self.new result placed_value }
    {
        if may_lack_value(is_var, array) && !self.next_is(Mark::Equals) {
            return Ok(None);
        }
        self.expect(Mark::Equals)?;
        Ok(Some(self.value(limits, is_var, array)?))
    }

    #[tactic(auto, unfolding(crate::specs::Reading::decl_at, crate::specs::Reading::var_at), using(crate::proofs::Walks::steps))]
    pub(crate) fn decl(&mut self, limits: &Limits) -> Result<Decl<'a>, Refusal>
        ensures read { Gives self.old self.new result bare_decl (decl_at limits.now) }
        ensures walked { Walks self.old self.new result placed_decl }
    {
        let length = self.prefix(limits)?;
        let is_var = self.eat_word(b"var");
        let base = self.element_type(limits, is_var)?;
        self.expect(Mark::Colon)?;
        let name = self.name()?;
        let notes = self.notes(limits)?;
        let value = self.given_value(limits, is_var, length)?;
        self.expect(Mark::Semicolon)?;
        Ok(Decl {
            is_var,
            length,
            base,
            name,
            notes,
            value,
        })
    }
}
