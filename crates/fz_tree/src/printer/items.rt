//! Items, each on a line of its own.

ghost use Rattle.std.specs.Prelude.{map, OnOk};
ghost use Rattle.std.specs.List.{flat_map};
ghost use Rattle.fz_tree.specs.View.{bare, bare_param, bare_predicate, bare_value, bare_decl, bare_constraint, bare_goal, bare_solve};
ghost use Rattle.fz_tree.specs.Tokens.{in_parens, separated, param_toks, predicate_toks, value_toks, decl_toks, constraint_toks, goal_toks, solve_toks, toks};
ghost use Rattle.fz_tree.specs.Printing.{Prints};

use crate::printer::Printer;
use crate::token::Mark;
use crate::tree::{Ast, Constraint, Decl, Expr, Goal, Param, Predicate, Solve};
use std::alloc::AllocError;

impl Printer {
    pub(crate) fn param(&mut self, param: &Param<'_>) -> Result<(), AllocError>
        ensures { OnOk result (Prints self.old self.new (param_toks (bare_param param.now))) }
    {
        self.param_prefix(&param.array)?;
        self.var(param.is_var)?;
        self.base(&param.base)?;
        self.mark(Mark::Colon)?;
        self.text(param.name.text)
    }

    pub(crate) fn params(&mut self, params: &[Param<'_>]) -> Result<(), AllocError>
        ensures { OnOk result (Prints self.old self.new
            (in_parens (separated param_toks (map bare_param params.now)))) }
    {
        self.mark(Mark::OpenParen)?;
        if let [first, others @ ..] = params {
            self.param(first)?;
            for other in others {
                self.mark(Mark::Comma)?;
                self.param(other)?;
            }
        }
        self.mark(Mark::CloseParen)
    }

    pub(crate) fn predicate(&mut self, predicate: &Predicate<'_>) -> Result<(), AllocError>
        ensures { OnOk result (Prints self.old self.new
            (predicate_toks (bare_predicate predicate.now))) }
    {
        self.text(b"predicate")?;
        self.text(predicate.name.text)?;
        self.params(&predicate.params)?;
        self.mark(Mark::Semicolon)
    }

    pub(crate) fn value(&mut self, value: &Option<Expr<'_>>) -> Result<(), AllocError>
        ensures { OnOk result (Prints self.old self.new (value_toks (bare_value value.now))) }
    {
        if let Some(expr) = value {
            self.mark(Mark::Equals)?;
            self.expr(expr)?;
        }
        Ok(())
    }

    pub(crate) fn decl(&mut self, decl: &Decl<'_>) -> Result<(), AllocError>
        ensures { OnOk result (Prints self.old self.new (decl_toks (bare_decl decl.now))) }
    {
        self.prefix(decl.length)?;
        self.var(decl.is_var)?;
        self.base(&decl.base)?;
        self.mark(Mark::Colon)?;
        self.text(decl.name.text)?;
        self.notes(&decl.notes)?;
        self.value(&decl.value)?;
        self.mark(Mark::Semicolon)
    }

    pub(crate) fn constraint(&mut self, constraint: &Constraint<'_>) -> Result<(), AllocError>
        ensures { OnOk result (Prints self.old self.new
            (constraint_toks (bare_constraint constraint.now))) }
    {
        self.text(b"constraint")?;
        self.text(constraint.name.text)?;
        self.arguments(&constraint.args)?;
        self.notes(&constraint.notes)?;
        self.mark(Mark::Semicolon)
    }

    pub(crate) fn goal(&mut self, goal: &Goal<'_>) -> Result<(), AllocError>
        ensures { OnOk result (Prints self.old self.new (goal_toks (bare_goal goal.now))) }
    {
        match goal {
            Goal::Satisfy => self.text(b"satisfy"),
            Goal::Minimize(objective) => {
                self.text(b"minimize")?;
                self.basic(objective)
            }
            Goal::Maximize(objective) => {
                self.text(b"maximize")?;
                self.basic(objective)
            }
        }
    }

    pub(crate) fn solve(&mut self, solve: &Solve<'_>) -> Result<(), AllocError>
        ensures { OnOk result (Prints self.old self.new (solve_toks (bare_solve solve.now))) }
    {
        self.text(b"solve")?;
        self.notes(&solve.notes)?;
        self.goal(&solve.goal)?;
        self.mark(Mark::Semicolon)
    }

    pub(crate) fn predicates(&mut self, predicates: &[Predicate<'_>]) -> Result<(), AllocError>
        ensures { OnOk result (Prints self.old self.new
            (flat_map predicate_toks (map bare_predicate predicates.now))) }
    {
        for predicate in predicates {
            self.predicate(predicate)?;
        }
        Ok(())
    }

    pub(crate) fn decls(&mut self, decls: &[Decl<'_>]) -> Result<(), AllocError>
        ensures { OnOk result (Prints self.old self.new
            (flat_map decl_toks (map bare_decl decls.now))) }
    {
        for decl in decls {
            self.decl(decl)?;
        }
        Ok(())
    }

    pub(crate) fn constraints(&mut self, constraints: &[Constraint<'_>]) -> Result<(), AllocError>
        ensures { OnOk result (Prints self.old self.new
            (flat_map constraint_toks (map bare_constraint constraints.now))) }
    {
        for constraint in constraints {
            self.constraint(constraint)?;
        }
        Ok(())
    }

    pub(crate) fn tree(&mut self, ast: &Ast<'_>) -> Result<(), AllocError>
        ensures { OnOk result (Prints self.old self.new (toks (bare ast.now))) }
    {
        self.predicates(&ast.predicates)?;
        self.decls(&ast.decls)?;
        self.constraints(&ast.constraints)?;
        self.solve(&ast.solve)
    }
}
