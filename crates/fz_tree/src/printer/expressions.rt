//! Numbers, names, literals and expressions.

ghost use Rattle.std.specs.Prelude.{map, OnOk};
ghost use Rattle.fz_tree.specs.View.{bare_literal, bare_expression, bare_expr};
ghost use Rattle.fz_tree.specs.Tokens.{separated, in_parens, number_toks, literal_toks, basic_toks, expr_toks};
ghost use Rattle.fz_tree.specs.Printing.{Prints};

use crate::printer::Printer;
use crate::token::Mark;
use crate::tree::{Basic, Expr, Literal, LiteralKind};
use std::alloc::AllocError;

impl Printer {
    pub(crate) fn numbers(&mut self, numbers: &[i64]) -> Result<(), AllocError>
        ensures { OnOk result (Prints self.old self.new (separated number_toks numbers.now)) }
    {
        if let [first, others @ ..] = numbers {
            self.number(*first)?;
            for other in others {
                self.mark(Mark::Comma)?;
                self.number(*other)?;
            }
        }
        Ok(())
    }

    pub(crate) fn literal(&mut self, literal: &Literal) -> Result<(), AllocError>
        ensures { OnOk result (Prints self.old self.new (literal_toks (bare_literal literal.now))) }
    {
        match &literal.what {
            LiteralKind::Whole(number) => self.number(*number),
            LiteralKind::Truth(true) => self.text(b"true"),
            LiteralKind::Truth(false) => self.text(b"false"),
            LiteralKind::Range(low, high) => {
                self.number(*low)?;
                self.mark(Mark::DotDot)?;
                self.number(*high)
            }
            LiteralKind::Braces(numbers) => {
                self.mark(Mark::OpenBrace)?;
                self.numbers(numbers)?;
                self.mark(Mark::CloseBrace)
            }
        }
    }

    pub(crate) fn basic(&mut self, basic: &Basic<'_>) -> Result<(), AllocError>
        ensures { OnOk result (Prints self.old self.new (basic_toks (bare_expression basic.now))) }
    {
        match basic {
            Basic::Lit(literal) => self.literal(literal),
            Basic::Named(name) => self.text(name.text),
        }
    }

    pub(crate) fn basics(&mut self, basics: &[Basic<'_>]) -> Result<(), AllocError>
        ensures { OnOk result (Prints self.old self.new
            (separated basic_toks (map bare_expression basics.now))) }
    {
        if let [first, others @ ..] = basics {
            self.basic(first)?;
            for other in others {
                self.mark(Mark::Comma)?;
                self.basic(other)?;
            }
        }
        Ok(())
    }

    pub(crate) fn expr(&mut self, expr: &Expr<'_>) -> Result<(), AllocError>
        ensures { OnOk result (Prints self.old self.new (expr_toks (bare_expr expr.now))) }
    {
        match expr {
            Expr::One(basic) => self.basic(basic),
            Expr::List(basics) => {
                self.mark(Mark::OpenBracket)?;
                self.basics(basics)?;
                self.mark(Mark::CloseBracket)
            }
        }
    }

    /// The arguments of a constraint.
    pub(crate) fn arguments(&mut self, args: &[Expr<'_>]) -> Result<(), AllocError>
        ensures { OnOk result (Prints self.old self.new
            (in_parens (separated expr_toks (map bare_expr args.now)))) }
    {
        self.mark(Mark::OpenParen)?;
        if let [first, others @ ..] = args {
            self.expr(first)?;
            for other in others {
                self.mark(Mark::Comma)?;
                self.expr(other)?;
            }
        }
        self.mark(Mark::CloseParen)
    }
}
