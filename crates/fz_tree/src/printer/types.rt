//! Types of declarations and of parameters.

ghost use Rattle.std.specs.Prelude.{OnOk};
ghost use Rattle.fz_tree.specs.View.{bare_bounds, bare_base, bare_indexes};
ghost use Rattle.fz_tree.specs.Tokens.{separated, any_index_toks, bounds_toks, base_toks, var_toks, prefix_toks, param_prefix_toks};
ghost use Rattle.fz_tree.specs.Printing.{Prints};

use crate::printer::Printer;
use crate::token::Mark;
use crate::tree::{Base, Literal};
use std::alloc::AllocError;

impl Printer {
    pub(crate) fn bounds(&mut self, bounds: &Option<Literal>) -> Result<(), AllocError>
        ensures { OnOk result (Prints self.old self.new (bounds_toks (bare_bounds bounds.now))) }
    {
        match bounds {
            Some(literal) => self.literal(literal),
            None => self.text(b"int"),
        }
    }

    pub(crate) fn base(&mut self, base: &Base) -> Result<(), AllocError>
        ensures { OnOk result (Prints self.old self.new (base_toks (bare_base base.now))) }
    {
        match base {
            Base::Bool => self.text(b"bool"),
            Base::Int(bounds) => self.bounds(bounds),
            Base::Set(bounds) => {
                self.text(b"set")?;
                self.text(b"of")?;
                self.bounds(bounds)
            }
        }
    }

    pub(crate) fn var(&mut self, is_var: bool) -> Result<(), AllocError>
        ensures { OnOk result (Prints self.old self.new (var_toks is_var)) }
    {
        if is_var {
            self.text(b"var")?;
        }
        Ok(())
    }

    /// What is before an array's element type: `array`, its index set and `of`; nothing for a
    /// scalar.
    pub(crate) fn prefix(&mut self, length: Option<usize>) -> Result<(), AllocError>
        ensures { OnOk result (Prints self.old self.new (prefix_toks length)) }
    {
        let Some(length) = length else {
            return Ok(());
        };
        self.text(b"array")?;
        self.mark(Mark::OpenBracket)?;
        self.index(length)?;
        self.mark(Mark::CloseBracket)?;
        self.text(b"of")
    }

    fn any_index(&mut self, index: Option<usize>) -> Result<(), AllocError>
        ensures { OnOk result (Prints self.old self.new (any_index_toks index)) }
    {
        match index {
            None => self.text(b"int"),
            Some(length) => self.index(length),
        }
    }

    fn indexes(&mut self, indexes: &[Option<usize>]) -> Result<(), AllocError>
        ensures { OnOk result (Prints self.old self.new (separated any_index_toks indexes.now)) }
    {
        if let [first, others @ ..] = indexes {
            self.any_index(*first)?;
            for other in others {
                self.mark(Mark::Comma)?;
                self.any_index(*other)?;
            }
        }
        Ok(())
    }

    /// What is before the type of a predicate's parameter: `array`, its index sets and `of`;
    /// nothing for a scalar.
    pub(crate) fn param_prefix(
        &mut self,
        array: &Option<Vec<Option<usize>>>,
    ) -> Result<(), AllocError>
        ensures { OnOk result (Prints self.old self.new
            (param_prefix_toks (bare_indexes array.now))) }
    {
        match array {
            None => Ok(()),
            Some(indexes) => {
                self.text(b"array")?;
                self.mark(Mark::OpenBracket)?;
                self.indexes(indexes)?;
                self.mark(Mark::CloseBracket)?;
                self.text(b"of")
            }
        }
    }
}
