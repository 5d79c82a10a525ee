//! Blocks that aren't satisfied, to be explained.

use crate::binding::Unbound;
use crate::message::Text;
use crate::verdict::{Faults, Reading, faults_of, verdict_place};
use fz_filling::{Completion, Verdict, fill_with_steps};
use fz_index::Refutation;
use fz_places::NameTable;
use fz_store::Model;
use fz_stream::{Block, Limits, parse_within};
use fz_tree::Ast;
use std::alloc::{AllocError, Global};

/// A block with its number, the verdict on it, why bounds refute it where they do, and its text,
/// which is a part of the stream's.
#[derive(Clone, Copy)]
pub struct Case<'e, 'a> {
    pub number: usize,
    pub block: &'e Block<'e>,
    pub verdict: Verdict<'a>,
    pub refuted: Option<&'e Refutation>,
    pub stream: Text<'e>,
}

/// Explains the verdicts on blocks. The text of the model is parsed at the first explanation.
#[derive(Drop)]
pub struct Explainer<'a, 'n> {
    text: Text<'a>,
    ast: Option<Ast<'a>>,
    names: NameTable<'n>,
    completion: Completion,
}

impl<'a, 'n> Explainer<'a, 'n> {
    /// Takes the text of the model, the table of its names, and whether values that the solver left
    /// out are looked for.
    pub fn new(text: Text<'a>, names: NameTable<'n>, completion: Completion) -> Explainer<'a, 'n> {
        Explainer {
            text,
            ast: None,
            names,
            completion,
        }
    }

    /// Parses the text of the model, where that wasn't done before. The text was loaded, under
    /// limits that these are no less than, so only memory can be lacking for it.
    fn parse(&mut self, alloc: Global) {
        if self.ast.is_none() {
            self.ast = parse_within(alloc, self.text.bytes, Limits::LARGE).ok();
        }
    }

    /// The line and the column, in the model's text or in the stream, that the verdict on a block
    /// is about; none where it is satisfied.
    ///
    /// # Errors
    ///
    /// Out of memory.
    pub fn place(
        &mut self,
        alloc: Global,
        case: &Case<'_, '_>,
    ) -> Result<Option<(usize, usize)>, AllocError> {
        self.parse(alloc);
        match &self.ast {
            Some(ast) => Ok(line_and_column(ast, self.text, case)),
            None => Err(AllocError),
        }
    }

    /// What is wrong with a block, against the model that was loaded from the text, in at most so
    /// many messages: the first on the verdict, and the others on further points that fail. There
    /// is none where the block is satisfied.
    ///
    /// # Errors
    ///
    /// Out of memory.
    pub fn faults<'m>(
        &mut self,
        alloc: Global,
        model: &Model<'m>,
        case: &Case<'_, 'm>,
        most: usize,
    ) -> Result<Option<Faults>, AllocError> {
        self.parse(alloc);
        match &self.ast {
            Some(ast) => self.tree_faults(alloc, model, case, most, ast),
            None => Err(AllocError),
        }
    }

    /// The printed variables of the model that nothing binds but their own domains; none where
    /// there are none.
    ///
    /// # Errors
    ///
    /// Out of memory.
    pub fn unconstrained(
        &self,
        alloc: Global,
        model: &Model<'_>,
    ) -> Result<Option<Unbound>, AllocError> {
        Unbound::of(alloc, model, self.text.bytes, &self.names)
    }

    /// The same, where the model is parsed.
    fn tree_faults<'m>(
        &self,
        alloc: Global,
        model: &Model<'m>,
        case: &Case<'_, 'm>,
        most: usize,
        ast: &Ast<'a>,
    ) -> Result<Option<Faults>, AllocError> {
        let Ok((filling, steps)) = fill_with_steps(alloc, model, self.completion, case.block) else {
            return Ok(None);
        };
        let reading = Reading {
            alloc,
            case,
            model,
            text: self.text,
            ast,
            names: &self.names,
            completion: self.completion,
            filling: &filling,
            steps: &steps,
        };
        Ok(Some(faults_of(&reading, most)?))
    }
}

fn line_and_column(ast: &Ast<'_>, text: Text<'_>, case: &Case<'_, '_>) -> Option<(usize, usize)> {
    let (text, place) = verdict_place(ast, text, case)?;
    let spot = text.spot_at(place.start)?;
    Some((spot.line, spot.column))
}
