//! The items of a model, offered one after another. Each kind has a type of its own, which a call
//! takes and gives back or gives up for the next one: so no call can come out of order, and none
//! after an error.

ghost use Rattle.std.specs.Prelude.{◌≡◌, ◌<◌, ◌≤◌, [], length, IfErr, IfOk, Err};
ghost use Rattle.fz_tree.specs.declared.error.SyntaxError.TheVariants.{TooLong};
ghost use Rattle.fz_syntax.specs.Offering.{IsLeft, IsRefusedAt, IsRefusedBy, IsRefusedWithin, IsTextOfAllWithin, IsWithin, Offers, Took, TookAll, TookOne, all_items, from_constraints, from_decls, from_predicates, from_solve, left_of};

use crate::parser::cursor::Parser;
use crate::parser::lists::trimmed;
use crate::parser::refusal::Refusal;
use fz_tree::{Constraint, Decl, Limits, Predicate, Solve, SyntaxError, Tokens};
use std::alloc::Global;

/// What is left of a text. No item is stored.
#[derive(Drop)]
pub(crate) struct Rest<'a> {
    pub(crate) parser: Parser<'a>,
    pub(crate) source: &'a [u8],
    pub(crate) limits: Limits,
}

impl<'a> Rest<'a> {
    /// The error where the grammar refuses the next token: a lexical fault of the source comes
    /// first, wherever it is.
    fn refused(&self, refusal: Refusal) -> SyntaxError
        ensures { length self.now.source.now ≤ self.now.limits.bytes
            → self.now.parser.end ≡ length self.now.source.now
            → IsRefusedBy self.now.limits self.now.source.now refusal result }
    {
        let error = self.parser.refused(refusal);
        match Tokens::new(self.source).finish() {
            Ok(()) => error,
            Err(lexical) => lexical,
        }
    }

    /// The solve item, which ends the text.
    fn solve(mut self) -> Result<Solve<'a>, SyntaxError>
        requires { IsWithin from_solve self }
        ensures left { IfOk result (IsLeft from_solve self.entry) }
        ensures refused { IfErr result (IsRefusedAt self.entry) }
    {
        let limits = self.limits;
        let item = match self.parser.solve(&limits) {
            Ok(item) => item,
            Err(refusal) => return Err(self.refused(refusal)),
        };
        if self.parser.tokens.first().is_some() {
            return Err(self.refused(self.parser.unexpected()));
        }
        self.parser.tokens.finish()?;
        Ok(item)
    }
}

/// The next item of a kind with those behind it, or what is behind the last of the kind.
#[derive(Drop)]
pub enum Offer<X, S, T> {
    Item(X, S),
    End(T),
}

/// The items of a text from a predicate item on.
#[derive(Drop)]
pub struct PredicateItems<'a> {
    pub(crate) rest: Rest<'a>,
    ghost within: { IsWithin from_predicates rest },
}

/// The items of a text from a declaration on, behind all predicate items.
#[derive(Drop)]
pub struct DeclItems<'a> {
    pub(crate) rest: Rest<'a>,
    ghost within: { IsWithin from_decls rest },
}

/// The items of a text from a constraint on, behind all declarations.
#[derive(Drop)]
pub struct ConstraintItems<'a> {
    pub(crate) rest: Rest<'a>,
    ghost within: { IsWithin from_constraints rest },
}

impl<'a> PredicateItems<'a> {
    /// All items of a text, read under these limits.
    ///
    /// # Errors
    ///
    /// `TooLong`: the source has more bytes than the limits allow.
    pub fn new(
        alloc: Global,
        source: &'a [u8],
        limits: Limits,
    ) -> Result<PredicateItems<'a>, SyntaxError>
        ensures text { IfOk result (λ i. (r : _) → IsLeft from_predicates i.rest r
            → IsTextOfAllWithin limits source.now (all_items r)) }
        ensures source { IfOk result (λ i. i.rest.source.now ≡ source.now) }
        ensures limits { IfOk result (λ i. i.rest.limits ≡ limits) }
        ensures too_long { (limits.bytes < length source.now) → result ≡ Err TooLong }
        ensures only_too_long { IfErr result
            (λ e. (e ≡ TooLong) × (limits.bytes < length source.now)) }
        ensures refused { IfErr result (IsRefusedWithin limits source.now) }
    {
        if source.len() > limits.bytes() {
            return Err(SyntaxError::TooLong);
        }
        let rest = Rest {
            parser: Parser::new(alloc, source),
            source,
            limits,
        };
        Ok(PredicateItems { rest })
    }

    /// The next predicate item, or the declarations where there is none.
    ///
    /// # Errors
    ///
    /// Those of `parse`.
    pub fn next(
        self,
    ) -> Result<Offer<Predicate<'a>, PredicateItems<'a>, DeclItems<'a>>, SyntaxError>
        ensures offers { Offers self.entry.rest
            (λ p more. TookOne from_predicates p self.entry.rest more.rest)
            (λ behind. TookAll from_predicates from_decls [] self.entry.rest behind.rest) result }
    {
        let PredicateItems { mut rest } = self;
        if !rest.parser.next_word(b"predicate") {
            return Ok(Offer::End(DeclItems { rest }));
        }
        let limits = rest.limits;
        match rest.parser.predicate(&limits) {
            Ok(item) => Ok(Offer::Item(item, PredicateItems { rest })),
            Err(refusal) => Err(rest.refused(refusal)),
        }
    }

    /// All predicate items, and the declarations.
    pub(crate) fn all(self) -> Result<(Vec<Predicate<'a>>, DeclItems<'a>), SyntaxError>
        ensures all { IfOk result
            (λ r. TookAll from_predicates from_decls r.0.items self.entry.rest r.1.rest) }
        ensures refused { IfErr result (IsRefusedAt self.entry.rest) }
    {
        let alloc = self.rest.parser.alloc;
        let mut all = Vec::new(alloc);
        let mut items = self;
        loop {
            match items.next()? {
                Offer::Item(item, more) => {
                    all.push(item)?;
                    items = more;
                }
                Offer::End(behind) => return Ok((trimmed(alloc, all), behind)),
            }
        }
    }
}

impl<'a> DeclItems<'a> {
    /// The next declaration, or the constraints where there is none.
    ///
    /// # Errors
    ///
    /// Those of `parse`.
    pub fn next(self) -> Result<Offer<Decl<'a>, DeclItems<'a>, ConstraintItems<'a>>, SyntaxError>
        ensures offers { Offers self.entry.rest
            (λ d more. TookOne from_decls d self.entry.rest more.rest)
            (λ behind. TookAll from_decls from_constraints [] self.entry.rest behind.rest) result }
    {
        let DeclItems { mut rest } = self;
        if !rest.parser.begins_decl() {
            return Ok(Offer::End(ConstraintItems { rest }));
        }
        let limits = rest.limits;
        match rest.parser.decl(&limits) {
            Ok(item) => Ok(Offer::Item(item, DeclItems { rest })),
            Err(refusal) => Err(rest.refused(refusal)),
        }
    }

    /// Takes the lists of a declaration that is done with, for the items to come.
    pub fn give_back(&mut self, item: Decl<'a>)
        ensures same { Took from_decls [] self.old.rest self.new.rest }
        ensures left { left_of self.new.rest ≡ left_of self.old.rest }
    {
        let rest = &mut self.rest;
        let parser = &mut rest.parser;
        parser.spare.give_back_decl(item);
    }

    /// All declarations, and the constraints.
    pub(crate) fn all(self) -> Result<(Vec<Decl<'a>>, ConstraintItems<'a>), SyntaxError>
        ensures all { IfOk result
            (λ r. TookAll from_decls from_constraints r.0.items self.entry.rest r.1.rest) }
        ensures refused { IfErr result (IsRefusedAt self.entry.rest) }
    {
        let alloc = self.rest.parser.alloc;
        let mut all = Vec::new(alloc);
        let mut items = self;
        loop {
            match items.next()? {
                Offer::Item(item, more) => {
                    all.push(item)?;
                    items = more;
                }
                Offer::End(behind) => return Ok((trimmed(alloc, all), behind)),
            }
        }
    }
}

impl<'a> ConstraintItems<'a> {
    /// The next constraint, or the solve item, which ends the text.
    ///
    /// # Errors
    ///
    /// Those of `parse`.
    pub fn next(self) -> Result<Offer<Constraint<'a>, ConstraintItems<'a>, Solve<'a>>, SyntaxError>
        ensures offers { Offers self.entry.rest
            (λ c more. TookOne from_constraints c self.entry.rest more.rest)
            (λ solve. IsLeft from_constraints self.entry.rest ([], solve)) result }
    {
        let ConstraintItems { mut rest } = self;
        if !rest.parser.next_word(b"constraint") {
            return Ok(Offer::End(rest.solve()?));
        }
        let limits = rest.limits;
        match rest.parser.constraint(&limits) {
            Ok(item) => Ok(Offer::Item(item, ConstraintItems { rest })),
            Err(refusal) => Err(rest.refused(refusal)),
        }
    }

    /// Takes the lists of a constraint that is done with, for the items to come.
    pub fn give_back(&mut self, item: Constraint<'a>)
        ensures same { Took from_constraints [] self.old.rest self.new.rest }
        ensures left { left_of self.new.rest ≡ left_of self.old.rest }
    {
        let rest = &mut self.rest;
        let parser = &mut rest.parser;
        parser.spare.give_back_constraint(item);
    }

    /// All constraints, and the solve item.
    pub(crate) fn all(self) -> Result<(Vec<Constraint<'a>>, Solve<'a>), SyntaxError>
        ensures all { IfOk result
            (λ r. IsLeft from_constraints self.entry.rest (r.0.items, r.1)) }
        ensures refused { IfErr result (IsRefusedAt self.entry.rest) }
    {
        let alloc = self.rest.parser.alloc;
        let mut all = Vec::new(alloc);
        let mut items = self;
        loop {
            match items.next()? {
                Offer::Item(item, more) => {
                    all.push(item)?;
                    items = more;
                }
                Offer::End(solve) => return Ok((trimmed(alloc, all), solve)),
            }
        }
    }
}
