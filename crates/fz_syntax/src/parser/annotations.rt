//! Reads annotations.

ghost use Rattle.std.specs.Prelude.{◌<◌, ◌++◌, length, map, IfOk};
ghost use Rattle.fz_tree.specs.View.{bare_note, bare_arg, bare_basic, bare_notes};
ghost use Rattle.fz_syntax.specs.Outcome.{Gives};
ghost use Rattle.fz_syntax.specs.Reading.{at_most, separated_at, note_at, note_args_at, note_arg_at, note_basic_at, any_number, notes_at, list_at};
ghost use Rattle.fz_tree.specs.declared.token.Mark.TheVariants.{CloseBracket};
ghost use Rattle.fz_syntax.specs.Placed.{placed_mark, placed_separated, placed_note, placed_arg, placed_args, placed_note_basic, placed_notes};
ghost use Rattle.fz_syntax.specs.Walk.{Walks};

use crate::parser::cursor::Parser;
use crate::parser::lists::trimmed;
use crate::parser::refusal::Refusal;
use fz_tree::{Limits, Mark, Note, NoteArg, NoteBasic, TokenKind};

impl<'a> Parser<'a> {
    /// An annotation of at most `depth` levels.
    #[cycle(notes)]
    #[tactic(auto, unfolding(crate::specs::Reading::note_at), using(crate::proofs::Walks::steps))]
    pub(crate) fn note(&mut self, limits: &Limits, depth: usize) -> Result<Note<'a>, Refusal>
        ensures read { Gives self.old self.new result bare_note (note_at limits.now depth) }
        ensures walked { Walks self.old self.new result placed_note }
    {
        if depth == 0 {
            return Err(if self.begins_name() {
                Refusal::TooDeep
            } else {
                self.unexpected()
            });
        }
        let name = self.name()?;
        let args = self.note_args(limits, depth - 1)?;
        Ok(Note { name, args })
    }

    #[cycle(notes)]
    #[tactic(auto, unfolding(crate::specs::Reading::note_args_at, crate::specs::Reading::mark_at), using(crate::proofs::Walks::steps))]
    pub(crate) fn note_args(
        &mut self,
        limits: &Limits,
        depth: usize,
    ) -> Result<Vec<NoteArg<'a>>, Refusal>
        ensures read { Gives self.old self.new result (λ v. map bare_arg v.items)
            (note_args_at limits.now depth (note_at limits.now depth)) }
        ensures walked { Walks self.old self.new result
            (λ v. placed_args (map placed_arg v.items)) }
    {
        if !self.eat(Mark::OpenParen) {
            return Ok(Vec::new(self.alloc));
        }
        let args = self.separated_note_args(limits, depth)?;
        self.expect(Mark::CloseParen)?;
        Ok(args)
    }

    #[cycle(notes)]
    pub(crate) fn separated_note_args(
        &mut self,
        limits: &Limits,
        depth: usize,
    ) -> Result<Vec<NoteArg<'a>>, Refusal>
        ensures read { Gives self.old self.new result (λ v. map bare_arg v.items)
            (separated_at (any_number (note_arg_at limits.now depth (note_at limits.now depth)))) }
        ensures walked { Walks self.old self.new result (λ v. placed_separated placed_arg v.items) }
        ensures some { IfOk result (λ v. 0 < length v.items) }
    {
        let mut arguments = self.spare.note_args.list(self.alloc);
        arguments.push(self.note_arg(limits, depth)?)?;
        'more_args: while self.eat(Mark::Comma) {
            let arg = self.note_arg(limits, depth)?;
            arguments.push(arg)?;
        }
        Ok(self.spare.note_args.filled(self.alloc, arguments))
    }

    #[cycle(notes)]
    #[tactic(auto, unfolding(crate::specs::Reading::note_arg_at), using(crate::proofs::Walks::steps))]
    pub(crate) fn note_arg(&mut self, limits: &Limits, depth: usize) -> Result<NoteArg<'a>, Refusal>
        ensures read { Gives self.old self.new result bare_arg
            (note_arg_at limits.now depth (note_at limits.now depth)) }
        ensures walked { Walks self.old self.new result placed_arg }
    {
        if self.eat(Mark::OpenBracket) {
            Ok(NoteArg::List(self.note_list(limits, depth)?))
        } else {
            Ok(NoteArg::One(self.note_basic(limits, depth)?))
        }
    }

    #[cycle(notes)]
    #[tactic(auto, unfolding(crate::specs::Reading::list_at, crate::specs::Reading::mark_at), using(crate::proofs::Walks::steps))]
    pub(crate) fn note_list(
        &mut self,
        limits: &Limits,
        depth: usize,
    ) -> Result<Vec<NoteBasic<'a>>, Refusal>
        ensures read { Gives self.old self.new result (λ v. map bare_basic v.items)
            (list_at CloseBracket (at_most limits.now.elements
            (note_basic_at limits.now (note_at limits.now depth)))) }
        ensures walked { Walks self.old self.new result
            (λ v. placed_separated placed_note_basic v.items ++ placed_mark CloseBracket) }
    {
        if self.eat(Mark::CloseBracket) {
            return Ok(Vec::new(self.alloc));
        }
        let basics = self.separated_note_basics(limits, depth)?;
        self.expect(Mark::CloseBracket)?;
        Ok(basics)
    }

    #[cycle(notes)]
    pub(crate) fn separated_note_basics(
        &mut self,
        limits: &Limits,
        depth: usize,
    ) -> Result<Vec<NoteBasic<'a>>, Refusal>
        ensures read { Gives self.old self.new result (λ v. map bare_basic v.items) (separated_at
            (at_most limits.now.elements (note_basic_at limits.now (note_at limits.now depth)))) }
        ensures walked { Walks self.old self.new result
            (λ v. placed_separated placed_note_basic v.items) }
    {
        let mut basics = Vec::new(self.alloc);
        basics.push(self.listed_note_basic(limits, depth, 0)?)?;
        'more_basics: while self.eat(Mark::Comma) {
            let basic = self.listed_note_basic(limits, depth, basics.len())?;
            basics.push(basic)?;
        }
        Ok(trimmed(self.alloc, basics))
    }

    /// An element of a list that has `count` elements so far.
    #[cycle(notes)]
    #[tactic(auto, using(crate::proofs::Separated::fails_from))]
    pub(crate) fn listed_note_basic(
        &mut self,
        limits: &Limits,
        depth: usize,
        count: usize,
    ) -> Result<NoteBasic<'a>, Refusal>
        ensures read { Gives self.old self.new result bare_basic (at_most limits.now.elements
            (note_basic_at limits.now (note_at limits.now depth)) count) }
        ensures walked { Walks self.old self.new result placed_note_basic }
    {
        if count >= limits.elements() {
            return Err(if depth == 0 && self.begins_name() {
                Refusal::TooDeep
            } else {
                self.full(self.begins_note_basic(depth))
            });
        }
        self.note_basic(limits, depth)
    }

    #[cycle(notes)]
    #[tactic(auto, unfolding(crate::specs::Reading::note_basic_at), using(crate::proofs::Walks::steps))]
    pub(crate) fn note_basic(
        &mut self,
        limits: &Limits,
        depth: usize,
    ) -> Result<NoteBasic<'a>, Refusal>
        ensures read { Gives self.old self.new result bare_basic
            (note_basic_at limits.now (note_at limits.now depth)) }
        ensures walked { Walks self.old self.new result placed_note_basic }
    {
        if let Some(first) = self.tokens.first() {
            match first.kind {
                TokenKind::FloatText => {
                    self.skip();
                    return Ok(NoteBasic::Float(first.text));
                }
                TokenKind::Str => {
                    self.skip();
                    return Ok(NoteBasic::Str(first.text));
                }
                _ => {}
            }
        }
        if self.begins_name() {
            Ok(NoteBasic::Inner(self.note(limits, depth)?))
        } else {
            Ok(NoteBasic::Lit(self.literal(limits)?))
        }
    }

    pub(crate) fn notes(&mut self, limits: &Limits) -> Result<Vec<Note<'a>>, Refusal>
        ensures read { Gives self.old self.new result (λ v. bare_notes v.items)
            (notes_at limits.now) }
        ensures walked { Walks self.old self.new result (λ v. placed_notes v.items) }
    {
        let mut notes = self.spare.notes.list(self.alloc);
        while self.eat(Mark::ColonColon) {
            let note = self.note(limits, limits.depth())?;
            notes.push(note)?;
        }
        Ok(self.spare.notes.filled(self.alloc, notes))
    }
}
