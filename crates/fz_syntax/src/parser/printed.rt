//! Reads the items of a solver's output.

ghost use Rattle.std.specs.Prelude.{◌≡◌, ◌==◌, if◌then◌else◌, drop, ◌++◌, map, IfOk};
ghost use Rattle.fz_tree.specs.View.{bare_literal, bare_printed_value, bare_printed, bare_items};
ghost use Rattle.fz_syntax.specs.Outcome.{Gives};
ghost use Rattle.fz_syntax.specs.Reading.{any_number, many_at, is_name};
ghost use Rattle.fz_syntax.specs.ReadingItems.{next_dimensions, index_set_at, index_sets_at, printed_array_at, printed_value_at, printed_at};
ghost use Rattle.fz_syntax.specs.Placed.{placed_mark, placed_word, placed_literal, placed_indexes, placed_printed_value, placed_printed, placed_items};
ghost use Rattle.fz_tree.specs.declared.token.Mark.TheVariants.{Comma};
ghost use Rattle.fz_tree.specs.Tokens.{array_word};
ghost use Rattle.fz_syntax.specs.Walk.{Walks, Passed, lexemes};

use crate::parser::cursor::Parser;
use crate::parser::elements::Elements;
use crate::parser::kinds::dimensions;
use crate::parser::refusal::Refusal;
use fz_tree::{Limits, Literal, Mark, Printed, PrintedValue};

impl<'a> Parser<'a> {
    /// Takes the word that begins an array, and gives the number of its index sets, or 0 where the
    /// next token is no such word.
    fn eat_array(&mut self) -> usize
        ensures found { result ≡ next_dimensions (lexemes self.old) }
        ensures left { lexemes self.new ≡ (if next_dimensions (lexemes self.old) == 0
            then lexemes self.old else drop 1 (lexemes self.old)) }
        ensures walked { Passed self.old self.new }
    {
        match self.tokens.first() {
            Some(first) => {
                let found = dimensions(&first);
                if found > 0 {
                    self.skip();
                }
                found
            }
            None => 0,
        }
    }

    #[tactic(auto, unfolding(crate::specs::ReadingItems::index_set_at), using(crate::proofs::Walks::steps))]
    fn index_set(&mut self, limits: &Limits) -> Result<Literal, Refusal>
        ensures read { Gives self.old self.new result bare_literal (index_set_at limits.now) }
        ensures walked { Walks self.old self.new result
            (λ l. placed_literal l ++ placed_mark Comma) }
    {
        let bounds = self.bounds(limits)?;
        self.expect(Mark::Comma)?;
        Ok(bounds)
    }

    fn index_sets(&mut self, limits: &Limits, count: usize) -> Result<Vec<Literal>, Refusal>
        ensures read { Gives self.old self.new result (λ v. map bare_literal v.items)
            (index_sets_at limits.now count) }
        ensures walked { Walks self.old self.new result (λ v. placed_indexes v.items) }
    {
        let mut sets = Vec::new(self.alloc);
        while sets.len() < count {
            let set = self.index_set(limits)?;
            sets.push(set)?;
        }
        Ok(sets)
    }

    /// An array, after its word, which says how many index sets it has.
    #[tactic(auto, unfolding(crate::specs::ReadingItems::printed_array_at), using(crate::proofs::Walks::steps))]
    fn printed_array(&mut self, limits: &Limits, dimensions: usize) -> Result<PrintedValue, Refusal>
        ensures read { Gives self.old self.new result bare_printed_value
            (printed_array_at limits.now dimensions) }
        ensures walked { Walks self.old self.new result (λ v. drop 1 (placed_printed_value v)) }
        ensures worded { IfOk result (λ v. placed_printed_value v
            ≡ placed_word (array_word dimensions) ++ drop 1 (placed_printed_value v)) }
    {
        self.expect(Mark::OpenParen)?;
        let indexes = self.index_sets(limits, dimensions)?;
        self.expect(Mark::OpenBracket)?;
        let elements = self.list::<Elements>(limits, Mark::CloseBracket)?;
        self.expect(Mark::CloseParen)?;
        Ok(PrintedValue::Array { indexes, elements })
    }

    #[tactic(auto, unfolding(crate::specs::ReadingItems::printed_value_at), using(crate::proofs::Walks::steps))]
    fn printed_value(&mut self, limits: &Limits) -> Result<PrintedValue, Refusal>
        ensures read { Gives self.old self.new result bare_printed_value
            (printed_value_at limits.now) }
        ensures walked { Walks self.old self.new result placed_printed_value }
    {
        let dimensions = self.eat_array();
        if dimensions == 0 {
            Ok(PrintedValue::One(self.literal(limits)?))
        } else {
            self.printed_array(limits, dimensions)
        }
    }

    #[tactic(auto, unfolding(crate::specs::ReadingItems::printed_at), using(crate::proofs::Walks::steps))]
    fn printed(&mut self, limits: &Limits) -> Result<Printed<'a>, Refusal>
        ensures read { Gives self.old self.new result bare_printed (printed_at limits.now) }
        ensures walked { Walks self.old self.new result placed_printed }
    {
        let name = self.name()?;
        self.expect(Mark::Equals)?;
        let value = self.printed_value(limits)?;
        self.expect(Mark::Semicolon)?;
        Ok(Printed { name, value })
    }

    pub(crate) fn printed_items(&mut self, limits: &Limits) -> Result<Vec<Printed<'a>>, Refusal>
        ensures read { Gives self.old self.new result (λ v. bare_items v.items)
            (many_at is_name (any_number (printed_at limits.now)) 0) }
        ensures walked { Walks self.old self.new result (λ v. placed_items v.items) }
    {
        let mut items = Vec::new(self.alloc);
        while self.begins_name() {
            let item = self.printed(limits)?;
            items.push(item)?;
        }
        Ok(items)
    }
}
