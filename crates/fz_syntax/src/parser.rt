//! From tokens to a tree, by recursive descent, with no list of tokens in between.

ghost use Rattle.std.specs.Prelude.{◌≡◌, ◌<◌, ◌↔◌, length, List, [], IfOk, IfErr, MatchResult, Err};
ghost use Rattle.std.specs.List.{AllByRecursion};
ghost use Rattle.fz_tree.specs.Spanned.{IsPlacedWithin, most_bytes};
ghost use Rattle.fz_syntax.specs.Walk.{Walk, ahead, lexemes};
ghost use Rattle.fz_syntax.specs.Placed.{ArePlacedIn, placed_tree, placed_items};
ghost use Rattle.fz_syntax.specs.Spots.{Stand, spots, item_spots};
ghost use Rattle.fz_tree.specs.View.{bare, bare_items};
ghost use Rattle.fz_syntax.specs.Outcome.{IsWhole};
ghost use Rattle.fz_tree.specs.declared.limits.Limits.{Limits};
ghost use Rattle.fz_tree.specs.Text.{IsTextOfTreeWithin, IsTextOfItemsWithin, IsTree, IsPrinted};
ghost use Rattle.fz_tree.specs.Refusals.{IsValue, IsRefusalOf, IsRefusalWithin, IsTextOfTree, IsTextOfItems};
ghost use Rattle.fz_syntax.specs.ReadingItems.{items_of};
ghost use Rattle.fz_tree.specs.Tokens.{toks, itoks};
ghost use Rattle.fz_tree.specs.Tree as tree;
ghost use Rattle.fz_tree.specs.declared.error.SyntaxError.TheVariants.{TooLong, Memory};

mod annotations;
pub(crate) mod cursor;
mod elements;
mod expressions;
mod items;
mod kinds;
pub(crate) mod lists;
mod printed;
pub(crate) mod refusal;
mod types;

use crate::parser::cursor::Parser;
use crate::reader::PredicateItems;
use fz_tree::{Ast, Limits, Printed, SyntaxError, Tokens};
use std::alloc::Global;

/// Reads all tokens that are left as printed items.
#[tactic(auto, unfolding(crate::specs::ReadingItems::items_of, crate::specs::ReadingItems::items_at, crate::specs::Reading::ended))]
fn read_all_items<'a>(
    parser: &mut Parser<'a>,
    limits: &Limits,
) -> Result<Vec<Printed<'a>>, SyntaxError>
    ensures whole { IsWhole (λ v. bare_items v.items) result
        (items_of limits.now (lexemes parser.old)) }
    ensures placed { IfErr result (IsPlacedWithin parser.old.end) }
    ensures walked { IfOk result (λ v. Walk parser.old parser.new (placed_items v.items)) }
    ensures ended { IfOk result (λ _. ahead parser.new ≡ []) }
{
    match parser.printed_items(limits) {
        Ok(items) => {
            if parser.tokens.first().is_none() {
                Ok(items)
            } else {
                Err(parser.refused(parser.unexpected()))
            }
        }
        Err(refusal) => Err(parser.refused(refusal)),
    }
}

/// Reads a model: gives the tree of which the bytes are a text, by the grammar of FlatZinc. Its
/// names and texts are slices of the source.
///
/// The tokens are pulled one by one, so only the tree takes memory.
///
/// `TooLong`: the source has more than 16,777,216 bytes. `BadByte` and `TooLarge`, which the lexer
/// finds, come next, from the whole source. `Float`, `Syntax`, `TooDeep` and `TooMany` are at the
/// first token with which the tokens so far no longer begin a text of the grammar within the
/// limits; at the end of the source, at the empty span after the last byte. `Memory` is given where
/// memory runs out, and then the source has no lexical fault.
pub fn parse<'a>(alloc: Global, source: &'a [u8]) -> Result<Ast<'a>, SyntaxError>
    // The source is a text of the tree that is given.
    ensures found { IfOk result (λ a. IsTextOfTree source.now (bare a)) }

    // If the source is a text of a tree, that tree is given, unless memory runs out.
    ensures only { (t : tree.Tree) → IsTextOfTree source.now t → IsValue bare result t }

    // Any tree with the same tokens is this one, whatever its size.
    ensures same { IfOk result (λ a. (limits : Limits) (t : tree.Tree) → IsTree limits t
        → toks t ≡ toks (bare a) → t ≡ bare a) }

    // A source past the limit, and no other, is refused as too long, whatever else is wrong with
    // it.
    ensures too_long { (result ≡ Err TooLong) ↔ (most_bytes < length source.now) }

    // A fault that the lexer finds is the leftmost one, and it comes before each that the grammar
    // finds.
    ensures order { IfErr result (IsRefusalOf source.now) }

    // The byte range of an error is within the source.
    ensures placed { IfErr result (IsPlacedWithin (length source.now)) }

    // The source is cut into the tree's tokens. Each name has the byte range of its own token, and
    // each literal goes from the start of its first token to the end of its last one.
    ensures in_place { IfOk result (λ a. ArePlacedIn source.now (placed_tree a)) }

    // So the names and literals follow one another in the source, and each name has its text.
    ensures stands { IfOk result (λ a. Stand source.now 0 (length source.now) (spots a)) }
{
    parse_within(alloc, source, Limits::STANDARD)
}

/// Reads a model as `parse` does, under these limits in place of the standard ones.
pub fn parse_within<'a>(
    alloc: Global,
    source: &'a [u8],
    limits: Limits,
) -> Result<Ast<'a>, SyntaxError>
    ensures found { IfOk result (λ a. IsTextOfTreeWithin limits source.now (bare a)) }
    ensures only { (t : tree.Tree) → IsTextOfTreeWithin limits source.now t
        → IsValue bare result t }
    ensures same { IfOk result (λ a. (any : Limits) (t : tree.Tree) → IsTree any t
        → toks t ≡ toks (bare a) → t ≡ bare a) }
    ensures too_long { (result ≡ Err TooLong) ↔ (limits.bytes < length source.now) }
    ensures order { IfErr result (IsRefusalWithin limits source.now) }
    ensures placed { IfErr result (IsPlacedWithin (length source.now)) }
    ensures in_place { IfOk result (λ a. ArePlacedIn source.now (placed_tree a)) }
    ensures stands { IfOk result (λ a. Stand source.now 0 (length source.now) (spots a)) }
{
    let (predicates, items) = PredicateItems::new(alloc, source, limits)?.all()?;
    let (decls, items) = items.all()?;
    let (constraints, solve) = items.all()?;
    Ok(Ast {
        predicates,
        decls,
        constraints,
        solve,
    })
}

/// The items of a text that a solver printed: `name = value;` each, in order. Spans count from the
/// first byte of the slice. The errors are those of `parse`.
pub fn read_items<'a>(alloc: Global, source: &'a [u8]) -> Result<Vec<Printed<'a>>, SyntaxError>
    // The source is a text of the items that are given.
    ensures found { IfOk result (λ items. IsTextOfItems source.now (bare_items items.items)) }

    // If the source is a text of some items, they are given, unless memory runs out.
    ensures only { (items : List tree.Printed) → IsTextOfItems source.now items
        → IsValue (λ given. bare_items given.items) result items }

    // Any items with the same tokens are these, whatever their size.
    ensures same { IfOk result (λ items. (limits : Limits) (others : List tree.Printed)
        → AllByRecursion (IsPrinted limits) others → itoks others ≡ itoks (bare_items items.items)
        → others ≡ bare_items items.items) }

    // A source past the limit, and no other, is refused as too long, whatever else is wrong with
    // it.
    ensures too_long { (result ≡ Err TooLong) ↔ (most_bytes < length source.now) }

    // A fault that the lexer finds is the leftmost one, and it comes before each that the grammar
    // finds.
    ensures order { IfErr result (IsRefusalOf source.now) }

    // The byte range of an error is within the source.
    ensures placed { IfErr result (IsPlacedWithin (length source.now)) }

    // The source is cut into the items' tokens, and each name and literal has the byte range of its
    // own tokens.
    ensures in_place { IfOk result (λ items. ArePlacedIn source.now (placed_items items.items)) }

    // So the names and literals follow one another in the source, and each name has its text.
    ensures stands { IfOk result (λ a. Stand source.now 0 (length source.now)
        (item_spots a.items)) }

    // The empty source has no items.
    ensures empty { source.now ≡ []
        → MatchResult result (λ items. items.items ≡ []) (λ e. e ≡ Memory) }
{
    read_items_within(alloc, source, Limits::STANDARD)
}

/// Reads printed items as `read_items` does, under these limits in place of the standard ones.
pub fn read_items_within<'a>(
    alloc: Global,
    source: &'a [u8],
    limits: Limits,
) -> Result<Vec<Printed<'a>>, SyntaxError>
    ensures found { IfOk result
        (λ items. IsTextOfItemsWithin limits source.now (bare_items items.items)) }
    ensures only { (items : List tree.Printed) → IsTextOfItemsWithin limits source.now items
        → IsValue (λ given. bare_items given.items) result items }
    ensures same { IfOk result (λ items. (any : Limits) (others : List tree.Printed)
        → AllByRecursion (IsPrinted any) others → itoks others ≡ itoks (bare_items items.items)
        → others ≡ bare_items items.items) }
    ensures too_long { (result ≡ Err TooLong) ↔ (limits.bytes < length source.now) }
    ensures order { IfErr result (IsRefusalWithin limits source.now) }
    ensures placed { IfErr result (IsPlacedWithin (length source.now)) }
    ensures in_place { IfOk result (λ items. ArePlacedIn source.now (placed_items items.items)) }
    ensures stands { IfOk result (λ a. Stand source.now 0 (length source.now)
        (item_spots a.items)) }
    ensures empty { source.now ≡ []
        → MatchResult result (λ items. items.items ≡ []) (λ e. e ≡ Memory) }
{
    if source.len() > limits.bytes() {
        return Err(SyntaxError::TooLong);
    }
    let mut parser = Parser::new(alloc, source);
    match read_all_items(&mut parser, &limits) {
        Ok(items) => {
            parser.tokens.finish()?;
            Ok(items)
        }
        Err(error) => {
            Tokens::new(source).finish()?;
            Err(error)
        }
    }
}
