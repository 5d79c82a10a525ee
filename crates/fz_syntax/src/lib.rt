//! The syntax of FlatZinc: `parse` gives the tree of a model, `PredicateItems` its items one by one
//! without a tree, `read_items` the items of a block of solver output, and `to_text` the canonical
//! text of a tree. `parse_within` and `read_items_within` are the same under other limits. A
//! facade: it also passes on the lexer, the errors, the limits, the tree and the printer of
//! `fz_tree`. Its worked cases are in `tests/cases` (`shown.txt`, `calls.txt`) and `tests/broken`.
#![tactic(auto)]

mod parser;
mod reader;

ghost use Rattle.fz_tree.specs.Refusals.{TextHasOneTree, TextHasOneListOfItems};

pub use fz_tree::{
    Ast, Base, Basic, Constraint, Decl, Expr, Goal, Limits, Literal, LiteralKind, Mark, Name, Note,
    NoteArg, NoteBasic, Param, Predicate, Printed, PrintedValue, Solve, Span, SyntaxError, Token,
    TokenKind, lex, to_text,
};
pub use parser::{parse, parse_within, read_items, read_items_within};
pub use reader::{ConstraintItems, DeclItems, Offer, PredicateItems};

/// A text has at most one tree.
pub fn text_has_one_tree()
    ensures { TextHasOneTree }
{}

/// A text has at most one list of printed items.
pub fn text_has_one_list_of_items()
    ensures { TextHasOneListOfItems }
{}
