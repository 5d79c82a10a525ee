//! The tokens of FlatZinc, and the lexer that cuts a text into them: `lex` lists the tokens of a
//! whole text, and `Tokens` reads them one by one without memory. `Limits` says how large a text
//! may be, and a `Span` is a range of its bytes. Then the tree of a model and the printed items of
//! a block, what their texts are, and the canonical text of a tree (`to_text`). An internal crate
//! of `fz_syntax`, which passes on what is here. Its worked cases are in `tests/cases`
//! (`calls.txt`) and `tests/broken`.
#![tactic(auto)]

mod ahead;
mod error;
mod lexer;
mod limits;
mod printer;
mod scanner;
mod span;
mod token;
mod tree;
mod word;

pub use ahead::{Listed, Tokens};
pub use error::SyntaxError;
pub use lexer::lex;
pub use limits::Limits;
pub use printer::to_text;
pub use span::Span;
pub use token::{Mark, Token, TokenKind};
pub use tree::{
    Ast, Base, Basic, Constraint, Decl, Expr, Goal, Literal, LiteralKind, Name, Note, NoteArg,
    NoteBasic, Param, Predicate, Printed, PrintedValue, Solve,
};
