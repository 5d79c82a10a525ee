//! The canonical text of a tree.

ghost use Rattle.std.specs.Prelude.{◌≡◌, ◌≤◌, ◌++◌, if◌then◌else◌, ℕ, ℤ, List, [], ◌∷◌, length, codes, OnOk, IfOk};
ghost use Rattle.std.specs.Fmt.{signed_decimal};
ghost use Rattle.fz_tree.specs.declared.limits.Limits.{Limits};
ghost use Rattle.fz_tree.specs.Token.{Word, Whole, FloatText, StringText, Marked};
ghost use Rattle.fz_tree.specs.AnyLength.{LexesWithNumbersInLimit};
ghost use Rattle.fz_tree.specs.View.{bare};
ghost use Rattle.fz_tree.specs.Tokens.{toks, index_toks};
ghost use Rattle.fz_tree.specs.Text.{IsTextOfTreeWithin};
ghost use Rattle.fz_tree.specs.Print.{tree_text, CanBeWritten};
ghost use Rattle.fz_tree.specs.Printing.{Prints};

mod annotations;
mod expressions;
mod items;
mod types;

use crate::token::Mark;
use crate::tree::Ast;
use itoa::Buffer;
use std::alloc::{AllocError, Global};

/// The text printed so far, and whether a blank may come behind it. Each method appends the tokens
/// of one part of a tree.
#[derive(Drop)]
pub(crate) struct Printer {
    pub(crate) text: Vec<u8>,
    pub(crate) apart: bool,
}

impl Printer {
    fn put(&mut self, bytes: &[u8], apart: bool) -> Result<(), AllocError>
        ensures text { OnOk result (self.new.text.items ≡ self.old.text.items ++ bytes.now) }
        ensures state { self.new.apart ≡ apart }
    {
        self.apart = apart;
        self.text.extend_from_slice(bytes)
    }

    /// Like `put`, behind a blank where one may come.
    fn put_apart(&mut self, bytes: &[u8], apart: bool) -> Result<(), AllocError>
        ensures text { OnOk result (self.new.text.items ≡ self.old.text.items
            ++ (if self.old.apart then codes " " else []) ++ bytes.now) }
        ensures state { OnOk result (self.new.apart ≡ apart) }
    {
        if self.apart {
            self.text.extend_from_slice(b" ")?;
        }
        self.put(bytes, apart)
    }

    /// The text of a word, of a number, or of a float or a string.
    #[tactic(auto, unfolding(crate::specs::Printing::page, crate::specs::Printing::with_token))]
    pub(crate) fn text(&mut self, text: &[u8]) -> Result<(), AllocError>
        ensures word { OnOk result (Prints self.old self.new (Word text.now ∷ [])) }
        ensures whole { OnOk result ((n : ℤ) → text.now ≡ signed_decimal n
            → Prints self.old self.new (Whole n ∷ [])) }
        ensures float { OnOk result (Prints self.old self.new (FloatText text.now ∷ [])) }
        ensures string { OnOk result (Prints self.old self.new (StringText text.now ∷ [])) }
    {
        self.put_apart(text, true)
    }

    pub(crate) fn number(&mut self, number: i64) -> Result<(), AllocError>
        ensures { OnOk result (Prints self.old self.new (Whole number ∷ [])) }
    {
        let mut buffer = Buffer::new();
        self.text(buffer.format(number).as_bytes())
    }

    #[tactic(auto, unfolding(crate::specs::Printing::page, crate::specs::Printing::with_token))]
    pub(crate) fn mark(&mut self, mark: Mark) -> Result<(), AllocError>
        ensures { OnOk result (Prints self.old self.new (Marked mark ∷ [])) }
    {
        match mark {
            Mark::OpenParen => self.put(b"(", false),
            Mark::CloseParen => self.put(b")", true),
            Mark::OpenBracket => self.put_apart(b"[", false),
            Mark::CloseBracket => self.put(b"]", true),
            Mark::OpenBrace => self.put_apart(b"{", false),
            Mark::CloseBrace => self.put(b"}", true),
            Mark::Comma => self.put(b",", false),
            Mark::Semicolon => self.put(b";\n", false),
            Mark::Colon => self.put(b": ", false),
            Mark::ColonColon => self.put_apart(b"::", true),
            Mark::Equals => self.put_apart(b"=", true),
            Mark::DotDot => self.put(b"..", false),
        }
    }

    /// The indexes from 1 up to a length.
    pub(crate) fn index(&mut self, length: usize) -> Result<(), AllocError>
        ensures { OnOk result (Prints self.old self.new (index_toks length)) }
    {
        let mut buffer = Buffer::new();
        self.number(1)?;
        self.mark(Mark::DotDot)?;
        self.text(buffer.format(length).as_bytes())
    }
}

/// The canonical text of a tree: each item on one line that ends with `;` and LF.
pub fn to_text(alloc: Global, ast: &Ast<'_>) -> Result<Vec<u8>, AllocError>
    ensures layout { IfOk result (λ text. text.items ≡ tree_text (bare ast.now)) }

    // It lexes to the tokens of the tree, with numbers within the limit, where the tree's tokens
    // can be written at all.
    ensures reads_back { IfOk result (λ text. CanBeWritten (bare ast.now)
        → LexesWithNumbersInLimit text.items (toks (bare ast.now))) }

    // For a tree that was read from a source under some limits, it is a text of that tree under
    // them too, where it isn't too long.
    ensures again { IfOk result (λ text. (limits : Limits) (source : List ℕ)
        → IsTextOfTreeWithin limits source (bare ast.now)
        → length text.items ≤ limits.bytes
        → IsTextOfTreeWithin limits text.items (bare ast.now)) }
{
    let mut printer = Printer {
        text: Vec::new(alloc),
        apart: false,
    };
    printer.tree(ast)?;
    Ok(printer.text)
}
