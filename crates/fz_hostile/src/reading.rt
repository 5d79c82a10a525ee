//! Calls that read texts, as tokens, trees or printed items, and that write the text of a tree.

use crate::outside::{file, is_given, tell, tell_error};
use fz_stream::Block;
use fz_syntax::{
    Ast, Literal, LiteralKind, Printed, PrintedValue, SyntaxError, lex, parse, read_items, to_text,
};

/// Makes a call on a text.
pub fn make_call(rt: &HostRuntime, call: &str, operands: &[String]) -> Option<()> {
    let source = file(rt, operands, 0)?;
    if call == "to_text" {
        return print(rt, &source);
    }
    for _ in 0..2 {
        if !lacks_memory(rt, call, &source) {
            break;
        }
    }
    Some(())
}

/// Makes the call and prints its answer. Whether memory ran out.
fn lacks_memory(rt: &HostRuntime, call: &str, source: &[u8]) -> bool {
    match call {
        "lex" => lex_lacks_memory(rt, source),
        "parse" => parse_lacks_memory(rt, source),
        _ => read_items_lacks_memory(rt, source),
    }
}

/// Prints an error. Whether it is that memory ran out.
pub fn is_memory(rt: &HostRuntime, error: SyntaxError) -> bool {
    tell_error(rt, &error);
    matches!(error, SyntaxError::Memory)
}

fn lex_lacks_memory(rt: &HostRuntime, source: &[u8]) -> bool {
    match lex(rt.alloc(), source) {
        Ok(tokens) => {
            for token in &tokens {
                tell(rt, &(token.kind, token.span));
            }
            false
        }
        Err(error) => is_memory(rt, error),
    }
}

/// Of a tree the text is printed.
fn parse_lacks_memory(rt: &HostRuntime, source: &[u8]) -> bool {
    match parse(rt.alloc(), source) {
        Ok(tree) => {
            tell_tree(rt, &tree);
            false
        }
        Err(error) => is_memory(rt, error),
    }
}

fn read_items_lacks_memory(rt: &HostRuntime, source: &[u8]) -> bool {
    match read_items(rt.alloc(), source) {
        Ok(items) => {
            tell_items(rt, &items);
            false
        }
        Err(error) => is_memory(rt, error),
    }
}

fn print(rt: &HostRuntime, source: &[u8]) -> Option<()> {
    match parse(rt.alloc(), source) {
        Ok(tree) => {
            tell_tree(rt, &tree);
            Some(())
        }
        Err(_) => None,
    }
}

fn tell_tree(rt: &HostRuntime, tree: &Ast<'_>) {
    for _ in 0..2 {
        if is_given(rt, to_text(rt.alloc(), tree)) {
            break;
        }
    }
}

fn tell_literal(rt: &HostRuntime, literal: &Literal) {
    match &literal.what {
        LiteralKind::Whole(number) => tell(rt, number),
        LiteralKind::Truth(truth) => tell(rt, truth),
        LiteralKind::Range(lo, hi) => tell(rt, &(*lo, *hi)),
        LiteralKind::Braces(numbers) => tell(rt, numbers),
    }
    tell(rt, &literal.span);
}

fn tell_literals(rt: &HostRuntime, literals: &[Literal]) {
    for literal in literals {
        tell_literal(rt, literal);
    }
}

fn tell_items(rt: &HostRuntime, items: &[Printed<'_>]) {
    tell(rt, &items.len());
    for item in items {
        tell(rt, &(item.name.text, item.name.span));
        match &item.value {
            PrintedValue::One(literal) => tell_literal(rt, literal),
            PrintedValue::Array { indexes, elements } => {
                tell_literals(rt, indexes);
                tell_literals(rt, elements);
            }
        }
    }
}

/// Prints a block with its items.
pub fn tell_block(rt: &HostRuntime, block: &Block<'_>) {
    tell(rt, &(block.offset, block.text.len()));
    tell_items(rt, &block.items);
}
