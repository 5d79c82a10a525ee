//! What the grammar expected at the place of a fault, by the parser: the beginning of the item up
//! to the fault is read with each of some tokens behind it, and those were expected at which the
//! parser's fault moves on. It is used only to find words.

use crate::text::Given;
use fz_syntax::{Limits, SyntaxError, parse_within, read_items_within};
use fz_tree::{Mark, Token, TokenKind, Tokens};
use std::alloc::{AllocError, Global};

/// The most things that are told.
const MOST_THINGS: usize = 3;

/// The most bytes of the beginning of an item, which is read once for each token that is tried.
const MOST_BYTES: usize = 4_194_304;

/// The tokens that are tried: marks, words, and a name, two integers, a string and a Boolean.
const TOKENS: [&str; 29] = [
    ",",
    ")",
    "]",
    "}",
    "(",
    "[",
    "{",
    ";",
    ":",
    "::",
    "=",
    "..",
    "predicate",
    "array",
    "var",
    "bool",
    "int",
    "set",
    "of",
    "constraint",
    "solve",
    "satisfy",
    "minimize",
    "maximize",
    "x",
    "1",
    "7",
    "\"\"",
    "true",
];

/// What is told where all tokens of the first list are expected, and none of the second.
#[derive(Clone, Copy)]
struct Thing(
    &'static str,
    &'static [&'static str],
    &'static [&'static str],
);

/// What stands for the end of an item.
const ITEM_END: &str = "';'";

/// In the order in which they are told.
const THINGS: [Thing; 27] = [
    Thing("','", &[","], &[]),
    Thing("')'", &[")"], &[]),
    Thing("']'", &["]"], &[]),
    Thing("'}'", &["}"], &[]),
    Thing("'['", &["["], &[]),
    Thing("'predicate'", &["predicate"], &[]),
    Thing("a declaration", &["var", "constraint"], &[]),
    Thing("'constraint'", &["constraint"], &[]),
    Thing("'solve'", &["solve"], &[]),
    Thing("'array'", &["array"], &["constraint"]),
    Thing("'var'", &["var"], &["constraint"]),
    Thing("a type", &["int", "7"], &[]),
    Thing(
        "a type of parameters",
        &["int", "bool"],
        &["7", "constraint"],
    ),
    Thing("'int'", &["int"], &["7", "bool"]),
    Thing("1", &["1"], &["7"]),
    Thing("a name", &["x"], &[]),
    Thing("a string", &["\"\""], &[]),
    Thing("a value", &["true"], &[]),
    Thing("an index set", &["7", "{"], &["int", "true"]),
    Thing("an integer", &["7"], &["{"]),
    Thing("'of'", &["of"], &[]),
    Thing("':'", &[":"], &[]),
    Thing("'='", &["="], &[]),
    Thing("'satisfy'", &["satisfy"], &[]),
    Thing("'minimize'", &["minimize"], &[]),
    Thing("'maximize'", &["maximize"], &[]),
    Thing(ITEM_END, &[";"], &[]),
];

/// What may be left out, and is told only where nothing else is expected.
const LEFT_OUT: [Thing; 3] = [
    Thing("'('", &["("], &[]),
    Thing("'::'", &["::"], &[]),
    Thing("'..'", &[".."], &[]),
];

/// What comes before a fault.
#[derive(Clone, Copy)]
struct Before<'a> {
    given: Given,
    /// Where the item begins that the fault is in, or behind.
    start: usize,
    /// The first token of that item; none where nothing comes before the fault.
    first: Option<Token<'a>>,
    last: Option<Token<'a>>,
}

impl<'a> Before<'a> {
    /// Adds a token. Behind the end of an item the next one begins.
    fn add(&mut self, token: Token<'a>) {
        if self.is_between() {
            self.start = token.span.start;
            self.first = Some(token);
        }
        self.last = Some(token);
    }

    /// Whether the fault is where an item begins.
    fn is_between(&self) -> bool {
        match self.last {
            Some(token) => token.kind == TokenKind::Mark(Mark::Semicolon),
            None => true,
        }
    }

    /// The end of the item, in words.
    fn end(&self) -> &'static str {
        let first = self.first.map_or(b"".as_slice(), |token| token.text);
        match (self.given, first) {
            (Given::Stream, _) => "';' behind the value",
            (_, b"predicate") => "';' behind the predicate",
            (_, b"constraint") => "';' behind the constraint",
            (_, b"solve") => "';' behind the solve item",
            _ => "';' behind the declaration",
        }
    }

    /// A thing that is expected, in words: the end is that of the item, and a name behind `::` is
    /// that of an annotation.
    fn told(&self, thing: &'static str) -> &'static str {
        match self.last {
            _ if thing == ITEM_END => self.end(),
            Some(token) if thing == "a name" && token.text == b"::".as_slice() => {
                "the name of an annotation"
            }
            _ => thing,
        }
    }

    /// What tells a fault between two items that has a name of its own, by the token that is there.
    fn named(&self, expected: &[&str], token: Option<Token<'_>>) -> Option<&'static str> {
        if !self.is_between() || self.given == Given::Stream {
            return None;
        }
        match token {
            None if self.last.is_none() => Some("the model is empty"),
            None => Some("the model ends without a solve item"),
            Some(_) if !expected.is_empty() => None,
            Some(token) if begins_item(token.text) => {
                Some("a second model begins here: the first one ends with its solve item")
            }
            Some(_) => Some("expected the end of the model behind its solve item"),
        }
    }
}

/// The words that an item of a model begins with.
const BEGIN_ITEMS: [&str; 8] = [
    "predicate",
    "array",
    "var",
    "bool",
    "int",
    "set",
    "constraint",
    "solve",
];

/// Whether an item of a model begins with this word, and so no printed item.
pub(crate) fn begins_item(word: &[u8]) -> bool {
    BEGIN_ITEMS.iter().any(|known| known.as_bytes() == word)
}

/// Whether the parser's fault moves on from an offset to what comes behind it.
fn moves_on(alloc: Global, given: Given, text: &[u8], at: usize) -> Result<bool, AllocError> {
    let fault = match given {
        Given::Model => parse_within(alloc, text, Limits::LARGE).err(),
        Given::Stream => read_items_within(alloc, text, Limits::LARGE).err(),
    };
    match fault {
        Some(SyntaxError::Memory) => Err(AllocError),
        Some(SyntaxError::Syntax(place)) => Ok(place.start != at),
        _ => Ok(true),
    }
}

/// The tokens that the parser takes behind a beginning of an item.
fn tokens_behind(
    alloc: Global,
    given: Given,
    beginning: &[u8],
) -> Result<Vec<&'static str>, AllocError> {
    let mut expected = Vec::new(alloc);
    // A line ends in front of the token, for a comment may come before it.
    let mut text = Vec::from_slice(alloc, beginning)?;
    text.push(b'\n')?;
    let at = text.len();
    for token in TOKENS {
        text.extend_from_slice(token.as_bytes())?;
        if moves_on(alloc, given, &text, at)? {
            expected.push(token)?;
        }
        text.truncate(at);
    }
    Ok(expected)
}

/// Those of the things that stand for expected tokens, in words.
fn things_among(
    alloc: Global,
    things: &[Thing],
    expected: &[&str],
    before: &Before<'_>,
) -> Result<Vec<&'static str>, AllocError> {
    let mut told = Vec::new(alloc);
    for Thing(thing, all, none) in things {
        if all.iter().all(|token| expected.contains(token))
            && !none.iter().any(|token| expected.contains(token))
        {
            told.push(before.told(thing))?;
        }
    }
    Ok(told)
}

/// The things that stand for expected tokens.
fn things_of(
    alloc: Global,
    expected: &[&str],
    before: &Before<'_>,
) -> Result<Vec<&'static str>, AllocError> {
    let told = things_among(alloc, &THINGS, expected, before)?;
    if told.is_empty() {
        return things_among(alloc, &LEFT_OUT, expected, before);
    }
    Ok(told)
}

/// The last of these things, in words; none where there are none.
fn said(alloc: Global, things: &[&str]) -> Result<Option<String>, AllocError> {
    if things.is_empty() {
        return Ok(None);
    }
    let first = things.len().saturating_sub(MOST_THINGS);
    let mut said = String::from_str(alloc, "expected")?;
    for (index, thing) in things.iter().enumerate().skip(first) {
        let between = if index == first {
            " "
        } else if index.saturating_add(1) == things.len() {
            " or "
        } else {
            ", "
        };
        said.push_str(between)?;
        said.push_str(thing)?;
    }
    Ok(Some(said))
}

/// What the grammar expected at this byte offset of a model, or of a block's text, where the first
/// fault is. It is none where no token is expected, or the item is too long to be read again.
///
/// # Errors
///
/// Out of memory.
pub(crate) fn expected_at(
    alloc: Global,
    given: Given,
    source: &[u8],
    at: usize,
) -> Result<Option<String>, AllocError> {
    let mut before = Before {
        given,
        start: 0,
        first: None,
        last: None,
    };
    let mut tokens = Tokens::new(source);
    // Each token takes a byte at least.
    for _ in 0..source.len() {
        match tokens.first() {
            Some(token) if token.span.start < at => before.add(token),
            _ => break,
        }
        tokens.advance();
    }
    let beginning = source.get(before.start..at).unwrap_or(b"");
    if beginning.len() > MOST_BYTES {
        return Ok(None);
    }
    let expected = tokens_behind(alloc, given, beginning)?;
    match before.named(&expected, tokens.first()) {
        Some(named) => Ok(Some(String::from_str(alloc, named)?)),
        None => said(alloc, &things_of(alloc, &expected, &before)?),
    }
}
