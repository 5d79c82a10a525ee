//! The syntax tree. Its parts hold slices of the source.

use crate::span::Span;

/// A name: its bytes, a slice of the source, and their byte range there.
#[derive(Clone, Copy)]
pub struct Name<'a> {
    pub text: &'a [u8],
    pub span: Span,
}

/// A literal and its byte range, from its first token to its last.
#[derive(Drop)]
pub struct Literal {
    pub span: Span,
    pub what: LiteralKind,
}

/// An integer, `true` or `false`, a range by its two ends, or the numbers in braces as they are
/// written, with repeats.
#[derive(Drop)]
pub enum LiteralKind {
    Whole(i64),
    Truth(bool),
    Range(i64, i64),
    Braces(Vec<i64>),
}

/// A literal or a name.
#[derive(Drop)]
pub enum Basic<'a> {
    Lit(Literal),
    Named(Name<'a>),
}

/// One literal or name, or a list of them in brackets.
#[derive(Drop)]
pub enum Expr<'a> {
    One(Basic<'a>),
    List(Vec<Basic<'a>>),
}

/// An annotation: a name, and its arguments where it has some in parentheses.
#[cycle(note)]
#[derive(Drop)]
pub struct Note<'a> {
    pub name: Name<'a>,
    pub args: Vec<NoteArg<'a>>,
}

/// An argument of an annotation, or a list of such in brackets.
#[cycle(note)]
#[derive(Drop)]
pub enum NoteArg<'a> {
    One(NoteBasic<'a>),
    List(Vec<NoteBasic<'a>>),
}

/// A literal, the text of a float or of a string as it is in the source, or an annotation.
#[cycle(note)]
#[derive(Drop)]
pub enum NoteBasic<'a> {
    Lit(Literal),
    Float(&'a [u8]),
    Str(&'a [u8]),
    Inner(Note<'a>),
}

/// A type without `var` and `array`. The literal is its bounds: a range or numbers in braces; `int`
/// has none.
#[derive(Drop)]
pub enum Base {
    Bool,
    Int(Option<Literal>),
    Set(Option<Literal>),
}

/// A parameter of a predicate item. `array` is none for a scalar; for an array it lists the one to
/// six index sets, each as its length, or as none where it is `int`.
#[derive(Drop)]
pub struct Param<'a> {
    pub array: Option<Vec<Option<usize>>>,
    pub is_var: bool,
    pub base: Base,
    pub name: Name<'a>,
}

/// A predicate item.
#[derive(Drop)]
pub struct Predicate<'a> {
    pub name: Name<'a>,
    pub params: Vec<Param<'a>>,
}

/// A declaration of a parameter or a variable. `length` is that of an array, and none for a scalar.
#[derive(Drop)]
pub struct Decl<'a> {
    pub is_var: bool,
    pub length: Option<usize>,
    pub base: Base,
    pub name: Name<'a>,
    pub notes: Vec<Note<'a>>,
    pub value: Option<Expr<'a>>,
}

/// A constraint item.
#[derive(Drop)]
pub struct Constraint<'a> {
    pub name: Name<'a>,
    pub args: Vec<Expr<'a>>,
    pub notes: Vec<Note<'a>>,
}

/// What the solve item asks for.
#[derive(Drop)]
pub enum Goal<'a> {
    Satisfy,
    Minimize(Basic<'a>),
    Maximize(Basic<'a>),
}

/// The solve item.
#[derive(Drop)]
pub struct Solve<'a> {
    pub notes: Vec<Note<'a>>,
    pub goal: Goal<'a>,
}

/// The tree of a model: its items by kind, each kind in source order.
#[derive(Drop)]
pub struct Ast<'a> {
    pub predicates: Vec<Predicate<'a>>,
    pub decls: Vec<Decl<'a>>,
    pub constraints: Vec<Constraint<'a>>,
    pub solve: Solve<'a>,
}

/// The value after a printed name: a literal, or an array by its index sets and its elements.
#[derive(Drop)]
pub enum PrintedValue {
    One(Literal),
    Array {
        indexes: Vec<Literal>,
        elements: Vec<Literal>,
    },
}

/// An item of a solver's output: a name and its value.
#[derive(Drop)]
pub struct Printed<'a> {
    pub name: Name<'a>,
    pub value: PrintedValue,
}
