//! Printed variables that nothing binds but their own domains: with the annotation `output_var`, or
//! elements of an array with `output_array`, and mentioned by no constraint, no definition and not
//! by the objective. No contract says so; `tests/explained` tests it.

use crate::naming::best_name;
use crate::notes::name_at;
use fz_places::NameTable;
use fz_store::{Argument, Goal, Model, Scalar, Slot, Term, What, scalar_at};
use fz_syntax::{DeclItems, Offer, PredicateItems};
use fz_tree::{Ast, Decl, Goal as GoalItem, Limits, Note, Solve, SyntaxError};
use indexmap::IndexSet;
use memchr::{memmem, memrchr};
use std::alloc::{AllocError, Global};

/// What the names of these annotations begin with.
const OUTPUT: &[u8] = b"output_";

/// The name of the annotation of a variable that is printed.
const OUTPUT_VAR: &[u8] = b"output_var";

/// The name of that of an array.
const OUTPUT_ARRAY: &[u8] = b"output_array";

/// The most names that are told of printed variables that nothing binds.
const MOST_NAMES: usize = 12;

/// The names of printed variables that nothing binds, in the MiniZinc model where they have one
/// there: the first twelve, and how many are left out.
#[derive(Drop)]
pub struct Unbound {
    pub names: Vec<String>,
    pub left_out: usize,
}

/// Which variables a constraint, a definition or the objective mentions, and which arrays a
/// constraint does, by their numbers.
#[derive(Drop)]
struct Mentioned {
    variables: Vec<bool>,
    arrays: Vec<bool>,
}

/// Marks what has this number.
fn mark(marks: &mut [bool], number: usize) {
    if let Some(mark) = marks.get_mut(number) {
        *mark = true;
    }
}

impl Mentioned {
    /// What a model mentions: one pass over what it stores.
    fn of(alloc: Global, model: &Model<'_>) -> Result<Mentioned, AllocError> {
        let constraints = model.constraints();
        let mut mentioned = Mentioned {
            variables: vec![in alloc; false; constraints.variables.len()]?,
            arrays: vec![in alloc; false; constraints.arrays.len()]?,
        };
        for argument in &constraints.store.arguments {
            if let Argument::One(slot) = argument {
                mentioned.mark_slot(*slot);
            }
        }
        mentioned.mark_slots(&constraints.store.slots);
        for (number, array) in constraints.arrays.iter().enumerate() {
            if mentioned.arrays.get(number) == Some(&true) {
                mentioned.mark_slots(&array.elements.slots);
            }
        }
        mentioned.mark_definitions(model);
        Ok(mentioned)
    }

    fn mark_slot(&mut self, slot: Slot) {
        match slot {
            Slot::Variable(number) => mark(&mut self.variables, number as usize),
            Slot::Array(number) => mark(&mut self.arrays, number as usize),
            Slot::Number(_) | Slot::Truth(_) | Slot::Constant(_) => {}
        }
    }

    fn mark_slots(&mut self, slots: &[Slot]) {
        for slot in slots {
            self.mark_slot(*slot);
        }
    }

    fn mark_term(&mut self, term: &Term) {
        if let Term::Var(number) = term {
            mark(&mut self.variables, *number);
        }
    }

    /// Marks the variables of definitions and of the objective.
    fn mark_definitions(&mut self, model: &Model<'_>) {
        for (number, variable) in model.variables().iter().enumerate() {
            if let Some(term) = &variable.definition {
                mark(&mut self.variables, number);
                self.mark_term(term);
            }
        }
        if let Goal::Minimize(term) | Goal::Maximize(term) = model.goal() {
            self.mark_term(term);
        }
    }

    /// Whether this variable is in none.
    fn leaves(&self, variable: usize) -> bool {
        self.variables.get(variable) == Some(&false)
    }
}

fn is_output(note: &Note<'_>) -> bool {
    note.name.text == OUTPUT_VAR || note.name.text == OUTPUT_ARRAY
}

fn has_output(decl: &Decl<'_>) -> bool {
    decl.notes.iter().any(|note| is_output(note))
}

/// The declarations of a text from its predicate items on; none where more of these come.
fn past_predicates<'a>(
    mut items: PredicateItems<'a>,
    most: usize,
) -> Result<Option<DeclItems<'a>>, SyntaxError> {
    for _ in 0..most {
        match items.next()? {
            Offer::Item(_, more) => items = more,
            Offer::End(decls) => return Ok(Some(decls)),
        }
    }
    Ok(None)
}

/// Those of the declarations that have something printed. The lists of the others are given back.
/// Behind them comes a constraint or the solve item, or this isn't the text of a model.
fn printed_of<'a>(
    alloc: Global,
    mut items: DeclItems<'a>,
    most: usize,
) -> Result<Vec<Decl<'a>>, SyntaxError> {
    let mut printed = Vec::new(alloc);
    for _ in 0..most {
        match items.next()? {
            Offer::Item(decl, mut more) => {
                if has_output(&decl) {
                    printed.push(decl)?;
                } else {
                    more.give_back(decl);
                }
                items = more;
            }
            Offer::End(constraints) => {
                constraints.next()?;
                break;
            }
        }
    }
    Ok(printed)
}

/// The declarations of a text that have something printed. No other item is held, and the text is
/// read no further than to the first item behind its declarations.
fn printed_in<'a>(alloc: Global, source: &'a [u8]) -> Result<Vec<Decl<'a>>, SyntaxError> {
    // Each item takes a byte at least, and so does the solve item behind all.
    let most = source.len();
    let predicates = PredicateItems::new(alloc, source, Limits::LARGE)?;
    match past_predicates(predicates, most)? {
        Some(decls) => printed_of(alloc, decls, most),
        None => Ok(Vec::new(alloc)),
    }
}

/// The same, from the line on in which the text first has what the annotations for it begin with,
/// where that line begins an item. No string and no token goes over the end of a line.
fn printed_decls<'a>(alloc: Global, source: &'a [u8]) -> Result<Vec<Decl<'a>>, SyntaxError> {
    let Some(place) = memmem::find(source, OUTPUT) else {
        return Ok(Vec::new(alloc));
    };
    let front = source.get(..place).unwrap_or(b"");
    let start = memrchr(b'\n', front).unwrap_or(0);
    match printed_in(alloc, source.get(start..).unwrap_or(source)) {
        Ok(printed) => Ok(printed),
        Err(_) => printed_in(alloc, source),
    }
}

/// A tree with these declarations alone.
fn tree_of<'a>(alloc: Global, decls: Vec<Decl<'a>>) -> Ast<'a> {
    Ast {
        predicates: Vec::new(alloc),
        decls,
        constraints: Vec::new(alloc),
        solve: Solve {
            notes: Vec::new(alloc),
            goal: GoalItem::Satisfy,
        },
    }
}

/// Adds a scalar, where it is a variable that nothing mentions.
fn add_left(
    left: &mut IndexSet<usize>,
    mentioned: &Mentioned,
    scalar: Scalar<'_>,
) -> Result<(), AllocError> {
    if let Scalar::Variable(variable) = scalar
        && mentioned.leaves(variable)
    {
        left.insert(variable)?;
    }
    Ok(())
}

/// The variables that these declarations have printed and nothing mentions, each once, in their
/// order.
fn left_of(
    alloc: Global,
    model: &Model<'_>,
    mentioned: &Mentioned,
    decls: &[Decl<'_>],
) -> Result<IndexSet<usize>, AllocError> {
    let mut left = IndexSet::new(alloc);
    for decl in decls {
        match model.find(decl.name.text).map(|found| found.what) {
            Some(What::Scalar(scalar)) => add_left(&mut left, mentioned, scalar)?,
            Some(What::Array(_, scalars)) => {
                for slot in scalars.slots {
                    let scalar = scalar_at(scalars.constants, *slot);
                    add_left(&mut left, mentioned, scalar)?;
                }
            }
            None => {}
        }
    }
    Ok(left)
}

/// The names of the first twelve of these variables.
fn names_of(
    alloc: Global,
    model: &Model<'_>,
    ast: &Ast<'_>,
    table: &NameTable<'_>,
    numbers: &[usize],
) -> Result<Vec<String>, AllocError> {
    let mut names = Vec::new(alloc);
    for number in numbers.iter().take(MOST_NAMES) {
        names.push(best_name(alloc, table, ast, name_at(model, *number))?)?;
    }
    Ok(names)
}

impl Unbound {
    /// Those of a model, by the text that it was loaded from and the table of its names; none where
    /// there are none. The text is read only where a variable is left that nothing mentions.
    pub(crate) fn of(
        alloc: Global,
        model: &Model<'_>,
        source: &[u8],
        table: &NameTable<'_>,
    ) -> Result<Option<Unbound>, AllocError> {
        let mentioned = Mentioned::of(alloc, model)?;
        if !mentioned.variables.contains(&false) {
            return Ok(None);
        }
        // The text was loaded, under limits that these are no less than.
        let Ok(decls) = printed_decls(alloc, source) else {
            return Err(AllocError);
        };
        let ast = tree_of(alloc, decls);
        let left = left_of(alloc, model, &mentioned, &ast.decls)?;
        if left.is_empty() {
            return Ok(None);
        }
        Ok(Some(Unbound {
            names: names_of(alloc, model, &ast, table, left.as_slice())?,
            left_out: left.len().saturating_sub(MOST_NAMES),
        }))
    }

    /// The line that tells them, with LF.
    ///
    /// # Errors
    ///
    /// Out of memory.
    pub fn text(&self, alloc: Global) -> Result<String, AllocError> {
        let mut text = String::from_str(alloc, "printed, and in no constraint: ")?;
        self.push_to(&mut text)?;
        Ok(text)
    }

    fn push_to(&self, text: &mut String) -> Result<(), AllocError> {
        for (place, name) in self.names.iter().enumerate() {
            let comma = if place > 0 { ", " } else { "" };
            write!(text, "{comma}{name}")?;
        }
        if self.left_out > 0 {
            write!(text, " and {} more", self.left_out)?;
        }
        text.push_str("\n")
    }
}
