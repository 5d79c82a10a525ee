//! What things of a FlatZinc model are called in the MiniZinc model.

use crate::excerpt::{push_shown, shown_text};
use fz_places::{Element, NameTable, element_of};
use fz_tree::Ast;
use std::alloc::{AllocError, Global};

/// The name in the MiniZinc model of what has this name, where it is another one: by the table of
/// names, or else the element of a printed array that it is.
pub(crate) fn model_name(
    alloc: Global,
    names: &NameTable<'_>,
    ast: &Ast<'_>,
    name: &[u8],
) -> Result<Option<String>, AllocError> {
    match names.find(name) {
        Some(line) if line.model_name == name => Ok(None),
        Some(line) => Ok(Some(shown_text(alloc, line.model_name)?)),
        None => element_text(alloc, ast, name),
    }
}

/// The name in the MiniZinc model of what has this name, or else this name.
pub(crate) fn best_name(
    alloc: Global,
    names: &NameTable<'_>,
    ast: &Ast<'_>,
    name: &[u8],
) -> Result<String, AllocError> {
    match model_name(alloc, names, ast, name)? {
        Some(element) => Ok(element),
        None => shown_text(alloc, name),
    }
}

/// The element of a printed array that a name is.
fn element_text(alloc: Global, ast: &Ast<'_>, name: &[u8]) -> Result<Option<String>, AllocError> {
    let Some(Element { array, indices }) = element_of(alloc, ast, name)? else {
        return Ok(None);
    };
    let mut text = String::new(alloc);
    push_element(&mut text, array, &indices)?;
    Ok(Some(text))
}

/// Adds the element of an array with these indices, as `a[1,2]`.
pub(crate) fn push_element(
    text: &mut String,
    array: &[u8],
    indices: &[i64],
) -> Result<(), AllocError> {
    push_shown(text, "", array, "[")?;
    for (place, index) in indices.iter().enumerate() {
        let comma = if place > 0 { "," } else { "" };
        write!(text, "{comma}{index}")?;
    }
    text.push_str("]")
}
