//! The element of an array that a name is, with its indices there.

ghost use Rattle.std.specs.Prelude.{◌≡◌, FitsSigned, IfOk, IfSome, map, option_map};
ghost use Rattle.std.specs.Int.{w64};
ghost use Rattle.std.specs.List.{position_from};
ghost use Rattle.std.specs.Option.{option_and_then};
ghost use Rattle.fz_meaning.specs.of_base.Sets.{count_between};
ghost use Rattle.fz_meaning.specs.Meaning.{first_some};
ghost use Rattle.fz_tree.specs.View.{bare_arg, bare_basic, bare_decl, bare_expression, bare_expressions, bare_value, basic_list};
ghost use Rattle.fz_places.specs.Elements.{element_in, element_view, elements_of, index_between, index_in, indices_at, indices_in, indices_of, is_name, listed, range_of};

use crate::annotation::argument_of;
use fz_tree::{Ast, Basic, Decl, Expr, LiteralKind, NoteArg, NoteBasic};
use std::alloc::{AllocError, Global};

/// The name of the annotation that has the index sets of an array.
const OUTPUT_ARRAY: &[u8] = b"output_array";

/// An element of an array: the array's name, and the element's indices.
#[derive(Drop)]
pub struct Element<'a> {
    pub array: &'a [u8],
    pub indices: Vec<i64>,
}

/// The two ends of a range.
fn range_of(set: &NoteBasic<'_>) -> Option<(i64, i64)>
    ensures { result ≡ range_of (bare_basic set.now) }
{
    match set {
        NoteBasic::Lit(literal) => match literal.what {
            LiteralKind::Range(low, high) => Some((low, high)),
            _ => None,
        },
        _ => None,
    }
}

/// The elements of a list.
fn listed<'t, 'a>(arg: &'t NoteArg<'a>) -> Option<&'t [NoteBasic<'a>]>
    ensures { option_map (λ s. basic_list (map bare_basic s.now)) result
        ≡ listed (bare_arg arg.now) }
{
    match arg {
        NoteArg::List(basics) => Some(basics),
        NoteArg::One(_) => None,
    }
}

/// How many integers there are from one to another.
fn count_between(low: i64, high: i64) -> u128
    ensures { result ≡ count_between low high }
{
    if high < low {
        return 0;
    }
    (i128::from(high) - i128::from(low) + 1) as u128
}

/// The index in a range of an element that has this place, and its place without this index.
fn index_between(low: i64, high: i64, place: u128) -> Option<(u128, i64)>
    ensures index { result ≡ index_between low high place }
    ensures fits { IfSome result (λ i. FitsSigned w64 i.1) }
{
    let count = count_between(low, high);
    if count == 0 {
        return None;
    }
    let index = i128::from(low) + (place % count) as i128;
    Some((place / count, index as i64))
}

/// The same in an index set.
fn index_in(set: &NoteBasic<'_>, place: u128) -> Option<(u128, i64)>
    ensures index { result ≡ index_in (bare_basic set.now) place }
    ensures fits { IfSome result (λ i. FitsSigned w64 i.1) }
{
    let (low, high) = range_of(set)?;
    index_between(low, high, place)
}

/// The indices of the element at a place, from 0, in an array with these index sets.
fn indices_at(
    alloc: Global,
    sets: &[NoteBasic<'_>],
    place: usize,
) -> Result<Option<Vec<i64>>, AllocError>
    ensures { IfOk result (λ o. option_map (λ v. v.items) o
        ≡ indices_at (basic_list (map bare_basic sets.now)) place) }
{
    let mut left = place as u128;
    let mut indices = Vec::new(alloc);
    for behind in 0..sets.len() {
        let Some((rest, index)) = index_in(&sets[sets.len() - behind - 1], left) else {
            return Ok(None);
        };
        indices.insert(0, index)?;
        left = rest;
    }
    if left > 0 {
        return Ok(None);
    }
    Ok(Some(indices))
}

fn is_name(element: &Basic<'_>, name: &[u8]) -> bool
    ensures { result ≡ is_name name.now (bare_expression element.now) }
{
    match element {
        Basic::Named(own) => own.text == name,
        Basic::Lit(_) => false,
    }
}

/// The place, from 0, of the first element of this name.
fn place_among(elements: &[Basic<'_>], name: &[u8]) -> Option<usize>
    ensures { result ≡ position_from (is_name name.now) 0 (bare_expressions elements.now) }
{
    for (place, element) in elements.iter().enumerate() {
        if is_name(element, name) {
            return Some(place);
        }
    }
    None
}

/// The same in the list that an array is declared as.
fn place_in(value: &Option<Expr<'_>>, name: &[u8]) -> Option<usize>
    ensures { result ≡ position_from (is_name name.now) 0 (elements_of (bare_value value.now)) }
{
    match value {
        Some(Expr::List(elements)) => place_among(elements, name),
        Some(Expr::One(_)) | None => None,
    }
}

/// The indices of the element at a place, from 0, of the array that is declared, by the index sets
/// of its annotation.
pub fn indices_of(
    alloc: Global,
    decl: &Decl<'_>,
    place: usize,
) -> Result<Option<Vec<i64>>, AllocError>
    ensures { IfOk result (λ o. option_map (λ v. v.items) o
        ≡ indices_of (bare_decl decl.now) place) }
{
    let Some(arg) = argument_of(&decl.notes, OUTPUT_ARRAY) else {
        return Ok(None);
    };
    match listed(arg) {
        Some(sets) => indices_at(alloc, sets, place),
        None => Ok(None),
    }
}

/// The array that is declared, with the indices of its first element of this name.
fn element_in<'a>(
    alloc: Global,
    decl: &Decl<'a>,
    name: &[u8],
) -> Result<Option<Element<'a>>, AllocError>
    ensures { IfOk result (λ o. option_map element_view o
        ≡ element_in name.now (bare_decl decl.now)) }
{
    let Some(place) = place_in(&decl.value, name) else {
        return Ok(None);
    };
    let indices = indices_of(alloc, decl, place)?;
    Ok(indices.map(|indices| Element {
        array: decl.name.text,
        indices,
    }))
}

/// The element that a name is of the first array with index sets that it is in.
///
/// # Errors
///
/// Out of memory.
pub fn element_of<'a>(
    alloc: Global,
    ast: &Ast<'a>,
    name: &[u8],
) -> Result<Option<Element<'a>>, AllocError>
    ensures { IfOk result (λ o. option_map element_view o
        ≡ first_some (element_in name.now) (map bare_decl ast.now.decls.items)) }
{
    for decl in &ast.decls {
        let element = element_in(alloc, decl, name)?;
        if element.is_some() {
            return Ok(element);
        }
    }
    Ok(None)
}
