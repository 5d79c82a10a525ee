//! Whether a text that the end of a stream leaves open is the front of a block's text, so that only
//! its end is missing. The parser is asked, with endings put behind the text.
//!
//! Worked cases are in `tests/cases` (`reports.txt`).
#![tactic(auto)]

ghost use Rattle.std.specs.Prelude.{◌≡◌, ◌↔◌, ◌≤◌, ◌++◌, Any, IfOk, IsTrue, List, MatchOption, codes, is_some, length, map, nat_eq};
ghost use Rattle.std.specs.List.{list_all, list_any, starts_with};
ghost use Rattle.fz_store.specs.of_meaning.Meaning.{find_name};
ghost use Rattle.fz_syntax.specs.Text.{IsTextOfItemsWithin};
ghost use Rattle.fz_syntax.specs.Tree.{Printed as PlainPrinted};
ghost use Rattle.fz_syntax.specs.View.{bare_items};
ghost use Rattle.fz_cutting.specs.Short.{AreItems, AreItemsToName, EndsInSign, IsHalf, IsShort, are_declared, endings, is_front_of_sign, signs, whole_lines};

use fz_store::Model;
use fz_syntax::{Limits, Printed, SyntaxError, read_items_within};
use std::alloc::{AllocError, Global};

/// What may be missing behind the front of an item that has its whole name.
static ENDINGS: [&[u8]; 84] = [
    b";",
    b"]);",
    b"1;",
    b"1]);",
    b"};",
    b"}]);",
    b"1};",
    b"1}]);",
    b".1;",
    b".1]);",
    b"rue;",
    b"rue]);",
    b"ue;",
    b"ue]);",
    b"e;",
    b"e]);",
    b"alse;",
    b"alse]);",
    b"lse;",
    b"lse]);",
    b"se;",
    b"se]);",
    b"=1;",
    b");",
    b"[]);",
    b"rray1d({},[]);",
    b"ray1d({},[]);",
    b"ay1d({},[]);",
    b"y1d({},[]);",
    b"1d({},[]);",
    b"d({},[]);",
    b"d({},{},[]);",
    b"d({},{},{},[]);",
    b"d({},{},{},{},[]);",
    b"d({},{},{},{},{},[]);",
    b"d({},{},{},{},{},{},[]);",
    b"({},[]);",
    b"({},{},[]);",
    b"({},{},{},[]);",
    b"({},{},{},{},[]);",
    b"({},{},{},{},{},[]);",
    b"({},{},{},{},{},{},[]);",
    b",[]);",
    b",{},[]);",
    b",{},{},[]);",
    b",{},{},{},[]);",
    b",{},{},{},{},[]);",
    b",{},{},{},{},{},[]);",
    b"1,[]);",
    b"1,{},[]);",
    b"1,{},{},[]);",
    b"1,{},{},{},[]);",
    b"1,{},{},{},{},[]);",
    b"1,{},{},{},{},{},[]);",
    b"..1,[]);",
    b"..1,{},[]);",
    b"..1,{},{},[]);",
    b"..1,{},{},{},[]);",
    b"..1,{},{},{},{},[]);",
    b"..1,{},{},{},{},{},[]);",
    b".1,[]);",
    b".1,{},[]);",
    b".1,{},{},[]);",
    b".1,{},{},{},[]);",
    b".1,{},{},{},{},[]);",
    b".1,{},{},{},{},{},[]);",
    b"1..1,[]);",
    b"1..1,{},[]);",
    b"1..1,{},{},[]);",
    b"1..1,{},{},{},[]);",
    b"1..1,{},{},{},{},[]);",
    b"1..1,{},{},{},{},{},[]);",
    b"},[]);",
    b"},{},[]);",
    b"},{},{},[]);",
    b"},{},{},{},[]);",
    b"},{},{},{},{},[]);",
    b"},{},{},{},{},{},[]);",
    b"1},[]);",
    b"1},{},[]);",
    b"1},{},{},[]);",
    b"1},{},{},{},[]);",
    b"1},{},{},{},{},[]);",
    b"1},{},{},{},{},{},[]);",
];

/// The lines that are no items: the marker, and the claims.
static SIGNS: [&[u8]; 7] = [
    b"----------",
    b"==========",
    b"=====UNSATISFIABLE=====",
    b"=====UNKNOWN=====",
    b"=====UNBOUNDED=====",
    b"=====UNSATorUNBOUNDED=====",
    b"=====ERROR=====",
];

fn endings() -> &'static [&'static [u8]]
    ensures { map (λ e. e.now) result.now ≡ endings }
{
    &ENDINGS
}

fn signs() -> &'static [&'static [u8]]
    ensures { map (λ s. s.now) result.now ≡ signs }
{
    &SIGNS
}

/// The items of a text, where it is one of items.
fn items_of<'t>(
    alloc: Global,
    limits: Limits,
    text: &'t [u8],
) -> Result<Option<Vec<Printed<'t>>>, AllocError>
    ensures { IfOk result (λ found. MatchOption found
        ((items : List PlainPrinted) → IsTextOfItemsWithin limits text.now items → ⊥)
        (λ items. IsTextOfItemsWithin limits text.now (bare_items items.items))) }
{
    match read_items_within(alloc, text, limits) {
        Ok(items) => Ok(Some(items)),
        Err(SyntaxError::Memory) => Err(AllocError),
        Err(_) => Ok(None),
    }
}

fn is_declared(model: &Model<'_>, name: &[u8]) -> bool
    ensures { result ≡ is_some (find_name model.now name.now) }
{
    model.find(name).is_some()
}

fn have_declared(model: &Model<'_>, items: &[Printed<'_>]) -> bool
    ensures { result ≡ list_all (λ i. is_some (find_name model.now i.name.text.now)) items.now }
{
    items.iter().all(|item| is_declared(model, item.name.text))
}

fn are_declared(model: &Model<'_>, items: &[Printed<'_>]) -> bool
    ensures { result ≡ are_declared model.now (bare_items items.now) }
{
    have_declared(model, items)
}

/// Whether a text is one of items whose names are declared.
fn are_items(
    alloc: Global,
    model: &Model<'_>,
    limits: Limits,
    text: &[u8],
) -> Result<bool, AllocError>
    ensures { IfOk result (λ b. IsTrue b ↔ AreItems limits model.now text.now) }
{
    match items_of(alloc, limits, text)? {
        Some(items) => Ok(are_declared(model, &items)),
        None => Ok(false),
    }
}

/// Whether the name, but for its last byte, `_`, is the front of a declared one.
fn is_half(model: &Model<'_>, name: &[u8]) -> bool
    ensures { IsTrue result ↔ IsHalf model.now name.now }
{
    match name.split_last() {
        Some((b'_', half)) => model.begins_name(half),
        _ => false,
    }
}

/// The same, where the last name, but for its last byte, `_`, is the front of a declared one.
fn are_items_to_name(
    alloc: Global,
    model: &Model<'_>,
    limits: Limits,
    text: &[u8],
) -> Result<bool, AllocError>
    ensures { IfOk result (λ b. IsTrue b ↔ AreItemsToName limits model.now text.now) }
{
    let Some(items) = items_of(alloc, limits, text)? else {
        return Ok(false);
    };
    match items.split_last() {
        Some((last, others)) => Ok(are_declared(model, others) && is_half(model, last.name.text)),
        None => Ok(false),
    }
}

/// The text with this behind it.
fn with_end(alloc: Global, text: &[u8], ending: &[u8]) -> Result<Vec<u8>, AllocError>
    ensures { IfOk result (λ v. v.items ≡ text.now ++ ending.now) }
{
    let mut whole = Vec::with_capacity(alloc, text.len().saturating_add(ending.len()))?;
    whole.extend_from_slice(text)?;
    whole.extend_from_slice(ending)?;
    Ok(whole)
}

/// Whether one of the endings makes the text one of items whose names are declared.
fn has_ending(
    alloc: Global,
    model: &Model<'_>,
    limits: Limits,
    text: &[u8],
) -> Result<bool, AllocError>
    ensures { IfOk result (λ b. IsTrue b
        ↔ Any (λ e. AreItems limits model.now (text.now ++ e)) endings) }
{
    for ending in endings() {
        let whole = with_end(alloc, text, ending)?;
        if are_items(alloc, model, limits, &whole)? {
            return Ok(true);
        }
    }
    Ok(false)
}

/// The text up to its last LF.
fn whole_lines(text: &[u8]) -> &[u8]
    ensures lines { result.now ≡ whole_lines text.now }
    ensures within { length result.now ≤ length text.now }
{
    let mut whole = text;
    while let Some((last, others)) = whole.split_last() {
        if *last == b'\n' {
            return whole;
        }
        whole = others;
    }
    whole
}

fn begins_any(signs: &[&[u8]], line: &[u8]) -> bool
    ensures { result ≡ list_any (λ s. starts_with nat_eq s.now line.now) signs.now }
{
    signs.iter().any(|sign| sign.starts_with(line))
}

fn is_front_of_sign(line: &[u8]) -> bool
    ensures { result ≡ is_front_of_sign line.now }
{
    begins_any(signs(), line)
}

/// Whether the whole lines are items whose names are declared, and the last line is the front of a
/// marker or a claim.
fn ends_in_sign(
    alloc: Global,
    model: &Model<'_>,
    limits: Limits,
    text: &[u8],
) -> Result<bool, AllocError>
    ensures { IfOk result (λ b. IsTrue b ↔ EndsInSign limits model.now text.now) }
{
    let whole = whole_lines(text);
    if !is_front_of_sign(&text[whole.len()..]) {
        return Ok(false);
    }
    are_items(alloc, model, limits, whole)
}

/// Whether a text is one of items whose names are declared, up to half of a last name.
fn ends_in_name(
    alloc: Global,
    model: &Model<'_>,
    limits: Limits,
    text: &[u8],
) -> Result<bool, AllocError>
    ensures { IfOk result (λ b. IsTrue b
        ↔ AreItemsToName limits model.now (text.now ++ codes "_=1;")) }
{
    let whole = with_end(alloc, text, b"_=1;")?;
    are_items_to_name(alloc, model, limits, &whole)
}

/// Whether a text is short of its end alone, of which more is the text of a block.
///
/// # Errors
///
/// Out of memory.
pub fn is_short(
    alloc: Global,
    model: &Model<'_>,
    limits: Limits,
    text: &[u8],
) -> Result<bool, AllocError>
    ensures { IfOk result (λ b. IsTrue b ↔ IsShort limits model.now text.now) }
{
    if ends_in_sign(alloc, model, limits, text)? {
        return Ok(true);
    }
    if ends_in_name(alloc, model, limits, text)? {
        return Ok(true);
    }
    has_ending(alloc, model, limits, text)
}
