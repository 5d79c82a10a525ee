//! The store: the lists of constraints and of declared arrays, with eight bytes for each scalar.

ghost use Rattle.std.specs.Prelude.{◌≡◌, ◌<◌, IfOk, OnOk, Some, length, slice_get};
ghost use Rattle.fz_meaning.specs.of_base.declared.value.Value.TheVariants.{Int};
ghost use Rattle.fz_meaning.specs.declared.term.Term.TheVariants.{Fixed};
ghost use Rattle.fz_store.specs.Slots.{IsGrown, IsSlotOf, constant_at, scalar_term, segment, slot_term};

use fz_meaning::{IntSet, Term, Value};
use std::alloc::{AllocError, Global};

/// A scalar, or a declared array. It is the number of a variable, an integer, a Boolean, the index
/// of a value among the constants, or the number of an array.
#[derive(Clone, Copy)]
pub enum Slot {
    Variable(u32),
    Number(i32),
    Truth(bool),
    Constant(u32),
    Array(u32),
}

/// A stretch of a list: its first index and how many items it has.
#[derive(Clone, Copy, Debug)]
pub struct Segment {
    pub first: u32,
    pub count: u32,
}

/// An argument of a constraint: one literal or name, or the slots of a list in brackets.
#[derive(Clone, Copy)]
pub enum Argument {
    One(Slot),
    List(Segment),
}

/// The arguments of all constraints, the slots of all their lists, and the values for which no
/// slot has room.
#[derive(Drop)]
pub struct Store {
    pub arguments: Vec<Argument>,
    pub slots: Vec<Slot>,
    pub constants: Vec<Value>,
}

/// A scalar as it is read: the number of a variable, or a value.
#[derive(Clone, Copy)]
pub enum Scalar<'m> {
    Variable(usize),
    Number(i64),
    Truth(bool),
    Set(&'m IntSet),
}

impl Store {
    /// Nothing is stored yet.
    pub fn new(alloc: Global) -> Store {
        Store {
            arguments: Vec::new(alloc),
            slots: Vec::new(alloc),
            constants: Vec::new(alloc),
        }
    }
}

/// The number in 32 bits. No text is long enough to need more, so a larger number is refused as
/// where memory runs out.
#[inline(always)]
pub fn narrow(number: usize) -> Result<u32, AllocError>
    ensures { IfOk result (λ k. k ≡ number) }
{
    match u32::try_from(number) {
        Ok(narrow) => Ok(narrow),
        Err(_) => Err(AllocError),
    }
}

/// The item at an index.
#[inline(always)]
pub fn item_at<T>(items: &[T], index: usize) -> &T
    requires { index < length items.now }
    ensures { slice_get items.now index ≡ Some result.now }
{
    &items[index]
}

/// The items of a segment that the list has.
#[inline(always)]
pub fn part<T>(items: &[T], at: Segment) -> &[T]
    ensures { result.now ≡ segment items.now at }
{
    let first = at.first as usize;
    let count = at.count as usize;
    if first > items.len() {
        return &[];
    }
    let tail = &items[first..];
    if count > tail.len() {
        return tail;
    }
    &tail[..count]
}

/// The slot of a value that is appended to the constants.
fn kept(constants: &mut Vec<Value>, value: Value) -> Result<Slot, AllocError>
    ensures grown { OnOk result (IsGrown constants.old.items constants.new.items) }
    ensures slot { IfOk result (IsSlotOf constants.new.items (Fixed value)) }
{
    let place = narrow(constants.len())?;
    constants.push(value)?;
    Ok(Slot::Constant(place))
}

/// The slot of an integer.
#[inline(always)]
fn number_slot(constants: &mut Vec<Value>, number: i64) -> Result<Slot, AllocError>
    ensures grown { OnOk result (IsGrown constants.old.items constants.new.items) }
    ensures slot { IfOk result (IsSlotOf constants.new.items (Fixed (Int number))) }
{
    match i32::try_from(number) {
        Ok(short) => Ok(Slot::Number(short)),
        Err(_) => kept(constants, Value::Int(number)),
    }
}

/// The slot of a value.
#[inline(always)]
pub fn value_slot(constants: &mut Vec<Value>, value: Value) -> Result<Slot, AllocError>
    ensures grown { OnOk result (IsGrown constants.old.items constants.new.items) }
    ensures slot { IfOk result (IsSlotOf constants.new.items (Fixed value)) }
{
    match value {
        Value::Int(number) => number_slot(constants, number),
        Value::Bool(truth) => Ok(Slot::Truth(truth)),
        Value::Set(_) => kept(constants, value),
    }
}

/// The slot of a scalar.
#[inline(always)]
pub fn slot_of(constants: &mut Vec<Value>, term: Term) -> Result<Slot, AllocError>
    ensures grown { OnOk result (IsGrown constants.old.items constants.new.items) }
    ensures slot { IfOk result (IsSlotOf constants.new.items term) }
{
    match term {
        Term::Var(number) => Ok(Slot::Variable(narrow(number)?)),
        Term::Fixed(value) => value_slot(constants, value),
    }
}

/// A value as it is read.
#[inline(always)]
fn scalar_of(value: &Value) -> Scalar<'_>
    ensures { scalar_term result ≡ Fixed value.now }
{
    match value {
        Value::Int(number) => Scalar::Number(*number),
        Value::Bool(truth) => Scalar::Truth(*truth),
        Value::Set(set) => Scalar::Set(set),
    }
}

/// A term as it is read.
pub(crate) fn read_term(term: &Term) -> Scalar<'_>
    ensures { scalar_term result ≡ term.now }
{
    match term {
        Term::Var(number) => Scalar::Variable(*number),
        Term::Fixed(value) => scalar_of(value),
    }
}

/// A constant as it is read.
#[inline]
fn constant_of(constants: &[Value], place: u32) -> Scalar<'_>
    ensures { scalar_term result ≡ Fixed (constant_at constants.now place) }
{
    match constants.get(place as usize) {
        Some(value) => scalar_of(value),
        None => Scalar::Number(0),
    }
}

/// A slot as it is read. An array's is read as some scalar, on which nothing depends.
#[inline(always)]
pub fn scalar_at(constants: &[Value], slot: Slot) -> Scalar<'_>
    ensures { scalar_term result ≡ slot_term constants.now slot }
{
    match slot {
        Slot::Variable(number) => Scalar::Variable(number as usize),
        Slot::Number(number) => Scalar::Number(i64::from(number)),
        Slot::Truth(truth) => Scalar::Truth(truth),
        Slot::Constant(place) => constant_of(constants, place),
        Slot::Array(_) => Scalar::Number(0),
    }
}
