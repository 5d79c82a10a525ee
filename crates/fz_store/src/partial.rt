//! Partial assignments: values by variable number.

ghost use Rattle.std.specs.Prelude.{◌≡◌, ◌<◌, IfOk, None, Some, false, is_some, length, map, option_map, pos, replicate};
ghost use Rattle.std.specs.FinSet as sets;
ghost use Rattle.fz_meaning.specs.Meaning.{value, value_at};
ghost use Rattle.fz_meaning.specs.Steps.{give};
ghost use Rattle.fz_store.specs.Partial.{nothing_for, number_in, truth_in, unset_count, without};

use crate::model::Model;
use fz_meaning::{IntSet, Term, Value};
use std::alloc::{AllocError, Global};
use std::mem;

/// Values of some of a model's scalar variables, by their numbers. A contract sees the list of all
/// variables' values, each there or not.
#[derive(Drop)]
pub struct Partial {
    values: Vec<Option<Value>>,
    /// the integers among the values, and 0 for each other variable: a third as wide, so that most
    /// reads find them in a near cache
    numbers: Vec<i64>,
    /// the Booleans among them, and `false` for each other variable
    truths: Vec<bool>,
    /// whether each variable has a value
    given: Vec<bool>,
    /// how many variables have no value
    unset: usize,
    /// the empty set, which a reading of a set gives where there is no set. Making one takes
    /// memory, so it is made once
    empty: IntSet,
}

impl std::marker::Model for Partial {
    ghost use Rattle.std.specs.Prelude.{List, Option};
    ghost use Rattle.fz_meaning.specs.of_base.declared.value.Value.{Value as Held};
    ghost use Rattle.fz_meaning.specs.of_base.contracts.sets.IntSet as the_set;
    ghost use Rattle.std.specs.Coded.{codes};

    ghost Value = { List (Option Held) };

    ghost coded = { Prim.hlevel (codes, the_set.the_row.coded) };

    ghost use Rattle.std.specs.Prelude.{◌≡◌};
    ghost use Rattle.std.specs.FinSet as sets;

    ghost view = { λ p. p.values.items };

    ghost use Rattle.fz_store.specs.Partial.{IsTabled, unset_count};

    ghost invariant = { λ p. (p.empty ≡ sets.empty)
        × IsTabled p.values.items p.numbers.items p.truths.items p.given.items
        × (p.unset ≡ unset_count p.values.items) };
}

/// The number that a value is, and 0 where it is none. It takes no memory.
#[inline(always)]
pub fn number_of(value: &Value) -> i64
    ensures read { result ≡ number_in (Some value.now) }
{
    match value {
        Value::Int(number) => *number,
        Value::Bool(_) | Value::Set(_) => 0,
    }
}

/// The Boolean that a value is, and `false` where it is none. It takes no memory.
#[inline(always)]
pub fn truth_of(value: &Value) -> bool
    ensures read { result ≡ truth_in (Some value.now) }
{
    match value {
        Value::Bool(truth) => *truth,
        Value::Int(_) | Value::Set(_) => false,
    }
}

fn no_numbers(alloc: Global) -> Result<IntSet, AllocError>
    ensures { IfOk result (λ s. s ≡ sets.empty) }
{
    IntSet::list(alloc, &[]).map_err(|_| AllocError)
}

fn zeros(alloc: Global, count: usize) -> Result<Vec<i64>, AllocError>
    ensures { IfOk result (λ v. v.items ≡ replicate count (pos 0)) }
{
    let mut numbers = Vec::new(alloc);
    numbers.resize(count, 0)?;
    Ok(numbers)
}

fn no_truths(alloc: Global, count: usize) -> Result<Vec<bool>, AllocError>
    ensures { IfOk result (λ v. v.items ≡ replicate count false) }
{
    let mut truths = Vec::new(alloc);
    truths.resize(count, false)?;
    Ok(truths)
}

/// Takes a value away. Where there is none, nothing is written.
#[inline(always)]
fn empty(place: &mut Option<Value>)
    ensures gone { place.new ≡ None }
{
    if place.is_some() {
        *place = None;
    }
}

/// Takes away each value that is there.
#[tactic(auto, using(crate::proofs::Tabled::forgets))]
fn forget(values: &mut [Option<Value>])
    ensures forgotten { values.new ≡ map (λ v. None) values.old }
{
    for value in values.iter_mut() {
        empty(value);
    }
}

/// Writes a value where none is. The old value, which needs no drop, isn't read, so the write
/// doesn't wait for memory.
#[inline(always)]
fn put(place: &mut Option<Value>, value: Value)
    ensures there { place.new ≡ Some value }
{
    mem::forget(mem::replace(place, Some(value)));
}

impl Partial {
    /// No variable has a value. It makes the room for a value of every variable; it refuses only
    /// where memory runs out.
    pub fn new(alloc: Global, model: &Model<'_>) -> Result<Partial, AllocError>
        ensures empty { IfOk result (λ p. p ≡ nothing_for model.now) }
    {
        let count = model.variables().len();
        let mut values = Vec::with_capacity(alloc, count)?;
        for _ in 0..count {
            values.push(None)?;
        }
        let numbers = zeros(alloc, count)?;
        let truths = no_truths(alloc, count)?;
        let given = no_truths(alloc, count)?;
        let empty = no_numbers(alloc)?;
        Ok(Partial {
            values,
            numbers,
            truths,
            given,
            unset: count,
            empty,
        })
    }

    /// The value of the variable of a number: none where it has none, or where the number is no
    /// variable's. It takes no memory.
    #[inline(always)]
    pub fn get(&self, number: usize) -> Option<&Value>
        ensures looked_up { option_map (λ v. v.now) result ≡ value_at self.now number }
    {
        self.values.get(number)?.as_ref()
    }

    /// The value of a scalar, where it has one. It takes no memory.
    #[inline(always)]
    pub fn value<'p>(&'p self, term: &'p Term) -> Option<&'p Value>
        ensures valued { option_map (λ v. v.now) result ≡ value self.now term.now }
    {
        match term {
            Term::Var(number) => self.get(*number),
            Term::Fixed(value) => Some(value),
        }
    }

    /// Whether the variable of a number has a value. It takes no memory.
    #[inline(always)]
    pub fn has(&self, number: usize) -> bool
        ensures given { result ≡ is_some (value_at self.now number) }
    {
        match self.given.get(number) {
            Some(given) => *given,
            None => false,
        }
    }

    /// The number that the variable of a number has: 0 where it has none. It takes no memory.
    #[inline(always)]
    pub fn number(&self, number: usize) -> i64
        ensures read { result ≡ number_in (value_at self.now number) }
    {
        match self.numbers.get(number) {
            Some(number) => *number,
            None => 0,
        }
    }

    /// The Boolean that the variable of a number has: `false` where it has none. It takes no
    /// memory.
    #[inline(always)]
    pub fn truth(&self, number: usize) -> bool
        ensures read { result ≡ truth_in (value_at self.now number) }
    {
        match self.truths.get(number) {
            Some(truth) => *truth,
            None => false,
        }
    }

    /// Gives a variable a value, and changes nothing else. It takes no memory.
    #[inline(always)]
    pub fn set(&mut self, number: usize, value: Value)
        requires in_range { number < length self.old }
        requires unset { value_at self.old number ≡ None }
        ensures given { self.new ≡ give self.old number value }
    {
        self.unset -= 1;
        self.numbers[number] = number_of(&value);
        self.truths[number] = truth_of(&value);
        self.given[number] = true;
        put(&mut self.values[number], value);
    }

    /// Takes the value of a variable away, where it has one, and changes nothing else. It takes no
    /// memory.
    #[inline]
    pub fn take_away(&mut self, number: usize)
        ensures taken { self.new ≡ without self.old number }
    {
        if self.has(number) {
            self.unset += 1;
            self.numbers[number] = 0;
            self.truths[number] = false;
            self.given[number] = false;
            empty(&mut self.values[number]);
        }
    }

    /// Takes every value away, but not the room for them. It takes no memory.
    pub fn clear(&mut self)
        ensures cleared { self.new ≡ map (λ v. None) self.old }
    {
        forget(&mut self.values);
        self.numbers.fill(0);
        self.truths.fill(false);
        self.given.fill(false);
        self.unset = self.values.len();
    }

    /// How many variables have no value. It takes no memory.
    #[inline]
    pub fn unset(&self) -> usize
        ensures counted { result ≡ unset_count self.now }
    {
        self.unset
    }

    /// The empty set. It takes no memory.
    pub fn no_numbers(&self) -> &IntSet
        ensures empty { result.now ≡ sets.empty }
    {
        &self.empty
    }

    /// The values by variable number. It takes no memory.
    pub fn values(&self) -> &[Option<Value>]
        ensures all { result.now ≡ self.now }
    {
        &self.values
    }
}
