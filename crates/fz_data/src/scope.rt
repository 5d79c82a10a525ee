//! What was declared so far, and how a declaration adds to it.

ghost use Rattle.std.specs.Prelude.{◌≡◌, ◌++◌, ◌∷◌, [], IfErr, IfOk, OnOk, None, Some, cond, map, true};
ghost use Rattle.fz_store.specs.of_meaning.View.{Tells, located_basic, located_name};
ghost use Rattle.fz_store.specs.of_meaning.declared.term.Term.TheVariants.{Fixed, Var};
ghost use Rattle.fz_store.specs.of_meaning.Names.{kind_fault, literal_value, part_fault, parts_fault, term_of};
ghost use Rattle.fz_store.specs.of_meaning.Located.Basic.{Named};
ghost use Rattle.fz_store.specs.of_meaning.Relations.{kind_of};
ghost use Rattle.fz_tree.specs.View.{bare_literal_kind};
ghost use Rattle.fz_store.specs.Parts.{terms_of};
ghost use Rattle.fz_data.specs.declared.scope.Item.TheVariants.{Parameter, Variable as item_variable, Array as item_array};
ghost use Rattle.fz_store.specs.of_meaning.declared.error.ModelError.TheVariants.{Memory};
ghost use Rattle.fz_data.specs.Scope.{HasKinds, IsAdded, has_elements_point, IsNewName, kinds_in, place_in};

use crate::rows::{Cited, term_kind, variable_kind};
use crate::values::{copied, literal_kind, literal_value};
use fz_store::{
    Array, DeclaredPoint, Domain, Kind, ModelError, ScalarList, Scope, Standing, Term, Value,
    Variable, same_kind, slot_of,
};
use fz_tree::{Basic, Literal, Name};
use std::alloc::{AllocError, Global};

/// What a declaration declares: a parameter with its value, a variable, or an array.
#[derive(Drop)]
pub(crate) enum Item<'a> {
    Parameter(Value),
    Variable(Variable<'a>),
    Array(Array<'a>),
}

/// What constraints and definitions cite.
#[inline(always)]
pub(crate) fn cited<'s, 'a>(scope: &'s Scope<'a>) -> Cited<'s, 'a>
    requires kinds { HasKinds scope.now }
    ensures variables { result.variables.now ≡ scope.now.variables.items }
    ensures arrays { result.arrays.now ≡ scope.now.arrays.items }
{
    Cited {
        variables: &scope.variables,
        kinds: &scope.kinds,
        arrays: &scope.arrays,
    }
}

/// The term of a literal of the wanted kind.
fn literal_term(alloc: Global, wanted: Kind, literal: &Literal) -> Result<Term, ModelError>
    ensures of_kind { IfOk result (λ _. kind_fault (Some wanted)
        (Some (kind_of (literal_value (bare_literal_kind literal.now.what)))) literal.now.span
        ≡ None) }
    ensures term { IfOk result (λ t. t
        ≡ Fixed (literal_value (bare_literal_kind literal.now.what))) }
    ensures tells { IfErr result (λ e. Tells e (kind_fault (Some wanted)
        (Some (kind_of (literal_value (bare_literal_kind literal.now.what)))) literal.now.span)) }
{
    if !same_kind(literal_kind(&literal.what), wanted) {
        return Err(ModelError::Kind(literal.span));
    }
    Ok(Term::Fixed(literal_value(alloc, &literal.what)?))
}

/// The term of a name of a scalar of the wanted kind.
#[inline]
fn named_term(
    alloc: Global,
    scope: &Scope<'_>,
    wanted: Kind,
    name: &Name<'_>,
) -> Result<Term, ModelError>
    requires kinds { HasKinds scope.now }
    ensures of_kind { IfOk result (λ _. part_fault (kinds_in scope.now) (Some wanted)
        (Named (located_name name.now)) ≡ None) }
    ensures term { IfOk result (λ t. t
        ≡ term_of (place_in scope.now) (Named (located_name name.now))) }
    ensures tells { IfErr result (λ e. Tells e
        (part_fault (kinds_in scope.now) (Some wanted) (Named (located_name name.now)))) }
{
    match scope.names.get(name.text) {
        None => Err(ModelError::UnknownName(name.span)),
        Some(Standing::Array(_)) => Err(ModelError::Kind(name.span)),
        Some(Standing::Variable(number)) => {
            if !same_kind(variable_kind(number, &cited(scope)), wanted) {
                return Err(ModelError::Kind(name.span));
            }
            Ok(Term::Var(number))
        }
        Some(Standing::Parameter(term)) => {
            if !same_kind(term_kind(term, &cited(scope)), wanted) {
                return Err(ModelError::Kind(name.span));
            }
            Ok(copied(alloc, term)?)
        }
    }
}

/// The term of a literal or a name, where a scalar of a kind is wanted.
#[inline(always)]
pub(crate) fn term_of(
    alloc: Global,
    scope: &Scope<'_>,
    wanted: Kind,
    part: &Basic<'_>,
) -> Result<Term, ModelError>
    requires kinds { HasKinds scope.now }
    ensures of_kind { IfOk result (λ _. part_fault (kinds_in scope.now) (Some wanted)
        (located_basic part.now)
        ≡ None) }
    ensures term { IfOk result (λ t. t ≡ term_of (place_in scope.now) (located_basic part.now)) }
    ensures tells { IfErr result (λ e. Tells e
        (part_fault (kinds_in scope.now) (Some wanted) (located_basic part.now))) }
{
    match part {
        Basic::Lit(literal) => literal_term(alloc, wanted, literal),
        Basic::Named(name) => named_term(alloc, scope, wanted, name),
    }
}

/// Literals and names, where scalars of a kind are wanted.
#[tactic(auto, using(crate::proofs::Tells::tells_stop, crate::proofs::Grown::none_read))]
pub(crate) fn scalars_of(
    alloc: Global,
    scope: &Scope<'_>,
    wanted: Kind,
    parts: &[Basic<'_>],
) -> Result<ScalarList, ModelError>
    requires kinds { HasKinds scope.now }
    ensures of_kind { IfOk result (λ _. parts_fault (kinds_in scope.now) (Some wanted)
        (map located_basic parts.now) ≡ None) }
    ensures terms { IfOk result (λ l. terms_of l
        ≡ map (term_of (place_in scope.now)) (map located_basic parts.now)) }
    ensures tells { IfErr result (λ e. Tells e
        (parts_fault (kinds_in scope.now) (Some wanted) (map located_basic parts.now))) }
{
    let mut slots = Vec::with_capacity(alloc, parts.len())?;
    let mut constants = Vec::new(alloc);
    for part in parts {
        let term = term_of(alloc, scope, wanted, part)?;
        let slot = slot_of(&mut constants, term)?;
        slots.push(slot)?;
    }
    Ok(ScalarList { slots, constants })
}

/// Appends a point, where it is wanted.
fn push_if(
    points: &mut Vec<DeclaredPoint>,
    wanted: bool,
    point: DeclaredPoint,
) -> Result<(), AllocError>
    ensures pushed { OnOk result (points.new.items
        ≡ points.old.items ++ cond wanted (point ∷ []) []) }
{
    if wanted {
        points.push(point)?;
    }
    Ok(())
}

/// Adds a parameter under a new name.
fn add_parameter<'a>(scope: &mut Scope<'a>, name: &'a [u8], value: Value) -> Result<(), ModelError>
    requires new { IsNewName scope.old name.now }
    ensures added { OnOk result (IsAdded scope.old name.now (Parameter value) scope.new) }
    ensures memory { IfErr result (λ e. e ≡ Memory) }
{
    scope.names.push_parameter(name, value)?;
    Ok(())
}

/// Adds a variable with its points.
fn add_variable<'a>(
    scope: &mut Scope<'a>,
    name: &'a [u8],
    variable: Variable<'a>,
) -> Result<(), ModelError>
    requires new { IsNewName scope.old name.now }
    ensures added { OnOk result (IsAdded scope.old name.now
        (item_variable variable.entry) scope.new) }
    ensures memory { IfErr result (λ e. e ≡ Memory) }
{
    let number = scope.variables.len();
    let has_definition = variable.definition.is_some();
    push_if(&mut scope.points, true, DeclaredPoint::Domain(number))?;
    push_if(
        &mut scope.points,
        has_definition,
        DeclaredPoint::Definition(number),
    )?;
    scope.kinds.push(variable.kind)?;
    scope.variables.push(variable)?;
    scope.names.push_variable(name, number)?;
    Ok(())
}

/// Whether an array has a domain to check: that of its variables, where it has bounds.
fn is_bounded(array: &Array<'_>) -> bool
    ensures { result ≡ has_elements_point array.now }
{
    match array.domain {
        Domain::All => false,
        _ => array.is_variable,
    }
}

/// Adds an array with its point.
fn add_array<'a>(scope: &mut Scope<'a>, name: &'a [u8], array: Array<'a>) -> Result<(), ModelError>
    requires new { IsNewName scope.old name.now }
    ensures added { OnOk result (IsAdded scope.old name.now (item_array array.entry) scope.new) }
    ensures memory { IfErr result (λ e. e ≡ Memory) }
{
    let number = scope.arrays.len();
    let has_point = is_bounded(&array);
    push_if(
        &mut scope.points,
        has_point,
        DeclaredPoint::Elements(number),
    )?;
    scope.arrays.push(array)?;
    scope.names.push_array(name, number)?;
    Ok(())
}

/// Adds what a new name declares. It refuses only where memory runs out.
pub(crate) fn add<'a>(
    scope: &mut Scope<'a>,
    name: &'a [u8],
    item: Item<'a>,
) -> Result<(), ModelError>
    requires new { IsNewName scope.old name.now }
    ensures added { OnOk result (IsAdded scope.old name.now item.entry scope.new) }
    ensures memory { IfErr result (λ e. e ≡ Memory) }
{
    match item {
        Item::Parameter(value) => add_parameter(scope, name, value),
        Item::Variable(variable) => add_variable(scope, name, variable),
        Item::Array(array) => add_array(scope, name, array),
    }
}
