//! What a declaration declares, and whether its name, its length and its value fit.

ghost use Rattle.std.specs.Prelude.{◌≡◌, IfErr, IfOk, None, Some, map, true};
ghost use Rattle.fz_store.specs.of_meaning.Relations.{kind_of, same_kind};
ghost use Rattle.fz_store.specs.of_meaning.Names.{definition_of, differs_in_length, fault_at_decl, literal_of, name_fault, part_fault, parts, parts_fault, variable_declared};
ghost use Rattle.fz_store.specs.of_meaning.Located.Expr.{One};
ghost use Rattle.fz_store.specs.Parts.{variable_view};
ghost use Rattle.fz_store.specs.of_meaning.View.{Tells, located_basic, located_decl, located_expr, located_value};
ghost use Rattle.fz_data.specs.Scope.{HasKinds, IsArrayOf, IsItem, kinds_in, place_in, value_fault_in};
ghost use Rattle.fz_store.specs.declared.scope.Scope.{Scope};

use crate::scope::{Item, scalars_of, term_of};
use crate::values::{base_kind, domain_of, literal_kind, literal_value};
use fz_store::{Array, Kind, ModelError, Scope, Term, Value, Variable, same_kind};
use fz_tree::{Basic, Decl, Expr};
use std::alloc::Global;
use std::slice;

/// The literals and names of an expression.
pub(crate) fn expression_parts<'t, 'a>(expression: &'t Expr<'a>) -> &'t [Basic<'a>]
    ensures { map located_basic result.now ≡ parts (Some (located_expr expression.now)) }
{
    match expression {
        Expr::One(part) => slice::from_ref(part),
        Expr::List(parts) => parts,
    }
}

/// The literals and names of a declared value.
fn value_parts<'t, 'a>(value: &'t Option<Expr<'a>>) -> &'t [Basic<'a>]
    ensures { map located_basic result.now ≡ parts (located_value value.now) }
{
    match value {
        Some(expression) => expression_parts(expression),
        None => &[],
    }
}

/// Whether an array's value has another number of elements than its length says.
fn is_of_another_length(decl: &Decl<'_>) -> bool
    ensures { result ≡ differs_in_length (located_decl decl.now) }
{
    match decl.length {
        Some(length) => value_parts(&decl.value).len() != length,
        None => false,
    }
}

/// Refuses a name that is declared already, and an array of another length.
#[tactic(auto, using(crate::proofs::Loops::has_kind))]
fn check_name(scope: &Scope<'_>, decl: &Decl<'_>) -> Result<(), ModelError>
    ensures clean { IfOk result (λ _. name_fault (kinds_in scope.now) (located_decl decl.now) ≡
        None) }
    ensures tells { IfErr result (λ e. Tells e
        (name_fault (kinds_in scope.now) (located_decl decl.now))) }
{
    if scope.names.contains(decl.name.text) {
        return Err(ModelError::DuplicateName(decl.name.span));
    }
    if is_of_another_length(decl) {
        return Err(ModelError::Length(decl.name.span));
    }
    Ok(())
}

/// The term of a scalar variable's definition, where it has one.
fn definition_of(
    alloc: Global,
    scope: &Scope<'_>,
    kind: Kind,
    value: &Option<Expr<'_>>,
) -> Result<Option<Term>, ModelError>
    requires kinds { HasKinds scope.now }
    ensures clean { IfOk result (λ _. parts_fault (kinds_in scope.now) (Some kind)
        (parts (located_value value.now)) ≡ None) }
    ensures term { IfOk result (λ t. t ≡ definition_of (place_in scope.now)
        (located_value value.now)) }
    ensures tells { IfErr result (λ e. Tells e
        (parts_fault (kinds_in scope.now) (Some kind) (parts (located_value value.now)))) }
{
    match value {
        None => Ok(None),
        Some(expression) => expression_definition(alloc, scope, kind, expression),
    }
}

/// The term of a definition. A list has none; in a tree of the grammar no scalar is defined by one.
fn expression_definition(
    alloc: Global,
    scope: &Scope<'_>,
    kind: Kind,
    expression: &Expr<'_>,
) -> Result<Option<Term>, ModelError>
    requires kinds { HasKinds scope.now }
    ensures clean { IfOk result (λ _. parts_fault (kinds_in scope.now) (Some kind)
        (parts (Some (located_expr expression.now))) ≡ None) }
    ensures term { IfOk result (λ t. t
        ≡ definition_of (place_in scope.now) (Some (located_expr expression.now))) }
    ensures tells { IfErr result (λ e. Tells e
        (parts_fault (kinds_in scope.now) (Some kind)
        (parts (Some (located_expr expression.now))))) }
{
    match expression {
        Expr::One(part) => {
            let term = term_of(alloc, scope, kind, part)?;
            Ok(Some(term))
        }
        Expr::List(parts) => {
            let _ = scalars_of(alloc, scope, kind, parts)?;
            Ok(None)
        }
    }
}

/// The value of a basic expression that is a literal of the kind.
fn part_value(alloc: Global, kind: Kind, part: &Basic<'_>) -> Result<Value, ModelError>
    ensures clean { IfOk result (λ _. (s : Scope)
        → part_fault (kinds_in s) (Some kind) (located_basic part.now) ≡ None) }
    ensures value { IfOk result (λ v. v ≡ literal_of (Some (One (located_basic part.now)))) }
    ensures of_kind { IfOk result (λ v. same_kind (kind_of v) kind ≡ true) }
    ensures tells { IfErr result (λ e. (s : Scope)
        → Tells e (part_fault (kinds_in s) (Some kind) (located_basic part.now))) }
{
    match part {
        Basic::Lit(literal) => {
            if !same_kind(literal_kind(&literal.what), kind) {
                return Err(ModelError::Kind(literal.span));
            }
            Ok(literal_value(alloc, &literal.what)?)
        }
        Basic::Named(_) => Err(ModelError::Memory),
    }
}

/// The value of a parameter, which is a literal in each tree of the grammar. A tree made otherwise
/// may have a name or a list there, which has no value: it is refused as where memory runs out.
fn parameter_value(alloc: Global, kind: Kind, value: &Option<Expr<'_>>) -> Result<Value, ModelError>
    ensures clean { IfOk result (λ _. (s : Scope)
        → parts_fault (kinds_in s) (Some kind) (parts (located_value value.now)) ≡ None) }
    ensures value { IfOk result (λ v. v ≡ literal_of (located_value value.now)) }
    ensures of_kind { IfOk result (λ v. same_kind (kind_of v) kind ≡ true) }
    ensures tells { IfErr result (λ e. (s : Scope)
        → Tells e (parts_fault (kinds_in s) (Some kind) (parts (located_value value.now)))) }
{
    match value {
        Some(expression) => expression_value(alloc, kind, expression),
        None => Err(ModelError::Memory),
    }
}

fn expression_value(alloc: Global, kind: Kind, expression: &Expr<'_>) -> Result<Value, ModelError>
    ensures clean { IfOk result (λ _. (s : Scope)
        → parts_fault (kinds_in s) (Some kind) (parts (Some (located_expr expression.now)))
        ≡ None) }
    ensures value { IfOk result (λ v. v ≡ literal_of (Some (located_expr expression.now))) }
    ensures of_kind { IfOk result (λ v. same_kind (kind_of v) kind ≡ true) }
    ensures tells { IfErr result (λ e. (s : Scope)
        → Tells e (parts_fault (kinds_in s) (Some kind)
        (parts (Some (located_expr expression.now))))) }
{
    match expression {
        Expr::One(part) => {
            let value = part_value(alloc, kind, part)?;
            Ok(value)
        }
        Expr::List(_) => Err(ModelError::Memory),
    }
}

/// A declared array.
fn array_of<'a>(alloc: Global, scope: &Scope<'a>, decl: &Decl<'a>) -> Result<Array<'a>, ModelError>
    requires kinds { HasKinds scope.now }
    ensures clean { IfOk result (λ _. value_fault_in scope.now (located_decl decl.now) ≡ None) }
    ensures array { IfOk result (λ x. IsArrayOf scope.now (located_decl decl.now) x) }
    ensures tells { IfErr result (λ e. Tells e (value_fault_in scope.now (located_decl decl.now))) }
{
    let kind = base_kind(&decl.base);
    let elements = scalars_of(alloc, scope, kind, value_parts(&decl.value))?;
    let domain = domain_of(alloc, &decl.base)?;
    Ok(Array {
        name: decl.name.text,
        is_variable: decl.is_var,
        kind,
        domain,
        elements,
    })
}

/// A declared scalar variable.
fn variable_of<'a>(
    alloc: Global,
    scope: &Scope<'a>,
    decl: &Decl<'a>,
) -> Result<Variable<'a>, ModelError>
    requires kinds { HasKinds scope.now }
    ensures clean { IfOk result (λ _. value_fault_in scope.now (located_decl decl.now) ≡ None) }
    ensures variable { IfOk result
        (λ v. variable_view v ≡ variable_declared (located_decl decl.now)) }
    ensures definition { IfOk result
        (λ v. v.definition ≡ definition_of (place_in scope.now) (located_decl decl.now).value) }
    ensures tells { IfErr result (λ e. Tells e (value_fault_in scope.now (located_decl decl.now))) }
{
    let kind = base_kind(&decl.base);
    let definition = definition_of(alloc, scope, kind, &decl.value)?;
    let domain = domain_of(alloc, &decl.base)?;
    Ok(Variable {
        name: decl.name.text,
        kind,
        domain,
        definition,
    })
}

/// What a declaration declares, whose name is new and whose length fits.
fn unnamed_item<'a>(
    alloc: Global,
    scope: &Scope<'a>,
    decl: &Decl<'a>,
) -> Result<Item<'a>, ModelError>
    requires kinds { HasKinds scope.now }
    ensures clean { IfOk result (λ _. value_fault_in scope.now (located_decl decl.now) ≡ None) }
    ensures item { IfOk result (λ x. IsItem scope.now (located_decl decl.now) x) }
    ensures tells { IfErr result (λ e. Tells e (value_fault_in scope.now (located_decl decl.now))) }
{
    if decl.length.is_some() {
        let array = array_of(alloc, scope, decl)?;
        return Ok(Item::Array(array));
    }
    if decl.is_var {
        let variable = variable_of(alloc, scope, decl)?;
        return Ok(Item::Variable(variable));
    }
    let value = parameter_value(alloc, base_kind(&decl.base), &decl.value)?;
    Ok(Item::Parameter(value))
}

/// What a declaration declares. It refuses the first fault: at the name, or else at the first part
/// of the value.
pub(crate) fn item_of<'a>(
    alloc: Global,
    scope: &Scope<'a>,
    decl: &Decl<'a>,
) -> Result<Item<'a>, ModelError>
    requires kinds { HasKinds scope.now }
    ensures clean { IfOk result (λ _. fault_at_decl (kinds_in scope.now) (located_decl decl.now) ≡
        None) }
    ensures item { IfOk result (λ x. IsItem scope.now (located_decl decl.now) x) }
    ensures tells { IfErr result (λ e. Tells e
        (fault_at_decl (kinds_in scope.now) (located_decl decl.now))) }
{
    check_name(scope, decl)?;
    let item = unnamed_item(alloc, scope, decl)?;
    Ok(item)
}
