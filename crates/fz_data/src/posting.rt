//! Constraints and the goal, with their names looked up.

ghost use Rattle.std.specs.Prelude.{◌≡◌, ◌++◌, ◌∷◌, [], IfErr, IfOk, List, None, OnOk, Some, map, option_and_then, option_map};
ghost use Rattle.fz_store.specs.of_meaning.Located.{Constraint as LocatedConstraint};
ghost use Rattle.fz_store.specs.of_meaning.Located.Basic.{Named};
ghost use Rattle.fz_store.specs.of_meaning.Meaning.{first_some, row_of};
ghost use Rattle.fz_store.specs.of_meaning.Names.{aim_of, argument_fault, argument_of, defined_by, goal_fault, only_name, part_fault, parts_fault, place_of, posted_of, variable_at};
ghost use Rattle.fz_store.specs.of_meaning.View.{Tells, located_basic, located_constraint, located_expr, located_goal, located_name};
ghost use Rattle.fz_tree.specs.View.{arg_list, bare_arg, bare_note, bare_notes};
ghost use Rattle.fz_tree.specs.Tree.NoteArg.{OneBasic};
ghost use Rattle.fz_tree.specs.Tree.NoteArgs.{MoreArgs, NoMoreArgs};
ghost use Rattle.fz_tree.specs.Tree.NoteBasic.{Inner};
ghost use Rattle.fz_store.specs.Parts.{goal_view, kept_row, posted_view};
ghost use Rattle.fz_data.specs.Posting.{AreArgumentsOf, ArePlacesOf, IsArgumentOf, IsLonger, IsPlaceOf, IsPostedOf, Posts};
ghost use Rattle.fz_data.specs.Scope.{HasKinds, constraint_fault_in, kinds_in, place_in};
ghost use Rattle.fz_store.specs.Slots.{IsGrown};

use crate::rows::row_of;
use crate::scope::{cited, term_of};
use crate::values::{copied, literal_value};
use fz_store::{
    Argument, Goal, Kind, ModelError, Posted, Scope, Segment, Slot, Standing, Store, Term, Value,
    narrow, part, same_text, slot_of, value_slot,
};
use fz_tree::{Basic, Constraint, Expr, Goal as TreeGoal, Name, Note, NoteArg, NoteBasic};
use std::alloc::Global;

/// What a name stands for.
#[inline(always)]
fn named_slot(
    alloc: Global,
    scope: &Scope<'_>,
    constants: &mut Vec<Value>,
    name: &Name<'_>,
) -> Result<Slot, ModelError>
    ensures known { IfOk result (λ _. part_fault (kinds_in scope.now) None
        (Named (located_name name.now))
        ≡ None) }
    ensures place { IfOk result (IsPlaceOf scope.now constants.new.items
        (place_of (place_in scope.now) (Named (located_name name.now)))) }
    ensures grown { OnOk result (IsGrown constants.old.items constants.new.items) }
    ensures tells { IfErr result (λ e. Tells e
        (part_fault (kinds_in scope.now) None (Named (located_name name.now)))) }
{
    match scope.names.get(name.text) {
        None => Err(ModelError::UnknownName(name.span)),
        Some(Standing::Variable(number)) => Ok(Slot::Variable(narrow(number)?)),
        Some(Standing::Array(number)) => Ok(Slot::Array(narrow(number)?)),
        Some(Standing::Parameter(term)) => {
            let term = copied(alloc, term)?;
            Ok(slot_of(constants, term)?)
        }
    }
}

/// What a literal or a name in a constraint stands for.
#[inline(always)]
fn place_of(
    alloc: Global,
    scope: &Scope<'_>,
    constants: &mut Vec<Value>,
    part: &Basic<'_>,
) -> Result<Slot, ModelError>
    ensures known { IfOk result (λ _. part_fault (kinds_in scope.now) None (located_basic part.now)
        ≡ None) }
    ensures place { IfOk result (IsPlaceOf scope.now constants.new.items
        (place_of (place_in scope.now) (located_basic part.now))) }
    ensures grown { OnOk result (IsGrown constants.old.items constants.new.items) }
    ensures tells { IfErr result (λ e. Tells e
        (part_fault (kinds_in scope.now) None (located_basic part.now))) }
{
    match part {
        Basic::Lit(literal) => {
            let value = literal_value(alloc, &literal.what)?;
            Ok(value_slot(constants, value)?)
        }
        Basic::Named(name) => named_slot(alloc, scope, constants, name),
    }
}

/// Appends the slots of a list in brackets.
#[tactic(auto, using(crate::proofs::Grown::grows))]
fn places_of(
    alloc: Global,
    scope: &Scope<'_>,
    store: &mut Store,
    parts: &[Basic<'_>],
) -> Result<Segment, ModelError>
    ensures known { IfOk result (λ _. parts_fault (kinds_in scope.now) None
        (map located_basic parts.now)
        ≡ None) }
    ensures places { IfOk result (ArePlacesOf scope.now store.new
        (map (place_of (place_in scope.now)) (map located_basic parts.now))) }
    ensures longer { OnOk result (IsLonger store.old store.new) }
    ensures kept { OnOk result (store.new.arguments.items ≡ store.old.arguments.items) }
    ensures tells { IfErr result (λ e. Tells e
        (parts_fault (kinds_in scope.now) None (map located_basic parts.now))) }
{
    let first = narrow(store.slots.len())?;
    let count = narrow(parts.len())?;
    for part in parts {
        let slot = place_of(alloc, scope, &mut store.constants, part)?;
        store.slots.push(slot)?;
    }
    Ok(Segment { first, count })
}

/// An argument of a constraint.
#[inline(always)]
fn argument_of(
    alloc: Global,
    scope: &Scope<'_>,
    store: &mut Store,
    argument: &Expr<'_>,
) -> Result<Argument, ModelError>
    ensures known { IfOk result (λ _. argument_fault (kinds_in scope.now)
        (located_expr argument.now) ≡ None) }
    ensures argument { IfOk result
        (IsArgumentOf scope.now store.new
        (argument_of (place_in scope.now) (located_expr argument.now))) }
    ensures longer { OnOk result (IsLonger store.old store.new) }
    ensures kept { OnOk result (store.new.arguments.items ≡ store.old.arguments.items) }
    ensures tells { IfErr result (λ e. Tells e
        (argument_fault (kinds_in scope.now) (located_expr argument.now))) }
{
    match argument {
        Expr::One(part) => {
            let slot = place_of(alloc, scope, &mut store.constants, part)?;
            Ok(Argument::One(slot))
        }
        Expr::List(parts) => {
            let slots = places_of(alloc, scope, store, parts)?;
            Ok(Argument::List(slots))
        }
    }
}

/// Appends the arguments of a constraint, in their order.
#[tactic(auto, using(crate::proofs::Grown::grows))]
fn arguments_of(
    alloc: Global,
    scope: &Scope<'_>,
    store: &mut Store,
    arguments: &[Expr<'_>],
) -> Result<Segment, ModelError>
    ensures known { IfOk result (λ _. first_some (argument_fault (kinds_in scope.now))
        (map located_expr arguments.now) ≡ None) }
    ensures arguments { IfOk result (AreArgumentsOf scope.now store.new
        (map (argument_of (place_in scope.now)) (map located_expr arguments.now))) }
    ensures longer { OnOk result (IsLonger store.old store.new) }
    ensures tells { IfErr result (λ e. Tells e
        (first_some (argument_fault (kinds_in scope.now)) (map located_expr arguments.now))) }
{
    let first = narrow(store.arguments.len())?;
    let count = narrow(arguments.len())?;
    for argument in arguments {
        let given = argument_of(alloc, scope, store, argument)?;
        store.arguments.push(given)?;
    }
    Ok(Segment { first, count })
}

/// The number of the scalar variable of a name.
fn variable_named(scope: &Scope<'_>, name: &[u8]) -> Option<usize>
    ensures { result ≡ option_and_then variable_at (place_in scope.now name.now) }
{
    match scope.names.get(name)? {
        Standing::Variable(number) => Some(number),
        Standing::Parameter(term) => match term {
            Term::Var(number) => Some(*number),
            Term::Fixed(_) => None,
        },
        Standing::Array(_) => None,
    }
}

/// The name of an annotation, where that has no arguments.
fn bare_name<'a>(note: &Note<'a>) -> Option<&'a [u8]>
    ensures { option_map (λ x. x.now) result
        ≡ only_name (MoreArgs (OneBasic (Inner (bare_note note.now))) NoMoreArgs) }
{
    if note.args.is_empty() {
        return Some(note.name.text);
    }
    None
}

/// The name that is the only argument of an annotation, where it is a name by itself.
#[tactic(auto, using(crate::proofs::Loops::not_only))]
fn only_name<'a>(args: &[NoteArg<'a>]) -> Option<&'a [u8]>
    ensures { option_map (λ x. x.now) result ≡ only_name (arg_list (map bare_arg args.now)) }
{
    match args {
        [] => None,
        [arg] => match arg {
            NoteArg::One(NoteBasic::Inner(note)) => bare_name(note),
            _ => None,
        },
        [_, _, ..] => None,
    }
}

/// The variable that an annotation of the form `defines_var(x)` names.
fn defined(scope: &Scope<'_>, note: &Note<'_>) -> Option<usize>
    ensures { result ≡ defined_by (place_in scope.now) (bare_note note.now) }
{
    if !same_text(note.name.text, b"defines_var") {
        return None;
    }
    variable_named(scope, only_name(&note.args)?)
}

/// The first variable that an annotation of that form names.
#[tactic(auto, using(crate::proofs::Loops::first_found))]
fn target_of(scope: &Scope<'_>, notes: &[Note<'_>]) -> Option<usize>
    ensures { result ≡ first_some (defined_by (place_in scope.now)) (bare_notes notes.now) }
{
    for note in notes {
        let target = defined(scope, note);
        if target.is_some() {
            return target;
        }
    }
    None
}

/// A constraint, with the row that it fits and its defined variable.
fn posted<'a>(
    alloc: Global,
    scope: &Scope<'a>,
    store: &mut Store,
    constraint: &Constraint<'a>,
) -> Result<Posted<'a>, ModelError>
    requires kinds { HasKinds scope.now }
    ensures known { IfOk result (λ _. constraint_fault_in scope.now
        (located_constraint constraint.now) ≡ None) }
    ensures posted { IfOk result (IsPostedOf scope.now store.new
        (posted_of (place_in scope.now) (located_constraint constraint.now))) }
    ensures row { IfOk result (λ p. kept_row p
        ≡ row_of (posted_of (place_in scope.now) (located_constraint constraint.now))) }
    ensures longer { OnOk result (IsLonger store.old store.new) }
    ensures tells { IfErr result (λ e. Tells e
        (constraint_fault_in scope.now (located_constraint constraint.now))) }
{
    let arguments = arguments_of(alloc, scope, store, &constraint.args)?;
    let name = constraint.name.text;
    let known = row_of(
        name,
        part(&store.arguments, arguments),
        &cited(scope),
        store,
    );
    Ok(Posted {
        name,
        known,
        arguments,
        target: target_of(scope, &constraint.notes),
    })
}

/// Appends one more constraint. It refuses the first fault in it.
pub(crate) fn post<'a>(
    alloc: Global,
    scope: &Scope<'a>,
    store: &mut Store,
    found: &mut Vec<Posted<'a>>,
    constraint: &Constraint<'a>,
) -> Result<(), ModelError>
    requires kinds { HasKinds scope.now }
    ensures more { (known : List LocatedConstraint)
        → Posts scope.now known store.old found.old.items
        → OnOk result (Posts scope.now
        (known ++ located_constraint constraint.now ∷ []) store.new found.new.items) }
    ensures tells { IfErr result (λ e. Tells e
        (constraint_fault_in scope.now (located_constraint constraint.now))) }
{
    let one = posted(alloc, scope, store, constraint)?;
    found.push(one)?;
    Ok(())
}

/// The constraints, in source order.
pub(crate) fn all_posted<'a>(
    alloc: Global,
    scope: &Scope<'a>,
    store: &mut Store,
    constraints: &[Constraint<'a>],
) -> Result<Vec<Posted<'a>>, ModelError>
    requires kinds { HasKinds scope.now }
    ensures posts { IfOk result (λ ps. Posts scope.now
        (map located_constraint constraints.now) store.new ps.items) }
    ensures tells { IfErr result (λ e. Tells e
        (first_some (constraint_fault_in scope.now) (map located_constraint constraints.now))) }
{
    let mut found = Vec::with_capacity(alloc, constraints.len())?;
    for constraint in constraints {
        post(alloc, scope, store, &mut found, constraint)?;
    }
    Ok(found)
}

/// What is asked for: the objective is to be an integer.
pub(crate) fn goal_of(
    alloc: Global,
    scope: &Scope<'_>,
    goal: &TreeGoal<'_>,
) -> Result<Goal, ModelError>
    requires kinds { HasKinds scope.now }
    ensures clean { IfOk result (λ _. goal_fault (kinds_in scope.now) (located_goal goal.now)
        ≡ None) }
    ensures aim { IfOk result (λ g. goal_view g ≡ aim_of (place_in scope.now)
        (located_goal goal.now)) }
    ensures tells { IfErr result (λ e. Tells e
        (goal_fault (kinds_in scope.now) (located_goal goal.now))) }
{
    match goal {
        TreeGoal::Satisfy => Ok(Goal::Satisfy),
        TreeGoal::Minimize(objective) => {
            let term = term_of(alloc, scope, Kind::Int, objective)?;
            Ok(Goal::Minimize(term))
        }
        TreeGoal::Maximize(objective) => {
            let term = term_of(alloc, scope, Kind::Int, objective)?;
            Ok(Goal::Maximize(term))
        }
    }
}
