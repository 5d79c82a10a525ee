//! Loading a text item by item: once one is loaded it gives its lists back, so no tree is held.

ghost use Rattle.std.specs.Prelude.{◌≡◌, ◌≢◌, ◌<◌, ◌↔◌, Err, ◌++◌, ◌∷◌, [], IfErr, IfOk, List, OnOk, length, map};
ghost use Rattle.fz_store.specs.of_meaning.Located.{Constraint as LocatedConstraint, Decl as LocatedDecl};
ghost use Rattle.fz_syntax.specs.Offering.{IsLeft, IsRefusedAt, IsRefusedWithin, IsTextOfAllWithin, Took, TookAll, all_items, from_constraints, from_decls, from_predicates, left_of};
ghost use Rattle.fz_tree.specs.declared.error.SyntaxError.{SyntaxError as SyntaxFault};
ghost use Rattle.fz_tree.specs.declared.error.SyntaxError.TheVariants.{TooLong};
ghost use Rattle.fz_tree.specs.declared.tree.Decl as the_decl;
ghost use Rattle.fz_tree.specs.declared.tree.Predicate as the_predicate;
ghost use Rattle.fz_store.specs.of_meaning.Names.{fault_at_decl, kinds};
ghost use Rattle.fz_store.specs.of_meaning.View.{Tells, located_constraint, located_decl};
ghost use Rattle.fz_store.specs.of_meaning.declared.error.ModelError.{ModelError as NameFault};
ghost use Rattle.fz_store.specs.of_meaning.declared.error.ModelError.TheVariants.{Memory};
ghost use Rattle.fz_data.specs.Posting.{Posts};
ghost use Rattle.fz_data.specs.Scope.{HasKinds, constraint_fault_in};
ghost use Rattle.fz_data.specs.Stands.{Declares};
ghost use Rattle.fz_data.specs.Texts.{HasDeclared, HasPosted, IsLoadRefusal, IsLoadedFromWithin, IsNameFaultWithin};

use crate::error::LoadError;
use crate::loading::{declare, empty};
use crate::posting::{goal_of, post};
use fz_store::{Model, ModelError, Posted, Scope, Store, assembled};
use fz_syntax::{ConstraintItems, DeclItems, Offer, PredicateItems};
use fz_tree::{Constraint, Decl, Limits, Solve, SyntaxError};
use std::alloc::Global;

/// The items after the predicates. A predicate adds nothing to a model.
fn past_predicates<'a>(mut items: PredicateItems<'a>) -> Result<DeclItems<'a>, SyntaxError>
    ensures past { IfOk result (λ d. (ps : List the_predicate.Predicate)
        × TookAll from_predicates from_decls ps items.entry.rest d.rest) }
    ensures refused { IfErr result (IsRefusedAt items.entry.rest) }
{
    loop {
        match items.next()? {
            Offer::Item(predicate, more) => {
                drop(predicate);
                items = more;
            }
            Offer::End(decls) => return Ok(decls),
        }
    }
}

/// Reads all items from here on.
fn behind_constraint(mut items: ConstraintItems<'_>) -> Result<(), SyntaxError>
    ensures left { IfOk result (λ _. (r : _) × IsLeft from_constraints items.entry.rest r) }
    ensures refused { IfErr result (IsRefusedAt items.entry.rest) }
{
    loop {
        match items.next()? {
            Offer::Item(_, more) => items = more,
            Offer::End(_) => return Ok(()),
        }
    }
}

/// Reads all items from here on.
fn behind_decl(mut items: DeclItems<'_>) -> Result<(), SyntaxError>
    ensures left { IfOk result (λ _. (r : _) × IsLeft from_decls items.entry.rest r) }
    ensures refused { IfErr result (IsRefusedAt items.entry.rest) }
{
    loop {
        match items.next()? {
            Offer::Item(decl, more) => {
                drop(decl);
                items = more;
            }
            Offer::End(constraints) => return behind_constraint(constraints),
        }
    }
}

/// Adds what one more declaration declares, and gives its lists back.
fn take_decl<'a>(
    alloc: Global,
    scope: &mut Scope<'a>,
    decl: Decl<'a>,
    items: &mut DeclItems<'a>,
) -> Result<(), ModelError>
    requires kinds { HasKinds scope.old }
    ensures more { (known : List LocatedDecl) → Declares known scope.old
        → OnOk result (Declares (known ++ located_decl decl.entry ∷ []) scope.new) }
    ensures kinds { OnOk result (HasKinds scope.new) }
    ensures tells { (known : List LocatedDecl) → Declares known scope.old
        → IfErr result (λ e. Tells e (fault_at_decl (kinds known) (located_decl decl.entry))) }
    ensures same { Took from_decls [] items.old.rest items.new.rest }
    ensures left { left_of items.new.rest ≡ left_of items.old.rest }
{
    let declared = declare(alloc, scope, &decl);
    items.give_back(decl);
    declared
}

/// What all declarations declare, and the items after them. Where one has a fault of names, the
/// rest of the text is read first, since a fault of the text comes before each of names, wherever
/// it is.
fn declared_in<'a>(
    alloc: Global,
    mut items: DeclItems<'a>,
    mut scope: Scope<'a>,
) -> Result<(ConstraintItems<'a>, Scope<'a>), LoadError>
    requires kinds { HasKinds scope }
    requires nothing { Declares [] scope }
    ensures kinds { IfOk result (λ r. HasKinds r.1) }
    ensures declared { IfOk result (λ r. HasDeclared items.entry.rest r.0.rest r.1) }
    ensures refused { IfErr result (IsLoadRefusal (IsRefusedAt items.entry.rest)
        (IsLeft from_decls items.entry.rest) (λ r. all_items ([], r))) }
{
    loop {
        match items.next()? {
            Offer::Item(decl, mut more) => {
                if let Err(fault) = take_decl(alloc, &mut scope, decl, &mut more) {
                    behind_decl(more)?;
                    return Err(LoadError::Names(fault));
                }
                items = more;
            }
            Offer::End(constraints) => return Ok((constraints, scope)),
        }
    }
}

/// Appends one more constraint, and gives its lists back.
fn take_constraint<'a>(
    alloc: Global,
    scope: &Scope<'a>,
    store: &mut Store,
    found: &mut Vec<Posted<'a>>,
    constraint: Constraint<'a>,
    items: &mut ConstraintItems<'a>,
) -> Result<(), ModelError>
    requires kinds { HasKinds scope.now }
    ensures more { (known : List LocatedConstraint)
        → Posts scope.now known store.old found.old.items
        → OnOk result (Posts scope.now
        (known ++ located_constraint constraint.entry ∷ []) store.new found.new.items) }
    ensures tells { IfErr result (λ e. Tells e
        (constraint_fault_in scope.now (located_constraint constraint.entry))) }
    ensures same { Took from_constraints [] items.old.rest items.new.rest }
    ensures left { left_of items.new.rest ≡ left_of items.old.rest }
{
    let posted = post(alloc, scope, store, found, &constraint);
    items.give_back(constraint);
    posted
}

/// All constraints, and the solve item after them. A fault of names comes last here too.
fn posted_in<'a>(
    alloc: Global,
    mut items: ConstraintItems<'a>,
    scope: &Scope<'a>,
    store: &mut Store,
) -> Result<(Vec<Posted<'a>>, Solve<'a>), LoadError>
    requires kinds { HasKinds scope.now }
    ensures posted { IfOk result
        (λ r. HasPosted items.entry.rest scope.now store.new r.0.items r.1) }
    ensures refused { (ds : List the_decl.Decl) → Declares (map located_decl ds) scope.now
        → IfErr result (IsLoadRefusal (IsRefusedAt items.entry.rest)
        (IsLeft from_constraints items.entry.rest) (λ r. all_items ([], (ds, r)))) }
{
    let mut found = Vec::new(alloc);
    loop {
        match items.next()? {
            Offer::Item(constraint, mut more) => {
                if let Err(fault) = take_constraint(
                    alloc, scope, store, &mut found, constraint, &mut more,
                ) {
                    behind_constraint(more)?;
                    return Err(LoadError::Names(fault));
                }
                items = more;
            }
            Offer::End(solve) => return Ok((found, solve)),
        }
    }
}

/// How many bytes of text a declaration is taken to have, where room for the names is made.
const BYTES_OF_A_DECLARATION: usize = 64;

/// The model of a text, read and loaded item by item.
fn read_text<'a>(alloc: Global, source: &'a [u8], limits: Limits) -> Result<Model<'a>, LoadError>
    ensures loaded { IfOk result (IsLoadedFromWithin limits source.now) }
    ensures refused { IfErr result (IsLoadRefusal (IsRefusedWithin limits source.now)
        (IsTextOfAllWithin limits source.now) (λ t. t)) }
    ensures too_long { (limits.bytes < length source.now)
        → result ≡ Err (LoadError.Text TooLong) }
{
    let items = past_predicates(PredicateItems::new(alloc, source, limits)?)?;
    let nothing = empty(alloc, source.len() / BYTES_OF_A_DECLARATION)?;
    let (items, scope) = declared_in(alloc, items, nothing)?;
    let mut store = Store::new(alloc);
    let (constraints, solve) = posted_in(alloc, items, &scope, &mut store)?;
    let goal = goal_of(alloc, &scope, &solve.goal)?;
    Ok(assembled(scope, store, constraints, goal))
}

/// The model of a text, read under these limits. No tree of it is held.
///
/// # Errors
///
/// `Text` with the error of `parse_within`, or else `Names` with that of `load`: a fault of the
/// text comes before each of names, wherever it is.
pub fn load_text<'a>(
    alloc: Global,
    source: &'a [u8],
    limits: Limits,
) -> Result<Model<'a>, LoadError>
    // The source is a text of a tree without faults, and this is the tree's model.
    ensures loaded { IfOk result (IsLoadedFromWithin limits source.now) }
    // The source is a text of no tree, unless memory ran out, and the fault comes in the order of
    // faults.
    ensures text { (e : SyntaxFault) → result ≡ Err (LoadError.Text e)
        → IsRefusedWithin limits source.now e }
    ensures too_long { (result ≡ Err (LoadError.Text TooLong))
        ↔ (limits.bytes < length source.now) }
    // The source is a text of a tree, whose first fault is told, unless memory ran out.
    ensures names { (e : NameFault) → result ≡ Err (LoadError.Names e) → e ≢ Memory
        → IsNameFaultWithin limits source.now e }
{
    read_text(alloc, source, limits)
}
