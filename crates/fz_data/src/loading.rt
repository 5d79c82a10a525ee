//! Loading a tree: its declarations, constraints and goal are taken in source order, and each name
//! is looked up once.

ghost use Rattle.std.specs.Prelude.{◌≡◌, ◌++◌, ◌∷◌, [], IfErr, IfOk, List, OnOk, map};
ghost use Rattle.fz_store.specs.of_meaning.Located.{Decl as LocatedDecl};
ghost use Rattle.fz_store.specs.of_meaning.declared.error.ModelError.TheVariants.{Memory};
ghost use Rattle.fz_store.specs.of_meaning.Names.{model_of, HasNoFault, decls_fault, first_fault, fault_at_decl, kinds};
ghost use Rattle.fz_store.specs.of_meaning.View.{Tells, located, located_decl};
ghost use Rattle.fz_data.specs.Scope.{HasKinds};
ghost use Rattle.fz_data.specs.Stands.{Declares};

use crate::declaring::item_of;
use crate::posting::{all_posted, goal_of};
use crate::scope::add;
use fz_store::{Model, ModelError, Names, Scope, Store, assembled};
use fz_tree::{Ast, Decl};
use std::alloc::Global;

/// A scope in which nothing is declared yet, with room for this many names.
pub(crate) fn empty<'a>(alloc: Global, names: usize) -> Result<Scope<'a>, ModelError>
    ensures names { IfOk result (λ s. s.names ≡ []) }
    ensures variables { IfOk result (λ s. s.variables.items ≡ []) }
    ensures kinds { IfOk result HasKinds }
    ensures arrays { IfOk result (λ s. s.arrays.items ≡ []) }
    ensures points { IfOk result (λ s. s.points.items ≡ []) }
    ensures memory { IfErr result (λ e. e ≡ Memory) }
{
    Ok(Scope {
        names: Names::with_capacity(alloc, names)?,
        variables: Vec::with_capacity(alloc, names)?,
        kinds: Vec::with_capacity(alloc, names)?,
        arrays: Vec::new(alloc),
        points: Vec::with_capacity(alloc, names)?,
    })
}

/// Adds what one more declaration declares. It refuses the first fault in it.
pub(crate) fn declare<'a>(
    alloc: Global,
    scope: &mut Scope<'a>,
    decl: &Decl<'a>,
) -> Result<(), ModelError>
    requires kinds { HasKinds scope.old }
    ensures more { (known : List LocatedDecl) → Declares known scope.old
        → OnOk result (Declares (known ++ located_decl decl.now ∷ []) scope.new) }
    ensures kinds { OnOk result (HasKinds scope.new) }
    ensures tells { (known : List LocatedDecl) → Declares known scope.old
        → IfErr result (λ e. Tells e (fault_at_decl (kinds known) (located_decl decl.now))) }
{
    let item = item_of(alloc, scope, decl)?;
    add(scope, decl.name.text, item)?;
    Ok(())
}

/// What all declarations declare. It refuses the first fault in them.
#[tactic(auto, using(crate::proofs::OneMore::declares_none))]
fn declared<'a>(alloc: Global, decls: &[Decl<'a>]) -> Result<Scope<'a>, ModelError>
    ensures declares { IfOk result (Declares (map located_decl decls.now)) }
    ensures kinds { IfOk result HasKinds }
    ensures tells { IfErr result (λ e. Tells e (decls_fault [] (map located_decl decls.now))) }
{
    let mut scope = empty(alloc, decls.len())?;
    for decl in decls {
        declare(alloc, &mut scope, decl)?;
    }
    Ok(scope)
}

/// The model of a tree. It refuses a tree that has faults, and tells the first; any other it
/// refuses only where memory runs out.
pub fn load<'a>(alloc: Global, ast: &Ast<'a>) -> Result<Model<'a>, ModelError>
    ensures no_fault { IfOk result (λ _. HasNoFault (located ast.now)) }
    ensures model { IfOk result (λ m. m ≡ model_of (located ast.now)) }
    // This holds of any tree, wherever its names are in the source: the fault is told at the byte
    // range that the tree has for it.
    ensures first { IfErr result (λ e. Tells e (first_fault (located ast.now))) }
{
    let scope = declared(alloc, &ast.decls)?;
    let mut store = Store::new(alloc);
    let constraints = all_posted(alloc, &scope, &mut store, &ast.constraints)?;
    let goal = goal_of(alloc, &scope, &ast.solve.goal)?;
    Ok(assembled(scope, store, constraints, goal))
}
