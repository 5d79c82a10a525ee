//! The search for values.

ghost use Rattle.std.specs.Prelude.{◌≡◌, None, Some, IfOk, IfSome};
ghost use Rattle.fz_search.specs.Claims.{HasNoneBeyond};
ghost use Rattle.fz_search.specs.Found.{HasNone, IsFoundFor, asked_of};

use crate::found::{Found, Task};
use crate::guide::{Branch, edges_of};
use crate::order::{Way, objective_of};
use crate::proposal::copied;
use crate::subsets::{OpenSet, open_set};
use crate::tree::Tree;
use crate::work::{Move, Work};
use fz_bounds::{KindEnds, Tightened};
use fz_index::{Search, known_of};
use fz_store::{Domain, Kind, Model, Partial};
use std::alloc::{AllocError, Global};

/// So many steps more than is asked are taken for each point and each scalar in it.
const STEPS_EACH: usize = 100;

/// For a claim, of which a stream mostly has one, so many times as many are taken.
const CLAIM: usize = 10;

/// What a tree comes to of which nothing is open.
fn ended(tree: &Tree<'_, '_>, work: &mut Work<'_, '_>) -> Result<Found, AllocError>
    ensures found { IfOk result (IsFoundFor tree.now) }
{
    match tree.refuted() {
        Some(point) => Ok(Found::Refuted(work.told(tree, point)?)),
        None => Ok(Found::Nothing),
    }
}

/// Makes a move in a tree that neither leaves a node out nor ends the search.
fn make<'m, 'a>(
    task: &Task<'m, 'a>,
    tree: &mut Tree<'m, 'a>,
    work: &mut Work<'m, 'a>,
    next: Move<'m>,
) -> Result<(), AllocError>
    ensures same { tree.new ≡ tree.old }
{
    match next {
        Move::Tighten(point, left) => {
            let told = tree.tighten(task.alloc, point, left)?;
            work.hear(tree, left.variable, matches!(told, Tightened::Narrowed(_)))
        }
        Move::Close(point) => {
            tree.close(task.alloc, point)?;
            Ok(())
        }
        Move::Improve => {
            let improved = tree.improve()?;
            work.hear_improved(tree, improved)
        }
        Move::Split(split) => {
            tree.split(split)?;
            work.branch_off(tree, split.variable)
        }
        Move::SplitSet(set) => {
            let domain = task.known.domain_of(set.variable);
            tree.split_set(task.alloc, domain, &set.numbers)?;
            work.branch_off(tree, set.variable)
        }
        Move::Leave(_) | Move::Found | Move::Nothing => Ok(()),
    }
}

/// Goes through a tree. It is borrowed, so that it is dropped on one way out alone.
fn go_through<'m, 'a>(
    task: &Task<'m, 'a>,
    tree: &mut Tree<'m, 'a>,
    work: &mut Work<'m, 'a>,
) -> Result<Found, AllocError>
    requires asked { tree.old.model ≡ task.now.model.now }
    ensures found { IfOk result (IsFoundFor tree.old) }
{
    for _ in 0..usize::MAX {
        if tree.is_closed() {
            match tree.step_back(task.alloc)? {
                Some(step) => work.put_back(tree, step)?,
                None => return ended(tree, work),
            }
            continue;
        }
        match work.next()? {
            Move::Leave(point) => if !tree.close(task.alloc, point)? {
                if matches!(work.way, Way::Unsupposed) {
                    return Ok(Found::Nothing);
                }
                tree.give_up();
            },
            Move::Found => {
                let values = copied(task.alloc, task.model, work.proposal.values())?;
                return Ok(Found::Values(values));
            }
            Move::Nothing => return Ok(Found::Nothing),
            next => make(task, tree, work, next)?,
        }
    }
    Ok(Found::Nothing)
}

/// Goes through a tree from its root on, with so many steps more.
fn go_from<'m, 'a>(
    task: &Task<'m, 'a>,
    way: Way,
    steps: usize,
    tree: &mut Tree<'m, 'a>,
) -> Result<Found, AllocError>
    requires asked { tree.old.model ≡ task.now.model.now }
    ensures found { IfOk result (IsFoundFor tree.old) }
{
    let steps = task
        .known
        .size()
        .saturating_mul(STEPS_EACH)
        .saturating_add(steps);
    let mut work = Work::new(task, way, steps, tree)?;
    go_through(task, tree, &mut work)
}

/// Searches once, in one way.
fn go(task: &Task<'_, '_>, way: Way, steps: usize) -> Result<Found, AllocError>
    ensures found { IfOk result (IsFoundFor (asked_of task.now)) }
{
    let mut tree = Tree::new(task, way.supposes(task))?;
    go_from(task, way, steps, &mut tree)
}

/// Searches in one way after another, until one comes to something.
fn go_all_ways(task: &Task<'_, '_>, steps: usize) -> Result<Found, AllocError>
    ensures found { IfOk result (IsFoundFor (asked_of task.now)) }
{
    for way in [Way::InOrder, Way::Smallest] {
        let found = go(task, way, steps)?;
        if !matches!(found, Found::Nothing) {
            return Ok(found);
        }
    }
    if task.lacks_bounds {
        return go(task, Way::Unsupposed, steps);
    }
    Ok(Found::Nothing)
}

/// The set variables without a value, and whether an integer without one has no bounds.
fn open_of(
    alloc: Global,
    model: &Model<'_>,
    filling: &Partial,
) -> Result<(Vec<OpenSet>, bool), AllocError> {
    let mut sets = Vec::new(alloc);
    let mut lacks_bounds = false;
    for (number, variable) in model.variables().iter().enumerate() {
        match (variable.kind, &variable.domain) {
            _ if filling.has(number) => {}
            (Kind::Set, domain) => sets.push(open_set(alloc, number, domain)?)?,
            (Kind::Int, Domain::All) => lacks_bounds = true,
            _ => {}
        }
    }
    Ok((sets, lacks_bounds))
}

/// Looks for values of the variables that have none. Bounds are narrowed, each step proved, and
/// where nothing more is left to narrow, the bounds of a variable are split: a part inside which a
/// point holds nowhere is left, and the other one taken. Where no part is left, no solution has the
/// filling's values. An objective that the block leaves open is to be better than that of the block
/// before, and gets the worst such value, since the next block is compared with what is found. The
/// variables are split in their order first; where that comes to no end, the one with the fewest
/// numbers. Each time it takes so many steps at most. Of what it finds no more is promised than
/// that the values are of their variables' kinds, since the caller judges them. It refuses only
/// where memory runs out.
pub fn search(
    alloc: Global,
    model: &Model<'_>,
    filling: &Partial,
    before: Option<i64>,
    steps: usize,
    known: &mut Option<Search>,
) -> Result<Found, AllocError>
    ensures found { IfOk result
        (IsFoundFor (record { model = model.now; filling = filling.now; last = None })) }
{
    let known = known_of(alloc, model, known)?;
    let (sets, lacks_bounds) = open_of(alloc, model, filling)?;
    let task = Task {
        alloc,
        known,
        model,
        filling,
        sets: &sets,
        lacks_bounds,
        before,
        edges: &[],
        last: None,
    };
    go_all_ways(&task, steps)
}

/// How many nodes of a tree show that there is none that is asked for, where some do.
fn refuting(task: &Task<'_, '_>, steps: usize) -> Result<Option<usize>, AllocError>
    ensures { IfOk result (λ o. IfSome o (λ _. HasNone (asked_of task.now))) }
{
    match go(task, Way::Unsupposed, steps)? {
        // Each node of the tree is a leaf or is split in two.
        Found::Refuted(refutation) => {
            let nodes = refutation.tried.saturating_mul(2).saturating_sub(1);
            Ok(Some(nodes))
        }
        Found::Values(_) | Found::Nothing => Ok(None),
    }
}

/// How many nodes of a tree show that no known-solution of the model has an objective better than
/// `last`, or where that is none, that there is none at all. It gives nothing where the search
/// comes to no end in ten times so many steps, or finds one. It refuses only where memory runs
/// out.
pub fn prove(
    alloc: Global,
    model: &Model<'_>,
    last: Option<i64>,
    tree: &[Branch<'_>],
    steps: usize,
    known: &mut Option<Search>,
) -> Result<Option<usize>, AllocError>
    ensures shown { IfOk result (λ o. IfSome o (λ _. HasNoneBeyond model.now last)) }
{
    let known = known_of(alloc, model, known)?;
    let filling = Partial::new(alloc, model)?;
    let edges = edges_of(alloc, model, tree)?;
    let (sets, lacks_bounds) = open_of(alloc, model, &filling)?;
    let task = Task {
        alloc,
        known,
        model,
        filling: &filling,
        sets: &sets,
        lacks_bounds,
        before: None,
        edges: &edges,
        last,
    };
    refuting(&task, steps.saturating_mul(CLAIM))
}

/// The best number that bounds leave to the objective, before any variable is split.
fn best_left(task: &Task<'_, '_>, steps: usize) -> Result<Option<i64>, AllocError> {
    let mut tree = Tree::new(task, false)?;
    best_in(task, steps, &mut tree)
}

/// The same, in a tree of one node.
fn best_in<'m, 'a>(
    task: &Task<'m, 'a>,
    steps: usize,
    tree: &mut Tree<'m, 'a>,
) -> Result<Option<i64>, AllocError>
    requires asked { tree.old.model ≡ task.now.model.now }
{
    let Some((variable, is_cost)) = objective_of(task.model) else {
        return Ok(None);
    };
    go_from(task, Way::Unsplit, steps, tree)?;
    let best = |ends: KindEnds| if is_cost { ends.low } else { ends.high };
    Ok(tree.ends(variable).map(best))
}

/// The best number that bounds leave to the objective, where a search shows that none is better.
fn shown_best(task: &Task<'_, '_>, steps: usize) -> Result<Option<i64>, AllocError>
    ensures { IfOk result (λ o. IfSome o (λ b. HasNone
        (record { model = task.now.model.now; filling = task.now.filling.now; last = Some b }))) }
{
    let Some(best) = best_left(task, steps)? else {
        return Ok(None);
    };
    let beyond = Task {
        last: Some(best),
        ..*task
    };
    match refuting(&beyond, steps)? {
        Some(_) => Ok(Some(best)),
        None => Ok(None),
    }
}

/// A number that no known-solution with the values of a filling has an objective better than: the
/// best that bounds leave to the objective, where a search shows that. It gives none where the
/// objective has no bounds. It refuses only where memory runs out.
pub fn bound(
    alloc: Global,
    model: &Model<'_>,
    filling: &Partial,
    steps: usize,
    known: &mut Option<Search>,
) -> Result<Option<i64>, AllocError>
    ensures { IfOk result (λ o. IfSome o (λ b. HasNone
        (record { model = model.now; filling = filling.now; last = Some b }))) }
{
    let known = known_of(alloc, model, known)?;
    let (sets, lacks_bounds) = open_of(alloc, model, filling)?;
    let task = Task {
        alloc,
        known,
        model,
        filling,
        sets: &sets,
        lacks_bounds,
        before: None,
        edges: &[],
        last: None,
    };
    shown_best(&task, steps)
}
