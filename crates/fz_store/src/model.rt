//! The loaded model.

ghost use Rattle.std.specs.Prelude.{◌≡◌, ◌<◌, IfSome, Some, length, map, option_map, slice_get};
ghost use Rattle.std.specs.List.{AllByRecursion};
ghost use Rattle.fz_meaning.specs.Meaning.{begins_name, constraint_points, find_name, points, row_of, variables_of};
ghost use Rattle.fz_meaning.specs.States.{shown_point};
ghost use Rattle.fz_meaning.specs.Known.{known_row};
ghost use Rattle.fz_store.specs.Kinds.{PlaceFits, PostedFits};
ghost use Rattle.fz_store.specs.Layout.{IsLaidOut, model_view};
ghost use Rattle.fz_store.specs.Parts.{constraint_view, elements_of, goal_view, kept_row, posted_view, variable_view};
ghost use Rattle.fz_store.specs.Shown.{IfConstraint, found_place, point_name, point_view, scalar_terms};

use crate::found::{Found, Scalars, What};
use crate::names::{Names, Standing};
use crate::parts::{Array, DeclaredPoint, Goal, Posted, Variable};
use crate::point::{ConstraintParts, Constraints, Point, PointParts};
use crate::scope::Scope;
use crate::store::{Scalar, Store, read_term};

/// A model with its names looked up. A contract sees it as the model of the tree that it was loaded
/// from.
#[derive(Drop)]
pub struct Model<'a> {
    /// the declared names, in source order
    names: Names<'a>,
    variables: Vec<Variable<'a>>,
    arrays: Vec<Array<'a>>,
    /// the points of the declarations, in their order
    points: Vec<DeclaredPoint>,
    constraints: Vec<Posted<'a>>,
    goal: Goal,
    /// the arguments of the constraints
    store: Store,
}

impl<'a> std::marker::Model for Model<'a> {
    ghost use Rattle.fz_meaning.specs.Meaning.{Model as Meaning};
    ghost use Rattle.fz_meaning.specs.of_base.contracts.sets.IntSet as the_set;
    ghost use Rattle.std.specs.Coded.{codes};

    ghost Value = { Meaning };

    ghost coded = { Prim.hlevel (codes, the_set.the_row.coded) };

    ghost use Rattle.fz_store.specs.Layout.{IsLaidOut, model_view};

    ghost view = { model_view };

    ghost invariant = { IsLaidOut };
}

impl<'a> Model<'a> {
    /// The scalar variables, by their numbers. It takes no memory.
    pub fn variables(&self) -> &[Variable<'a>]
        ensures all { map variable_view result.now ≡ variables_of self.now }
    {
        &self.variables
    }

    /// The constraints, in source order, each with the row that it fits. It takes no memory.
    pub fn constraints(&self) -> Constraints<'_, 'a>
        ensures all { map (posted_view result.variables.now result.arrays.now result.store.now)
            result.posted.now ≡ self.now.constraints }
        ensures rows { map kept_row result.posted.now ≡ map row_of self.now.constraints }
        ensures kinds { AllByRecursion (PostedFits self.now) self.now.constraints }
    {
        Constraints {
            posted: &self.constraints,
            variables: &self.variables,
            arrays: &self.arrays,
            store: &self.store,
        }
    }

    /// What is asked for. It takes no memory.
    pub fn goal(&self) -> &Goal
        ensures asked { goal_view result.now ≡ self.now.aim }
    {
        &self.goal
    }

    /// What a name stands for, where it is declared. It takes no memory.
    #[tactic(auto, using(crate::proofs::FindsKinds::finds))]
    pub fn find(&self, name: &[u8]) -> Option<Found<'_, 'a>>
        ensures place { option_map (found_place (variables_of self.now)) result
            ≡ find_name self.now name.now }
        ensures text { IfSome result (λ f. f.name.now ≡ name.now) }
        ensures kinds { IfSome result (λ f. PlaceFits self.now
            (found_place (variables_of self.now) f)) }
    {
        let (text, standing) = self.names.look_up(name)?;
        let what = match standing {
            Standing::Variable(number) => What::Scalar(Scalar::Variable(number)),
            Standing::Parameter(term) => What::Scalar(read_term(term)),
            Standing::Array(number) => {
                let array = self.arrays.get(number)?;
                What::Array(array.kind, elements_of(array))
            }
        };
        Some(Found { name: text, what })
    }

    /// Whether a declared name begins with these bytes. It goes over all names, and takes no memory.
    pub fn begins_name(&self, front: &[u8]) -> bool
        ensures { result ≡ begins_name self.now front.now }
    {
        self.names.begins(front)
    }

    /// The number of points. It takes no memory.
    #[tactic(auto, using(crate::proofs::Points::how_many))]
    pub fn points(&self) -> usize
        ensures counted { result ≡ length (points self.now) }
    {
        self.points.len() + self.constraints.len()
    }

    /// What the point of a number, from 0, is reported by. It takes no memory.
    pub fn point(&self, number: usize) -> Point<'a>
        requires in_range { number < length (points self.now) }
        ensures told { option_map shown_point (slice_get (points self.now) number)
            ≡ Some (point_name result) }
    {
        match self.point_parts(number) {
            PointParts::Domain(variable, _) => Point::Domain(variable.name),
            PointParts::Definition(variable, _, _) => Point::Definition(variable.name),
            PointParts::Elements(name, _, _) => Point::Domain(name),
            PointParts::Constraint(parts) => Point::Constraint(parts.number, parts.posted.name),
        }
    }

    /// The point of a number, from 0, with its parts: a constraint is known where it has a row. It
    /// takes no memory.
    #[inline(always)]
    #[tactic(auto, using(crate::proofs::Points::point_at))]
    pub fn point_parts(&self, number: usize) -> PointParts<'_, 'a>
        requires in_range { number < length (points self.now) }
        ensures parts { slice_get (points self.now) number ≡ Some (point_view result) }
        ensures known { IfConstraint result
            (λ c. option_map known_row c.posted.now.known ≡ row_of (constraint_view c)) }
        ensures kinds { IfConstraint result (λ c. PostedFits self.now (constraint_view c)) }
    {
        if number >= self.points.len() {
            let place = number - self.points.len();
            return PointParts::Constraint(ConstraintParts {
                number: place + 1,
                posted: &self.constraints[place],
                variables: &self.variables,
                arrays: &self.arrays,
                store: &self.store,
            });
        }
        match self.points[number] {
            DeclaredPoint::Domain(variable) => {
                PointParts::Domain(&self.variables[variable], variable)
            }
            DeclaredPoint::Definition(number) => {
                let variable = &self.variables[number];
                match &variable.definition {
                    Some(term) => PointParts::Definition(variable, number, term),
                    None => PointParts::Domain(variable, number),
                }
            }
            DeclaredPoint::Elements(array) => {
                let array = &self.arrays[array];
                PointParts::Elements(array.name, &array.domain, elements_of(array))
            }
        }
    }
}

/// The model of what was declared, with constraints and a goal that cite it by number.
pub fn assembled<'a>(
    scope: Scope<'a>,
    store: Store,
    constraints: Vec<Posted<'a>>,
    goal: Goal,
) -> Model<'a>
    requires laid_out { IsLaidOut (record {
      names = scope.names;
      variables = scope.variables;
      arrays = scope.arrays;
      points = scope.points;
      constraints = constraints;
      goal = goal;
      store = store;
    }) }
    ensures view { result ≡ model_view (record {
      names = scope.entry.names;
      variables = scope.entry.variables;
      arrays = scope.entry.arrays;
      points = scope.entry.points;
      constraints = constraints.entry;
      goal = goal;
      store = store;
    }) }
{
    let Scope {
        names,
        variables,
        kinds: _,
        arrays,
        points,
    } = scope;
    Model {
        names,
        variables,
        arrays,
        points,
        constraints,
        goal,
        store,
    }
}

/// The elements of an array.
#[inline(always)]
fn elements_of<'m>(array: &'m Array<'_>) -> Scalars<'m>
    ensures { scalar_terms result ≡ elements_of array.now }
{
    Scalars {
        slots: &array.elements.slots,
        constants: &array.elements.constants,
    }
}
