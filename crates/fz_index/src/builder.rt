//! The list of a model's points, made in one pass over them.

use crate::arguments::{declared_elements, elements_in, scalar_in, slots_of};
use crate::relations::{Shape, Terms, shape_of};
use crate::row::{Product, Relation, Row, Visit};
use fz_store::{
    Builtin, ConstraintParts, Form, Kind, Model, PointParts, Scalar, Scalars, Slot, Term, scalar_at,
};
use std::alloc::{AllocError, Global};

/// The points of a model: the variables of each, how it is visited, and what that costs.
#[derive(Drop)]
pub(crate) struct Points {
    /// where the products of each point end
    pub(crate) ends: Vec<usize>,
    /// the variables of each point, each once, the list of one point after that of another
    pub(crate) products: Vec<Product>,
    /// how each point is visited
    pub(crate) visits: Vec<Visit>,
    /// one more than the number of scalars of each point
    pub(crate) costs: Vec<usize>,
    /// the point that is the domain of each variable
    pub(crate) domains: Vec<usize>,
}

/// The points of a model.
pub(crate) fn points_of(alloc: Global, model: &Model<'_>) -> Result<Points, AllocError> {
    let mut builder = Builder::new(alloc, model.variables().len())?;
    for point in 0..model.points() {
        builder.add_point(&model.point_parts(point))?;
    }
    let Builder { points, .. } = builder;
    Ok(points)
}

/// Whether the coefficients of a sum are fixed.
fn has_coefficients(parts: &ConstraintParts<'_, '_>, terms: Terms) -> bool {
    let mut coefficients = elements_in(parts, 0).slots.iter();
    !matches!(terms, Terms::Weighted) || coefficients.all(|slot| !matches!(slot, Slot::Variable(_)))
}

/// The lists of the points so far, and what is needed to add one.
#[derive(Drop)]
struct Builder {
    points: Points,
    /// for each variable one more than the index of its product that was added last
    last: Vec<usize>,
    /// the index of the first product of the point that is added
    first: usize,
    /// the constant part of its sum
    constant: i128,
    /// one more than the number of its scalars so far
    cost: usize,
}

impl Builder {
    fn new(alloc: Global, variables: usize) -> Result<Builder, AllocError> {
        let mut last = Vec::new(alloc);
        last.resize(variables, 0usize)?;
        let mut domains = Vec::new(alloc);
        domains.resize(variables, 0usize)?;
        Ok(Builder {
            points: Points {
                ends: Vec::new(alloc),
                products: Vec::new(alloc),
                visits: Vec::new(alloc),
                costs: Vec::new(alloc),
                domains,
            },
            last,
            first: 0,
            constant: 0,
            cost: 1,
        })
    }

    fn add_point(&mut self, parts: &PointParts<'_, '_>) -> Result<(), AllocError> {
        self.first = self.points.products.len();
        self.constant = 0;
        self.cost = 1;
        let visit = match parts {
            PointParts::Domain(_, own) => {
                if let Some(domain) = self.points.domains.get_mut(*own) {
                    *domain = self.points.visits.len();
                }
                Visit::Plain
            }
            PointParts::Elements(..) => Visit::Plain,
            PointParts::Definition(variable, own, side) => {
                self.add_definition(variable.kind, *own, side)?
            }
            PointParts::Constraint(parts) => self.add_constraint(parts)?,
        };
        self.points.visits.push(visit)?;
        self.points.costs.push(self.cost)?;
        self.points.ends.push(self.points.products.len())?;
        Ok(())
    }

    fn add_definition(&mut self, kind: Kind, own: usize, side: &Term) -> Result<Visit, AllocError> {
        self.add_variable(own, 1)?;
        let Term::Var(other) = side else {
            return Ok(Visit::Plain);
        };
        self.add_variable(*other, -1)?;
        if matches!(kind, Kind::Set) {
            return Ok(Visit::Plain);
        }
        Ok(Visit::Linear(Row {
            relation: Relation::Equal(0),
            truth: None,
            is_half: false,
        }))
    }

    fn add_constraint(&mut self, parts: &ConstraintParts<'_, '_>) -> Result<Visit, AllocError> {
        if let Some(known) = parts.posted.known
            && let Some(shape) = shape_of(known)
            && has_coefficients(parts, shape.terms)
            && let Some(row) = self.add_row(parts, shape, known.form)?
        {
            return Ok(Visit::Linear(row));
        }
        self.add_arguments(parts)?;
        match parts.posted.known.map(|known| (known.builtin, known.form)) {
            Some((Builtin::FznAllDifferentInt, Form::Base)) => Ok(Visit::Different),
            _ => Ok(Visit::Plain),
        }
    }

    /// Adds all variables of a constraint that is no linear row.
    fn add_arguments(&mut self, parts: &ConstraintParts<'_, '_>) -> Result<(), AllocError> {
        for argument in parts.arguments() {
            for slot in slots_of(parts, argument) {
                for element in declared_elements(parts, *slot).slots {
                    self.add_scalar(*element)?;
                }
                self.add_scalar(*slot)?;
            }
        }
        Ok(())
    }

    /// Adds a scalar that is in no sum.
    fn add_scalar(&mut self, slot: Slot) -> Result<(), AllocError> {
        self.cost = self.cost.saturating_add(1);
        match slot {
            Slot::Variable(number) => self.add_variable(number as usize, 0),
            Slot::Number(_) | Slot::Truth(_) | Slot::Constant(_) | Slot::Array(_) => Ok(()),
        }
    }

    /// Adds the products of a linear row, and its Boolean. There is no row where that says nothing.
    fn add_row(
        &mut self,
        parts: &ConstraintParts<'_, '_>,
        shape: Shape,
        form: Form,
    ) -> Result<Option<Row>, AllocError> {
        self.add_terms(parts, shape.terms)?;
        let relation = shape.relation.without(self.constant);
        let is_half = matches!(form, Form::Implied);
        let truth = shape
            .truth
            .map_or(Scalar::Truth(true), |index| scalar_in(parts, index));
        let (relation, truth) = match truth {
            Scalar::Variable(number) => {
                self.add_variable(number, 0)?;
                (relation, Some(number))
            }
            Scalar::Truth(true) => (relation, None),
            Scalar::Truth(false) if !is_half => (relation.negated(), None),
            Scalar::Truth(_) | Scalar::Number(_) | Scalar::Set(_) => return Ok(None),
        };
        Ok(Some(Row {
            relation,
            truth,
            is_half,
        }))
    }

    fn add_terms(
        &mut self,
        parts: &ConstraintParts<'_, '_>,
        terms: Terms,
    ) -> Result<(), AllocError> {
        match terms {
            Terms::Weighted => {
                self.add_weighted(elements_in(parts, 0), elements_in(parts, 1))?;
                self.add(scalar_in(parts, 2), -1)
            }
            Terms::Scalars(coefficients) => {
                for (index, coefficient) in coefficients.iter().enumerate() {
                    self.add(scalar_in(parts, index), *coefficient)?;
                }
                Ok(())
            }
            Terms::Complements => self.add_complements(elements_in(parts, 0)),
            Terms::Clause => {
                let elements = elements_in(parts, 0);
                for slot in elements.slots {
                    self.add(scalar_at(elements.constants, *slot), 1)?;
                }
                self.add_complements(elements_in(parts, 1))
            }
        }
    }

    fn add_weighted(
        &mut self,
        coefficients: Scalars<'_>,
        scalars: Scalars<'_>,
    ) -> Result<(), AllocError> {
        for index in 0..scalars.len() {
            if let Some(Scalar::Number(coefficient)) = coefficients.get(index)
                && let Some(scalar) = scalars.get(index)
            {
                self.add(scalar, coefficient)?;
            }
        }
        Ok(())
    }

    fn add_complements(&mut self, scalars: Scalars<'_>) -> Result<(), AllocError> {
        for slot in scalars.slots {
            self.add(scalar_at(scalars.constants, *slot), -1)?;
            self.constant = self.constant.saturating_add(1);
        }
        Ok(())
    }

    /// Adds a scalar times a coefficient to the sum of the point.
    fn add(&mut self, scalar: Scalar<'_>, coefficient: i64) -> Result<(), AllocError> {
        self.cost = self.cost.saturating_add(1);
        let number = match scalar {
            Scalar::Variable(number) => return self.add_variable(number, coefficient),
            Scalar::Number(number) => number,
            Scalar::Truth(truth) => i64::from(truth),
            Scalar::Set(_) => return Ok(()),
        };
        let product = i128::from(number).saturating_mul(i128::from(coefficient));
        self.constant = self.constant.saturating_add(product);
        Ok(())
    }

    /// Adds a variable to the point, or its coefficient to the product that the point has of it.
    fn add_variable(&mut self, variable: usize, coefficient: i64) -> Result<(), AllocError> {
        let last = self.last.get(variable).copied().unwrap_or(0);
        if last > self.first {
            if let Some(product) = self.points.products.get_mut(last - 1) {
                product.coefficient = product.coefficient.saturating_add(coefficient);
            }
            return Ok(());
        }
        self.points.products.push(Product {
            variable,
            coefficient,
        })?;
        if let Some(last) = self.last.get_mut(variable) {
            *last = self.points.products.len();
        }
        Ok(())
    }
}
