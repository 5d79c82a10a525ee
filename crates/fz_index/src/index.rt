//! What a search knows of a model: which variables are in a point, and in which points a variable
//! is.

use crate::builder::{Points, points_of};
use crate::row::{Place, Product, Visit};
use fz_store::Model;
use std::alloc::{AllocError, Global};

const NOWHERE: Place = Place {
    point: 0,
    coefficient: 0,
};

/// What a search knows of a model. It is made for the first block that needs it, and used again for
/// later ones.
#[derive(Drop)]
pub struct Search {
    points: Points,
    /// for each variable the end of its list in `places`
    place_ends: Vec<usize>,
    /// the points that each variable is in, the list of one variable after that of another
    places: Vec<Place>,
}

impl Search {
    /// What is known of a model. It goes over all its points once.
    pub fn new(alloc: Global, model: &Model<'_>) -> Result<Search, AllocError> {
        let points = points_of(alloc, model)?;
        let variables = model.variables().len();
        let (place_ends, places) = turned(alloc, &points.products, &points.ends, variables)?;
        Ok(Search {
            points,
            place_ends,
            places,
        })
    }

    /// The variables of a point, each once, with their coefficients in its sum.
    pub fn products_of(&self, point: usize) -> &[Product] {
        items_of(&self.points.products, &self.points.ends, point)
    }

    /// The points that a variable is in, and its coefficient in each.
    pub fn places_of(&self, variable: usize) -> &[Place] {
        items_of(&self.places, &self.place_ends, variable)
    }

    /// How a point is visited.
    pub fn visit_of(&self, point: usize) -> Visit {
        match self.points.visits.get(point) {
            Some(visit) => *visit,
            None => Visit::Plain,
        }
    }

    /// The point that is the domain of a variable.
    pub fn domain_of(&self, variable: usize) -> usize {
        self.points.domains.get(variable).copied().unwrap_or(0)
    }

    /// How many steps it takes to look at a point.
    pub fn cost_of(&self, point: usize) -> usize {
        self.points.costs.get(point).copied().unwrap_or(1)
    }

    /// How many steps it takes to look at all.
    pub fn size(&self) -> usize {
        let mut size = 0usize;
        for cost in self.points.costs.iter() {
            size = size.saturating_add(*cost);
        }
        size
    }
}

/// What is known of a model, made where it isn't there yet.
pub fn known_of<'k>(
    alloc: Global,
    model: &Model<'_>,
    known: &'k mut Option<Search>,
) -> Result<&'k Search, AllocError> {
    let search = known.get_or_try_insert_with(|| Search::new(alloc, model))?;
    Ok(search)
}

/// The list of this number, where all lists are in one, one after another, and `ends` has their
/// ends.
fn items_of<'k, T>(items: &'k [T], ends: &[usize], number: usize) -> &'k [T] {
    let first = match number.checked_sub(1) {
        Some(before) => ends.get(before).copied().unwrap_or(0),
        None => 0,
    };
    let end = ends.get(number).copied().unwrap_or(0);
    if first <= end && end <= items.len() {
        &items[first..end]
    } else {
        &[]
    }
}

/// The points that each variable is in, from the products of each point.
fn turned(
    alloc: Global,
    products: &[Product],
    ends: &[usize],
    variables: usize,
) -> Result<(Vec<usize>, Vec<Place>), AllocError> {
    let mut next = first_places(alloc, products, variables)?;
    let mut places = Vec::new(alloc);
    places.resize(products.len(), NOWHERE)?;
    for point in 0..ends.len() {
        for product in items_of(products, ends, point) {
            let Some(at) = next.get_mut(product.variable) else {
                continue;
            };
            if let Some(place) = places.get_mut(*at) {
                *place = Place {
                    point,
                    coefficient: product.coefficient,
                };
            }
            *at = at.saturating_add(1);
        }
    }
    Ok((next, places))
}

/// Where the list of each variable starts.
fn first_places(
    alloc: Global,
    products: &[Product],
    variables: usize,
) -> Result<Vec<usize>, AllocError> {
    let mut counts = Vec::new(alloc);
    counts.resize(variables, 0usize)?;
    for product in products {
        if let Some(count) = counts.get_mut(product.variable) {
            *count = count.saturating_add(1);
        }
    }
    let mut before = 0usize;
    for count in counts.iter_mut() {
        let here = *count;
        *count = before;
        before = before.saturating_add(here);
    }
    Ok(counts)
}
