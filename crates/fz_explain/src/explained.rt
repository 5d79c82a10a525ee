//! What an explanation says of variables: their values, and where these come from.

ghost use Rattle.std.specs.Prelude.{◌≡◌, ◌-◌, IfOk, length, map};
ghost use Rattle.std.specs.List.{AllByRecursion};
ghost use Rattle.fz_filling.specs.Givers.{giver_view};
ghost use Rattle.fz_explain.specs.Explained.{IsTold, shortened};

use crate::source::{Source, source_of};
use fz_filling::Giver;
use fz_places::Value;
use fz_store::Partial;
use std::alloc::{AllocError, Global};

/// The most variables of an explanation.
pub(crate) const MOST_VARIABLES: usize = 12;

/// Where there are more, how many are taken from the front; the others are the last ones.
pub(crate) const FIRST_VARIABLES: usize = 8;

/// A variable's number, its value where it has one, and where that comes from.
#[derive(Drop)]
pub struct Explained {
    pub variable: usize,
    pub value: Option<Value>,
    pub source: Source,
}

/// Variables in their order, and how many are left out behind the first eight.
#[derive(Drop)]
pub struct Explanation {
    pub variables: Vec<Explained>,
    pub left_out: usize,
}

/// All the variables where they are at most twelve, or else the first eight and the last four.
fn shorten(alloc: Global, variables: &[usize]) -> Result<Vec<usize>, AllocError>
    ensures { IfOk result (λ v. v.items ≡ shortened variables.now) }
{
    let count = variables.len();
    if count <= MOST_VARIABLES {
        return Vec::from_slice(alloc, variables);
    }
    let mut shown = Vec::from_slice(alloc, &variables[..FIRST_VARIABLES])?;
    shown.extend_from_slice(&variables[count - (MOST_VARIABLES - FIRST_VARIABLES)..])?;
    Ok(shown)
}

/// A variable with its value under a filling that took these steps, and where that comes from.
fn explain_variable(
    alloc: Global,
    filling: &Partial,
    steps: &[Giver],
    variable: usize,
) -> Result<Explained, AllocError>
    ensures { IfOk result (IsTold filling.now (map giver_view steps.now) variable) }
{
    let value = match filling.get(variable) {
        Some(value) => Some(value.copy(alloc)?),
        None => None,
    };
    Ok(Explained {
        variable,
        value,
        source: source_of(filling, steps, variable),
    })
}

/// Each of these variables with its value, and where that comes from.
fn explain_variables(
    alloc: Global,
    filling: &Partial,
    steps: &[Giver],
    variables: &[usize],
) -> Result<Vec<Explained>, AllocError>
    ensures variables { IfOk result (λ v. map (λ e. e.variable) v.items ≡ variables.now) }
    ensures told { IfOk result (λ v. AllByRecursion
        (λ e. IsTold filling.now (map giver_view steps.now) e.variable e) v.items) }
{
    let mut told = Vec::new(alloc);
    for variable in variables {
        told.push(explain_variable(alloc, filling, steps, *variable)?)?;
    }
    Ok(told)
}

/// Explains variables under a filling that took these steps: all of them where they are at most
/// twelve, or else the first eight and the last four.
///
/// # Errors
///
/// Out of memory.
pub fn explain(
    alloc: Global,
    filling: &Partial,
    steps: &[Giver],
    variables: &[usize],
) -> Result<Explanation, AllocError>
    ensures variables { IfOk result
        (λ x. map (λ e. e.variable) x.variables.items ≡ shortened variables.now) }
    // Each has its value under the filling, and where that comes from.
    ensures told { IfOk result (λ x. AllByRecursion
        (λ e. IsTold filling.now (map giver_view steps.now) e.variable e) x.variables.items) }
    ensures left_out { IfOk result
        (λ x. x.left_out ≡ length variables.now - length x.variables.items) }
{
    let shown = shorten(alloc, variables)?;
    let told = explain_variables(alloc, filling, steps, &shown)?;
    let left_out = variables.len().saturating_sub(told.len());
    Ok(Explanation {
        variables: told,
        left_out,
    })
}
