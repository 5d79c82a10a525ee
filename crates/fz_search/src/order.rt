//! Which variable is split next, and where.

ghost use Rattle.std.specs.Prelude.{IfSome};
ghost use Rattle.fz_search.specs.Found.{IsObjective};

use crate::found::Task;
use crate::subsets::OpenSet;
use crate::work::{Move, Work};
use fz_index::Ends;
use fz_store::{Goal, Model, Term};

/// A number far below 0.
const FAR: i64 = -1_000_000_000;

/// The ways through a tree.
#[derive(Clone, Copy)]
pub(crate) enum Way {
    /// the variables are split in their order
    InOrder,
    /// the one with the fewest numbers is split
    Smallest,
    /// the same, and nothing is supposed of variables without bounds, nor given up
    Unsupposed,
    /// nothing is supposed, and the search ends before the first split
    Unsplit,
}

impl Way {
    /// Whether the integers without bounds are supposed to have some.
    pub(crate) fn supposes(self, task: &Task<'_, '_>) -> bool {
        task.lacks_bounds && !matches!(self, Way::Unsupposed)
    }
}

/// A split of a variable's bounds behind a number.
#[derive(Clone, Copy)]
pub(crate) struct Split {
    pub(crate) variable: usize,
    pub(crate) at: i64,
    pub(crate) upper_first: bool,
}

/// The variable of the objective, where it is one, and whether a greater value is worse.
pub(crate) fn objective_of(model: &Model<'_>) -> Option<(usize, bool)>
    ensures { IfSome result (λ r. IsObjective model.now.aim r.0 r.1) }
{
    match model.goal() {
        Goal::Minimize(Term::Var(number)) => Some((*number, true)),
        Goal::Maximize(Term::Var(number)) => Some((*number, false)),
        _ => None,
    }
}

/// The split that asks for an objective that is better than the one before.
pub(crate) fn improvement(model: &Model<'_>, before: Option<i64>) -> Option<Split> {
    let (variable, is_cost) = objective_of(model)?;
    let before = before?;
    Some(Split {
        variable,
        at: before.saturating_sub(i64::from(is_cost)),
        upper_first: !is_cost,
    })
}

/// The middle of some bounds, which is below their upper end.
fn middle(ends: Ends) -> i64 {
    let half = i64::try_from(ends.width() / 2).unwrap_or(0);
    ends.low.saturating_add(half)
}

impl<'m, 'a> Work<'m, 'a> {
    /// Whether not all numbers within the bounds of the objective are better than what is to be
    /// beaten.
    pub(crate) fn can_improve(&self) -> bool {
        let (Some(last), Some((variable, is_cost))) = (
            self.task.last,
            objective_of(self.task.model),
        ) else {
            return false;
        };
        let ends = self.ends_of(variable);
        if is_cost {
            ends.high >= last
        } else {
            ends.low <= last
        }
    }

    /// The next split, where a variable that can be split has no value. A set comes before the
    /// numbers, since nothing is known of it but by its value. Of a number the least is split off,
    /// or where that is far below 0, all numbers below 0; or those that others have with which it
    /// is all different.
    pub(crate) fn choose(&mut self) -> Option<Move<'m>> {
        if let Some(split) = self.wanted() {
            return Some(Move::Split(split));
        }
        if let Some(set) = self.open_set() {
            return Some(Move::SplitSet(set));
        }
        let variable = self.open_variable()?;
        let ends = self.ends_of(variable);
        let begin = self.begin_of(variable, ends);
        Some(Move::Split(Split {
            variable,
            at: ends.low.max(begin.saturating_sub(1)),
            upper_first: ends.low < begin,
        }))
    }

    /// The split that comes before all others. Where the variables are split in their order, it may
    /// be that of an objective, of whose bounds the worse half leaves later blocks the most room.
    fn wanted(&mut self) -> Option<Split> {
        if let Some(split) = self.improvement.take() {
            let ends = self.ends_of(split.variable);
            if ends.low <= split.at && split.at < ends.high {
                return Some(split);
            }
        }
        if let Some(split) = self.guided() {
            return Some(split);
        }
        let (variable, is_cost) = objective_of(self.task.model)?;
        if !matches!(self.way, Way::InOrder) || self.proposal.has(variable) {
            return None;
        }
        Some(Split {
            variable,
            at: middle(self.ends_of(variable)),
            upper_first: is_cost,
        })
    }

    /// The number from which on a variable is looked at first.
    fn begin_of(&self, variable: usize, ends: Ends) -> i64 {
        let begin = match self.begins {
            (noted, number) if noted == variable && ends.low < number => number,
            _ if ends.low < FAR => 0,
            _ => ends.low,
        };
        if begin <= ends.high { begin } else { ends.low }
    }

    /// The first variable with bounds and no value.
    pub(crate) fn first_open(&mut self) -> Option<usize> {
        for place in self.first..self.open.len() {
            let variable = self.open.get(place).copied()?;
            if !self.proposal.has(variable) {
                self.first = place;
                return Some(variable);
            }
        }
        None
    }

    /// The first set without a value of whose domain few numbers are known.
    fn open_set(&self) -> Option<&'m OpenSet> {
        let mut sets = self.task.sets.iter();
        sets.find(|set| !set.numbers.is_empty() && !self.proposal.has(set.variable))
    }

    /// The variable without a value that is split: the first, or the one with the fewest numbers.
    fn open_variable(&mut self) -> Option<usize> {
        let first = self.first_open()?;
        if matches!(self.way, Way::InOrder) {
            return Some(first);
        }
        let mut best = None;
        let mut fewest = i128::MAX;
        for place in self.first..self.open.len() {
            let variable = self.open.get(place).copied()?;
            if self.proposal.has(variable) {
                continue;
            }
            let width = self.ends_of(variable).width();
            if width < fewest {
                fewest = width;
                best = Some(variable);
            }
        }
        let passed = self.open.len().saturating_sub(self.first);
        self.spend(passed / 8);
        best
    }
}
