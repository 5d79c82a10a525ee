//! What a verdict on a block or an accepted stream means for solutions. The functions have empty
//! bodies, and their contracts are the laws.

ghost use Rattle.fz_filling.specs.Laws.{
  AcceptedAreJudged,
  AcceptedHaveSolutions,
  CompletedKeepVerdicts,
  EachNotBetterHasNone,
  EachSatisfiedHasOne,
  EachViolatedHasNone,
  FillingFollows,
  FillingIsOne,
  FillingIsProposed,
  FitWithoutFault,
  NotBetterHaveNone,
  SatisfiedIsSolved,
  ViolatedHaveNone,
};

/// A satisfied block has a solution: the partial assignment under which it was judged.
pub fn satisfied_is_solved()
    ensures { SatisfiedIsSolved }
{}

/// Accepted blocks have solutions that improve in turn.
pub fn accepted_have_solutions()
    ensures { AcceptedHaveSolutions }
{}

/// The blocks of an accepted report were judged so under some partial assignments.
pub fn accepted_are_judged()
    ensures { AcceptedAreJudged }
{}

/// A block that is violated where no values are looked for is violated where they are.
pub fn completed_keep_verdicts()
    ensures { CompletedKeepVerdicts }
{}

/// No known-solution extends a block that is violated by anything but its objective.
pub fn violated_have_none()
    ensures { ViolatedHaveNone }
{}

/// Where a block's objective is not better, no known-solution that extends the block improves on
/// one that extends the block before.
pub fn not_better_have_none()
    ensures { NotBetterHaveNone }
{}

/// The same as `violated_have_none`, for each block of a report.
pub fn each_violated_has_none()
    ensures { EachViolatedHasNone }
{}

/// The same as `not_better_have_none`, for each block of a report.
pub fn each_not_better_has_none()
    ensures { EachNotBetterHasNone }
{}

/// Each satisfied block of a report has a solution, whether the report is accepted or not.
pub fn each_satisfied_has_one()
    ensures { EachSatisfiedHasOne }
{}

/// The items of a block fit the model where none has a fault, and only there.
pub fn fit_without_fault()
    ensures { FitWithoutFault }
{}

/// A block has at most one filling where no values are looked for.
pub fn filling_is_one()
    ensures { FillingIsOne }
{}

/// Each filled value follows from the printed ones.
pub fn filling_follows()
    ensures { FillingFollows }
{}

/// A filling is a partial assignment with every printed value.
pub fn filling_is_proposed()
    ensures { FillingIsProposed }
{}
