//! Tasks within bounds. The first two arguments have their starts and durations, the third what
//! they use.

ghost use Rattle.std.specs.Prelude.{◌≡◌, ◌&&◌, ◌<◌, ◌+ℤ◌, ℤ, IsTrue, Some, false, int_le, length, pos, slice_get};
ghost use Rattle.std.specs.List.{zip};
ghost use Rattle.fz_model.specs.Meaning.{Partial as Values};
ghost use Rattle.fz_model.specs.Relations.{◌=ℤ◌, all_pairs, are_apart, is_cumulative, is_natural, last_naturally, runs_at, used_at};
ghost use Rattle.fz_model.specs.of_builtins.of_kernel.Given.{int_at, ints_at, slots_at};
ghost use Rattle.fz_bounds.specs.Decided.{Decides, LiesIn};
ghost use Rattle.fz_bounds.specs.Spans.{keep_apart};
ghost use Rattle.fz_bounds.specs.Within.{NumberLies, NumbersLie, given};

use crate::bounded::BoundedConstraint;
use crate::outlook::Outlook;
use crate::range::Range;

impl<'s, 'a> BoundedConstraint<'s, 'a> {
    /// The end of a task: the first time at which it no longer runs.
    fn end_of(&self, starts: usize, lasts: usize, task: usize) -> Range
        requires starts { task < length (slots_at (given self.now) starts) }
        requires lasts { task < length (slots_at (given self.now) lasts) }
        ensures { (K : Values) → NumbersLie self.now starts K → NumbersLie self.now lasts K
            → (s d : ℤ) → slice_get (ints_at K (given self.now) starts) task ≡ Some s
            → slice_get (ints_at K (given self.now) lasts) task ≡ Some d → LiesIn result (s +ℤ d) }
    {
        self.number_at(starts, task)
            .plus(self.number_at(lasts, task))
    }

    /// Whether a task runs at a time.
    fn runs_at(&self, task: usize, time: Range) -> Outlook
        requires starts { task < length (slots_at (given self.now) 0) }
        requires lasts { task < length (slots_at (given self.now) 1) }
        ensures { (K : Values) → NumbersLie self.now 0 K → NumbersLie self.now 1 K → (t s d : ℤ)
            → LiesIn time t → slice_get (ints_at K (given self.now) 0) task ≡ Some s
            → slice_get (ints_at K (given self.now) 1) task ≡ Some d
            → Decides result (runs_at t (s, d)) }
    {
        let started = self.number_at(0, task).at_most(time);
        started.and(time.below(self.end_of(0, 1, task)))
    }

    /// What is used at a time.
    fn used_at(&self, time: Range) -> Range
        ensures { (K : Values) → NumbersLie self.now 0 K → NumbersLie self.now 1 K
            → NumbersLie self.now 2 K → (t : ℤ) → LiesIn time t → LiesIn result
            (used_at t (zip (zip (ints_at K (given self.now) 0) (ints_at K (given self.now) 1))
            (ints_at K (given self.now) 2))) }
    {
        let mut used = Range::of(0);
        let spans = self.count(0).min(self.count(1));
        for task in 0..spans.min(self.count(2)) {
            let runs = self.runs_at(task, time);
            used = used.plus(self.number_at(2, task).where_holds(runs));
        }
        used
    }

    /// Whether what a task lasts and uses is 0 or more.
    fn is_counted(&self, task: usize) -> Outlook
        requires lasts { task < length (slots_at (given self.now) 1) }
        requires uses { task < length (slots_at (given self.now) 2) }
        ensures { (K : Values) → NumbersLie self.now 1 K → NumbersLie self.now 2 K → (d u : ℤ)
            → slice_get (ints_at K (given self.now) 1) task ≡ Some d
            → slice_get (ints_at K (given self.now) 2) task ≡ Some u
            → Decides result (is_natural d && is_natural u) }
    {
        let lasts = self.number_at(1, task).is_natural();
        lasts.and(self.number_at(2, task).is_natural())
    }

    /// Whether no task lasts or uses less than 0, and at no start of a task more is used than the
    /// fourth argument. A task surely runs from its greatest start on until before its least end;
    /// what these tasks use together is greatest where such a time begins.
    pub(crate) fn is_cumulative(&self) -> Outlook
        ensures { (K : Values) → NumbersLie self.now 0 K → NumbersLie self.now 1 K
            → NumbersLie self.now 2 K → NumberLies self.now 3 K → Decides result
            (is_cumulative (zip (zip (ints_at K (given self.now) 0) (ints_at K (given self.now) 1))
            (ints_at K (given self.now) 2)) (int_at K (given self.now) 3)) }
    {
        let spans = self.count(0).min(self.count(1));
        for task in 0..spans.min(self.count(2)) {
            if self.is_counted(task).is_never() {
                return Outlook::Never;
            }
            let time = Range::of(i128::from(self.greatest(0, task)));
            let surely = self.runs_at(task, time).is_always();
            if surely && self.used_at(time).at_most(self.number(3)).is_never() {
                return Outlook::Never;
            }
        }
        Outlook::Open
    }

    /// Whether a span has the length 0.
    pub(crate) fn is_empty(&self, lengths: usize, span: usize) -> Outlook
        requires in_range { span < length (slots_at (given self.now) lengths) }
        ensures { (K : Values) → NumbersLie self.now lengths K → (d : ℤ)
            → slice_get (ints_at K (given self.now) lengths) span ≡ Some d
            → Decides result (d =ℤ pos 0) }
    {
        self.number_at(lengths, span).equal(Range::of(0))
    }

    /// Whether one span ends before another begins.
    fn ends_before(&self, starts: usize, lengths: usize, one: usize, other: usize) -> Outlook
        requires starts { one < length (slots_at (given self.now) starts) }
        requires lasts { one < length (slots_at (given self.now) lengths) }
        requires other_starts { other < length (slots_at (given self.now) starts) }
        ensures { (K : Values) → NumbersLie self.now starts K → NumbersLie self.now lengths K
            → (s d t : ℤ) → slice_get (ints_at K (given self.now) starts) one ≡ Some s
            → slice_get (ints_at K (given self.now) lengths) one ≡ Some d
            → slice_get (ints_at K (given self.now) starts) other ≡ Some t
            → Decides result (int_le (s +ℤ d) t) }
    {
        self.end_of(starts, lengths, one)
            .at_most(self.number_at(starts, other))
    }

    /// Whether two spans have nothing in common.
    pub(crate) fn are_apart(
        &self,
        starts: usize,
        lengths: usize,
        one: usize,
        other: usize,
    ) -> Outlook
        requires starts { one < length (slots_at (given self.now) starts) }
        requires lasts { one < length (slots_at (given self.now) lengths) }
        requires other_starts { other < length (slots_at (given self.now) starts) }
        requires other_lasts { other < length (slots_at (given self.now) lengths) }
        ensures { (K : Values) → NumbersLie self.now starts K → NumbersLie self.now lengths K
            → (s d t e : ℤ) → slice_get (ints_at K (given self.now) starts) one ≡ Some s
            → slice_get (ints_at K (given self.now) lengths) one ≡ Some d
            → slice_get (ints_at K (given self.now) starts) other ≡ Some t
            → slice_get (ints_at K (given self.now) lengths) other ≡ Some e
            → Decides result (are_apart (s, d) (t, e)) }
    {
        self.ends_before(starts, lengths, one, other)
            .or(self.ends_before(starts, lengths, other, one))
    }

    /// Whether two tasks have nothing in common; where empty ones are spared, one may be empty.
    fn keep_apart(&self, spare: bool, one: usize, other: usize) -> Outlook
        requires starts { one < length (slots_at (given self.now) 0) }
        requires lasts { one < length (slots_at (given self.now) 1) }
        requires other_starts { other < length (slots_at (given self.now) 0) }
        requires other_lasts { other < length (slots_at (given self.now) 1) }
        ensures { (K : Values) → NumbersLie self.now 0 K → NumbersLie self.now 1 K → (s d t e : ℤ)
            → slice_get (ints_at K (given self.now) 0) one ≡ Some s
            → slice_get (ints_at K (given self.now) 1) one ≡ Some d
            → slice_get (ints_at K (given self.now) 0) other ≡ Some t
            → slice_get (ints_at K (given self.now) 1) other ≡ Some e
            → Decides result (keep_apart spare (s, d) (t, e)) }
    {
        let empty = self.is_empty(1, one).or(self.is_empty(1, other));
        Outlook::of(spare)
            .and(empty)
            .or(self.are_apart(0, 1, one, other))
    }

    /// Whether a task must overlap one before it.
    fn overlaps(&self, spare: bool, task: usize) -> bool
        requires starts { task < length (slots_at (given self.now) 0) }
        requires lasts { task < length (slots_at (given self.now) 1) }
        ensures { IsTrue result → (K : Values) → NumbersLie self.now 0 K → NumbersLie self.now 1 K
            → all_pairs (keep_apart spare)
            (zip (ints_at K (given self.now) 0) (ints_at K (given self.now) 1)) ≡ false }
    {
        for before in 0..task {
            if self.keep_apart(spare, before, task).is_never() {
                return true;
            }
        }
        false
    }

    /// Whether each task lasts 0 or more.
    pub(crate) fn last_naturally(&self) -> Outlook
        ensures { (K : Values) → NumbersLie self.now 0 K → NumbersLie self.now 1 K → Decides result
            (last_naturally (zip (ints_at K (given self.now) 0) (ints_at K (given self.now) 1))) }
    {
        for task in 0..self.count(0).min(self.count(1)) {
            if self.number_at(1, task).is_natural().is_never() {
                return Outlook::Never;
            }
        }
        Outlook::Open
    }

    /// Whether no two tasks have anything in common; empty ones may be spared.
    pub(crate) fn keep_all_apart(&self, spare: bool) -> Outlook
        ensures { (K : Values) → NumbersLie self.now 0 K → NumbersLie self.now 1 K → Decides result
            (all_pairs (keep_apart spare)
            (zip (ints_at K (given self.now) 0) (ints_at K (given self.now) 1))) }
    {
        for task in 0..self.count(0).min(self.count(1)) {
            if self.overlaps(spare, task) {
                return Outlook::Never;
            }
        }
        Outlook::Open
    }
}
