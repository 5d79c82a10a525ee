//! Tests of one index after another, each as a closure.
ghost use Rattle.std.specs.Prelude.{◌≡◌, ◌<◌, ◌≤◌, ◌-◌, ℕ, Bool, not};
ghost use Rattle.fz_kernel.specs.Indices.{all_from, all_pairs_from, any_from};

/// Whether each index from `start` up to `end`, exclusive, passes.
#[inline(always)]
pub fn all_between<F: Fn(usize) -> bool>(start: usize, end: usize, passes: F) -> bool
    requires callable { (k : ℕ) → start ≤ k → k < end → F.pre passes k }
    ensures exact { (test : ℕ → Bool) → ((k : ℕ) (b : Bool) → start ≤ k → k < end
        → F.post passes k b → b ≡ test k) → result ≡ all_from test start (end - start) }
{
    for index in start..end {
        if !passes(index) {
            return false;
        }
    }
    true
}

/// Whether an index from `start` up to `end`, exclusive, passes.
#[inline(always)]
pub fn any_between<F: Fn(usize) -> bool>(start: usize, end: usize, passes: F) -> bool
    requires callable { (k : ℕ) → start ≤ k → k < end → F.pre passes k }
    ensures exact { (test : ℕ → Bool) → ((k : ℕ) (b : Bool) → start ≤ k → k < end
        → F.post passes k b → b ≡ test k) → result ≡ any_from test start (end - start) }
{
    !all_between(
        start,
        end,
        |index: usize| -> bool
            requires { F.pre passes index }
            ensures { (b : Bool) × F.post passes index b × (result ≡ not b) }
        { !passes(index) },
    )
}

/// Whether each two indices below `count`, the lesser one first, pass.
#[inline(always)]
pub fn all_pairs<F: Fn(usize, usize) -> bool>(count: usize, pass: F) -> bool
    requires callable { (j k : ℕ) → j < k → k < count → F.pre pass j k }
    ensures exact { (test : ℕ → ℕ → Bool) → ((j k : ℕ) (b : Bool) → j < k → k < count
        → F.post pass j k b → b ≡ test j k) → result ≡ all_pairs_from test 0 count }
{
    for one in 0..count {
        for other in one + 1..count {
            if !pass(one, other) {
                return false;
            }
        }
    }
    true
}
