//! Integers of 64 bits that rows leave.

ghost use Rattle.std.specs.Prelude.{◌+ℤ◌, ◌*ℤ◌};
ghost use Rattle.fz_builtins.specs.of_meaning.Relations.{◌=ℤ◌};
ghost use Rattle.fz_builtins.specs.Said.{is_result};
ghost use Rattle.fz_model.specs.Left.{IsLeftNumber, IsUnit};

/// The number, if there is one and it fits in 64 bits.
pub(crate) fn narrowed(number: Option<i128>) -> Option<i64>
    ensures { IsLeftNumber (is_result ◌=ℤ◌ number) result }
{
    narrow(number?)
}

/// The number itself, if it fits in 64 bits.
fn narrow(exact: i128) -> Option<i64>
    ensures { IsLeftNumber (λ n. n =ℤ exact) result }
{
    i64::try_from(exact).ok()
}

/// The number that completes a sum: times its coefficient, which is 1 or -1, and added to the other
/// products it gives the wanted sum. The difference may have more than 128 bits; then no number of
/// 64 bits completes the sum.
pub(crate) fn made_up(others: i128, coefficient: i64, wanted: i64) -> Option<i64>
    requires { IsUnit coefficient }
    ensures { IsLeftNumber (λ n. (others +ℤ (coefficient *ℤ n)) =ℤ wanted) result }
{
    let wanted = i128::from(wanted);
    if coefficient == 1 {
        narrow(wanted.checked_sub(others)?)
    } else {
        narrow(others.checked_sub(wanted)?)
    }
}
