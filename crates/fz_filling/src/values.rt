//! Whether a value is the one of a literal, without making the literal's value where none has to be
//! made.

ghost use Rattle.std.specs.Prelude.{◌≡◌, IfOk};
ghost use Rattle.fz_index.specs.of_model.Names.{literal_value};
ghost use Rattle.fz_index.specs.of_model.States.{same_value};
ghost use Rattle.fz_stream.specs.of_syntax.View.{bare_literal_kind};

use fz_data::literal_value;
use fz_store::{IntSet, Value};
use fz_stream::LiteralKind;
use std::alloc::{AllocError, Global};

/// Whether a number is the literal's value.
#[inline]
pub(crate) fn is_number(number: i64, literal: &LiteralKind) -> bool
    ensures { result ≡ same_value (Value.Int number)
        (literal_value (bare_literal_kind literal.now)) }
{
    match literal {
        LiteralKind::Whole(printed) => number == *printed,
        LiteralKind::Truth(_) => false,
        LiteralKind::Range(_, _) => false,
        LiteralKind::Braces(_) => false,
    }
}

/// Whether a Boolean is the literal's value.
#[inline]
pub(crate) fn is_truth(truth: bool, literal: &LiteralKind) -> bool
    ensures { result ≡ same_value (Value.Bool truth)
        (literal_value (bare_literal_kind literal.now)) }
{
    match literal {
        LiteralKind::Truth(printed) => truth == *printed,
        LiteralKind::Whole(_) => false,
        LiteralKind::Range(_, _) => false,
        LiteralKind::Braces(_) => false,
    }
}

/// Whether a set is the literal's value, which is made. It refuses only where memory runs out.
pub(crate) fn is_set(alloc: Global, set: &IntSet, literal: &LiteralKind) -> Result<bool, AllocError>
    ensures { IfOk result (λ b. b ≡ same_value (Value.Set set.now)
        (literal_value (bare_literal_kind literal.now))) }
{
    match literal_value(alloc, literal)? {
        Value::Set(printed) => Ok(set.equals(&printed)),
        Value::Int(_) => Ok(false),
        Value::Bool(_) => Ok(false),
    }
}

/// Whether a value is the literal's. Only for a set is the literal's value made. It refuses only
/// where memory runs out.
#[inline]
pub(crate) fn is_of_literal(
    alloc: Global,
    value: &Value,
    literal: &LiteralKind,
) -> Result<bool, AllocError>
    ensures { IfOk result (λ b. b ≡ same_value value.now
        (literal_value (bare_literal_kind literal.now))) }
{
    match value {
        Value::Int(number) => Ok(is_number(*number, literal)),
        Value::Bool(truth) => Ok(is_truth(*truth, literal)),
        Value::Set(set) => is_set(alloc, set, literal),
    }
}
