//! Kinds of values.

ghost use Rattle.std.specs.Prelude.{◌≡◌};
ghost use Rattle.fz_meaning.specs.Relations.{kind_of, same_kind};

use fz_meaning::{Kind, Value};

/// The kind of a value. It takes no memory.
#[inline]
pub fn kind_of(value: &Value) -> Kind
    ensures { result ≡ kind_of value.now }
{
    match value {
        Value::Int(_) => Kind::Int,
        Value::Bool(_) => Kind::Bool,
        Value::Set(_) => Kind::Set,
    }
}

/// Whether the two kinds are the same. It takes no memory. Their numbers are compared, since a
/// branch on a kind is predicted wrong where kinds come in any order.
#[inline]
pub fn same_kind(left: Kind, right: Kind) -> bool
    ensures { result ≡ same_kind left right }
{
    left as u8 == right as u8
}
