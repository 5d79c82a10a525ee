//! Values of FlatZinc's types over int, bool and set.

ghost use Rattle.std.specs.Prelude.{◌≡◌, ◌↔◌, IsTrue, IfOk};

use crate::sets::IntSet;
use std::alloc::{AllocError, Global};

/// A value of FlatZinc: an integer, a Boolean or a finite set of integers.
#[derive(Debug, Drop)]
pub enum Value {
    Int(i64),
    Bool(bool),
    Set(IntSet),
}

impl Value {
    /// Whether both have the same kind and are the same number, Boolean or set. Values of
    /// different kinds aren't equal. It takes no memory.
    pub fn equals(&self, other: &Value) -> bool
        ensures { IsTrue result ↔ (self.now ≡ other.now) }
    {
        match (self, other) {
            (Value::Int(a), Value::Int(b)) => a == b,
            (Value::Bool(a), Value::Bool(b)) => a == b,
            (Value::Set(a), Value::Set(b)) => a.equals(b),
            _ => false,
        }
    }

    /// An equal value. It refuses only where memory runs out.
    pub fn copy(&self, alloc: Global) -> Result<Value, AllocError>
        ensures { IfOk result (λ v. v ≡ self.now) }
    {
        match self {
            Value::Int(number) => Ok(Value::Int(*number)),
            Value::Bool(truth) => Ok(Value::Bool(*truth)),
            Value::Set(set) => Ok(Value::Set(set.copy(alloc)?)),
        }
    }
}
