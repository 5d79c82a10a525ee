//! Texts: the pieces of a report's lines.

ghost use Rattle.std.specs.Prelude.{◌≡◌, ◌++◌, codes, decimal, OnOk};
ghost use Rattle.std.specs.Fmt.{signed_decimal};
ghost use Rattle.fz_check.specs.Report.{fault_text, reason_text};
ghost use Rattle.fz_filling.specs.View.{fault_view, reason_view};

use fz_filling::{Fault, Reason};
use itoa::Buffer;
use std::alloc::AllocError;

/// Adds bytes to the end of a text.
pub(crate) fn push_bytes(text: &mut Vec<u8>, bytes: &[u8]) -> Result<(), AllocError>
    ensures { OnOk result (text.new.items ≡ text.old.items ++ bytes.now) }
{
    text.extend_from_slice(bytes)
}

/// Adds a number in decimal to the end of a text.
pub(crate) fn push_count(text: &mut Vec<u8>, number: usize) -> Result<(), AllocError>
    ensures { OnOk result (text.new.items ≡ text.old.items ++ decimal number) }
{
    let mut buffer = Buffer::new();
    text.extend_from_slice(buffer.format(number).as_bytes())
}

/// Adds a number in decimal, with `-` where it is negative, to the end of a text.
pub(crate) fn push_number(text: &mut Vec<u8>, number: i64) -> Result<(), AllocError>
    ensures { OnOk result (text.new.items ≡ text.old.items ++ signed_decimal number) }
{
    let mut buffer = Buffer::new();
    text.extend_from_slice(buffer.format(number).as_bytes())
}

/// Adds what fails to the end of a text.
pub(crate) fn push_fault(text: &mut Vec<u8>, fault: &Fault<'_>) -> Result<(), AllocError>
    ensures { OnOk result (text.new.items ≡ text.old.items ++ fault_text (fault_view fault.now)) }
{
    match *fault {
        Fault::Printed(name) => {
            push_bytes(text, b"printed ")?;
            push_bytes(text, name)?;
            Ok(())
        }
        Fault::Domain(name) => {
            push_bytes(text, b"domain of ")?;
            push_bytes(text, name)?;
            Ok(())
        }
        Fault::Definition(name) => {
            push_bytes(text, b"definition of ")?;
            push_bytes(text, name)?;
            Ok(())
        }
        Fault::Constraint(number, predicate) => {
            push_bytes(text, b"constraint ")?;
            push_count(text, number)?;
            push_bytes(text, b" ")?;
            push_bytes(text, predicate)?;
            Ok(())
        }
        Fault::NotBetter(now, before) => {
            push_bytes(text, b"objective ")?;
            push_number(text, now)?;
            push_bytes(text, b" not better than ")?;
            push_number(text, before)?;
            Ok(())
        }
    }
}

/// Adds what is undecided to the end of a text.
pub(crate) fn push_reason(text: &mut Vec<u8>, reason: &Reason<'_>) -> Result<(), AllocError>
    ensures { OnOk result (text.new.items
        ≡ text.old.items ++ reason_text (reason_view reason.now)) }
{
    match *reason {
        Reason::NoValue(name) => {
            push_bytes(text, b"no value for ")?;
            push_bytes(text, name)?;
            Ok(())
        }
        Reason::Unknown(number, predicate) => {
            push_bytes(text, b"constraint ")?;
            push_count(text, number)?;
            push_bytes(text, b" ")?;
            push_bytes(text, predicate)?;
            push_bytes(text, b" not known")?;
            Ok(())
        }
        Reason::TooLarge(number) => {
            push_bytes(text, b"constraint ")?;
            push_count(text, number)?;
            push_bytes(text, b" too large")?;
            Ok(())
        }
        Reason::NotShownBetter(now, found) => {
            push_bytes(text, b"objective ")?;
            push_number(text, now)?;
            push_bytes(text, b" not shown better than ")?;
            push_number(text, found)?;
            Ok(())
        }
    }
}
