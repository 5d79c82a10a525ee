//! Calls that make a whole check, and that give the texts of reports and refusals.

use crate::outside::{file, is_given, tell, tell_error, tell_text};
use fz_check::{
    CheckError, Report, check, refusal_fault, refusal_text, report_text, show, show_printing_all,
    status,
};
use fz_syntax::Limits;

/// Makes a call on the text of a model and, where it takes one, on a stream.
pub fn make_call(rt: &HostRuntime, call: &str, operands: &[String]) -> Option<()> {
    let model = file(rt, operands, 0)?;
    if call == "show" || call == "show_printing_all" {
        tell_shown(rt, call, &model);
        return Some(());
    }
    let stream = file(rt, operands, 1)?;
    if call == "check" {
        tell_checked(rt, &model, &stream);
        return Some(());
    }
    call_on_answer(rt, &model, &stream)
}

fn show_lacks_memory(rt: &HostRuntime, call: &str, model: &[u8]) -> bool {
    let shown = match call {
        "show" => show(rt.alloc(), model),
        _ => show_printing_all(rt.alloc(), model, Limits::STANDARD),
    };
    match shown {
        Ok(text) => {
            tell_text(rt, &text);
            false
        }
        Err(error) => {
            tell_error(rt, &error);
            matches!(error, CheckError::Memory)
        }
    }
}

fn tell_shown(rt: &HostRuntime, call: &str, model: &[u8]) {
    for _ in 0..2 {
        if !show_lacks_memory(rt, call, model) {
            break;
        }
    }
}

fn check_lacks_memory(rt: &HostRuntime, model: &[u8], stream: &[u8]) -> bool {
    match check(rt.alloc(), model, stream) {
        Ok(report) => {
            tell(rt, &report);
            false
        }
        Err(error) => {
            tell_error(rt, &error);
            matches!(error, CheckError::Memory)
        }
    }
}

fn tell_checked(rt: &HostRuntime, model: &[u8], stream: &[u8]) {
    for _ in 0..2 {
        if !check_lacks_memory(rt, model, stream) {
            break;
        }
    }
}

/// Prints the exit status of a check, and the text of its report, or the byte range and the line of
/// its refusal.
fn call_on_answer(rt: &HostRuntime, model: &[u8], stream: &[u8]) -> Option<()> {
    match check(rt.alloc(), model, stream) {
        Ok(report) => tell_report(rt, &report),
        Err(CheckError::Memory) => return None,
        Err(error) => tell_refusal(rt, error),
    }
    Some(())
}

fn tell_report(rt: &HostRuntime, report: &Report<'_>) {
    tell(rt, &status(&Ok(report.answer)));
    for _ in 0..2 {
        if is_given(rt, report_text(rt.alloc(), report)) {
            break;
        }
    }
}

fn tell_refusal(rt: &HostRuntime, error: CheckError) {
    tell(rt, &status(&Err(error)));
    tell(rt, &refusal_fault(&error).and_then(|told| told.place));
    for _ in 0..2 {
        if is_given(rt, refusal_text(rt.alloc(), &error)) {
            break;
        }
    }
}
