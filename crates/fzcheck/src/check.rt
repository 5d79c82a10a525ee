//! The command `check`.

use crate::as_json::refusal_line;
use crate::detail::{Detail, refuse_fault};
use crate::events::unread_line;
use crate::explain::explanation;
use crate::known::claims_of;
use crate::names::{read_table, table_of};
use crate::options::{completion_of, limits_of, options_of};
use crate::reading::{Unread, most_bytes, open_file, read_whole};
use crate::refusing::{refuse, refuse_file};
use crate::screen::{Report, Screen};
use crate::teller::{JsonTeller, Teller};
use crate::tree::{branches_of, read_tree};
use fz_check::{
    Answer, CheckError, Claims, MOST_READS, Model, Taker, check_loaded, read_model, status,
};
use fz_command::{Check, Explaining, Form, Size};
use fz_explain::{Explainer, Message, NameTable, Text};
use fz_files::{NOTHING, Recent, Recorder, find_input};
use std::alloc::Global;
use std::cell::RefCell;
use std::fs::File;
use std::io::{IsTerminal, Read, Write};

/// The name of the stream in messages, where it is on standard input.
const STANDARD_INPUT: &str = "(standard input)";

/// What a terminal is told on which the stream is to be written.
const AWAITED: &str = "fzcheck: waits for the stream on this terminal; Ctrl-D ends it";

/// The name of the stream in messages.
pub fn name_of_stream<'a>(asked: &Check<'a>) -> &'a str {
    asked.stream.unwrap_or(STANDARD_INPUT)
}

/// Checks the file of a stream, or standard input, against the file of a model.
pub fn check_files(rt: &HostRuntime, asked: &Check<'_>) -> u8 {
    match check_opened(rt, asked) {
        Ok(status) => status,
        Err(unread) => refuse_reading(rt, asked.form, &unread),
    }
}

/// Opens the files of the model and of the stream, before anything is read, and checks them.
fn check_opened<'a>(rt: &HostRuntime, asked: &Check<'a>) -> Result<u8, Unread<'a>> {
    let Some(name) = asked.stream else {
        if let Err(failure) = find_input(rt) {
            return Err(Unread::new(CheckError::Read, STANDARD_INPUT, Some(failure)));
        }
        let model = open_file(rt, asked.model)?;
        if rt.stdin().is_terminal() {
            let _ = eprintln!(rt; "{AWAITED}");
        }
        return check_readers(rt, asked, model, rt.stdin());
    };
    let model = open_file(rt, asked.model)?;
    check_readers(rt, asked, model, open_file(rt, name)?)
}

/// Checks the stream that a reader gives against the model in a file. All other files are read here.
fn check_readers<'a, S: Read + Drop>(
    rt: &HostRuntime,
    asked: &Check<'a>,
    model: File,
    stream: S,
) -> Result<u8, Unread<'a>> {
    let model = read_whole(rt.alloc(), model, asked.model, most_bytes(asked.size))?;
    let tree = read_tree(rt, asked.tree)?;
    let table = read_table(rt, asked.names)?;
    let text = Text {
        name: asked.model,
        bytes: &model,
        passed: NOTHING,
    };
    match table_of(rt, asked, &table) {
        Ok(names) => check_text(rt, asked, text, &tree, names, stream),
        Err(status) => Ok(status),
    }
}

/// Checks the stream against the text of the model, which is loaded once.
fn check_text<'a, S: Read + Drop>(
    rt: &HostRuntime,
    asked: &Check<'a>,
    text: Text<'_>,
    tree: &[u8],
    names: NameTable<'_>,
    stream: S,
) -> Result<u8, Unread<'a>> {
    let model = match read_model(rt.alloc(), text.bytes, limits_of(asked.size)) {
        Ok(model) => model,
        Err(error) => return Ok(refuse_model(rt, asked, &text, &error)),
    };
    let branches = branches_of(rt, asked.tree, tree)?;
    let claims = claims_of(rt, asked, &model, &branches)?;
    Ok(check_stream(rt, asked, &model, claims, text, names, stream))
}

/// Checks the stream against the loaded model, whose text and table of names are these.
fn check_stream<S: Read + Drop>(
    rt: &HostRuntime,
    asked: &Check<'_>,
    model: &Model<'_>,
    claims: Claims<'_>,
    text: Text<'_>,
    names: NameTable<'_>,
    stream: S,
) -> u8 {
    let recent = RefCell::new(Recent::new(rt.alloc()));
    let screen = RefCell::new(Screen::new(rt));
    let detail = detail_of(rt, asked);
    let stored = match (detail, asked.form) {
        (Detail::Nothing, Form::Text) => None,
        _ => Some(&recent),
    };
    let explainer = Explainer::new(text, names, completion_of(asked.completes));
    let teller = Teller::new(rt, &*asked, explainer, &recent, &screen);
    let mut stream = Recorder::new(stream, stored);
    match check_and_tell(rt, asked, model, claims, &mut stream, &screen, teller) {
        Ok(answer) => status(&Ok(answer)),
        Err(CheckError::Read) => {
            let name = name_of_stream(asked);
            let unread = Unread::new(CheckError::Read, name, stream.into_failure());
            refuse_reading(rt, asked.form, &unread)
        }
        Err(error) => {
            let message = stored.and_then(|recent| stream_message(rt, asked, recent, &error));
            refuse_check(rt, asked, &error, name_of_stream(asked), message.as_ref())
        }
    }
}

/// Checks a stream, and tells what belongs to the answer.
fn check_and_tell<S: Read>(
    rt: &HostRuntime,
    asked: &Check<'_>,
    model: &Model<'_>,
    claims: Claims<'_>,
    stream: &mut S,
    screen: &RefCell<Screen<'_>>,
    mut teller: Teller<'_, '_, '_, '_>,
) -> Result<Answer, CheckError> {
    match asked.form {
        Form::Text => {
            let outcome = check_to(rt, asked, model, claims, stream, screen, &mut teller);
            teller.end(outcome.is_ok());
            outcome
        }
        Form::Json => {
            let mut taker = JsonTeller { teller };
            let outcome = check_to(rt, asked, model, claims, stream, screen, &mut taker);
            taker.teller.end(outcome.is_ok());
            outcome
        }
    }
}

/// Checks a stream, and writes the report to standard output.
fn check_to<S: Read, T: Taker>(
    rt: &HostRuntime,
    asked: &Check<'_>,
    model: &Model<'_>,
    claims: Claims<'_>,
    stream: &mut S,
    screen: &RefCell<Screen<'_>>,
    taker: &mut T,
) -> Result<Answer, CheckError> {
    let mut report = Report {
        out: rt.stdout(),
        screen,
    };
    let options = options_of(asked, claims);
    check_loaded(
        rt.alloc(),
        model,
        stream,
        &mut report,
        taker,
        MOST_READS,
        options,
    )
}

/// How much is told of the place of a refusal.
fn detail_of(rt: &HostRuntime, asked: &Check<'_>) -> Detail {
    Detail::of(rt, asked.explains != Explaining::Nothing)
}

/// Refuses the check since a file can't be read.
pub fn refuse_reading(rt: &HostRuntime, form: Form, unread: &Unread<'_>) -> u8 {
    if let Form::Json = form
        && let Ok(line) = unread_line(rt.alloc(), unread)
    {
        let _ = rt.stdout().write_all(&line);
    }
    refuse_file(rt, unread)
}

/// Refuses the model, with its text.
fn refuse_model(rt: &HostRuntime, asked: &Check<'_>, text: &Text<'_>, error: &CheckError) -> u8 {
    let message = match (detail_of(rt, asked), asked.form) {
        (Detail::Nothing, Form::Text) => None,
        _ => message_in(rt.alloc(), text, error, asked.size),
    };
    refuse_check(rt, asked, error, asked.model, message.as_ref())
}

/// Refuses the check for a fault of the file of this name. Where it is, is told with `--explain`, to
/// a terminal, and in JSON.
fn refuse_check(
    rt: &HostRuntime,
    asked: &Check<'_>,
    error: &CheckError,
    name: &str,
    message: Option<&Message>,
) -> u8 {
    match asked.form {
        Form::Text => refuse_fault(rt, error, name, message, detail_of(rt, asked), asked.size),
        Form::Json => {
            write_refusal(rt, error, message);
            refuse(rt, error)
        }
    }
}

/// The message on the fault of a refusal in a text; none where it has no byte range, or memory runs
/// out.
fn message_in(alloc: Global, text: &Text<'_>, error: &CheckError, size: Size) -> Option<Message> {
    explanation(alloc, text, error, size).ok()?
}

/// The message on a fault of the stream, of which the last is stored.
fn stream_message(
    rt: &HostRuntime,
    asked: &Check<'_>,
    recent: &RefCell<Recent>,
    error: &CheckError,
) -> Option<Message> {
    let recent = recent.try_borrow().ok()?;
    let (bytes, passed) = recent.kept()?;
    let stream = Text {
        name: name_of_stream(asked),
        bytes,
        passed,
    };
    message_in(rt.alloc(), &stream, error, asked.size)
}

/// Writes the refusal in the place of the answer, unless it was a write that failed.
fn write_refusal(rt: &HostRuntime, error: &CheckError, message: Option<&Message>) {
    if let CheckError::Write = error {
        return;
    }
    if let Ok(line) = refusal_line(rt.alloc(), error, message) {
        let _ = rt.stdout().write_all(&line);
    }
}
