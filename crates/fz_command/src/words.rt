//! The words of the command line.

ghost use Rattle.std.specs.Prelude.{◌≡◌, ◌≢◌, [], IfNone, IfSome};
ghost use Rattle.fz_command.specs.declared.words.Judging.TheVariants.{Asked, Implied, Nothing, Proving};

use crate::pages::VERSION;
use clap::builder::ValueParser;
use clap::error::ErrorKind;
use clap::{Arg, ArgAction, ArgMatches, Command, Error};
use std::alloc::{AllocError, Global};

/// A command, as the command line asks for it.
#[derive(Drop)]
pub enum Request<'a> {
    /// Print the canonical text of the model in a file.
    Show(Show<'a>),
    /// Check the stream in a file, or on standard input, against the model in a file.
    Check(Check<'a>),
}

/// What `show` is asked for.
#[derive(Clone, Copy)]
pub struct Show<'a> {
    /// The file of the model.
    pub model: &'a str,
    /// By `--print-all`.
    pub printing: Printing,
    /// By `--large`.
    pub size: Size,
}

/// Which variables the shown model marks as output.
#[derive(Clone, Copy)]
pub enum Printing {
    /// Those that the model marks.
    AsWritten,
    /// Each scalar variable.
    All,
}

/// How large a model, and a block of a stream, may be.
#[derive(Clone, Copy, PartialEq, Eq)]
pub enum Size {
    /// Up to the standard limits of `fz_tree`.
    Standard,
    /// Up to the large ones.
    Large,
}

/// What `check` is asked for.
#[derive(Drop)]
pub struct Check<'a> {
    /// The file of the model.
    pub model: &'a str,
    /// The file of the stream, or none for standard input.
    pub stream: Option<&'a str>,
    /// The file of the table of names, if one is given.
    pub names: Option<&'a str>,
    /// The file of a solver's search tree, if one is given.
    pub tree: Option<&'a str>,
    /// The files of the known streams, each once.
    pub known: Vec<&'a str>,
    /// Whether values that the solver didn't print are searched for.
    pub completes: bool,
    /// The most steps of a search, if a number is given.
    pub steps: Option<usize>,
    /// Whether a block is cut off in which the stream ends.
    pub cuts: bool,
    /// By `--claims` and `--known`.
    pub judging: Judging,
    /// By `--explain`.
    pub explains: Explaining,
    /// By `--json`.
    pub form: Form,
    /// By `--large`.
    pub size: Size,
}

/// Whether claims on the whole search are judged.
#[derive(Clone, Copy, PartialEq, Eq)]
pub enum Judging {
    /// They aren't.
    Nothing,
    /// They are, by `--claims`.
    Asked,
    /// They are, and each that no block refutes is to be proved, by `--claims=prove`.
    Proving,
    /// They are, since `--known` names streams, though `--claims` isn't there.
    Implied,
}

impl Judging {
    /// By what the uses of `--claims` name, where there are some.
    fn of(claims: Option<&[&str]>, known: &[&str]) -> Judging
        ensures asked { IfSome claims.entry (λ named. named.now ≡ [] → result ≡ Asked) }
        ensures proving { IfSome claims.entry (λ named. named.now ≢ [] → result ≡ Proving) }
        ensures implied { IfNone claims.entry (known.now ≢ [] → result ≡ Implied) }
        ensures nothing { IfNone claims.entry (known.now ≡ [] → result ≡ Nothing) }
    {
        match claims {
            Some([]) => Judging::Asked,
            Some(_) => Judging::Proving,
            None if known.is_empty() => Judging::Nothing,
            None => Judging::Implied,
        }
    }
}

/// What the report is written as.
#[derive(Clone, Copy, PartialEq, Eq)]
pub enum Form {
    /// A line for each event.
    Text,
    /// A JSON object on each line.
    Json,
}

/// What is explained.
#[derive(Clone, Copy, PartialEq, Eq)]
pub enum Explaining {
    /// Nothing, but the place of a refusal on a terminal.
    Nothing,
    /// The block that the answer names, or a refusal.
    Answer,
    /// The same, and of the block each point that fails.
    Every,
    /// Each block that isn't satisfied, and a refusal.
    All,
}

/// Why the command line gives no command.
#[derive(Drop)]
pub enum Refused {
    /// The words ask for help.
    Help,
    /// The words ask for the version.
    Version,
    /// The words are wrong, and this says how.
    Wrong(String),
    /// Memory ran out while they were read.
    Memory,
}

impl From<AllocError> for Refused {
    fn from(_e: AllocError) -> Refused {
        Refused::Memory
    }
}

/// What the words ask for; the first word is the program's own name. It isn't inlined, so that its
/// large stack frame is gone once the words are read.
///
/// # Errors
///
/// - `Help` and `Version`: the words ask for these.
/// - `Wrong`: the words are wrong; it says how and, if that can be seen, what was meant.
/// - `Memory`: memory ran out.
#[inline(never)]
pub fn read_words<'a>(alloc: Global, words: &'a [String]) -> Result<Request<'a>, Refused> {
    match command(alloc)?.try_get_matches_from(words) {
        Ok(matches) => request_of(alloc, &matches),
        Err(error) => Err(refusal_of(alloc, &error, words)),
    }
}

/// What an error of `clap` says of the words.
fn refusal_of(alloc: Global, error: &Error, words: &[String]) -> Refused {
    match error.kind() {
        ErrorKind::OutOfMemory => Refused::Memory,
        ErrorKind::DisplayHelp => Refused::Help,
        ErrorKind::DisplayVersion => Refused::Version,
        _ => match told(alloc, error, words) {
            Ok(text) => Refused::Wrong(text),
            Err(_) => Refused::Memory,
        },
    }
}

/// The first paragraph of the message of an error, since the usage of `clap` follows there, and
/// what helps.
fn told(alloc: Global, error: &Error, words: &[String]) -> Result<String, AllocError> {
    let text = format!(in alloc; "{error}")?;
    let (front, behind) = text.split_once("\n\n").unwrap_or((&text, ""));
    let mut told = String::from_str(alloc, front)?;
    if let Some(word) = meant(behind) {
        write!(told, "\ndid you mean {word}")?;
    } else if error.kind() == ErrorKind::InvalidSubcommand && is_first(words, front) {
        told.push_str("\ndid you mean check")?;
        for word in words.iter().skip(1) {
            write!(told, " {word}")?;
        }
    } else if front.contains("'--complete-steps <N>'") {
        write!(told, "\n{WANTED_STEPS}")?;
    }
    Ok(told)
}

/// Whether the word that is quoted at the end of a message is the first behind the program's name.
fn is_first(words: &[String], message: &str) -> bool {
    match words.get(1) {
        Some(word) => last_quoted(message) == Some(word.as_str()),
        None => false,
    }
}

/// What is added to an error if no number of steps follows the option for it.
const WANTED_STEPS: &str = "--complete-steps wants a number, as --complete-steps 1000000";

/// The word that `clap` knows for a wrong one, where its message has a tip such as
/// `a similar argument exists: '--complete'` or `'check --complete' exists`.
fn meant(text: &str) -> Option<&str> {
    let (front, behind) = text.split_once(" exist")?;
    let line = match behind.split_once('\n') {
        Some((line, _)) => line,
        None => behind,
    };
    last_quoted(line).or(last_quoted(front))
}

/// The quoted word at the end of a text.
fn last_quoted(text: &str) -> Option<&str> {
    let (_, word) = text.strip_suffix('\'')?.rsplit_once('\'')?;
    Some(word)
}

/// The command of the words that `clap` read.
fn request_of<'a>(alloc: Global, matches: &ArgMatches<'a>) -> Result<Request<'a>, Refused> {
    match matches.subcommand() {
        Some(("show", given)) => Ok(Request::Show(Show {
            model: model_of(given)?,
            printing: printing_of(given),
            size: size_of(given),
        })),
        Some(("check", given)) => Ok(Request::Check(check_of(alloc, given)?)),
        _ => Err(Refused::Help),
    }
}

/// The command `check` of the words behind it.
fn check_of<'a>(alloc: Global, given: &ArgMatches<'a>) -> Result<Check<'a>, Refused> {
    let steps = only(alloc, given, "complete-steps")?;
    let known = known_of(alloc, given)?;
    let check = Check {
        model: model_of(given)?,
        stream: given.get_str("STREAM"),
        names: only(alloc, given, "names")?,
        tree: only(alloc, given, "tree")?,
        completes: given.get_flag("complete"),
        steps: steps.and_then(|number| number.parse().ok()),
        cuts: given.get_flag("cut"),
        judging: Judging::of(given.get_strs("claims"), &known),
        explains: explaining_of(only(alloc, given, "explain")?),
        form: form_of(given),
        size: size_of(given),
        known,
    };
    if check.tree.is_some() && check.judging != Judging::Proving {
        return Err(Refused::Wrong(String::from_str(alloc, TREE_ALONE)?));
    }
    Ok(check)
}

/// The file of the model, which both commands require.
fn model_of<'a>(given: &ArgMatches<'a>) -> Result<&'a str, Refused> {
    given.get_str("MODEL").ok_or(Refused::Help)
}

/// The value of an option, however often it is given.
fn only<'a>(
    alloc: Global,
    given: &ArgMatches<'a>,
    option: &str,
) -> Result<Option<&'a str>, Refused> {
    let Some([value, others @ ..]) = given.get_strs(option) else {
        return Ok(None);
    };
    for other in others {
        if other != value {
            let told = format!(in alloc;
                "error: --{option} is given as '{value}' and as '{other}'"
            )?;
            return Err(Refused::Wrong(told));
        }
    }
    Ok(Some(*value))
}

/// The files of the known streams, in order, each once.
fn known_of<'a>(alloc: Global, given: &ArgMatches<'a>) -> Result<Vec<&'a str>, Refused> {
    let known = each_once(alloc, given.get_strs("known").unwrap_or(&[]))?;
    if known.len() > MOST_KNOWN {
        let told = format!(in alloc; "error: more than {MOST_KNOWN} known streams")?;
        return Err(Refused::Wrong(told));
    }
    Ok(known)
}

/// The words without repeats.
fn each_once<'a>(alloc: Global, words: &[&'a str]) -> Result<Vec<&'a str>, AllocError> {
    let mut distinct = Vec::new(alloc);
    for word in words {
        if !distinct.contains(word) {
            distinct.push(*word)?;
        }
    }
    Ok(distinct)
}

fn printing_of(given: &ArgMatches<'_>) -> Printing {
    if given.get_flag("print-all") {
        Printing::All
    } else {
        Printing::AsWritten
    }
}

fn explaining_of(what: Option<&str>) -> Explaining {
    match what {
        Some("all") => Explaining::All,
        Some("every") => Explaining::Every,
        Some(_) => Explaining::Answer,
        None => Explaining::Nothing,
    }
}

fn size_of(given: &ArgMatches<'_>) -> Size {
    if given.get_flag("large") {
        Size::Large
    } else {
        Size::Standard
    }
}

fn form_of(given: &ArgMatches<'_>) -> Form {
    if given.get_flag("json") {
        Form::Json
    } else {
        Form::Text
    }
}

/// What a word of a command is.
#[derive(Clone, Copy)]
enum Kind {
    /// A file, by its place among the files.
    File { required: bool },
    /// An option without a value.
    Flag,
    /// The option with a number of steps.
    Steps,
    /// An option with a value, which errors call so.
    Called(&'static str),
    /// An option with a file, which goes with this other option.
    Beside(&'static str),
    /// An option that may name one of the first words after `=`; without it names the others.
    Choice(&'static [&'static str], &'static [&'static str]),
}

/// What `--claims` may name.
const CLAIMED: [&str; 1] = ["prove"];

/// What `--explain` may name.
const EXPLAINED: [&str; 3] = ["answer", "all", "every"];

/// The words of `show`.
const SHOW: [(&str, Kind); 3] = [
    ("MODEL", Kind::File { required: true }),
    ("large", Kind::Flag),
    ("print-all", Kind::Flag),
];

/// The words of `check`.
const CHECK: [(&str, Kind); 12] = [
    ("MODEL", Kind::File { required: true }),
    ("large", Kind::Flag),
    ("STREAM", Kind::File { required: false }),
    ("complete", Kind::Flag),
    ("complete-steps", Kind::Steps),
    ("cut", Kind::Flag),
    ("claims", Kind::Choice(&CLAIMED, &[])),
    ("known", Kind::Called("STREAM")),
    ("tree", Kind::Called("FILE")),
    ("json", Kind::Flag),
    ("explain", Kind::Choice(&EXPLAINED, &["answer"])),
    ("names", Kind::Beside("explain")),
];

/// The most known streams.
const MOST_KNOWN: usize = 64;

/// The error if a tree is given and no claim is to be proved along it.
const TREE_ALONE: &str = "error: --tree is given without --claims=prove";

/// A word, as `clap` takes it.
fn argument<'a>(alloc: Global, name: &'a str, kind: Kind) -> Result<Arg<'a>, AllocError> {
    let word = Arg::new(alloc, name);
    if let Kind::File { required } = kind {
        return Ok(word.action(ArgAction::Set).required(required));
    }
    let option = word.long(name).action(ArgAction::Append);
    match kind {
        Kind::File { .. } | Kind::Flag => Ok(option.action(ArgAction::SetTrue)),
        Kind::Steps => {
            let number = ValueParser::unsigned(0, i64::MAX as u64);
            Ok(option.value_name("N").value_parser(number))
        }
        Kind::Called(called) => Ok(option.value_name(called)),
        Kind::Beside(other) => option.value_name("FILE").requires_arg(other),
        Kind::Choice(words, missing) => {
            let option = option.num_args(0..=1).require_equals(true);
            Ok(option.default_missing_values(missing).value_parser(words))
        }
    }
}

/// A command of these words. An option without a value may be given twice.
fn command_of<'a>(
    alloc: Global,
    name: &'a str,
    words: &[(&'a str, Kind)],
) -> Result<Command<'a>, AllocError> {
    let mut command = Command::new(alloc, name).args_override_self(true);
    for (name, kind) in words {
        command = command.arg(argument(alloc, name, *kind)?)?;
    }
    Ok(command)
}

/// The program with the first of its commands.
fn program<'a>(alloc: Global) -> Result<Command<'a>, AllocError> {
    let show = command_of(alloc, "show", &SHOW)?;
    Command::new(alloc, "fzcheck")
        .version(VERSION)
        .subcommand_required(true)
        .subcommand(show)
}

/// The program with both commands. Where a function here may fail, it holds one command alone,
/// since each one that it holds would have to be dropped.
fn command<'a>(alloc: Global) -> Result<Command<'a>, AllocError> {
    let check = command_of(alloc, "check", &CHECK)?;
    program(alloc)?.subcommand(check)
}
