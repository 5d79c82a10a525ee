//! What annotations say.

ghost use Rattle.std.specs.Prelude.{◌≡◌, option_map};
ghost use Rattle.std.specs.Option.{option_and_then};
ghost use Rattle.fz_tree.specs.Tree.NoteArg.{OneBasic};
ghost use Rattle.fz_meaning.specs.Meaning.{first_some};
ghost use Rattle.fz_tree.specs.View.{bare_arg, bare_basic, bare_note, bare_notes};
ghost use Rattle.fz_places.specs.Annotations.{argument_of, text};

use fz_tree::{Note, NoteArg, NoteBasic};

/// The argument of an annotation of this name, where it has exactly one.
fn argument<'t, 'a>(note: &'t Note<'a>, name: &[u8]) -> Option<&'t NoteArg<'a>>
    ensures { option_map (λ a. bare_arg a.now) result ≡ argument_of name.now (bare_note note.now) }
{
    if note.name.text != name {
        return None;
    }
    match note.args.as_slice() {
        [] => None,
        [arg] => Some(arg),
        [_, _, ..] => None,
    }
}

/// The argument of the first annotation of this name that has exactly one.
pub(crate) fn argument_of<'t, 'a>(notes: &'t [Note<'a>], name: &[u8]) -> Option<&'t NoteArg<'a>>
    ensures { option_map (λ a. bare_arg a.now) result
        ≡ first_some (argument_of name.now) (bare_notes notes.now) }
{
    for note in notes {
        let argument = argument(note, name);
        if argument.is_some() {
            return argument;
        }
    }
    None
}

/// The text that an argument is, as it is written.
fn text<'a>(arg: &NoteArg<'a>) -> Option<&'a [u8]>
    ensures { option_map (λ t. t.now) result ≡ text (bare_arg arg.now) }
{
    match arg {
        NoteArg::One(basic) => basic_text(basic),
        NoteArg::List(_) => None,
    }
}

fn basic_text<'a>(basic: &NoteBasic<'a>) -> Option<&'a [u8]>
    ensures { option_map (λ t. t.now) result ≡ text (OneBasic (bare_basic basic.now)) }
{
    match basic {
        NoteBasic::Str(text) => Some(text),
        NoteBasic::Lit(_) => None,
        NoteBasic::Float(_) => None,
        NoteBasic::Inner(_) => None,
    }
}

/// The text in the first annotation of this name that has exactly one argument.
pub fn text_of<'a>(notes: &[Note<'a>], name: &[u8]) -> Option<&'a [u8]>
    ensures { option_map (λ t. t.now) result
        ≡ option_and_then text (first_some (argument_of name.now) (bare_notes notes.now)) }
{
    text(argument_of(notes, name)?)
}
