//! Annotations.

ghost use Rattle.std.specs.Prelude.{map, OnOk};
ghost use Rattle.fz_tree.specs.View.{arg_list, basic_list, bare_note, bare_arg, bare_basic, bare_notes};
ghost use Rattle.fz_tree.specs.Tokens.{note_toks, args_toks, arg_toks, basics_toks, note_basic_toks, notes_toks};
ghost use Rattle.fz_tree.specs.Printing.{Prints};

use crate::printer::Printer;
use crate::token::Mark;
use crate::tree::{Note, NoteArg, NoteBasic};
use std::alloc::AllocError;

impl Printer {
    #[cycle(notes)]
    pub(crate) fn note(&mut self, note: &Note<'_>) -> Result<(), AllocError>
        ensures { OnOk result (Prints self.old self.new (note_toks (bare_note note.now))) }
    {
        self.text(note.name.text)?;
        self.note_args(&note.args)
    }

    /// Arguments in parentheses, where there are any.
    #[cycle(notes)]
    pub(crate) fn note_args(&mut self, args: &[NoteArg<'_>]) -> Result<(), AllocError>
        ensures { OnOk result (Prints self.old self.new
            (args_toks (arg_list (map bare_arg args.now)))) }
    {
        if let [first, others @ ..] = args {
            self.mark(Mark::OpenParen)?;
            self.note_arg(first)?;
            'more_args: for other in others {
                self.mark(Mark::Comma)?;
                self.note_arg(other)?;
            }
            self.mark(Mark::CloseParen)?;
        }
        Ok(())
    }

    #[cycle(notes)]
    pub(crate) fn note_arg(&mut self, arg: &NoteArg<'_>) -> Result<(), AllocError>
        ensures { OnOk result (Prints self.old self.new (arg_toks (bare_arg arg.now))) }
    {
        match arg {
            NoteArg::One(basic) => self.note_basic(basic),
            NoteArg::List(basics) => {
                self.mark(Mark::OpenBracket)?;
                self.note_basics(basics)?;
                self.mark(Mark::CloseBracket)
            }
        }
    }

    #[cycle(notes)]
    pub(crate) fn note_basics(&mut self, basics: &[NoteBasic<'_>]) -> Result<(), AllocError>
        ensures { OnOk result (Prints self.old self.new
            (basics_toks (basic_list (map bare_basic basics.now)))) }
    {
        if let [first, others @ ..] = basics {
            self.note_basic(first)?;
            'more_basics: for other in others {
                self.mark(Mark::Comma)?;
                self.note_basic(other)?;
            }
        }
        Ok(())
    }

    #[cycle(notes)]
    pub(crate) fn note_basic(&mut self, basic: &NoteBasic<'_>) -> Result<(), AllocError>
        ensures { OnOk result (Prints self.old self.new (note_basic_toks (bare_basic basic.now))) }
    {
        match basic {
            NoteBasic::Lit(literal) => self.literal(literal),
            NoteBasic::Float(text) => self.text(text),
            NoteBasic::Str(text) => self.text(text),
            NoteBasic::Inner(note) => self.note(note),
        }
    }

    pub(crate) fn notes(&mut self, notes: &[Note<'_>]) -> Result<(), AllocError>
        ensures { OnOk result (Prints self.old self.new (notes_toks (bare_notes notes.now))) }
    {
        for note in notes {
            self.mark(Mark::ColonColon)?;
            self.note(note)?;
        }
        Ok(())
    }
}
