//! Adds the annotation `output_var` to the scalar variables of a tree that lack it, so that a
//! solver prints all of them. It is proved that the new tree has no fault where the first has none,
//! and is one of the same model.

ghost use Rattle.std.specs.Prelude.{◌≡◌, IfOk, OnOk, map};
ghost use Rattle.std.specs.List.{list_any};
ghost use Rattle.fz_filling.specs.of_syntax.View.{bare_note, bare_notes};
ghost use Rattle.fz_search.specs.of_model.Names.{is_scalar_variable};
ghost use Rattle.fz_search.specs.of_model.View.{located, located_decl};
ghost use Rattle.fz_check.specs.Outputs.{is_output_var, is_unprinted, printed_decl, with_all_printed};

use fz_stream::{Ast, Decl, Name, Note, Span};
use std::alloc::{AllocError, Global};

/// The name of the annotation of a variable that a solver is to print.
const OUTPUT_VAR: &[u8] = b"output_var";

/// The byte range of an annotation that is in no source.
const NOWHERE: Span = Span { start: 0, end: 0 };

fn is_output_var(note: &Note<'_>) -> bool
    ensures { result ≡ is_output_var (bare_note note.now) }
{
    note.name.text == OUTPUT_VAR && note.args.is_empty()
}

fn has_output_var(notes: &[Note<'_>]) -> bool
    ensures { result ≡ list_any is_output_var (bare_notes notes.now) }
{
    for note in notes {
        if is_output_var(note) {
            return true;
        }
    }
    false
}

fn is_scalar_variable(decl: &Decl<'_>) -> bool
    ensures { result ≡ is_scalar_variable (located_decl decl.now) }
{
    decl.is_var && decl.length.is_none()
}

/// Whether this declares a scalar variable without `output_var`.
fn is_unprinted(decl: &Decl<'_>) -> bool
    ensures { result ≡ is_unprinted (located_decl decl.now) }
{
    is_scalar_variable(decl) && !has_output_var(&decl.notes)
}

/// Adds `:: output_var` to a declaration of a scalar variable that lacks it.
fn print_decl(alloc: Global, decl: &mut Decl<'_>) -> Result<(), AllocError>
    ensures { OnOk result (located_decl decl.new ≡ printed_decl (located_decl decl.old)) }
{
    if is_unprinted(decl) {
        let name = Name {
            text: OUTPUT_VAR,
            span: NOWHERE,
        };
        let args = Vec::new(alloc);
        decl.notes.push(Note { name, args })?;
    }
    Ok(())
}

fn print_decls(alloc: Global, decls: &mut [Decl<'_>]) -> Result<(), AllocError>
    ensures { OnOk result (map located_decl decls.new
        ≡ map printed_decl (map located_decl decls.old)) }
{
    for decl in decls.iter_mut() {
        print_decl(alloc, decl)?;
    }
    Ok(())
}

/// The tree with `:: output_var` at each scalar variable that lacks it, and no other change.
///
/// # Errors
///
/// Out of memory.
pub fn print_all<'a>(alloc: Global, mut ast: Ast<'a>) -> Result<Ast<'a>, AllocError>
    ensures { IfOk result (λ printed. located printed ≡ with_all_printed (located ast.entry)) }
{
    print_decls(alloc, &mut ast.decls)?;
    Ok(ast)
}
