//! The byte range of a point's name, and its annotations.

ghost use Rattle.std.specs.Prelude.{◌≡◌, ◌-◌, map, option_map, slice_get};
ghost use Rattle.fz_filling.specs.of_model.Names.{declaration};
ghost use Rattle.fz_filling.specs.of_model.View.{located_decl};
ghost use Rattle.fz_tree.specs.View.{bare_notes};
ghost use Rattle.fz_explain.specs.Spots.{point_notes, point_place};

use fz_store::Point;
use fz_tree::{Ast, Constraint, Decl, Note, Span};

/// The constraint with this number, from 1.
pub(crate) fn constraint_of<'t, 'a>(ast: &'t Ast<'a>, number: usize) -> Option<&'t Constraint<'a>>
    ensures { option_map (λ c. c.now) result ≡ slice_get ast.now.constraints.items (number - 1) }
{
    let constraint = ast.constraints.get(number.saturating_sub(1))?;
    Some(constraint)
}

/// The declaration of a name.
pub(crate) fn declaration_of<'t, 'a>(ast: &'t Ast<'a>, name: &[u8]) -> Option<&'t Decl<'a>>
    ensures { option_map (λ d. located_decl d.now) result
        ≡ declaration (map located_decl ast.now.decls.items) name.now }
{
    for decl in &ast.decls {
        if decl.name.text == name {
            return Some(decl);
        }
    }
    None
}

/// The byte range of a point's name in the text of the tree: of a constraint's predicate, or of a
/// declared name.
pub fn point_place(ast: &Ast<'_>, point: &Point<'_>) -> Option<Span>
    ensures { result ≡ point_place ast.now point.now }
{
    match point {
        Point::Domain(name) | Point::Definition(name) => {
            Some(declaration_of(ast, name)?.name.span)
        }
        Point::Constraint(number, _) => Some(constraint_of(ast, *number)?.name.span),
    }
}

/// The annotations of a point: of a constraint, or of a declaration.
pub(crate) fn point_notes<'t, 'a>(ast: &'t Ast<'a>, point: &Point<'_>) -> Option<&'t [Note<'a>]>
    ensures { option_map (λ ns. bare_notes ns.now) result ≡ point_notes ast.now point.now }
{
    match point {
        Point::Domain(name) | Point::Definition(name) => {
            Some(declaration_of(ast, name)?.notes.as_slice())
        }
        Point::Constraint(number, _) => Some(constraint_of(ast, *number)?.notes.as_slice()),
    }
}
