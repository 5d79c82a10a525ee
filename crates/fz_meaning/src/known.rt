//! A builtin, or one of its reified forms.

ghost use Rattle.std.specs.Prelude.{◌≡◌, ◌++◌, IfNone, IfSome, List, MatchOption, None, Some, ℕ, find, map};
ghost use Rattle.fz_meaning.specs.Builtins.{base_rows, is_named};
ghost use Rattle.fz_meaning.specs.Known.{HasTruth, as_result, known_row, row_named, shape_of, suffix_of};
ghost use Rattle.fz_meaning.specs.Meaning.{table_name};
ghost use Rattle.fz_meaning.specs.Results.{result_of};

use crate::builtin::Builtin;
use crate::row::{BaseRow, Filled, Lengths, Matrix, Shape, Wide};
use crate::text::same_text;

/// What a constraint says of a base row.
#[derive(Clone, Copy, Debug, PartialEq, Eq)]
pub enum Form {
    /// That it holds.
    Base,
    /// That it holds exactly where its control variable, the Boolean after its arguments, is true:
    /// a name ending in `_reif`.
    Reified,
    /// That it holds where that Boolean is true, half-reified: a name ending in `_imp`.
    Implied,
}

/// A row of the table: a base row, or one of its reified forms.
#[derive(Clone, Copy, Debug, PartialEq, Eq)]
pub struct Known {
    pub builtin: Builtin,
    pub form: Form,
}

/// The name without the suffix, where it ends in that.
#[inline]
fn without<'n>(name: &'n [u8], suffix: &[u8]) -> Option<&'n [u8]>
    ensures { MatchOption result ((base : List ℕ) → name.now ≡ base ++ suffix.now → ⊥)
        (λ base. name.now ≡ base.now ++ suffix.now) }
{
    if name.len() < suffix.len() {
        return None;
    }
    let (base, end) = name.split_at(name.len() - suffix.len());
    if same_text(end, suffix) {
        Some(base)
    } else {
        None
    }
}

/// The name under which the table has a constraint of this name and so many arguments.
#[inline]
fn table_name(name: &[u8], count: usize) -> &[u8]
    ensures { result.now ≡ table_name name.now count }
{
    if count == 2 && same_text(name, b"bool_xor") {
        b"bool_ne"
    } else {
        name
    }
}

impl Known {
    /// The row of the table that has a constraint's name, with so many arguments, if there is one.
    pub fn find(name: &[u8], count: usize) -> Option<Known>
        ensures has_row { IfSome result
            (λ k. row_named (table_name name.now count) ≡ Some (known_row k)) }
        ensures none { IfNone result (row_named (table_name name.now count) ≡ None) }
    {
        Known::called(table_name(name, count))
    }

    // The row of the table that has this name, if there is one.
    fn called(name: &[u8]) -> Option<Known>
        ensures has_row { IfSome result (λ k. row_named name.now ≡ Some (known_row k)) }
        ensures none { IfNone result (row_named name.now ≡ None) }
    {
        if let Some(known) = Known::form_called(name) {
            return Some(known);
        }
        let builtin = Builtin::called(name)?;
        Some(Known {
            builtin,
            form: Form::Base,
        })
    }

    // The reified form that has the name, if there is one. A base row's name may end like one.
    fn form_called(name: &[u8]) -> Option<Known>
        ensures has_row { IfSome result (λ k. row_named name.now ≡ Some (known_row k)) }
        ensures none { IfNone result (row_named name.now ≡ find (is_named name.now) base_rows) }
    {
        if let Some(base) = without(name, b"_reif") {
            return Known::in_form(base, Form::Reified);
        }
        if let Some(base) = without(name, b"_imp") {
            return Known::in_form(base, Form::Implied);
        }
        None
    }

    // The reified form, of this kind, of the base row of this name.
    fn in_form(base: &[u8], form: Form) -> Option<Known>
        requires { HasTruth form }
        ensures has_row { IfSome result
            (λ k. row_named (base.now ++ suffix_of form) ≡ Some (known_row k)) }
        ensures none { IfNone result (row_named (base.now ++ suffix_of form)
            ≡ find (is_named (base.now ++ suffix_of form)) base_rows) }
    {
        let builtin = Builtin::called(base)?;
        let BaseRow(_, _, _, has_forms) = builtin.base_row();
        if has_forms {
            Some(Known { builtin, form })
        } else {
            None
        }
    }

    /// The kinds of the arguments that a constraint needs to have.
    #[inline]
    pub fn shapes(self) -> &'static [Shape]
        ensures { map shape_of result.now ≡ (known_row self).shapes }
    {
        let BaseRow(with_truth, ..) = self.builtin.base_row();
        match self.form {
            Form::Base => &with_truth[..with_truth.len() - 1],
            Form::Reified | Form::Implied => with_truth,
        }
    }

    /// The indices, counted from 0, of the array arguments that have to be of equal lengths.
    pub fn together(self) -> &'static [usize]
        ensures { result.now ≡ (known_row self).together }
    {
        let BaseRow(_, _, lengths, _) = self.builtin.base_row();
        match lengths {
            Lengths::Free | Lengths::Raised | Lengths::Shaped(_) => &[],
            Lengths::Equal(places) => places,
            Lengths::Summed => &[0, 1],
            Lengths::Packed => &[0, 1, 2],
        }
    }

    /// The array argument that was a matrix, which has to have whole rows.
    pub fn matrix(self) -> Matrix
        ensures { result ≡ (known_row self).matrix }
    {
        let BaseRow(_, _, lengths, _) = self.builtin.base_row();
        match lengths {
            Lengths::Shaped(matrix) => matrix,
            _ => Matrix::Absent,
        }
    }

    /// The numbers that are computed in signed 128 bits.
    pub fn wide(self) -> &'static [Wide]
        ensures { result.now ≡ (known_row self).wide }
    {
        let BaseRow(_, _, lengths, _) = self.builtin.base_row();
        match lengths {
            Lengths::Free | Lengths::Equal(_) | Lengths::Shaped(_) => &[],
            Lengths::Summed => &[Wide::Products(0, 1)],
            Lengths::Packed => &[Wide::Products(0, 2), Wide::Products(1, 2)],
            Lengths::Raised => &[Wide::Power(0, 1)],
        }
    }

    /// Which arguments `defines_var` may name: of a form with `_reif`, its control variable.
    pub fn filled(self) -> Filled
        ensures { as_result result ≡ result_of (known_row self) }
    {
        let BaseRow(with_truth, filled, ..) = self.builtin.base_row();
        match self.form {
            Form::Base => filled,
            Form::Reified => Filled::At(with_truth.len() - 1),
            Form::Implied => Filled::Nothing,
        }
    }
}
