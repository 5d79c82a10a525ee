//! The rows that compare two numbers.

ghost use Rattle.std.specs.Prelude.{◌≡◌, IfSome, None, Some, cond};
ghost use Rattle.fz_builtins.specs.of_kernel.Views.{arguments_of, assigned};
ghost use Rattle.fz_builtins.specs.of_meaning.Relations.{as_number};
ghost use Rattle.fz_reasons.specs.Elements.{comparison, leave, operands, sides};
ghost use Rattle.fz_reasons.specs.Reasons.{Unlike};

use crate::reason::{Operands, Relation, Sides};
use fz_globals::counts::count_of;
use fz_kernel::ArgumentView;
use fz_kernel::arrays::{all_true, any_true, sum_of_products, sum_where_true};
use fz_kernel::numbers::number_of_truth;
use fz_store::Builtin;

/// The numbers that a row compares, and how; none of a row that compares no two numbers, and where
/// a sum leaves 128 bits.
pub(crate) fn sides_of(builtin: Builtin, view: &ArgumentView<'_, '_>) -> Option<Sides>
    ensures exact { result ≡ sides builtin (assigned view.now) (arguments_of view.now) }
{
    let (compared, relation) = comparison(builtin)?;
    Some(Sides {
        left: left_of(compared, view)?,
        relation,
        right: right_of(compared, view),
    })
}

/// What a row compares, and how.
#[tactic(auto, unfolding(crate::specs::Elements::comparison))]
pub(crate) fn comparison(builtin: Builtin) -> Option<(Operands, Relation)>
    ensures { result ≡ comparison builtin }
{
    match builtin {
        Builtin::IntNe => Some((Operands::Scalars, Relation::NotEqual)),
        Builtin::IntLe => Some((Operands::Scalars, Relation::AtMost)),
        Builtin::IntLt => Some((Operands::Scalars, Relation::Below)),
        Builtin::IntGe => Some((Operands::Scalars, Relation::AtLeast)),
        Builtin::IntGt => Some((Operands::Scalars, Relation::Above)),
        Builtin::IntLinEq => Some((Operands::Products, Relation::Equal)),
        Builtin::IntLinNe => Some((Operands::Products, Relation::NotEqual)),
        Builtin::IntLinLe => Some((Operands::Products, Relation::AtMost)),
        Builtin::BoolLe => Some((Operands::Truths, Relation::AtMost)),
        Builtin::BoolLt => Some((Operands::Truths, Relation::Below)),
        Builtin::BoolGe => Some((Operands::Truths, Relation::AtLeast)),
        Builtin::BoolGt => Some((Operands::Truths, Relation::Above)),
        Builtin::BoolAndImp => Some((Operands::And, Relation::AtLeast)),
        Builtin::BoolOrImp => Some((Operands::Or, Relation::AtLeast)),
        Builtin::BoolXorImp => Some((Operands::Xor, Relation::AtLeast)),
        Builtin::ArrayBoolAndImp => Some((Operands::All, Relation::AtLeast)),
        Builtin::ArrayBoolOrImp => Some((Operands::Any, Relation::AtLeast)),
        Builtin::BoolLinNe => Some((Operands::Weights, Relation::NotEqual)),
        Builtin::BoolLinLe => Some((Operands::Weights, Relation::AtMost)),
        Builtin::BoolLinLt => Some((Operands::Weights, Relation::Below)),
        Builtin::BoolLinGe => Some((Operands::Weights, Relation::AtLeast)),
        Builtin::BoolLinGt => Some((Operands::Weights, Relation::Above)),
        Builtin::FznCountNeq => Some((Operands::Count, Relation::NotEqual)),
        Builtin::FznCountGeq => Some((Operands::Count, Relation::AtMost)),
        Builtin::FznCountGt => Some((Operands::Count, Relation::Below)),
        Builtin::FznCountLeq => Some((Operands::Count, Relation::AtLeast)),
        Builtin::FznCountLt => Some((Operands::Count, Relation::Above)),
        Builtin::FznAtLeastInt => Some((Operands::CountLast, Relation::AtLeast)),
        Builtin::FznAtMostInt => Some((Operands::CountLast, Relation::AtMost)),
        Builtin::FznExactlyInt => Some((Operands::CountLast, Relation::Equal)),
        _ => None,
    }
}

/// The left number; none where it is a sum that leaves 128 bits.
fn left_of(compared: Operands, view: &ArgumentView<'_, '_>) -> Option<i128>
    ensures { result ≡ cond (leave compared (assigned view.now) (arguments_of view.now)) None
        (Some (operands compared (assigned view.now) (arguments_of view.now)).0) }
{
    match compared {
        Operands::Scalars => Some(i128::from(view.int(0))),
        Operands::Products => sum_of_products(&view.elements(0), &view.elements(1)),
        Operands::Weights => Some(sum_where_true(&view.elements(0), &view.elements(1))),
        Operands::Count => Some(count_of(&view.elements(0), view.int(1))),
        Operands::CountLast => Some(count_of(&view.elements(1), view.int(2))),
        Operands::Truths => Some(of_truth(view.truth(0))),
        Operands::And => Some(of_truth(view.truth(0) && view.truth(1))),
        Operands::Or => Some(of_truth(view.truth(0) || view.truth(1))),
        Operands::Xor => Some(of_truth(view.truth(0) != view.truth(1))),
        Operands::All => Some(of_truth(all_true(&view.elements(0)))),
        Operands::Any => Some(of_truth(any_true(&view.elements(0)))),
    }
}

/// The right number.
fn right_of(compared: Operands, view: &ArgumentView<'_, '_>) -> i128
    ensures { (operands compared (assigned view.now) (arguments_of view.now)).1 ≡ result }
{
    match compared {
        Operands::Scalars => i128::from(view.int(1)),
        Operands::Products | Operands::Weights | Operands::Count => i128::from(view.int(2)),
        Operands::CountLast => i128::from(view.int(0)),
        Operands::Truths | Operands::All | Operands::Any => of_truth(view.truth(1)),
        Operands::And | Operands::Or | Operands::Xor => of_truth(view.truth(2)),
    }
}

/// 1 for true and 0 for false.
fn of_truth(truth: bool) -> i128
    ensures { result ≡ as_number truth }
{
    i128::from(number_of_truth(truth))
}

/// What the row compares, where it doesn't compare so.
pub(crate) fn unlike(builtin: Builtin, view: &ArgumentView<'_, '_>) -> Option<Sides>
    ensures { IfSome result (Unlike builtin (assigned view.now) (arguments_of view.now)) }
{
    match sides_of(builtin, view) {
        Some(sides) if !sides.hold() => Some(sides),
        _ => None,
    }
}
