//! Values, kinds and domains of the tree's literals and types.

ghost use Rattle.std.specs.Prelude.{◌≡◌, IfOk, Some};
ghost use Rattle.fz_store.specs.of_meaning.Names.{domain_of, domain_of_literal, kind_of_base, literal_value};
ghost use Rattle.fz_store.specs.of_meaning.Relations.{kind_of};
ghost use Rattle.fz_tree.specs.View.{bare_base, bare_bounds, bare_literal_kind};

use fz_store::{Domain, IntSet, Kind, Term, Value, kind_of};
use fz_tree::{Base, Literal, LiteralKind};
use std::alloc::{AllocError, Global};

/// The kind of the value that a literal stands for, without making that value. It takes no memory.
pub fn literal_kind(literal: &LiteralKind) -> Kind
    ensures { result ≡ kind_of (literal_value (bare_literal_kind literal.now)) }
{
    match literal {
        LiteralKind::Whole(_) => Kind::Int,
        LiteralKind::Truth(_) => Kind::Bool,
        LiteralKind::Range(_, _) => Kind::Set,
        LiteralKind::Braces(_) => Kind::Set,
    }
}

/// The value that a literal stands for: a number, a Boolean, or the set of a range or of braces. It
/// refuses only where memory runs out.
#[inline]
pub fn literal_value(alloc: Global, literal: &LiteralKind) -> Result<Value, AllocError>
    ensures { IfOk result (λ v. v ≡ literal_value (bare_literal_kind literal.now)) }
{
    match literal {
        LiteralKind::Whole(number) => Ok(Value::Int(*number)),
        LiteralKind::Truth(truth) => Ok(Value::Bool(*truth)),
        LiteralKind::Range(lo, hi) => Ok(Value::Set(IntSet::range(alloc, *lo, *hi).map_err(
            |_| AllocError,
        )?)),
        LiteralKind::Braces(numbers) => Ok(Value::Set(IntSet::list(alloc, numbers).map_err(
            |_| AllocError,
        )?)),
    }
}

/// The kind of a type.
pub(crate) fn base_kind(base: &Base) -> Kind
    ensures { result ≡ kind_of_base (bare_base base.now) }
{
    match base {
        Base::Bool => Kind::Bool,
        Base::Int(_) => Kind::Int,
        Base::Set(_) => Kind::Set,
    }
}

/// The domain of bounds, where there are some.
fn bounded(alloc: Global, bounds: &Option<Literal>) -> Result<Domain, AllocError>
    ensures { IfOk result (λ d. d ≡ domain_of_literal (bare_bounds bounds.now)) }
{
    match bounds {
        None => Ok(Domain::All),
        Some(literal) => literal_domain(alloc, &literal.what),
    }
}

/// The numbers of a range or of braces; any other literal bounds nothing.
fn literal_domain(alloc: Global, literal: &LiteralKind) -> Result<Domain, AllocError>
    ensures { IfOk result (λ d. d ≡ domain_of_literal (Some (bare_literal_kind literal.now))) }
{
    match literal {
        LiteralKind::Range(lo, hi) => Ok(Domain::Within(*lo, *hi)),
        LiteralKind::Braces(numbers) => Ok(Domain::Among(IntSet::list(alloc, numbers).map_err(
            |_| AllocError,
        )?)),
        LiteralKind::Whole(_) => Ok(Domain::All),
        LiteralKind::Truth(_) => Ok(Domain::All),
    }
}

/// The domain of a type. It refuses only where memory runs out.
pub(crate) fn domain_of(alloc: Global, base: &Base) -> Result<Domain, AllocError>
    ensures { IfOk result (λ d. d ≡ domain_of (bare_base base.now)) }
{
    match base {
        Base::Bool => Ok(Domain::All),
        Base::Int(bounds) => bounded(alloc, bounds),
        Base::Set(bounds) => bounded(alloc, bounds),
    }
}

/// A copy of a term. It refuses only where memory runs out.
#[inline]
pub(crate) fn copied(alloc: Global, term: &Term) -> Result<Term, AllocError>
    ensures { IfOk result (λ t. t ≡ term.now) }
{
    match term {
        Term::Var(number) => Ok(Term::Var(*number)),
        Term::Fixed(value) => Ok(Term::Fixed(value.copy(alloc)?)),
    }
}
