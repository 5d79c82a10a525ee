//! A sum of products in words, first with the names of variables and then with their values.

use crate::reason::{Relation, Sides};
use crate::teller::{Teller, say};
use crate::told::Sayable;
use fz_store::Builtin;

/// The most products that are listed.
const MOST_LISTED: usize = 8;

/// A factor and the value that it is multiplied with, at a place of a sum.
#[derive(Clone, Copy)]
struct Product {
    factor: i64,
    value: i64,
    place: usize,
}

impl Product {
    fn size(self) -> u128 {
        u128::from(self.factor.unsigned_abs()) * u128::from(self.value.unsigned_abs())
    }
}

/// The products of a sum, with a sign of equality behind them: of more than so many the values of
/// the greatest ones alone. What one number is, isn't told.
pub(crate) fn say_sum(teller: &mut Teller<'_, '_>) {
    let (factors, terms) = (teller.view.elements(0), teller.view.elements(1));
    let count = factors.len().min(terms.len());
    if count > MOST_LISTED {
        return say_greatest(teller);
    }
    if has_variable(teller, count) {
        say_products(teller, true);
        teller.say(" = ");
    }
    if count == 0 || count == 1 && factors.int(0).unsigned_abs() == 1 {
        return;
    }
    say_products(teller, false);
    teller.say(" = ");
}

fn has_variable(teller: &Teller<'_, '_>, count: usize) -> bool {
    for place in 0..count {
        if teller.variable(1, place).is_some() {
            return true;
        }
    }
    false
}

/// The products, by name or by value.
fn say_products(teller: &mut Teller<'_, '_>, by_name: bool) {
    let (factors, terms) = (teller.view.elements(0), teller.view.elements(1));
    for place in 0..factors.len().min(terms.len()) {
        let product = Product {
            factor: factors.int(place),
            value: terms.int(place),
            place,
        };
        say_product(teller, by_name, place == 0, product);
    }
}

fn say_product(teller: &mut Teller<'_, '_>, by_name: bool, is_first: bool, product: Product) {
    let Product {
        factor,
        value,
        place,
    } = product;
    match teller.variable(1, place) {
        Some(variable) if by_name => {
            say_factor(teller, is_first, factor);
            teller.name(variable);
        }
        variable => {
            // The first one is no `-0`.
            let is_plain = is_first && (factor == 1 || value == 0);
            say_factor(teller, is_first, if is_plain { 1 } else { factor });
            teller.meet_at(1, place);
            say_term(teller, is_plain, value, variable);
        }
    }
}

/// The values of the greatest products, the greatest first, how many others there are, and how many
/// are 0.
fn say_greatest(teller: &mut Teller<'_, '_>) {
    let (products, others, zeros) = greatest_of(teller);
    for (rank, product) in products.iter().take(others).enumerate() {
        say_product(teller, false, rank == 0, *product);
    }
    if others > MOST_LISTED {
        say!(teller; " + ", others.saturating_sub(MOST_LISTED), " more");
    }
    if zeros > 0 {
        teller.say(if others == 0 { "" } else { " + " });
        say!(teller; zeros, if zeros == 1 { " zero" } else { " zeros" });
    }
    teller.say(" = ");
}

/// The greatest products, the greatest first, how many aren't 0, and how many are.
fn greatest_of(teller: &Teller<'_, '_>) -> ([Product; MOST_LISTED], usize, usize) {
    let (factors, terms) = (teller.view.elements(0), teller.view.elements(1));
    let nothing = Product {
        factor: 0,
        value: 0,
        place: 0,
    };
    let mut greatest = [nothing; MOST_LISTED];
    let (mut others, mut zeros): (usize, usize) = (0, 0);
    for place in 0..factors.len().min(terms.len()) {
        let mut product = Product {
            factor: factors.int(place),
            value: terms.int(place),
            place,
        };
        match product.size() {
            0 => zeros = zeros.saturating_add(1),
            _ => others = others.saturating_add(1),
        }
        for rank in 0..MOST_LISTED {
            if product.size() > greatest[rank].size() {
                let less = greatest[rank];
                greatest[rank] = product;
                product = less;
            }
        }
    }
    (greatest, others, zeros)
}

/// Of a sum of many numbers that are 0 or 1, all with the factor 1 or all with -1: how many are 1,
/// with their names, and how many may be or are needed. Whether it is such a sum.
pub(crate) fn say_ones(teller: &mut Teller<'_, '_>, sides: Sides) -> bool {
    let Some((factor, ones)) = ones_of(teller) else {
        return false;
    };
    say_how_many(teller, ones);
    match (sides.relation, factor, sides.right) {
        (Relation::AtMost, 1, most) => say!(teller; ", at most ", most, " may be"),
        (Relation::AtMost, _, -1) => teller.say(", 1 is needed"),
        (Relation::AtMost, _, least) => say!(teller; ", ", least.saturating_neg(), " are needed"),
        (_, 1, wanted) => say!(teller; ", not ", wanted),
        (_, _, wanted) => say!(teller; ", not ", wanted.saturating_neg()),
    }
    true
}

/// The factor of a sum of many numbers that are 0 or 1, where it is 1 or -1 for all, and how many
/// are 1.
fn ones_of(teller: &Teller<'_, '_>) -> Option<(i64, usize)> {
    match teller.builtin {
        Builtin::IntLinLe | Builtin::IntLinEq => {}
        _ => return None,
    }
    let (factors, terms) = (teller.view.elements(0), teller.view.elements(1));
    let count = factors.len().min(terms.len());
    if count <= MOST_LISTED || factors.int(0).unsigned_abs() != 1 {
        return None;
    }
    let factor = factors.int(0);
    let mut ones: usize = 0;
    for place in 0..count {
        match terms.int(place) {
            0 | 1 if factors.int(place) != factor => return None,
            0 => {}
            1 => ones = ones.saturating_add(1),
            _ => return None,
        }
    }
    Some((factor, ones))
}

/// How many of the numbers are 1, with the names of the first of these.
fn say_how_many(teller: &mut Teller<'_, '_>, ones: usize) {
    let terms = teller.view.elements(1);
    let count = terms.len();
    match ones {
        0 => return say!(teller; "none of ", count, " is 1"),
        1 => say!(teller; "1 of ", count, " is 1"),
        _ => say!(teller; ones, " of ", count, " are 1"),
    }
    let mut named: usize = 0;
    for place in 0..count {
        if named < MOST_LISTED
            && terms.int(place) == 1
            && let Some(variable) = teller.variable(1, place)
        {
            teller.say(if named == 0 { " (" } else { ", " });
            teller.name(variable);
            named += 1;
        }
    }
    if named > 0 && ones > named {
        say!(teller; " and ", ones.saturating_sub(named), " more");
    }
    teller.say(if named == 0 { "" } else { ")" });
}

/// The sign before a product, and its factor where it isn't 1.
fn say_factor(teller: &mut Teller<'_, '_>, is_first: bool, factor: i64) {
    teller.say(match (is_first, factor < 0) {
        (true, true) => "-",
        (true, false) => "",
        (false, true) => " - ",
        (false, false) => " + ",
    });
    match factor.unsigned_abs() {
        1 => {}
        size => say!(teller; size, "·"),
    }
}

/// A number, of a variable where one has it: behind a sign one that is below 0 stands in brackets.
pub(crate) fn say_term(
    teller: &mut Teller<'_, '_>,
    stands_alone: bool,
    value: i64,
    variable: Option<usize>,
) {
    let number = value.piece().of(variable);
    if value < 0 && !stands_alone {
        say!(teller; "(", number, ")");
    } else {
        say!(teller; number);
    }
}

fn size_of(factor: i64, value: i64) -> u128 {
    u128::from(factor.unsigned_abs()) * u128::from(value.unsigned_abs())
}
