//! The row of the table of builtins that a constraint fits.

ghost use Rattle.std.specs.Prelude.{◌≡◌, ◌==◌, ℕ, Option, map, option_map};
ghost use Rattle.std.specs.List.{list_all};
ghost use Rattle.fz_store.specs.of_meaning.declared.term.Term.TheVariants.{Var};
ghost use Rattle.fz_store.specs.of_meaning.Meaning.{are_rows_of, are_whole_rows, as_int, fits, has_shape, have_shapes, row_of};
ghost use Rattle.fz_store.specs.of_meaning.Known.{known_row, shape_of};
ghost use Rattle.fz_store.specs.of_meaning.Relations.{kind_of};
ghost use Rattle.fz_store.specs.Parts.{argument_view, kind_of_term};
ghost use Rattle.fz_data.specs.Fitting.{are_equally_long, array_kind, have_lengths, is_array_of, is_array_slot, is_of_kind, is_scalar_of, kinds_among, length_at, length_of, number_at, number_of, slot_length, slot_number, stands_in_rows};
ghost use Rattle.fz_store.specs.Slots.{constant_at};

use fz_store::{
    Argument, Array, Kind, Known, Matrix, Shape, Slot, Store, Term, Value, Variable, kind_of, part,
    same_kind,
};

/// What constraints cite: the variables, their kinds, and the arrays. The kinds have a list of
/// their own, a byte each, so that they stay in a near cache while constraints are loaded.
#[derive(Clone, Copy)]
pub(crate) struct Cited<'m, 'a> {
    pub(crate) variables: &'m [Variable<'a>],
    pub(crate) kinds: &'m [Kind],
    pub(crate) arrays: &'m [Array<'a>],
    ghost kinds_are: { kinds.now ≡ kinds_among variables.now },
}

/// The row of the table that a constraint fits, by its name, the kinds of its arguments, and the
/// lengths of arrays that belong together or were matrices. It goes over each argument once and
/// takes no memory.
pub(crate) fn row_of(
    name: &[u8],
    arguments: &[Argument],
    cited: &Cited<'_, '_>,
    store: &Store,
) -> Option<Known>
    ensures { (t : Option ℕ) → option_map known_row result
        ≡ row_of (record {
          name = name.now;
          arguments = map
              (argument_view cited.now.variables.now cited.now.arrays.now store.now) arguments.now;
          target = t;
        }) }
{
    let known = Known::find(name, arguments.len())?;
    if fits(known, arguments, cited, store) {
        Some(known)
    } else {
        None
    }
}

fn fits(known: Known, arguments: &[Argument], cited: &Cited<'_, '_>, store: &Store) -> bool
    ensures { result ≡ fits (known_row known)
        (map (argument_view cited.now.variables.now cited.now.arrays.now store.now) arguments.now) }
{
    have_shapes(known.shapes(), arguments, cited, store)
        && have_lengths(known, arguments, cited.arrays, store)
}

// Whether arrays are as long as the row asks, where all arguments are of the kinds asked for.
fn have_lengths(known: Known, arguments: &[Argument], arrays: &[Array<'_>], store: &Store) -> bool
    ensures { result ≡ have_lengths arrays.now store.now (known_row known) arguments.now }
{
    equally_long(known.together(), arguments, arrays, &store.slots)
        && stands_in_rows(known.matrix(), arguments, arrays, store)
}

#[tactic(auto, using(crate::proofs::Fitting::fit_not, crate::proofs::Fitting::fit_more))]
fn have_shapes(
    shapes: &[Shape],
    arguments: &[Argument],
    cited: &Cited<'_, '_>,
    store: &Store,
) -> bool
    ensures { result ≡ have_shapes (map shape_of shapes.now)
        (map (argument_view cited.now.variables.now cited.now.arrays.now store.now) arguments.now) }
{
    if shapes.len() != arguments.len() {
        return false;
    }
    for (shape, argument) in shapes.iter().zip(arguments) {
        if !has_shape(*shape, argument, cited, store) {
            return false;
        }
    }
    true
}

#[tactic(auto, using(crate::proofs::Fitting::scalar_of, crate::proofs::Fitting::array_of))]
fn has_shape(shape: Shape, argument: &Argument, cited: &Cited<'_, '_>, store: &Store) -> bool
    ensures { result ≡ has_shape (shape_of shape)
        (argument_view cited.now.variables.now cited.now.arrays.now store.now argument.now) }
{
    match shape {
        Shape::Scalar(kind) => is_scalar_of(kind, argument, cited, store),
        Shape::Array(kind) => is_array_of(kind, argument, cited, store),
    }
}

fn is_scalar_of(kind: Kind, argument: &Argument, cited: &Cited<'_, '_>, store: &Store) -> bool
    ensures { result ≡ is_scalar_of cited.now.variables.now store.now.constants.items kind
        argument.now }
{
    match argument {
        Argument::One(slot) => is_of(kind, slot, cited, &store.constants),
        Argument::List(_) => false,
    }
}

fn is_array_of(kind: Kind, argument: &Argument, cited: &Cited<'_, '_>, store: &Store) -> bool
    ensures { result ≡ is_array_of cited.now.variables.now cited.now.arrays.now
        store.now.constants.items store.now.slots.items kind argument.now }
{
    match argument {
        Argument::One(slot) => is_array_slot(kind, slot, cited.arrays),
        Argument::List(slots) => are_of(kind, part(&store.slots, *slots), cited, &store.constants),
    }
}

/// Whether a slot is an array of the kind.
fn is_array_slot(kind: Kind, slot: &Slot, arrays: &[Array<'_>]) -> bool
    ensures { result ≡ is_array_slot arrays.now kind slot.now }
{
    match slot {
        Slot::Array(number) => same_kind(array_kind(*number as usize, arrays), kind),
        Slot::Variable(_) | Slot::Number(_) | Slot::Truth(_) | Slot::Constant(_) => false,
    }
}

fn are_of(kind: Kind, slots: &[Slot], cited: &Cited<'_, '_>, constants: &[Value]) -> bool
    ensures { result ≡ list_all (is_of_kind cited.now.variables.now constants.now kind) slots.now }
{
    slots.iter().all(|slot| is_of(kind, slot, cited, constants))
}

/// Whether a slot is a scalar of the kind.
#[inline]
fn is_of(kind: Kind, slot: &Slot, cited: &Cited<'_, '_>, constants: &[Value]) -> bool
    ensures { result ≡ is_of_kind cited.now.variables.now constants.now kind slot.now }
{
    match slot {
        Slot::Variable(number) => same_kind(variable_kind(*number as usize, cited), kind),
        Slot::Number(_) => same_kind(Kind::Int, kind),
        Slot::Truth(_) => same_kind(Kind::Bool, kind),
        Slot::Constant(place) => same_kind(constant_kind(constants, *place as usize), kind),
        Slot::Array(_) => false,
    }
}

/// The kind of the constant at an index.
fn constant_kind(constants: &[Value], place: usize) -> Kind
    ensures { result ≡ kind_of (constant_at constants.now place) }
{
    match constants.get(place) {
        Some(value) => kind_of(value),
        None => Kind::Int,
    }
}

// Whether the arguments at these indices are equally long, where all are of the kinds asked for.
fn equally_long(
    places: &[usize],
    arguments: &[Argument],
    arrays: &[Array<'_>],
    slots: &[Slot],
) -> bool
    ensures { result ≡ are_equally_long arrays.now slots.now places.now arguments.now }
{
    match places.split_first() {
        Some((first, others)) => {
            let length = length_at(*first, arguments, arrays, slots);
            all_so_long(length, others, arguments, arrays, slots)
        }
        None => true,
    }
}

fn all_so_long(
    length: usize,
    places: &[usize],
    arguments: &[Argument],
    arrays: &[Array<'_>],
    slots: &[Slot],
) -> bool
    ensures { result ≡ list_all (λ j. length_at arrays.now slots.now arguments.now j == length)
        places.now }
{
    places.iter().all(|place| length_at(*place, arguments, arrays, slots) == length)
}

// Whether the array that was a matrix has whole rows, where all arguments are of the kinds asked
// for.
fn stands_in_rows(
    matrix: Matrix,
    arguments: &[Argument],
    arrays: &[Array<'_>],
    store: &Store,
) -> bool
    ensures { result ≡ stands_in_rows arrays.now store.now matrix arguments.now }
{
    match matrix {
        Matrix::Absent => true,
        Matrix::RowsLike(row, table) => are_whole_rows(
            length_at(row, arguments, arrays, &store.slots),
            length_at(table, arguments, arrays, &store.slots),
        ),
        Matrix::RowsBy(height, width, table) => are_rows_of(
            number_at(height, arguments, &store.constants),
            number_at(width, arguments, &store.constants),
            length_at(table, arguments, arrays, &store.slots),
        ),
    }
}

fn are_whole_rows(width: usize, count: usize) -> bool
    ensures { result ≡ are_whole_rows width count }
{
    width != 0 && count % width == 0
}

fn are_rows_of(height: Option<i64>, width: Option<i64>, count: usize) -> bool
    ensures { result ≡ are_rows_of height width count }
{
    match (height, width) {
        (Some(height), Some(width)) => count as i128 == i128::from(height) * i128::from(width),
        _ => false,
    }
}

fn number_at(place: usize, arguments: &[Argument], constants: &[Value]) -> Option<i64>
    ensures { result ≡ number_at constants.now arguments.now place }
{
    match arguments.get(place) {
        Some(argument) => number_of(argument, constants),
        None => None,
    }
}

// The number that is an argument, where it is fixed.
fn number_of(argument: &Argument, constants: &[Value]) -> Option<i64>
    ensures { result ≡ number_of constants.now argument.now }
{
    match argument {
        Argument::One(slot) => slot_number(slot, constants),
        Argument::List(_) => None,
    }
}

fn slot_number(slot: &Slot, constants: &[Value]) -> Option<i64>
    ensures { result ≡ slot_number constants.now slot.now }
{
    match slot {
        Slot::Number(number) => Some(i64::from(*number)),
        Slot::Constant(place) => constant_number(constants, *place as usize),
        Slot::Variable(_) | Slot::Truth(_) | Slot::Array(_) => None,
    }
}

fn constant_number(constants: &[Value], place: usize) -> Option<i64>
    ensures { result ≡ as_int (constant_at constants.now place) }
{
    match constants.get(place) {
        Some(value) => int_of(value),
        None => Some(0),
    }
}

fn int_of(value: &Value) -> Option<i64>
    ensures { result ≡ as_int value.now }
{
    match value {
        Value::Int(number) => Some(*number),
        Value::Bool(_) | Value::Set(_) => None,
    }
}

fn length_at(place: usize, arguments: &[Argument], arrays: &[Array<'_>], slots: &[Slot]) -> usize
    ensures { result ≡ length_at arrays.now slots.now arguments.now place }
{
    match arguments.get(place) {
        Some(argument) => length(argument, arrays, slots),
        None => 0,
    }
}

// The number of scalars in an argument that is of the kind asked for: there is no array in its
// list.
fn length(argument: &Argument, arrays: &[Array<'_>], slots: &[Slot]) -> usize
    ensures { result ≡ length_of arrays.now slots.now argument.now }
{
    match argument {
        Argument::One(slot) => slot_length(slot, arrays),
        Argument::List(list) => part(slots, *list).len(),
    }
}

fn slot_length(slot: &Slot, arrays: &[Array<'_>]) -> usize
    ensures { result ≡ slot_length arrays.now slot.now }
{
    match slot {
        Slot::Array(number) => match arrays.get(*number as usize) {
            Some(array) => array.elements.slots.len(),
            None => 0,
        },
        Slot::Variable(_) | Slot::Number(_) | Slot::Truth(_) | Slot::Constant(_) => 1,
    }
}

fn array_kind(number: usize, arrays: &[Array<'_>]) -> Kind
    ensures { result ≡ array_kind arrays.now number }
{
    match arrays.get(number) {
        Some(array) => array.kind,
        None => Kind::Int,
    }
}

/// The kind of the variable of a number.
#[inline]
pub(crate) fn variable_kind(number: usize, cited: &Cited<'_, '_>) -> Kind
    ensures { result ≡ kind_of_term cited.now.variables.now (Var number) }
{
    match cited.kinds.get(number) {
        Some(kind) => *kind,
        None => Kind::Int,
    }
}

/// The kind of a scalar.
#[inline]
pub(crate) fn term_kind(term: &Term, cited: &Cited<'_, '_>) -> Kind
    ensures { result ≡ kind_of_term cited.now.variables.now term.now }
{
    match term {
        Term::Var(number) => variable_kind(*number, cited),
        Term::Fixed(value) => kind_of(value),
    }
}
