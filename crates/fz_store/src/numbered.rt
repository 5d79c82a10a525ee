//! A table of names by the number that their digits make: `Numbered` has one cell (`Place`) for
//! each number from 0 up to a limit. The names that a compiler makes differ in that number, so most
//! are found by one read of a cell. A hash table would wait for memory three times: for a group,
//! for a key and for the key's text in the source.

ghost use Rattle.std.specs.Prelude.{◌≡◌, ◌≢◌, ℕ, IfOk, IfSome, IsFalse, IsTrue, Some, replicate, slice_get, true};
ghost use Rattle.fz_store.specs.declared.numbered.Place.TheVariants.{Crowded, Free};
ghost use Rattle.fz_store.specs.Numbered.{citation_of, citation_there, head_of, is_free, is_free_there, is_of, mark_of, marks_of, number_of, place_at, seat_there, unpacked, with_byte, AreKept, ArePackedOf, IsLeft, IsPlaceOf, IsShapeAt, IsTakenBy};

use crate::names::Citation;
use fz_meaning::same_text;
use std::alloc::{AllocError, Global};

/// A name's end is its last eight bytes: their digits make its number. Its other bytes are its
/// head.
const LAST: usize = 8;

/// At most this many shapes are stored, since a name is compared with each of them as it is
/// declared. A name of one more shape goes to the hash table.
const SHAPES: u32 = 64;

/// Which list the number of a citation is an index of.
#[derive(Clone, Copy)]
pub(crate) enum Sort {
    Variable,
    Parameter,
    Array,
}

/// A cell: what is known of the declared names of one number.
#[derive(Clone, Copy)]
pub(crate) enum Place {
    /// no name with this number is declared
    Free,
    /// the citation of the first such name, as its sort and its number, with the number of the
    /// name's shape between them
    Taken(Sort, u32, u32),
    /// the first such name is in the hash table, and so is each later one
    Crowded,
}

/// What names have in common that differ only in the digits of their ends. Names of one shape that
/// have the same number are the same name, so the rest of the text needn't be compared.
#[derive(Clone, Copy)]
pub(crate) struct Shape<'a> {
    len: usize,
    head: &'a [u8],
    /// the bytes of the end, with `0` for each digit
    marks: [u8; LAST],
}

/// The end of a name as it is read: the number that its digits make, and its bytes, with `0` for
/// each digit.
#[derive(Clone, Copy)]
struct Ending {
    number: usize,
    marks: [u8; LAST],
}

/// The byte, or `0` where it is a digit.
#[inline(always)]
fn mark_of(byte: u8) -> u8
    ensures { result ≡ mark_of byte }
{
    if byte.is_ascii_digit() { b'0' } else { byte }
}

/// The number with one more byte of a name appended, where that is a digit; it wraps. The compiler
/// needs no branch for it, and a branch would often be predicted wrong: names have their digits at
/// different indices.
#[inline(always)]
pub(crate) fn with_byte(number: usize, byte: u8) -> usize
    ensures { result ≡ with_byte number byte }
{
    if !byte.is_ascii_digit() {
        return number;
    }
    number
        .wrapping_mul(10)
        .wrapping_add(usize::from(byte - b'0'))
}

/// The bytes of a name before its end.
#[inline(always)]
fn head_of(name: &[u8]) -> &[u8]
    ensures { result.now ≡ head_of name.now }
{
    &name[..name.len().saturating_sub(LAST)]
}

/// The number and the marks of a name's end.
#[inline(always)]
fn ending_of(name: &[u8]) -> Ending
    ensures number { result.number ≡ number_of name.now }
    ensures marks { result.marks ≡ marks_of name.now }
{
    let mut number = 0;
    let mut marks = [0; LAST];
    let end = &name[name.len().saturating_sub(LAST)..];
    for place in 0..end.len() {
        number = with_byte(number, end[place]);
        marks[place] = mark_of(end[place]);
    }
    Ending { number, marks }
}

/// The sort and the number of a citation.
fn parts_of(citation: Citation) -> (Sort, usize)
    ensures { citation_of result.0 result.1 ≡ citation }
{
    match citation {
        Citation::Variable(number) => (Sort::Variable, number),
        Citation::Parameter(number) => (Sort::Parameter, number),
        Citation::Array(number) => (Sort::Array, number),
    }
}

/// The citation of a sort and a number.
#[inline(always)]
fn citation_of(sort: Sort, number: usize) -> Citation
    ensures { result ≡ citation_of sort number }
{
    match sort {
        Sort::Variable => Citation::Variable(number),
        Sort::Parameter => Citation::Parameter(number),
        Sort::Array => Citation::Array(number),
    }
}

impl<'a> Shape<'a> {
    /// The shape of a name with this end.
    fn of(name: &'a [u8], ending: &Ending) -> Shape<'a>
        requires marks { ending.now.marks ≡ marks_of name.now }
        ensures { is_of result name.now ≡ true }
    {
        Shape {
            len: name.len(),
            head: head_of(name),
            marks: ending.marks,
        }
    }

    /// Whether a name with this end has the shape.
    #[inline(always)]
    fn is_of(&self, name: &[u8], ending: &Ending) -> bool
        requires marks { ending.now.marks ≡ marks_of name.now }
        ensures { result ≡ is_of self.now name.now }
    {
        self.len == name.len()
            && same_text(&self.marks, &ending.marks)
            && same_text(self.head, head_of(name))
    }
}

/// The number of a name's shape, which is appended where it is new. The last shape is looked at
/// first, since names that are declared one after another mostly have the same shape. None where
/// there are `SHAPES` already or memory runs out.
fn shape_number<'a>(shapes: &mut Vec<Shape<'a>>, name: &'a [u8], ending: &Ending) -> Option<u32>
    requires marks { ending.now.marks ≡ marks_of name.now }
    ensures kept { AreKept shapes.old.items shapes.new.items }
    ensures shape { IfSome result (IsShapeAt shapes.new.items name.now) }
{
    for back in 1..=shapes.len() {
        let number = shapes.len() - back;
        if shapes[number].is_of(name, ending) {
            return u32::try_from(number).ok();
        }
    }
    let number = shapes.len();
    if number >= SHAPES as usize {
        return None;
    }
    shapes.push(Shape::of(name, ending)).ok()?;
    u32::try_from(number).ok()
}

/// The bits of a free cell.
const FREE: u32 = 0;

/// The bits of a crowded cell: no sort, and not those of a free one.
const CROWDED: u32 = 4;

/// A cell has 24 bits for the number of a citation.
const NUMBERS: u32 = 1 << 24;

/// A cell in 32 bits, so that the cells of a large model stay in a near cache: the number is in the
/// upper 24 bits, below it are six bits for the shape and two for the sort, which are 0 where the
/// cell isn't taken.
fn packed(sort: Sort, shape: u32, number: u32) -> u32
    ensures { ArePackedOf sort shape number (unpacked result) }
{
    if shape >= SHAPES || number >= NUMBERS {
        return CROWDED;
    }
    let above = number * 256 + shape * 4;
    match sort {
        Sort::Variable => above + 1,
        Sort::Parameter => above + 2,
        Sort::Array => above + 3,
    }
}

/// A cell, read from its 32 bits.
#[inline(always)]
fn unpacked(bits: u32) -> Place
    ensures { result ≡ unpacked bits }
{
    let shape = bits / 4 % SHAPES;
    let number = bits / 256;
    match bits % 4 {
        1 => Place::Taken(Sort::Variable, shape, number),
        2 => Place::Taken(Sort::Parameter, shape, number),
        3 => Place::Taken(Sort::Array, shape, number),
        _ if bits == FREE => Place::Free,
        _ => Place::Crowded,
    }
}

/// The bits of a cell whose first name is this one.
fn place_of<'a>(
    shapes: &mut Vec<Shape<'a>>,
    name: &'a [u8],
    ending: &Ending,
    citation: Citation,
) -> u32
    requires marks { ending.now.marks ≡ marks_of name.now }
    ensures kept { AreKept shapes.old.items shapes.new.items }
    ensures place { IsPlaceOf shapes.new.items name.now citation (unpacked result) }
{
    let (sort, number) = parts_of(citation);
    let Ok(number) = u32::try_from(number) else {
        return CROWDED;
    };
    let Some(shape) = shape_number(shapes, name, ending) else {
        return CROWDED;
    };
    packed(sort, shape, number)
}

/// The cells of the numbers from 0 on, the shapes of the names in them, and where these names are
/// in the list of all declared names.
#[derive(Drop)]
pub(crate) struct Numbered<'a> {
    pub(crate) places: Vec<u32>,
    pub(crate) shapes: Vec<Shape<'a>>,
    /// the index, in the list of all declared names, of the name that has the cell
    pub(crate) seats: Vec<usize>,
}

impl<'a> Numbered<'a> {
    /// This many cells, all free.
    pub(crate) fn with_places(alloc: Global, count: usize) -> Result<Numbered<'a>, AllocError>
        ensures { IfOk result (λ n. n.places.items ≡ replicate count 0) }
    {
        let mut places = Vec::new(alloc);
        places.resize(count, FREE)?;
        let mut seats = Vec::new(alloc);
        seats.resize(count, 0)?;
        Ok(Numbered {
            places,
            shapes: Vec::new(alloc),
            seats,
        })
    }

    /// The citation of a name, where its cell has it.
    #[inline(always)]
    pub(crate) fn get(&self, name: &[u8]) -> Option<Citation>
        ensures { result ≡ citation_there self.now.shapes.items self.now.places.items name.now }
    {
        let ending = ending_of(name);
        let Place::Taken(sort, shape, number) = unpacked(*self.places.get(ending.number)?) else {
            return None;
        };
        if !self.shapes.get(shape as usize)?.is_of(name, &ending) {
            return None;
        }
        Some(citation_of(sort, number as usize))
    }

    /// The index of a name in the list of all declared names, where its cell has it.
    pub(crate) fn seat(&self, name: &[u8]) -> Option<usize>
        ensures { result ≡ seat_there self.now.shapes.items self.now.places.items
            self.now.seats.items name.now }
    {
        let _ = self.get(name)?;
        self.seats.get(ending_of(name).number).copied()
    }

    /// Whether a name's number has a cell and that is free.
    #[inline(always)]
    pub(crate) fn is_free(&self, name: &[u8]) -> bool
        ensures { result ≡ is_free_there self.now.places.items name.now }
    {
        self.is_free_at(ending_of(name).number)
    }

    /// Whether the number has a cell and that is free.
    #[inline(always)]
    fn is_free_at(&self, number: usize) -> bool
        ensures { result ≡ is_free (place_at self.now.places.items number) }
    {
        let Some(place) = self.places.get(number) else {
            return false;
        };
        matches!(unpacked(*place), Place::Free)
    }

    /// Gives a name the cell of its number, where there is one and it is free, and tells whether it
    /// got it. The seat is the name's index in the list of all declared names.
    pub(crate) fn note(&mut self, name: &'a [u8], citation: Citation, seat: usize) -> bool
        ensures others { (i : ℕ) → i ≢ number_of name.now
            → slice_get self.new.places.items i ≡ slice_get self.old.places.items i }
        ensures other_seats { (i : ℕ) → i ≢ number_of name.now
            → slice_get self.new.seats.items i ≡ slice_get self.old.seats.items i }
        ensures kept { AreKept self.old.shapes.items self.new.shapes.items }
        ensures free { IsTrue result → place_at self.old.places.items (number_of name.now)
            ≡ Some Free }
        ensures taken { IsTrue result → IsTakenBy self.new.shapes.items name.now citation
            (place_at self.new.places.items (number_of name.now)) }
        ensures seat { IsTrue result → slice_get self.new.seats.items (number_of name.now)
            ≡ Some seat }
        ensures left { IsFalse result → IsLeft (place_at self.old.places.items (number_of name.now))
            (place_at self.new.places.items (number_of name.now)) }
        ensures no_seat { IsFalse result → self.new.seats.items ≡ self.old.seats.items }
    {
        let ending = ending_of(name);
        if !self.is_free_at(ending.number) {
            return false;
        }
        let place = if ending.number < self.seats.len() {
            place_of(&mut self.shapes, name, &ending, citation)
        } else {
            CROWDED
        };
        self.places[ending.number] = place;
        let Place::Taken(..) = unpacked(place) else {
            return false;
        };
        self.seats[ending.number] = seat;
        true
    }
}
