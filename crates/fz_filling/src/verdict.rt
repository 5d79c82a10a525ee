//! The verdict on a block, and what it rests on.

/// What fails in a block. Names and predicates are slices of the model's source.
#[derive(Clone, Copy, Debug)]
pub enum Fault<'a> {
    /// A printed name has another value than the printed one.
    Printed(&'a [u8]),
    /// The value of a variable, or of an array's element, lies outside its declared domain.
    Domain(&'a [u8]),
    /// The two sides of a variable's definition differ.
    Definition(&'a [u8]),
    /// A constraint, by its number from 1 and its predicate, does not hold.
    Constraint(usize, &'a [u8]),
    /// This block's objective is not better than that of the block before.
    NotBetter(i64, i64),
}

/// What leaves a block undecided.
#[derive(Clone, Copy, Debug)]
pub enum Reason<'a> {
    /// A variable has no value.
    NoValue(&'a [u8]),
    /// A constraint, by its number from 1 and its predicate, is outside the table of builtins.
    Unknown(usize, &'a [u8]),
    /// A partial sum of a constraint leaves 128 bits.
    TooLarge(usize),
    /// This block's objective is not better than the one that was found for the block before, where
    /// values that the solver left out were looked for.
    NotShownBetter(i64, i64),
}

/// The verdict on one block.
#[derive(Clone, Copy, Debug)]
pub enum Verdict<'a> {
    Satisfied,
    Violated(Fault<'a>),
    Undecided(Reason<'a>),
}
