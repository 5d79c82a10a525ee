//! What a reason says, in values. Indices of arguments and of elements count from 0.

ghost use Rattle.std.specs.Prelude.{◌≡◌};
ghost use Rattle.fz_reasons.specs.Elements.{relates};

/// How a row compares two numbers, the left one with the right one.
#[derive(Clone, Copy)]
pub enum Relation {
    Equal,
    NotEqual,
    AtMost,
    Below,
    AtLeast,
    Above,
}

/// What a row compares: a number that it reads or computes, with another argument. Booleans are
/// compared as 0 and 1.
#[derive(Clone, Copy)]
pub enum Operands {
    /// The first two arguments.
    Scalars,
    /// The sum of products of the first two, with the third.
    Products,
    /// The sum of the numbers of the first whose Booleans in the second are true, with the third.
    Weights,
    /// How often the second is an element of the first, with the third.
    Count,
    /// How often the third is an element of the second, with the first.
    CountLast,
    /// The first two Booleans.
    Truths,
    /// Whether both of the first two are true, with the third.
    And,
    /// Whether one of the first two is true, with the third.
    Or,
    /// Whether just one of the first two is true, with the third.
    Xor,
    /// Whether all elements of the first are true, with the second.
    All,
    /// Whether an element of the first is true, with the second.
    Any,
}

/// What the elements of a list are. Booleans are read as 0 and 1.
#[derive(Clone, Copy)]
pub enum ElementKind {
    Int,
    Bool,
}

/// Two numbers that a row compares.
#[derive(Clone, Copy)]
pub struct Sides {
    pub left: i128,
    pub relation: Relation,
    pub right: i128,
}

impl Sides {
    /// Whether the numbers compare so.
    pub fn hold(self) -> bool
        ensures exact { result ≡ relates self.relation self.left self.right }
    {
        match self.relation {
            Relation::Equal => self.left == self.right,
            Relation::NotEqual => self.left != self.right,
            Relation::AtMost => self.left <= self.right,
            Relation::Below => self.left < self.right,
            Relation::AtLeast => self.left >= self.right,
            Relation::Above => self.left > self.right,
        }
    }
}

/// An argument whose number isn't the one that the other arguments leave to it, if they leave one.
#[derive(Clone, Copy)]
pub struct OtherNumber {
    pub argument: usize,
    pub value: i64,
    pub wanted: Option<i128>,
}

/// The same of a Boolean.
#[derive(Clone, Copy)]
pub struct OtherTruth {
    pub argument: usize,
    pub value: bool,
    pub wanted: Option<bool>,
}

/// Two elements at different indices that are this value, or sets that have it.
#[derive(Clone, Copy)]
pub struct Clash {
    pub one: usize,
    pub other: usize,
    pub value: i64,
}

/// The element of the first argument at an index and the next one, which don't compare as the row
/// asks.
#[derive(Clone, Copy)]
pub struct Neighbours {
    pub place: usize,
    pub sides: Sides,
}

/// The value at an index of a cover, which comes on the left so often, on the right as often as is
/// asked.
#[derive(Clone, Copy)]
pub struct Count {
    pub place: usize,
    pub value: i64,
    pub sides: Sides,
}

/// The element at an index, with a value that it must not have.
#[derive(Clone, Copy)]
pub struct Element {
    pub place: usize,
    pub value: i64,
}

/// What has to be 0 or more.
#[derive(Clone, Copy)]
pub enum Quantity {
    /// How long a task lasts.
    Duration,
    /// How much a task uses.
    Use,
    /// How much there is of what tasks use.
    Limit,
    /// How many there are of a thing.
    Number,
    /// The weight of a knapsack.
    Weight,
    /// The profit of a knapsack.
    Profit,
    /// How many neighbours are added up.
    Width,
}

/// A quantity that is below 0, at an index where there are several.
#[derive(Clone, Copy)]
pub struct Negative {
    pub quantity: Quantity,
    pub place: usize,
    pub value: i64,
}

/// From where a task or a box lasts, and how long.
#[derive(Clone, Copy)]
pub struct Stretch {
    pub start: i64,
    pub length: i64,
}

/// Two tasks by their indices, each with when it runs, that aren't apart.
#[derive(Clone, Copy)]
pub struct Overlap {
    pub one: usize,
    pub first: Stretch,
    pub other: usize,
    pub second: Stretch,
}

/// Two boxes by their indices: how they aren't apart along the first axis, and along the second.
#[derive(Clone, Copy)]
pub struct Boxes {
    pub across: Overlap,
    pub along: Overlap,
}

/// The start of a task, at which so much is used, and what there is.
#[derive(Clone, Copy)]
pub struct Load {
    pub task: usize,
    pub time: i64,
    pub sides: Sides,
}

/// The first index at which two lists differ, with what is there: nothing where a list has ended.
#[derive(Clone, Copy)]
pub struct Difference {
    pub place: usize,
    pub left: Option<i64>,
    pub right: Option<i64>,
}

/// The index of an element of this value, before which the other value doesn't come.
#[derive(Clone, Copy)]
pub struct Early {
    pub place: usize,
    pub value: i64,
    pub before: i64,
}

/// Of the index of an element of one list the other list doesn't have this element's index. Where
/// the second list has sets, the value is an element of the set at the index.
#[derive(Clone, Copy)]
pub struct OneWay {
    pub place: usize,
    pub value: i64,
    pub back: Option<i64>,
}

/// The index of a symbol that leads from this state to no state.
#[derive(Clone, Copy)]
pub struct NoStep {
    pub place: usize,
    pub state: i64,
    pub symbol: i64,
}

/// The row of a table that agrees longest, and the index at which it first differs.
#[derive(Clone, Copy)]
pub struct NearRow {
    pub row: usize,
    pub place: usize,
    pub value: i64,
    pub wanted: i64,
}

/// An element that isn't an index, which is from `low` to `high`.
#[derive(Clone, Copy)]
pub struct NoIndex {
    pub place: usize,
    pub value: i64,
    pub low: i128,
    pub high: i128,
}

/// A ring that is too short: so many steps lead from a position, which counts from 1, back to it.
#[derive(Clone, Copy)]
pub struct Ring {
    pub start: i128,
    pub steps: usize,
}

/// A bin, its load, and the load that is given for it at a place.
#[derive(Clone, Copy)]
pub struct BinLoad {
    pub place: usize,
    pub bin: i128,
    pub load: i128,
    pub wanted: i64,
}

/// A sum of products, and the number that it has to be.
#[derive(Clone, Copy)]
pub struct Total {
    pub total: i128,
    pub wanted: i64,
}

/// A run of so many neighbours from a place on, and its sum.
#[derive(Clone, Copy)]
pub struct Run {
    pub place: usize,
    pub count: usize,
    pub sum: i128,
}

/// A number, and in which of the first sets it is.
#[derive(Clone, Copy)]
pub struct Member {
    pub number: i64,
    pub first: bool,
    pub second: bool,
    pub third: bool,
}

/// Why a base row fails.
#[derive(Clone, Copy)]
pub enum Reason {
    /// What the row compares doesn't compare so.
    Sides(Sides),
    Number(OtherNumber),
    Truth(OtherTruth),
    /// No element of the first argument is true, and none of the second is false.
    NoLiteral,
    /// An even number of elements are true.
    Even,
    Clash(Clash),
    Neighbours(Neighbours),
    Count(Count),
    /// An element that isn't in the cover.
    Outside(Element),
    Negative(Negative),
    Overlap(Overlap),
    Boxes(Boxes),
    Load(Load),
    Bin(Load),
    Difference(Difference),
    Early(Early),
    /// Of the first list.
    OneWay(OneWay),
    /// Of the second list.
    OtherWay(OneWay),
    /// The automaton begins in this, which is no state.
    BeginsIn(i64),
    NoStep(NoStep),
    /// The automaton ends in this state, which isn't one of the last.
    EndsIn(i64),
    NearRow(NearRow),
    Member(Member),
    NoIndex(NoIndex),
    Ring(Ring),
    BinLoad(BinLoad),
    /// Of a knapsack, the weight.
    Weight(Total),
    /// Of a knapsack, the profit.
    Profit(Total),
    Run(Run),
    /// The number, or the Boolean as 0 or 1, isn't an element of the list or of the set.
    NotListed(i64),
    /// The sets have the same elements.
    Same,
}

/// Why a row or one of its reified forms fails.
#[derive(Clone, Copy)]
pub enum Why {
    /// The base row fails. In a form that has a control variable, that is true.
    Fails(Reason),
    /// The base row holds, and the control variable of its reified form is false.
    Holds,
}
