//! What is said of a reason: words, numbers, and variables whose names stand between them.

/// What is said of a reason, and who is in it.
#[derive(Drop)]
pub struct Told {
    /// What the text is made of, in order.
    pub pieces: Vec<Piece>,
    /// The variables that the reason speaks of, each once, in the order in which it does; of more
    /// than sixteen the first.
    pub who: Vec<Who>,
}

/// A part of what is said.
#[derive(Clone, Copy)]
pub enum Piece {
    Words(&'static str),
    /// The name of the variable with this number.
    Name(usize),
    /// A number, and the variable whose value it is, or to whose values it is compared.
    Number(i128, Option<usize>),
    /// The same of a Boolean.
    Truth(bool, Option<usize>),
}

impl Piece {
    /// A number, or the Boolean that it stands for.
    pub(crate) fn amount(is_truth: bool, value: i128) -> Piece {
        if is_truth {
            Piece::Truth(value != 0, None)
        } else {
            Piece::Number(value, None)
        }
    }

    /// The same piece as a value of this variable, where there is one.
    pub(crate) fn of(self, variable: Option<usize>) -> Piece {
        match self {
            Piece::Number(number, _) => Piece::Number(number, variable),
            Piece::Truth(truth, _) => Piece::Truth(truth, variable),
            Piece::Words(_) | Piece::Name(_) => self,
        }
    }
}

/// What can be said as a piece: words, a number that is no variable's value, or a piece.
pub(crate) trait Sayable {
    fn piece(self) -> Piece;
}

impl Sayable for &'static str {
    fn piece(self) -> Piece {
        Piece::Words(self)
    }
}

impl Sayable for i64 {
    fn piece(self) -> Piece {
        Piece::Number(i128::from(self), None)
    }
}

impl Sayable for i128 {
    fn piece(self) -> Piece {
        Piece::Number(self, None)
    }
}

impl Sayable for u64 {
    fn piece(self) -> Piece {
        Piece::Number(i128::from(self), None)
    }
}

impl Sayable for usize {
    fn piece(self) -> Piece {
        Piece::Number(self as i128, None)
    }
}

impl Sayable for bool {
    fn piece(self) -> Piece {
        Piece::Truth(self, None)
    }
}

impl Sayable for Piece {
    fn piece(self) -> Piece {
        self
    }
}

/// A variable that a reason speaks of.
#[derive(Drop)]
pub struct Who {
    pub variable: usize,
    /// What it is in the reason, as `task 4`, where that is said and not its name.
    pub role: Option<String>,
}
