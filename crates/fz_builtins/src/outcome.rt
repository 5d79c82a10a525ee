//! The outcome of a row.

ghost use Rattle.std.specs.Prelude.{◌≡◌, not, ◌||◌};
ghost use Rattle.fz_globals.specs.of_meaning.Relations.{◌=ᴮ◌};
ghost use Rattle.fz_builtins.specs.Outcomes.{compared, implied_by, told};

use fz_store::State;

/// Whether a row holds, or that a number of it leaves 128 bits, or that it has a power that isn't
/// known.
#[derive(Clone, Copy)]
pub enum Outcome {
    Truth(bool),
    TooLarge,
    Unknown,
}

impl Outcome {
    /// Of a reified row: whether the Boolean is true exactly where the base row holds.
    pub fn compared(self, truth: bool) -> Outcome
        ensures { result ≡ compared truth self }
    {
        match self {
            Outcome::Truth(holds) => Outcome::Truth(truth == holds),
            Outcome::TooLarge => Outcome::TooLarge,
            Outcome::Unknown => Outcome::Unknown,
        }
    }

    /// Of a half-reified row: whether the base row holds or the Boolean is false.
    pub fn implied_by(self, truth: bool) -> Outcome
        ensures { result ≡ implied_by truth self }
    {
        match self {
            Outcome::Truth(holds) => Outcome::Truth(!truth || holds),
            Outcome::TooLarge => Outcome::TooLarge,
            Outcome::Unknown => Outcome::Unknown,
        }
    }

    /// The state of a constraint with this outcome.
    pub fn told(self) -> State
        ensures { result ≡ told self }
    {
        match self {
            Outcome::Truth(true) => State::Holds,
            Outcome::Truth(false) => State::Fails,
            Outcome::TooLarge => State::TooLarge,
            Outcome::Unknown => State::Unknown,
        }
    }
}
