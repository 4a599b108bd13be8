// What stands in the way of two sheets, and the words for it.
#![tactic(auto)]

ghost use Rattle.std.specs.Prelude.{Some};
ghost use Rattle.lower.specs.Calls.{which_text, difference_text, obstacle_text};

use answers::Refusal;
use std::fmt;

// Of the two sheets, the one that was and the one that is to be.
#[derive(Clone, Copy, PartialEq, Eq)]
pub enum Which {
    Old,
    New,
}

// In what the task of an index differs: it stands on one sheet only, or has another period, budget or rank.
#[derive(Clone, Copy, PartialEq, Eq)]
pub enum Difference {
    OldOnly,
    NewOnly,
    Period,
    Budget,
    Rank,
}

// One of the sheets is refused or is not of edition 2, chain one is another, or a task that counts differs.
#[derive(Clone, Copy, PartialEq, Eq)]
pub enum Obstacle {
    Refused(Which, Refusal),
    Edition(Which),
    Chain,
    Task(u8, Difference),
}

impl fmt::Display for Which {
    ghost output = { λ w. Some (which_text w) };

    fn fmt<W: fmt::Write>(&self, f: &mut fmt::Formatter<W>) -> fmt::Result {
        match self {
            Which::Old => write!(f, "old"),
            Which::New => write!(f, "new"),
        }
    }
}

impl fmt::Display for Difference {
    ghost output = { λ d. Some (difference_text d) };

    fn fmt<W: fmt::Write>(&self, f: &mut fmt::Formatter<W>) -> fmt::Result {
        match self {
            Difference::OldOnly => write!(f, "old only"),
            Difference::NewOnly => write!(f, "new only"),
            Difference::Period => write!(f, "period"),
            Difference::Budget => write!(f, "budget"),
            Difference::Rank => write!(f, "rank"),
        }
    }
}

impl fmt::Display for Obstacle {
    ghost output = { λ o. Some (obstacle_text o) };

    fn fmt<W: fmt::Write>(&self, f: &mut fmt::Formatter<W>) -> fmt::Result {
        match self {
            Obstacle::Refused(which, refusal) => write!(f, "{which} {refusal}"),
            Obstacle::Edition(which) => write!(f, "differs edition {which}"),
            Obstacle::Chain => write!(f, "differs chain"),
            Obstacle::Task(i, difference) => write!(f, "differs task {i} {difference}"),
        }
    }
}
