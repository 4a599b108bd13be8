// Why a call refuses: document 01's table of numbers as one enum. Every layer above answers a `Result` with it and hands refusals up by `?`;
// how such a result reads as document 01's answer is defined in specs/Answers.antt.
#![tactic(auto)]

ghost use Rattle.std.specs.Prelude.{Some};
ghost use Rattle.answers.specs.Answers.{refusal_text};
ghost use Rattle.answers.specs.Promises.{NumberPromise, ValuePromise};

use std::fmt;

// A refusal of document 01's table, in the order of its numbers. 1 to 9 come with the bit at which the judged field begins, 15 with the
// greatest-ranked late task.
#[derive(Clone, Copy, PartialEq, Eq)]
pub enum Refusal {
    // the bytes end inside a field
    Cut(u32),
    // of the sheet's fields
    Count(u32),
    Period(u32),
    Budget(u32),
    Rank(u32),
    Length(u32),
    Entry(u32),
    Repeat(u32),
    // something follows the last field
    Surplus(u32),
    // of the sheet's size
    Hyperperiod,
    Jobs,
    // of what is asked
    Release,
    Limit,
    Room,
    // a task that is late
    Late(u8),
    // of the second edition
    Edition,
    Chain,
    OldEdition,
    // of a log
    LogTask,
    LogKind,
    LogTime,
    // of the tell-tale
    NoReading,
    LongReading,
}

impl Refusal {
    // "A refusal returns its number". (The cases carry values, so no cast gives it.)
    pub fn number(self) -> u8
        ensures { NumberPromise self result }
    {
        match self {
            Refusal::Cut(_) => 1,
            Refusal::Count(_) => 2,
            Refusal::Period(_) => 3,
            Refusal::Budget(_) => 4,
            Refusal::Rank(_) => 5,
            Refusal::Length(_) => 6,
            Refusal::Entry(_) => 7,
            Refusal::Repeat(_) => 8,
            Refusal::Surplus(_) => 9,
            Refusal::Hyperperiod => 10,
            Refusal::Jobs => 11,
            Refusal::Release => 12,
            Refusal::Limit => 13,
            Refusal::Room => 14,
            Refusal::Late(_) => 15,
            Refusal::Edition => 16,
            Refusal::Chain => 17,
            Refusal::OldEdition => 18,
            Refusal::LogTask => 19,
            Refusal::LogKind => 20,
            Refusal::LogTime => 21,
            Refusal::NoReading => 25,
            Refusal::LongReading => 26,
        }
    }

    // The bit or the task that comes with it.
    pub fn value(self) -> Option<u32>
        ensures { ValuePromise self result }
    {
        match self {
            Refusal::Cut(bit)
            | Refusal::Count(bit)
            | Refusal::Period(bit)
            | Refusal::Budget(bit)
            | Refusal::Rank(bit)
            | Refusal::Length(bit)
            | Refusal::Entry(bit)
            | Refusal::Repeat(bit)
            | Refusal::Surplus(bit) => Some(bit),
            Refusal::Late(task) => Some(u32::from(task)),
            _ => None,
        }
    }
}

// "`refused` and its number", "and for 15 the task too"; the others that have a value come with ` bit ` and the offset.
impl fmt::Display for Refusal {
    ghost output = { λ r. Some (refusal_text r) };

    fn fmt<W: fmt::Write>(&self, f: &mut fmt::Formatter<W>) -> fmt::Result {
        write!(f, "refused {}", self.number())?;
        match self.value() {
            None => Ok(()),
            Some(value) => match self {
                Refusal::Late(_) => write!(f, " task {value}"),
                _ => write!(f, " bit {value}"),
            },
        }
    }
}
