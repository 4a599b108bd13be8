// The tell-tale on the clock itself (document 02, P13): the longest delay that the unit has seen, in one small record that is updated where
// it stands. What each call answers and leaves is defined in specs/Calls.antt, and what a run of calls comes to in specs/Runs.antt.
#![tactic(auto)]

ghost use Rattle.std.specs.Prelude.{◌≡◌};
ghost use Rattle.telltale.specs.Promises.{FreshPromise, BeginPromise, StampPromise};

use answers::Refusal;

// Elapsed ticks from here on are refused.
const TOO_LONG: u32 = 2147483648;

// Whether a reading is under way, its counter, the longest delay, and how many stamps were accepted. (The flag beside its counter is no
// `Option`: C lends this record as `struct bellkettle_telltale`.)
#[repr(C)]
#[derive(Clone, Copy, Default, PartialEq, Eq)]
pub struct Record {
    pub underway: bool,
    pub counter: u32,
    pub longest: u32,
    pub count: u16,
}

// What a stamp answers, its elapsed ticks or its refusal, and the record that it leaves. (With it stay `after_begin` and `after_stamp`, beside
// `begin` and `stamp`: docs/CONTRACTS.md names both as calls for who holds a record by value.)
#[derive(Clone, Copy, PartialEq, Eq)]
pub struct Stamped {
    pub answer: Result<u32, Refusal>,
    pub left: Record,
}

// "A fresh record has none under way and zeros".
pub fn fresh() -> Record
    ensures { FreshPromise result }
{
    Record::default()
}

// A reading begins at this counter: "Begin while one is under way keeps the older counter."
pub fn begin(kept: &mut Record, counter: u32)
    ensures { BeginPromise kept.old counter kept.new }
{
    if kept.underway {
        return;
    }
    kept.underway = true;
    kept.counter = counter;
}

// The reading under way ends at this counter; "a count that stays at 65,535 once there".
pub fn stamp(kept: &mut Record, counter: u32) -> Result<u32, Refusal>
    ensures { StampPromise kept.old counter result kept.new }
{
    if !kept.underway {
        return Err(Refusal::NoReading);
    }
    let ticks = counter.wrapping_sub(kept.counter);
    if ticks >= TOO_LONG {
        return Err(Refusal::LongReading);
    }
    *kept = Record {
        underway: false,
        counter: 0,
        longest: kept.longest.max(ticks),
        count: kept.count.saturating_add(1),
    };
    Ok(ticks)
}

// The record after `begin`, for callers that hold it by value.
pub fn after_begin(was: Record, counter: u32) -> Record
    ensures { BeginPromise was counter result }
{
    let mut kept = was;
    begin(&mut kept, counter);
    kept
}

// What `stamp` answers and the record after it, for callers that hold it by value.
pub fn after_stamp(was: Record, counter: u32) -> Stamped
    ensures { StampPromise was counter result.answer result.left }
{
    let mut kept = was;
    let answer = stamp(&mut kept, counter);
    Stamped { answer, left: kept }
}
