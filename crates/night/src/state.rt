// The state of the pass over a log: of the tasks, and of the places of the chain. The methods stand in lib.rt: their clauses cite
// specs/Conditions.antt, which names these structs, and a file with ghost fields must not cite what names its structs.
// Arrays of sixteen beside a slice: no heap is a rule of the project.
ghost use Rattle.std.specs.Prelude.{◌≡◌, ◌≤◌, ◌<◌, length, Some};

use super::Longest;
use clocklog::Kind;
use theory::Task;

// A record of the log, at its tick.
#[derive(Clone, Copy)]
pub(crate) struct Record {
    pub(crate) task: u8,
    pub(crate) kind: Kind,
    pub(crate) at: u32,
}

// Of a task how many of its jobs are finished, and how many ticks the next one has run.
#[derive(Clone, Copy, Default)]
pub(crate) struct Progress {
    pub(crate) ended: u32,
    pub(crate) ran: u32,
}

// What the records so far say of the ticks before `tick`, for the sheet's tasks. Where a task ran in the last of these ticks and may finish at
// `tick`, `last` has it.
#[derive(Clone, Copy)]
pub(crate) struct State<'a> {
    pub(crate) tasks: &'a [Task],
    pub(crate) tick: u32,
    pub(crate) last: Option<u8>,
    pub(crate) jobs: [Progress; 16],
    pub(crate) ghost few: { length tasks.now ≤ 16 },
    pub(crate) ghost last_known: { (i : _) → last ≡ Some i → i < length tasks.now },
}

// Of a place of the chain up to which reading its task has read there, and up to which it has written.
#[derive(Clone, Copy, Default)]
pub(crate) struct Place {
    pub(crate) read: u32,
    pub(crate) written: u32,
}

// How far the readings have come along the chain, whose first task has this period, and the longest delay of those that have come to its end.
#[derive(Clone, Copy)]
pub(crate) struct Readings<'a> {
    pub(crate) chain: &'a [u8],
    pub(crate) period: u32,
    pub(crate) places: [Place; 16],
    pub(crate) longest: Option<Longest>,
    pub(crate) ghost some: { 0 < length chain.now },
    pub(crate) ghost most: { length chain.now ≤ 16 },
}

// Where the records break, and of those before how many paths they complete, and the longest of these.
#[derive(Clone, Copy)]
pub(crate) struct Found {
    pub(crate) breaking: Option<u32>,
    pub(crate) paths: u32,
    pub(crate) longest: Option<Longest>,
}
