// What the call answers.
use chain::Figure;

// The longest delay of a path followed, in ticks, with the smallest job number that has it.
#[derive(Clone, Copy, PartialEq, Eq)]
pub struct Longest {
    pub ticks: u32,
    pub job: u32,
}

// How many records the log has, how many paths those before the break complete, and the longest of these; the break, which is the first
// record, counted from 0, that with all before it does not agree; and the sampling figure of the chain that is followed.
#[derive(Clone, Copy, PartialEq, Eq)]
pub struct Replayed {
    pub records: u32,
    pub paths: u32,
    pub longest: Option<Longest>,
    pub breaking: Option<u32>,
    pub figure: Figure,
}
