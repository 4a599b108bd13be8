// What the calls answer.
use schedule::Totals;

// The greatest delay, and the smallest release that gives it.
#[derive(Clone, Copy, Default, PartialEq, Eq)]
pub struct Figure {
    pub ticks: u32,
    pub release: u32,
}

// What one filling of the table gives: H, J and the idle ticks; the sampling figure and its bound, which count from a release; and the
// worst, the bound and the margin under the chain's limit in a report, which count from a flag.
#[derive(Clone, Copy, Default, PartialEq, Eq)]
pub struct Summary {
    pub totals: Totals,
    pub sampling: Figure,
    pub sampling_bound: u32,
    pub worst: u32,
    pub bound: u32,
    pub margin: i32,
}

// The same, with the greatest response of each task.
#[derive(Clone, Copy, PartialEq, Eq)]
pub struct TaskFigures {
    pub summary: Summary,
    pub greatest: [u32; 16],
}

// What a report says: the job table's totals with the greatest response of each task, and the figures of each chain in its place.
#[derive(Clone, Copy, PartialEq, Eq)]
pub struct Suite {
    pub totals: Totals,
    pub greatest: [u32; 16],
    pub chains: [Summary; 8],
}
