// What the calls answer.

// H, J and the idle ticks before H.
#[derive(Clone, Copy, Default, PartialEq, Eq)]
pub struct Totals {
    pub hyperperiod: u32,
    pub jobs: u32,
    pub idle: u32,
}

// The totals, with the greatest response of each task.
#[derive(Clone, Copy, PartialEq, Eq)]
pub struct TaskResponses {
    pub totals: Totals,
    pub greatest: [u32; 16],
}

// H and J.
#[derive(Clone, Copy, PartialEq, Eq)]
pub struct Size {
    pub hyperperiod: u32,
    pub jobs: u32,
}
