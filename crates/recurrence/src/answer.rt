// What the calls answer.

// The quick bound from a release of the chain's first task on, and from a flag on.
#[derive(Clone, Copy, Default, PartialEq, Eq)]
pub struct Bounds {
    pub sampling_bound: u32,
    pub bound: u32,
}

// The same, with the response of each task.
#[derive(Clone, Copy, PartialEq, Eq)]
pub struct QuickBound {
    pub bounds: Bounds,
    pub responses: [u32; 16],
}

// The bounds of every chain from one search, those of chain c + 1 in place c.
#[derive(Clone, Copy, PartialEq, Eq)]
pub struct QuickSuite {
    pub responses: [u32; 16],
    pub chains: [Bounds; 8],
}
