// The theory of the schedule and of a chain of tasks: definitions and theorems alone, over the one struct that every layer shares.
// What a reader holds against document 01 stands in specs/Model, what its laws speak of besides in specs/Analysis, laws of it in proofs/Analysis.
// What it promises stands in proofs/Results: no schedule exceeds the sampling figure from a release (Demand3), nor the worst from a flag (Flags).
#![tactic(auto)]

// A task of a timing sheet: released every `period` ticks, it runs for 1 to `budget` of them; a greater rank goes first.
#[derive(Clone, Copy, Default, PartialEq, Eq)]
pub struct Task {
    pub period: u32,
    pub budget: u32,
    pub rank: u8,
}
