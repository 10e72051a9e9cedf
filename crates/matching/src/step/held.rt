// What a held step keeps, and why a branch may not be added to it.
ghost use Rattle.std.specs.Prelude.{◌≡◌, ◌≤◌, length, sum};

use model::STATES;

/// A step with its branches in place: in place t of the weights stands the weight of the branch to target t, and 0 where there
/// is none. So there are at most 64 branches, their targets rise and are below 64, and their weights are at least 1.
#[derive(Clone, Copy)]
pub struct HeldStep {
    pub(crate) action: u8,
    pub(crate) weights: [u32; STATES],
    /// The sum of the weights, at most 1,000,000,000.
    pub(crate) total: u32,
    ghost wide: { length weights ≡ 64 },
    ghost counted: { total ≡ sum weights },
    ghost light: { total ≤ 1000000000 },
}

/// Why a branch may not be added to a step: its target is not above those of the branches before it or is no state's number,
/// its weight is 0, or the total would pass 1,000,000,000.
#[derive(Clone, Copy, PartialEq, Eq, Debug)]
pub enum Refusal {
    Target,
    Weight,
    Total,
}
