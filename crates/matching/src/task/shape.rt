// What a task says.
ghost use Rattle.std.specs.Prelude.{◌≡◌, ℕ, ◌<◌, ◌≤◌, true, false, slice_index};
ghost use Rattle.matching.specs.Tables.{cell};

use model::STATES;

/// What each row has to send, what each column has to receive, and which pairs may carry any of it.
#[derive(Clone, Copy)]
pub(crate) struct Task {
    pub(crate) supply: [u64; STATES],
    pub(crate) demand: [u64; STATES],
    pub(crate) allowed: [[bool; STATES]; STATES],
    ghost supplied: { (r : ℕ) → slice_index supply r ≤ 1000000000000000000 },
    ghost demanded: { (c : ℕ) → slice_index demand c ≤ 1000000000000000000 },
    ghost within: { (r c : ℕ) → cell false allowed r c ≡ true → c < 64 },
}
