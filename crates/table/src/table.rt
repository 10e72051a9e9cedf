// The table's own rows and branches, and what holds of them from its first moment.
ghost use Rattle.std.specs.Prelude.{◌≡◌, true, length};
ghost use Rattle.model.specs.Model.{lawful};
ghost use Rattle.table.specs.Arrays.{branches_in, measured, placed, states_in, steps_in};

use crate::row::Row;
use arrayvec::ArrayVec;
use model::{Branch, STATES};

mod answers;
mod changes;
mod reading;

/// The most branches of a table.
const BRANCHES: usize = 1024;

/// A model in fixed memory. It starts with one state and no steps; reading a model file fills it.
#[derive(Drop)]
pub struct Table {
    /// The steps of each state.
    rows: ArrayVec<Row, STATES>,
    /// The branches of all steps.
    branches: ArrayVec<Branch, BRANCHES>,
    /// The number of steps.
    steps: usize,
    /// The largest number of steps of a state, and the largest total.
    most_steps: usize,
    most_total: u32,
    ghost placed: { placed rows.items branches.items ≡ true },
    ghost laws: { lawful (measured (states_in rows.items branches.items)) ≡ true },
    ghost steps_counted: { steps ≡ steps_in (states_in rows.items branches.items) },
    ghost branches_counted: { length branches.items ≡ branches_in (states_in rows.items branches.items) },
    ghost steps_measured: { most_steps ≡ (measured (states_in rows.items branches.items)).p },
    ghost total_measured: { most_total ≡ (measured (states_in rows.items branches.items)).z },
}
