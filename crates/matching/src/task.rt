// The task that a match comes to: what is to be sent, from where and to where.
ghost use Rattle.std.specs.Prelude.{◌≡◌, ℕ, ◌*◌, ◌<◌, ◌≤◌, false, ◌&&◌, nat_lt, slice_index, slice_index_or};
ghost use Rattle.matching.specs.Tables.{allows, cell};

use crate::relation::Relation;
use crate::step::HeldStep;
use model::STATES;

mod shape;

pub(crate) use shape::Task;

impl Task {
    /// The task of matching two steps: each target of the left one has to send its weight times the right one's total, each
    /// target of the right one has to receive its weight times the left one's total, and only related targets may carry any of
    /// it.
    pub(crate) fn new<R: Relation>(left: &HeldStep, right: &HeldStep, relation: &R) -> Task
        ensures supply { (r : ℕ) → slice_index result.supply r ≡ slice_index left.now.weights r * right.now.total }
        ensures demand { (c : ℕ) → slice_index result.demand c ≡ slice_index right.now.weights c * left.now.total }
        ensures allowed { (r c : ℕ) → cell false result.allowed r c ≡ allows (R.pairs relation.now) result.supply result.demand r c }
    {
        let supply = left.scaled(right.total);
        let demand = right.scaled(left.total);
        let mut allowed = [[false; STATES]; STATES];
        for row in 0..STATES {
            if supply[row] > 0 {
                allowed[row] = related(row, &demand, relation);
            }
        }
        Task {
            supply,
            demand,
            allowed,
        }
    }
}

/// The columns to which a row stands, of those that are to receive something.
fn related<R: Relation>(row: usize, demand: &[u64; STATES], relation: &R) -> [bool; STATES]
    ensures { (c : ℕ) → slice_index_or result c false ≡ (nat_lt 0 (slice_index demand.now c) && R.pairs relation.now row c) }
{
    let mut columns = [false; STATES];
    for column in 0..STATES {
        columns[column] = demand[column] > 0 && relation.relates(row, column);
    }
    columns
}

impl HeldStep {
    /// The weights, each times a total.
    fn scaled(&self, total: u32) -> [u64; STATES]
        requires { total ≤ 1000000000 }
        ensures { (t : ℕ) → slice_index result t ≡ slice_index self.now.weights t * total }
    {
        let mut scaled = [0; STATES];
        for (target, weight) in self.weights.iter().enumerate() {
            scaled[target] = u64::from(*weight) * u64::from(total);
        }
        scaled
    }
}
