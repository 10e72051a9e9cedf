// What a table answers as a source.
ghost use Rattle.std.specs.Prelude.{◌≡◌, MatchOption};
ghost use Rattle.model.specs.Model.{branch_at, mass, no_branch, no_step, step_at};
ghost use Rattle.table.specs.Arrays.{fitting};
ghost use Rattle.table.specs.Meaning.{table_of};

use crate::row::Step;
use crate::table::Table;
use model::Branch;
use model::source::Source;

/// The sum of the weights, if 32 bits hold it.
fn checked_total(branches: &[Branch]) -> Option<u32>
    ensures { result ≡ fitting (mass branches.now) }
{
    let mut total = 0u32;
    for branch in branches {
        total = total.checked_add(branch.weight)?;
    }
    Some(total)
}

impl Table {
    /// A step, if the state has that step.
    fn step(&self, state: usize, step: usize) -> Option<Step<'_>>
        ensures { MatchOption result (step_at (table_of self.now) state step ≡ no_step)
            (λ s. step_at (table_of self.now) state step ≡ record { action = s.action; branches = s.branches.now }) }
    {
        let entry = self.rows.get(state)?.get(step)?;
        let first = usize::from(entry.first);
        Some(Step {
            action: entry.action,
            branches: &self.branches[first..first + usize::from(entry.count)],
        })
    }

    /// A step's branches; none where the state has no such step.
    fn branches_of(&self, state: usize, step: usize) -> &[Branch]
        ensures { result.now ≡ (step_at (table_of self.now) state step).branches }
    {
        self.step(state, step).map_or(&[], |step| step.branches)
    }

    /// A branch of a step, if the step has that branch.
    fn branch(&self, state: usize, step: usize, branch: usize) -> Option<Branch>
        ensures { MatchOption result (branch_at (table_of self.now) state step branch ≡ no_branch)
            (λ b. branch_at (table_of self.now) state step branch ≡ b) }
    {
        self.branches_of(state, step).get(branch).copied()
    }
}

impl Source for Table {
    ghost meaning = { table_of };

    ghost obeys = { λ x. x.laws };

    fn states(&self) -> usize {
        self.rows.len()
    }

    fn most_steps(&self) -> usize {
        self.most_steps
    }

    fn most_total(&self) -> u32 {
        self.most_total
    }

    fn steps(&self, state: usize) -> usize {
        self.rows.get(state).map_or(0, |row| row.len())
    }

    fn action(&self, state: usize, step: usize) -> u8 {
        self.step(state, step).map_or(0, |step| step.action)
    }

    fn total(&self, state: usize, step: usize) -> u32 {
        checked_total(self.branches_of(state, step)).unwrap_or(0)
    }

    fn branches(&self, state: usize, step: usize) -> usize {
        self.branches_of(state, step).len()
    }

    fn target(&self, state: usize, step: usize, branch: usize) -> usize {
        self.branch(state, step, branch)
            .map_or(0, |branch| usize::from(branch.target))
    }

    fn weight(&self, state: usize, step: usize, branch: usize) -> u32 {
        self.branch(state, step, branch)
            .map_or(0, |branch| branch.weight)
    }
}
