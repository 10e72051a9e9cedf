// How a table is made, and how a step is added to it.
ghost use Rattle.std.specs.Prelude.{◌≡◌, ◌+◌, ◌<◌, ◌≤◌, true, [], length, replicate};
ghost use Rattle.model.specs.Model.{lawful_step, total as total_of};
ghost use Rattle.table.specs.Arrays.{with_step};
ghost use Rattle.table.specs.File.{has_room};
ghost use Rattle.table.specs.NewSteps.{step_given};
ghost use Rattle.table.specs.Meaning.{starting, states_of, table_of};

use crate::new_step::NewStep;
use crate::row::{Entry, Row};
use crate::table::Table;
use arrayvec::ArrayVec;

impl Default for Table {
    ghost is_default = { λ t. table_of t ≡ starting };

    fn default() -> Self {
        Table::new()
    }
}

impl Table {
    /// A table of one state and no steps.
    pub fn new() -> Self
        ensures { table_of result ≡ starting }
    {
        Table::with_states(1)
    }

    /// A table of some states and no steps.
    pub(super) fn with_states(states: usize) -> Self
        requires { states ≤ 64 }
        ensures { states_of result ≡ replicate states [] }
    {
        let mut rows = ArrayVec::new();
        for _ in 0..states {
            rows.push(Row::new());
        }
        Table {
            rows,
            branches: ArrayVec::new(),
            steps: 0,
            most_steps: 0,
            most_total: 0,
        }
    }

    /// Adds a step as the last one of its state.
    pub(super) fn push(&mut self, step: &NewStep, total: u32)
        requires state { step.now.state < length self.old.rows.items }
        requires room { has_room (states_of self.old) step.now.state (length (step_given step.now).branches) ≡ true }
        requires lawful { lawful_step (length self.old.rows.items) 1000000000 (step_given step.now) ≡ true }
        requires total { total ≡ total_of (step_given step.now) }
        ensures { states_of self.new ≡ with_step (states_of self.old) step.now.state (step_given step.now) }
    {
        let first = self.branches.len();
        step.append(&mut self.branches);
        // Both numbers are at most 1,024, and kept in 16 bits for the memory; `try_from` would add a case that never comes.
        let entry = Entry {
            action: step.action,
            first: first as u16,
            count: (self.branches.len() - first) as u16,
        };
        let row = &mut self.rows[step.state];
        row.push(entry);
        let steps = row.len();
        self.most_steps = self.most_steps.max(steps);
        self.most_total = self.most_total.max(total);
        self.steps += 1;
    }
}
