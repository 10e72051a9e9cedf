// A step as a field of a file gives it.
ghost use Rattle.std.specs.Prelude.{◌≡◌, ◌+◌, ◌^◌, ◌<◌, ◌≤◌, ◌++◌, length};
ghost use Rattle.model.specs.Model.{total};
ghost use Rattle.table.specs.Arrays.{fitting};
ghost use Rattle.table.specs.File.{sound_branches, sound_numbers};
ghost use Rattle.table.specs.NewSteps.{step_given};

use crate::bytes::Branches;
use arrayvec::ArrayVec;
use fields::values::Values;
use model::{ACTIONS, Branch};

/// A step that is to be added: its state, its action, and its branches in bytes.
#[derive(Clone, Copy)]
pub struct NewStep<'a> {
    pub state: usize,
    pub action: u8,
    pub branches: &'a [u8],
}

impl NewStep<'_> {
    /// The number of branches.
    pub(crate) fn count(&self) -> usize
        ensures { result ≡ length (step_given self.now).branches }
    {
        self.branches.len() / 3
    }

    /// The sum of the weights, if 32 bits hold it.
    // `answers::checked_total` sums a slice: a contract over any iterator would have to say what an early end leaves of it.
    pub(crate) fn total(&self) -> Option<u32>
        ensures { result ≡ fitting (total (step_given self.now)) }
    {
        let mut total = 0u32;
        for branch in Values::<Branches>::of(self.branches) {
            total = total.checked_add(branch.weight)?;
        }
        Some(total)
    }

    /// Whether the numbers lie in their ranges and order, where there are so many states.
    pub(crate) fn is_sound(&self, states: usize) -> bool
        ensures { result ≡ sound_numbers states self.now.state (step_given self.now) }
    {
        self.state < states && self.action < ACTIONS && self.in_order(states)
    }

    /// Whether the targets are states and rise, and the weights are at least 1.
    fn in_order(&self, states: usize) -> bool
        ensures { result ≡ sound_branches states (step_given self.now).branches }
    {
        let mut least = 0;
        for branch in Values::<Branches>::of(self.branches) {
            let target = usize::from(branch.target);
            if target < least || target >= states || branch.weight == 0 {
                return false;
            }
            least = target + 1;
        }
        true
    }

    /// Adds the branches behind those that are there.
    pub(crate) fn append<const N: usize>(&self, branches: &mut ArrayVec<Branch, N>)
        requires { length branches.old.items + length (step_given self.now).branches ≤ N }
        ensures { branches.new.items ≡ branches.old.items ++ (step_given self.now).branches }
    {
        for branch in Values::<Branches>::of(self.branches) {
            branches.push(branch);
        }
    }
}
