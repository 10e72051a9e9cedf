// A source of a model: whatever can be asked for a model's states, steps and branches.
ghost use Rattle.std.specs.Prelude.{◌≡◌, true, length};
ghost use Rattle.model.specs.Model.{Model, branch_at, count, lawful, step_at, steps_of, total};

/// A model that can be asked. States, steps and branches are numbered from 0; a question about one that does not exist
/// answers 0. A question takes `&self`, so asking changes nothing.
pub trait Source {
    /// The model that the source stands for, with its two measures.
    ghost meaning: { Self → Model };

    /// n: the number of states; 0 where the source is void.
    fn states(&self) -> usize
        ensures { result ≡ count (meaning self.now) };

    /// p: no state has more steps.
    fn most_steps(&self) -> usize
        ensures { result ≡ (meaning self.now).p };

    /// z: no step has a larger total.
    fn most_total(&self) -> u32
        ensures { result ≡ (meaning self.now).z };

    /// The number of steps of a state.
    fn steps(&self, state: usize) -> usize
        ensures { result ≡ length (steps_of (meaning self.now) state) };

    /// A step's action.
    fn action(&self, state: usize, step: usize) -> u8
        ensures { result ≡ (step_at (meaning self.now) state step).action };

    /// A step's total: the sum of its weights.
    fn total(&self, state: usize, step: usize) -> u32
        ensures { result ≡ total (step_at (meaning self.now) state step) };

    /// The number of branches of a step.
    fn branches(&self, state: usize, step: usize) -> usize
        ensures { result ≡ length (step_at (meaning self.now) state step).branches };

    /// The state that a branch leads to.
    fn target(&self, state: usize, step: usize, branch: usize) -> usize
        ensures { result ≡ (branch_at (meaning self.now) state step branch).target };

    /// A branch's weight.
    fn weight(&self, state: usize, step: usize, branch: usize) -> u32
        ensures { result ≡ (branch_at (meaning self.now) state step branch).weight };

    ghost obeys: { (x : Self) → lawful (meaning x) ≡ true };
}
