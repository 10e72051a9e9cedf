// A step with its branches in place, which can be matched.
ghost use Rattle.std.specs.Prelude.{◌≡◌, ◌==◌, []};
ghost use Rattle.std.specs.List.{list_all};
ghost use Rattle.std.specs.Result.{result_err};
ghost use Rattle.model.specs.Model.{step_at};
ghost use Rattle.matching.specs.Steps.{grown, meaning, refusal, rises_above};

use model::source::Source;
use model::{Branch, STATES};

mod held;

pub use held::{HeldStep, Refusal};

/// The largest total of a step.
const MOST_TOTAL: u32 = 1_000_000_000;

impl HeldStep {
    /// A step without branches.
    pub fn new(action: u8) -> HeldStep
        ensures { meaning result ≡ record { action = action; branches = [] } }
    {
        HeldStep {
            action,
            weights: [0; STATES],
            total: 0,
        }
    }

    /// Adds a branch as the last one, or says why it may not be added and leaves the step as it was.
    pub fn push(&mut self, branch: Branch) -> Result<(), Refusal>
        ensures answer { result_err result ≡ refusal (meaning self.old) branch }
        ensures step { meaning self.new ≡ grown (meaning self.old) branch }
    {
        let target = usize::from(branch.target);
        if !self.is_free_from(target) {
            return Err(Refusal::Target);
        }
        if branch.weight == 0 {
            return Err(Refusal::Weight);
        }
        if branch.weight > MOST_TOTAL - self.total {
            return Err(Refusal::Total);
        }
        self.weights[target] = branch.weight;
        self.total += branch.weight;
        Ok(())
    }

    /// Whether a target is a state's number and above those of the branches.
    fn is_free_from(&self, target: usize) -> bool
        ensures { result ≡ rises_above (meaning self.now) target }
    {
        target < STATES && are_zero(&self.weights[target..])
    }

    /// The step of a source; where it does not exist, one of action 0 without branches.
    pub fn of_source<S: Source>(source: &S, state: usize, step: usize) -> HeldStep
        ensures { meaning result ≡ step_at (S.meaning source.now) state step }
    {
        let mut held = HeldStep::new(source.action(state, step));
        for place in 0..source.branches(state, step) {
            // A state is below 64, so nothing is lost; `try_from` would add a case that never comes.
            let branch = Branch {
                target: source.target(state, step, place) as u8,
                weight: source.weight(state, step, place),
            };
            let added = held.push(branch).is_ok();
            prove!(added);
        }
        held
    }
}

/// Whether all of some weights are 0.
fn are_zero(weights: &[u32]) -> bool
    ensures { result ≡ list_all (λ w. w == 0) weights.now }
{
    weights.iter().all(|weight| *weight == 0)
}
