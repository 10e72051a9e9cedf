// The ladder: a retry scheme in which each miss leads one state further and each success back to the start.
ghost use Rattle.std.specs.Prelude.{◌≡◌};
ghost use Rattle.sources.specs.Kinds.{fits, has, ladder, ladder_of};
ghost use Rattle.model.proofs.Laws.{lawful_from_parts};
ghost use Rattle.sources.specs.Ladders.{ladder_is_lawful};

use model::source::Source;
use model::{ACTIONS, STATES};

/// The largest total of a ladder's step; a file has a limit of its own, which is another rule.
const TOTAL: u32 = 30_000;

/// A ladder of states: each but the last has one step, with weight `ok` to state 0 and weight `miss` to the next state.
#[derive(Drop)]
pub struct Ladder {
    states: usize,
    action: u8,
    ok: u32,
    miss: u32,
}

impl Ladder {
    /// The ladder of these numbers. It is void unless there are 1 to 64 states, the action is below 32, both weights are
    /// at least 1 and their sum is at most 30,000.
    pub fn new(states: usize, action: u8, ok: u32, miss: u32) -> Self
        ensures { ladder_of result ≡ ladder states action ok miss }
    {
        Ladder {
            states,
            action,
            ok,
            miss,
        }
    }

    /// Whether the ladder is not void.
    fn fits(&self) -> bool
        ensures { result ≡ fits self.now }
    {
        (1..=STATES).contains(&self.states)
            && self.action < ACTIONS
            && 1 <= self.ok
            && 1 <= self.miss
            && self
                .ok
                .checked_add(self.miss)
                .is_some_and(|total| total <= TOTAL)
    }

    /// Whether the state has this step: a ladder's states have step 0 alone, and the last has none.
    fn has(&self, state: usize, step: usize) -> bool
        ensures { result ≡ has self.now state step }
    {
        self.fits() && state < self.states - 1 && step == 0
    }
}

// What a ladder does not have answers 0 by an `if`: `then_some(x).unwrap_or(0)` is no plainer.
impl Source for Ladder {
    ghost meaning = { ladder_of };

    ghost obeys = { λ x. lawful_from_parts _ (ladder_is_lawful x) };

    #[tactic(auto, using(crate::specs::Ladders::count_is))]
    fn states(&self) -> usize {
        if self.fits() { self.states } else { 0 }
    }

    #[tactic(auto, using(crate::specs::Ladders::most_steps_is))]
    fn most_steps(&self) -> usize {
        self.steps(0)
    }

    #[tactic(auto, using(crate::specs::Ladders::most_total_is))]
    fn most_total(&self) -> u32 {
        self.total(0, 0)
    }

    #[tactic(auto, using(crate::specs::Ladders::steps_are))]
    fn steps(&self, state: usize) -> usize {
        if self.has(state, 0) { 1 } else { 0 }
    }

    #[tactic(auto, using(crate::specs::Ladders::action_is))]
    fn action(&self, state: usize, step: usize) -> u8 {
        if self.has(state, step) {
            self.action
        } else {
            0
        }
    }

    #[tactic(auto, using(crate::specs::Ladders::total_is))]
    fn total(&self, state: usize, step: usize) -> u32 {
        if self.has(state, step) {
            self.ok + self.miss
        } else {
            0
        }
    }

    #[tactic(auto, using(crate::specs::Ladders::branches_are))]
    fn branches(&self, state: usize, step: usize) -> usize {
        if self.has(state, step) { 2 } else { 0 }
    }

    #[tactic(auto, using(crate::specs::Ladders::target_is))]
    fn target(&self, state: usize, step: usize, branch: usize) -> usize {
        if self.has(state, step) && branch == 1 {
            state + 1
        } else {
            0
        }
    }

    #[tactic(auto, using(crate::specs::Ladders::weight_is))]
    fn weight(&self, state: usize, step: usize, branch: usize) -> u32 {
        if !self.has(state, step) {
            return 0;
        }
        match branch {
            0 => self.ok,
            1 => self.miss,
            _ => 0,
        }
    }
}
