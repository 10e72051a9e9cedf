// A source together with a relation between its states.
ghost use Rattle.std.specs.Prelude.{◌≡◌};
ghost use Rattle.std.specs.List.{list_all};
ghost use Rattle.model.specs.Model.{step_at, steps_of};
ghost use Rattle.theory.specs.Matching.{matches};
ghost use Rattle.theory.specs.Stages.{met};
ghost use Rattle.matching.specs.Steps.{meaning};
ghost use Rattle.meeting.specs.Steps.{first_match, first_unmatched, is_led};

use matching::matching::{Matching, solve};
use matching::relation::Relation;
use matching::step::HeldStep;
use model::source::Source;

/// A source, and the relation of its states under which steps are matched.
#[derive(Drop)]
pub struct Meeting<'a, S, R> {
    pub source: &'a S,
    pub relation: &'a R,
}

impl<S: Source, R: Relation> Meeting<'_, S, R> {
    /// Whether one step matches another.
    fn is_match(&self, left: &HeldStep, right: &HeldStep) -> bool
        ensures { result ≡ matches (R.pairs self.now.relation.now) (meaning left.now) (meaning right.now) }
    {
        matches!(solve(left, right, self.relation), Matching::Matched(_))
    }

    fn step(&self, state: usize, step: usize) -> HeldStep
        ensures { meaning result ≡ step_at (S.meaning self.now.source.now) state step }
    {
        HeldStep::of_source(self.source, state, step)
    }

    /// The first step of t that step i of s matches.
    pub fn first_match(&self, s: usize, i: usize, t: usize) -> Option<usize>
        ensures { result ≡ first_match (S.meaning self.now.source.now) (R.pairs self.now.relation.now) s i t }
    {
        let left = self.step(s, i);
        (0..self.source.steps(t)).position(|j| self.is_match(&left, &self.step(t, j)))
    }

    /// The first step of s that matches no step of t.
    pub fn first_unmatched(&self, s: usize, t: usize) -> Option<usize>
        ensures { result ≡ first_unmatched (S.meaning self.now.source.now) (R.pairs self.now.relation.now) s t }
    {
        'moves: for i in 0..self.source.steps(s) {
            let left = self.step(s, i);
            for j in 0..self.source.steps(t) {
                if self.is_match(&left, &self.step(t, j)) {
                    continue 'moves;
                }
            }
            return Some(i);
        }
        None
    }

    /// Whether some step of s matches this one.
    fn is_led(&self, s: usize, right: &HeldStep) -> bool
        ensures { result ≡ is_led (S.meaning self.now.source.now) (R.pairs self.now.relation.now) s (meaning right.now) }
    {
        (0..self.source.steps(s)).any(|i| self.is_match(&self.step(s, i), right))
    }

    /// Whether each step of t is matched by some step of s.
    fn are_led(&self, s: usize, t: usize) -> bool
        ensures { result ≡ list_all (is_led (S.meaning self.now.source.now) (R.pairs self.now.relation.now) s) (steps_of (S.meaning self.now.source.now) t) }
    {
        (0..self.source.steps(t)).all(|j| self.is_led(s, &self.step(t, j)))
    }

    /// Whether s and t meet: each step of s matches some step of t, and each step of t is matched by some step of s.
    pub fn is_met(&self, s: usize, t: usize) -> bool
        ensures { result ≡ met (S.meaning self.now.source.now) (R.pairs self.now.relation.now) s t }
    {
        self.first_unmatched(s, t).is_none() && self.are_led(s, t)
    }
}
