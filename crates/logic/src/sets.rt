// Where a line holds, as a word with bit s for state s, from the words of the lines before it.
ghost use Rattle.std.specs.Prelude.{◌≡◌, ◌<◌, ◌≤◌, ◌^◌, ◌&&◌, ◌==◌, ℕ, true, slice_index};
ghost use Rattle.std.specs.List.{list_all};
ghost use Rattle.model.specs.Model.{count, step_at};
ghost use Rattle.theory.specs.Sentences.{line_holds, part_holds, set_of, share, step_to};
ghost use Rattle.logic.specs.File.{parts_of};
ghost use Rattle.logic.specs.Lines.{meant};
ghost use Rattle.logic.specs.Words.{has, sets_in, word};

use crate::line::{Line, named};
use crate::parts::Parts;
use fields::values::Values;
use model::source::Source;
use theory::Part;

/// Whether a set has a state.
pub(crate) fn contains(set: u64, state: usize) -> bool
    requires { state < 64 }
    ensures { result ≡ has set state }
{
    (set >> state) & 1 == 1
}

/// The set of all states.
fn everywhere(states: usize) -> u64
    requires { states ≤ 64 }
    ensures { result ≡ word states (λ _. true) }
{
    if states < 64 {
        (1 << states) - 1
    } else {
        u64::MAX
    }
}

/// The sets of the lines so far, each a word, among the states of a source.
#[derive(Drop)]
pub(crate) struct Sets<'a, S: Source> {
    source: &'a S,
    words: &'a [u64],

    ghost inside: { (i : ℕ) → slice_index words.now i < 2 ^ count (S.meaning source.now) },
}

impl<'a, S: Source> Sets<'a, S> {
    pub(crate) fn new(source: &'a S, words: &'a [u64]) -> Self
        requires { (i : ℕ) → slice_index words.now i < 2 ^ count (S.meaning source.now) }
        ensures { (result.source.now ≡ source.now) × (result.words.now ≡ words.now) }
    {
        Sets { source, words }
    }

    /// The set of a line that is named.
    fn named(&self, line: u16) -> u64
        ensures { let m = S.meaning self.now.source.now in
            result ≡ word (count m) (set_of (sets_in self.now.words.now) line) }
    {
        named(self.words, line, 0)
    }

    /// How much of a step's weight goes to a set.
    // One closure tests and weighs: a `filter` in front of a `map` takes up to twice as long.
    fn share(&self, state: usize, step: usize, set: u64) -> u32
        ensures { result ≡ share (has set) (step_at (S.meaning self.now.source.now) state step) }
    {
        (0..self.source.branches(state, step))
            .map(|branch| {
                if contains(set, self.source.target(state, step, branch)) {
                    self.source.weight(state, step, branch)
                } else {
                    0
                }
            })
            .sum()
    }

    /// Whether at least k of m of a step's weight goes to the set of the part's line.
    fn part_holds(&self, state: usize, step: usize, part: Part) -> bool
        ensures { let a = step_at (S.meaning self.now.source.now) state step in
            result ≡ part_holds (sets_in self.now.words.now) a part }
    {
        let share = self.share(state, step, self.named(part.line));
        let total = self.source.total(state, step);
        u64::from(share) * u64::from(part.m) >= u64::from(part.k) * u64::from(total)
    }

    /// Whether a step is one of the action, and every part holds of it.
    fn passes(&self, state: usize, step: usize, action: u8, mut parts: Values<Parts>) -> bool
        ensures { let a = step_at (S.meaning self.now.source.now) state step in
            result ≡ ((a.action == action)
            && list_all (part_holds (sets_in self.now.words.now) a) (parts_of parts.entry.bytes.now)) }
    {
        self.source.action(state, step) == action
            && parts.all(|part| self.part_holds(state, step, part))
    }

    /// Whether a state has a step of the action of which every part holds.
    fn takes(&self, state: usize, action: u8, parts: Values<Parts>) -> bool
        ensures { let m = S.meaning self.now.source.now in
            let line = step_to action (parts_of parts.entry.bytes.now) in
            result ≡ line_holds m (sets_in self.now.words.now) line state }
    {
        (0..self.source.steps(state)).any(|step| self.passes(state, step, action, parts))
    }

    /// The states with such a step.
    fn takers(&self, action: u8, parts: Values<Parts>) -> u64
        ensures { let m = S.meaning self.now.source.now in
            let line = step_to action (parts_of parts.entry.bytes.now) in
            result ≡ word (count m) (line_holds m (sets_in self.now.words.now) line) }
    {
        (0..self.source.states())
            .filter(|state| self.takes(*state, action, parts))
            .fold(0, |set, state| set | 1 << state)
    }

    /// Where a line holds.
    pub(crate) fn of_line(&self, line: Line) -> u64
        ensures { let m = S.meaning self.now.source.now in
            result ≡ word (count m) (line_holds m (sets_in self.now.words.now) (meant line.entry)) }
    {
        let all = everywhere(self.source.states());
        match line {
            Line::Not(line) => all ^ self.named(line),
            Line::All(lines) => lines.fold(all, |set, line| set & self.named(line)),
            Line::Any(lines) => lines.fold(0, |set, line| set | self.named(line)),
            Line::Step(action, parts) => self.takers(action, parts),
        }
    }
}
