// The disjoint union of two sources: the states of the one, and after them those of the other.
ghost use Rattle.std.specs.Prelude.{◌≡◌, ℕ, ◌+◌, ◌^◌, ◌<◌};
ghost use Rattle.sources.specs.Kinds.{counts_void, side_of, union, union_void};
ghost use Rattle.model.proofs.Laws.{lawful_from_parts, lawful_parts};
ghost use Rattle.sources.specs.Unions.{union_is_lawful};

use model::STATES;
use model::source::Source;

/// Two sources as one. With n1 states in the left part, its states keep their numbers, and state t of the right part
/// becomes n1 + t. It is void if a part is, or if there are more than 64 states together.
#[derive(Drop)]
pub struct Union<A, B> {
    left: A,
    right: B,
}

/// The part of a union in which a state lies, with its number there.
#[derive(Clone, Copy)]
enum Side {
    Left(usize),
    Right(usize),
}

/// Whether the union of two parts of so many states is void: one part is, or they have too many states together.
fn is_void_of(left: usize, right: usize) -> bool
    requires { left + right < 2 ^ 64 }
    ensures { result ≡ counts_void left right }
{
    left == 0 || right == 0 || left + right > STATES
}

impl<A: Source, B: Source> Union<A, B> {
    pub fn new(left: A, right: B) -> Self
        ensures left { result.left ≡ left }
        ensures right { result.right ≡ right }
    {
        Union { left, right }
    }

    /// The two parts, as they were.
    pub fn into_parts(self) -> (A, B)
        ensures left { result.0 ≡ self.left }
        ensures right { result.1 ≡ self.right }
    {
        let Union { left, right } = self;
        (left, right)
    }

    /// Whether a part is void, or the two have too many states together.
    fn is_void(&self) -> bool
        ensures { result ≡ union_void (A.meaning self.now.left) (B.meaning self.now.right) }
    {
        is_void_of(self.left.states(), self.right.states())
    }

    /// Where a state lies, if the union has it.
    // A part may be a union itself, so each is asked for its states once; the hints, here and at `ask`, let the compiler move
    // these questions in front of a caller's loop.
    #[inline(always)]
    fn locate(&self, state: usize) -> Option<Side>
        ensures { result ≡ side_of (A.meaning self.now.left) (B.meaning self.now.right) state }
    {
        let left = self.left.states();
        let right = self.right.states();
        if is_void_of(left, right) {
            None
        } else if state < left {
            Some(Side::Left(state))
        } else if state < left + right {
            Some(Side::Right(state - left))
        } else {
            None
        }
    }

    /// What the part in which a state lies answers, asked by the state's number there; without such a state, the default.
    #[inline(always)]
    fn ask<T, L, R>(&self, state: usize, left: L, right: R) -> T
    where
        T: Default,
        L: FnOnce(usize) -> T + Drop,
        R: FnOnce(usize) -> T + Drop,
        requires left { L.IsAlwaysCallable left }
        requires right { R.IsAlwaysCallable right }
        ensures nowhere { side_of (A.meaning self.now.left) (B.meaning self.now.right) state ≡ None
            → T.is_default result }
        ensures left { (s : ℕ)
            → side_of (A.meaning self.now.left) (B.meaning self.now.right) state ≡ Some (Side.Left s)
            → L.post left s result }
        ensures right { (t : ℕ)
            → side_of (A.meaning self.now.left) (B.meaning self.now.right) state ≡ Some (Side.Right t)
            → R.post right t result }
    {
        match self.locate(state) {
            Some(Side::Left(s)) => left(s),
            Some(Side::Right(t)) => right(t),
            None => T::default(),
        }
    }
}

impl<A: Source, B: Source> Source for Union<A, B> {
    ghost meaning = { λ u. union (A.meaning u.left) (B.meaning u.right) };

    ghost obeys = { λ x.
        let left = A.meaning x.left in
        let right = B.meaning x.right in
        lawful_from_parts (union left right) (union_is_lawful left right
        (lawful_parts left (A.obeys x.left)) (lawful_parts right (B.obeys x.right))) };

    // An `if` for each of three: a closure for what a union that is not void answers is no plainer.
    fn states(&self) -> usize {
        if self.is_void() {
            0
        } else {
            self.left.states() + self.right.states()
        }
    }

    fn most_steps(&self) -> usize {
        if self.is_void() {
            0
        } else {
            self.left.most_steps().max(self.right.most_steps())
        }
    }

    fn most_total(&self) -> u32 {
        if self.is_void() {
            0
        } else {
            self.left.most_total().max(self.right.most_total())
        }
    }

    fn steps(&self, state: usize) -> usize {
        self.ask(state, |s| self.left.steps(s), |t| self.right.steps(t))
    }

    fn action(&self, state: usize, step: usize) -> u8 {
        self.ask(
            state,
            |s| self.left.action(s, step),
            |t| self.right.action(t, step),
        )
    }

    fn total(&self, state: usize, step: usize) -> u32 {
        self.ask(
            state,
            |s| self.left.total(s, step),
            |t| self.right.total(t, step),
        )
    }

    fn branches(&self, state: usize, step: usize) -> usize {
        self.ask(
            state,
            |s| self.left.branches(s, step),
            |t| self.right.branches(t, step),
        )
    }

    fn target(&self, state: usize, step: usize, branch: usize) -> usize {
        self.ask(
            state,
            |s| self.left.target(s, step, branch),
            |t| {
                if branch < self.right.branches(t, step) {
                    self.left.states() + self.right.target(t, step, branch)
                } else {
                    0
                }
            },
        )
    }

    fn weight(&self, state: usize, step: usize, branch: usize) -> u32 {
        self.ask(
            state,
            |s| self.left.weight(s, step, branch),
            |t| self.right.weight(t, step, branch),
        )
    }
}
