// Relations of targets that can be asked.
ghost use Rattle.std.specs.Prelude.{◌≡◌, ℕ, Bool, ◌&&◌, ◌==◌};
ghost use Rattle.std.specs.List.{list_any};

/// A relation between the targets of one step and those of another.
pub trait Relation {
    /// The pairs that stand in it.
    ghost pairs: { Self → ℕ → ℕ → Bool };

    /// Whether u stands to v.
    fn relates(&self, u: usize, v: usize) -> bool
        ensures { result ≡ pairs self.now u v };
}

/// The relation of the pairs in a list.
#[derive(Clone, Copy)]
pub struct Pairs<'a> {
    pub list: &'a [(usize, usize)],
}

impl Relation for Pairs<'_> {
    ghost pairs = { λ r u v. list_any (λ p. (p.0 == u) && (p.1 == v)) r.list.now };

    fn relates(&self, u: usize, v: usize) -> bool {
        self.list
            .iter()
            .any(|(first, second)| *first == u && *second == v)
    }
}
