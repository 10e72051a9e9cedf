// How deep a line is, from the depths of the lines before it.
ghost use Rattle.std.specs.Prelude.{◌≡◌, ◌<◌};
ghost use Rattle.std.specs.List.{AllByRecursion};
ghost use Rattle.theory.specs.Sentences.{line_depth};
ghost use Rattle.logic.specs.Lines.{meant};

use crate::line::{Line, named};

impl Line<'_> {
    /// The depth of the line.
    pub(crate) fn depth(self, depths: &[u16]) -> u16
        requires { AllByRecursion (λ d. d < 65535) depths.now }
        ensures { result ≡ line_depth depths.now (meant self.entry) }
    {
        match self {
            Line::Not(line) => named(depths, line, 0),
            Line::All(lines) | Line::Any(lines) => lines
                .map(|line| named(depths, line, 0))
                .max()
                .unwrap_or(0),
            Line::Step(_, parts) => {
                let deepest = parts.map(|part| named(depths, part.line, 0)).max();
                deepest.unwrap_or(0) + 1
            }
        }
    }
}
