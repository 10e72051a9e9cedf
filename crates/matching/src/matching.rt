// Whether two steps match.
ghost use Rattle.std.specs.Prelude.{◌≡◌};
ghost use Rattle.theory.specs.Matching.{matches};
ghost use Rattle.matching.specs.Answers.{is_matched, Answers};
ghost use Rattle.matching.specs.Steps.{meaning};

use crate::flow::Flow;
use crate::relation::Relation;
use crate::step::HeldStep;
use crate::task::Task;

mod answer;

pub use answer::Matching;

/// Matches the left step with the right one, whose targets the relation is asked about, and shows what was found: the weights, or
/// the cut, where the actions are equal.
pub fn solve<R: Relation>(left: &HeldStep, right: &HeldStep, relation: &R) -> Matching
    ensures verdict { is_matched result ≡ matches (R.pairs relation.now) (meaning left.now) (meaning right.now) }
    ensures answer { Answers (R.pairs relation.now) (meaning left.now) (meaning right.now) result }
{
    if left.action != right.action {
        return Matching::Apart;
    }
    let mut flow = Flow::new(Task::new(left, right, relation));
    let marks = flow.settle();
    if flow.is_spent() {
        Matching::Matched(flow.amounts)
    } else {
        Matching::Cut(marks.rows)
    }
}
