// What every source answers of what it does not have.
use model::source::Source;
use std::process::Abort;

/// Sees 0 answered of a state `far` off, of step `far` of a state, and of branch `far` of its step 0.
pub(crate) fn answers_0<S: Source>(rt: &impl Abort, source: &S, state: usize, far: usize) {
    assert_eq!(rt; source.steps(far), 0);
    assert_eq!(rt; source.action(far, 0), 0);
    assert_eq!(rt; source.total(state, far), 0);
    assert_eq!(rt; source.branches(state, far), 0);
    assert_eq!(rt; source.target(state, 0, far), 0);
    assert_eq!(rt; source.weight(state, 0, far), 0);
}
