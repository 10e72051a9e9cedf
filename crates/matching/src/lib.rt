// Whether two steps match under a relation of their targets, with a weight function where they do and the cut where they do
// not.
#![tactic(auto)]

mod flow;
mod marks;
pub mod matching;
pub mod relation;
mod search;
pub mod step;
mod task;
