// Two kinds of sources: the ladder, and the disjoint union of any two sources.
#![tactic(auto)]

pub mod disjoint;
pub mod ladder;
