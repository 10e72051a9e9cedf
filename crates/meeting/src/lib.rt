// Which steps of two states match under a relation, and whether the states meet.
#![tactic(auto)]

pub mod meeting;
