// Models of machines that draw lots, and the trait of the sources that answer questions about one.
#![tactic(auto)]

pub mod source;

/// The most states of a model.
pub const STATES: usize = 64;

/// The number of actions: each action is below it.
pub const ACTIONS: u8 = 32;

/// A branch of a step: the state that it leads to, and its weight.
#[derive(Clone, Copy, Debug, Default, PartialEq, Eq)]
pub struct Branch {
    pub target: u8,
    pub weight: u32,
}
