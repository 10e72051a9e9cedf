// Sentences in files, and the judge, who says where a sentence holds and how deep it is.
#![tactic(auto)]

mod depths;
pub mod fault;
pub mod format;
pub mod judge;
mod line;
mod parts;
mod sets;
pub mod worked;
