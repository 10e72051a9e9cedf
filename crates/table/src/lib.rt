// The table: a source in fixed memory of its own, which a model file fills.
#![tactic(auto)]

mod bytes;
pub mod format;
mod new_step;
mod row;
pub mod table;
pub mod worked;
