// Files are made of fields: a one-byte tag, a two-byte length with the high byte first, and a value of that length.
#![tactic(auto)]

pub mod fault;
pub mod field;
pub mod file;
pub mod values;
