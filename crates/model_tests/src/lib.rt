// Tests of the sources and of the model file: worked examples, each bound at its edge, each refusal.
#![tactic(auto)]

#[cfg(test)]
mod absent;
#[cfg(test)]
mod files;
#[cfg(test)]
mod ladders;
#[cfg(test)]
mod refusals;
#[cfg(test)]
mod tables;
#[cfg(test)]
mod unions;
