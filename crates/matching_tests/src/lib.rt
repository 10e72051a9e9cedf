// Tests of matching: worked examples, large steps, each refusal of a branch, steps of a source; which states meet.
#![tactic(auto)]

#[cfg(test)]
mod large;
#[cfg(test)]
mod meetings;
#[cfg(test)]
mod small;
#[cfg(test)]
mod steps;
