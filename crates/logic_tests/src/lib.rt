// Tests of sentence files and of the judge: the worked sentence, each bound at its edge, each refusal.
#![tactic(auto)]

#[cfg(test)]
mod bounds;
#[cfg(test)]
mod refusals;
#[cfg(test)]
mod verdicts;
