// Instances, and how they lie in bytes: the left step, the right step and the relation. A step is its action, the number of its
// branches, and the target and the four bytes of the weight of each; the relation is 64 words of eight bytes, each with the high
// byte first.

use crate::words::Words;
use anyhow::{Result, anyhow};
use matching::matching::{Matching, solve};
use matching::step::HeldStep;
use model::{Branch, STATES};
use std::alloc::Global;

/// Two steps, and a relation between their targets.
#[derive(Clone, Copy)]
pub struct Instance {
    left: HeldStep,
    right: HeldStep,
    related: Words,
}

impl Instance {
    pub(crate) fn answer(&self) -> Matching {
        solve(&self.left, &self.right, &self.related)
    }
}

/// Bytes that are still to be read.
#[derive(Clone, Copy)]
pub struct Bytes<'a> {
    rest: &'a [u8],
}

impl<'a> Bytes<'a> {
    pub(crate) fn of(bytes: &'a [u8]) -> Self {
        Bytes { rest: bytes }
    }

    /// The next bytes, as many as are asked for.
    fn take<const N: usize>(&mut self) -> Result<[u8; N]> {
        let Some((front, rest)) = self.rest.split_first_chunk::<N>() else {
            return Err(anyhow!("the input ends within an instance"));
        };
        self.rest = rest;
        Ok(*front)
    }

    fn branch(&mut self) -> Result<Branch> {
        let [target] = self.take::<1>()?;
        let weight = u32::from_be_bytes(self.take::<4>()?);
        Ok(Branch { target, weight })
    }

    fn step(&mut self) -> Result<HeldStep> {
        let [action, branches] = self.take::<2>()?;
        let mut step = HeldStep::new(action);
        for _ in 0..branches {
            if let Err(refusal) = step.push(self.branch()?) {
                return Err(anyhow!("a branch may not be added: {refusal:?}"));
            }
        }
        Ok(step)
    }

    fn words(&mut self) -> Result<Words> {
        let mut words = [0; STATES];
        for place in 0..STATES {
            words[place] = u64::from_be_bytes(self.take::<8>()?);
        }
        Ok(Words(words))
    }

    fn instance(&mut self) -> Result<Instance> {
        let left = self.step()?;
        let right = self.step()?;
        let related = self.words()?;
        Ok(Instance {
            left,
            right,
            related,
        })
    }

    /// All the instances, to the end of the bytes.
    pub(crate) fn instances(mut self, alloc: Global) -> Result<Vec<Instance>> {
        let mut instances = Vec::new(alloc);
        // An instance has a byte at least, so there are no more than bytes.
        for _ in 0..self.rest.len() {
            if self.rest.is_empty() {
                break;
            }
            instances.push(self.instance()?)?;
        }
        Ok(instances)
    }
}
