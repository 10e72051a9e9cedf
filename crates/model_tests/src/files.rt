// Model files that are too long to write out.
use std::alloc::{AllocError, Global};

/// Adds a step of `state`, by action 0, with `count` branches to the states from 0 on; the first has weight `first`, the
/// others weight 1.
pub(crate) fn add_step(
    file: &mut Vec<u8>,
    state: u8,
    count: u8,
    first: u16,
) -> Result<(), AllocError> {
    let length = 2 + 3 * u16::from(count);
    file.extend_from_slice(&[0x02])?;
    file.extend_from_slice(&length.to_be_bytes())?;
    file.extend_from_slice(&[state, 0])?;
    for target in 0..count {
        let weight = if target == 0 { first } else { 1 };
        file.push(target)?;
        file.extend_from_slice(&weight.to_be_bytes())?;
    }
    Ok(())
}

/// A file of `states` states, in which the first `sources` have `steps` steps each, each step with `branches` branches of
/// weight 1.
pub(crate) fn full_file(
    heap: Global,
    states: u8,
    sources: u8,
    steps: u8,
    branches: u8,
) -> Result<Vec<u8>, AllocError> {
    let mut file = Vec::new(heap);
    file.extend_from_slice(&[0x01, 0, 1, states])?;
    for state in 0..sources {
        for _ in 0..steps {
            add_step(&mut file, state, branches, 1)?;
        }
    }
    Ok(file)
}
