// Reads a model file from standard input and lists the model that it holds, or says what is wrong with it and where.
#![tactic(auto)]

use anyhow::anyhow;
use fields::fault::FileFault;
use model::source::Source;
use std::io;
use std::io::Read;
use table::table::Table;

/// One line for a step: its state, its number, its action, its total and its branches.
fn list_step<S: Source>(rt: &impl Print, source: &S, state: usize, step: usize) -> io::Result<()> {
    let action = source.action(state, step);
    let total = source.total(state, step);
    print!(rt; "step {state} {step} action {action} total {total} to")?;
    for branch in 0..source.branches(state, step) {
        let target = source.target(state, step, branch);
        let weight = source.weight(state, step, branch);
        print!(rt; " {target}:{weight}")?;
    }
    println!(rt)
}

fn list_state<S: Source>(rt: &impl Print, source: &S, state: usize) -> io::Result<()> {
    for step in 0..source.steps(state) {
        list_step(rt, source, state, step)?;
    }
    Ok(())
}

/// The measures of a source, and then a line for each step of each state.
fn list<S: Source>(rt: &impl Print, source: &S) -> io::Result<()> {
    let states = source.states();
    let steps = source.most_steps();
    let total = source.most_total();
    println!(rt; "states {states}")?;
    println!(rt; "steps {steps}")?;
    println!(rt; "total {total}")?;
    for state in 0..states {
        list_state(rt, source, state)?;
    }
    Ok(())
}

/// Says what is wrong with a file, and ends with an error.
fn report(rt: &impl Print, fault: FileFault) -> anyhow::Result<()> {
    println!(rt; "fault {fault}")?;
    Err(anyhow!("the file has a fault"))
}

fn main(rt: HostRuntime) -> anyhow::Result<()> {
    let mut input = Vec::new(rt.alloc());
    rt.stdin().read_to_end(&mut input)?;
    let mut table = Table::new();
    match table.read(input.as_slice()) {
        Ok(()) => Ok(list(&rt, &table)?),
        Err(fault) => report(&rt, fault),
    }
}

#[cfg(test)]
mod tests {
    use super::*;
    use sources::disjoint::Union;
    use sources::ladder::Ladder;

    // The same code lists every kind of source.
    #[test]
    fn a_union_of_ladders_is_listed(rt: HostRuntime) {
        let both = Union::new(Ladder::new(3, 1, 2, 1), Ladder::new(2, 1, 1, 1));
        assert!(rt; list(&rt, &both).is_ok());
    }
}
