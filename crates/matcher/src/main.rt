// Reads pairs of steps with a relation each from standard input, and says of each pair whether the left step matches the right
// one; with the argument `time`, says how many nanoseconds matching them all took.
#![tactic(auto)]

mod instance;
mod words;

use anyhow::anyhow;
use instance::{Bytes, Instance};
use matching::matching::Matching;
use model::STATES;
use std::io::Read;
use std::rt::Clock;
use std::time::Instant;
use std::{env, io};

fn list_cut(rt: &impl Print, cut: &[bool; STATES]) -> io::Result<()> {
    print!(rt; "cut")?;
    for target in (0..STATES).filter(|target| cut[*target]) {
        print!(rt; " {target}")?;
    }
    println!(rt)
}

fn list_answer(rt: &impl Print, answer: &Matching) -> io::Result<()> {
    match answer {
        Matching::Matched(_) => println!(rt; "matched"),
        Matching::Cut(cut) => list_cut(rt, cut),
        Matching::Apart => println!(rt; "apart"),
    }
}

/// One line for each instance.
fn list(rt: &impl Print, instances: &[Instance]) -> io::Result<()> {
    for instance in instances {
        list_answer(rt, &instance.answer())?;
    }
    Ok(())
}

/// How long the answers take, all together.
fn nanoseconds(rt: &impl Clock, instances: &[Instance]) -> io::Result<u128> {
    let mut total = 0u128;
    for instance in instances {
        let start = Instant::now(rt)?;
        let _answer = instance.answer();
        total = total.saturating_add(start.elapsed(rt)?.as_nanos());
    }
    Ok(total)
}

fn main(rt: HostRuntime) -> anyhow::Result<()> {
    let mut input = Vec::new(rt.alloc());
    rt.stdin().read_to_end(&mut input)?;
    let instances = Bytes::of(input.as_slice()).instances(rt.alloc())?;
    let mut arguments = env::args(&rt)?;
    let _program = arguments.next();
    match arguments.next() {
        None => list(&rt, instances.as_slice())?,
        Some(word) if word.as_str() == "time" => {
            let total = nanoseconds(&rt, instances.as_slice())?;
            println!(rt; "{total}")?;
        }
        Some(_) => return Err(anyhow!("matcher takes no argument, or time")),
    }
    Ok(())
}
