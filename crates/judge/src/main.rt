// Judges the sentence on standard input in the model of a file, and lists where each line holds and how deep it is.
#![tactic(auto)]

use anyhow::anyhow;
use fields::file::Fields;
use logic::fault::{JudgeFault, Verdict};
use logic::format::{LINES, SentenceField};
use logic::judge::judge;
use std::io::Read;
use std::{env, fs, io};
use table::table::Table;

/// The depth of a line, and the states where it holds.
fn list_verdict(rt: &impl Print, verdict: Verdict) -> io::Result<()> {
    let depth = verdict.depth;
    print!(rt; "depth {depth} states")?;
    for state in (0..64).filter(|state| verdict.holds_in(*state)) {
        print!(rt; " {state}")?;
    }
    println!(rt)
}

/// Each line in turn: the lines up to one are a sentence that ends with it.
fn list_lines(rt: &impl Print, table: &Table, bytes: &[u8], words: &mut [u64]) -> io::Result<()> {
    for (before, field) in Fields::of(SentenceField, bytes).enumerate() {
        let Ok(field) = field else {
            return Ok(());
        };
        let end = bytes.len().saturating_sub(field.rest.len());
        let Ok(verdict) = judge(table, &bytes[..end], words) else {
            return Ok(());
        };
        let line = before + 1;
        print!(rt; "line {line} ")?;
        list_verdict(rt, verdict)?;
    }
    Ok(())
}

/// Says what is wrong, and where if it is wrong somewhere in the sentence's file, and ends with an error.
fn report(rt: &impl Print, fault: JudgeFault) -> anyhow::Result<()> {
    match fault {
        JudgeFault::File(fault) => println!(rt; "sentence fault {fault}")?,
        JudgeFault::Void | JudgeFault::Words => println!(rt; "fault {fault}")?,
    }
    Err(anyhow!("the sentence is not judged"))
}

fn list(rt: &HostRuntime, table: &Table, sentence: &[u8]) -> anyhow::Result<()> {
    let mut words = vec![in rt.alloc(); 0u64; LINES]?;
    match judge(table, sentence, words.as_mut_slice()) {
        Ok(verdict) => {
            list_lines(rt, table, sentence, words.as_mut_slice())?;
            print!(rt; "sentence ")?;
            Ok(list_verdict(rt, verdict)?)
        }
        Err(fault) => report(rt, fault),
    }
}

fn main(rt: HostRuntime) -> anyhow::Result<()> {
    let mut arguments = env::args(&rt)?;
    let _program = arguments.next();
    let Some(path) = arguments.next() else {
        return Err(anyhow!("judge takes the path of a model file"));
    };
    let model = fs::read(&rt, path.as_str())?;
    let mut sentence = Vec::new(rt.alloc());
    rt.stdin().read_to_end(&mut sentence)?;
    let mut table = Table::new();
    match table.read(model.as_slice()) {
        Ok(()) => list(&rt, &table, sentence.as_slice()),
        Err(fault) => {
            println!(rt; "model fault {fault}")?;
            Err(anyhow!("the model file has a fault"))
        }
    }
}
