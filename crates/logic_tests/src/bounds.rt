use crate::refusals::refused_over;
use crate::verdicts::judged;
use fields::fault::FileFault;
use fields::field::Rule;
use logic::fault::{JudgeFault, Verdict};
use logic::format::{LineKind, SentenceField};
use logic::judge::judge;
use sources::ladder::Ladder;
use std::alloc::{AllocError, Global};
use std::process::Abort;
use std::test::Fail;

/// That by action 1 at least k of m goes to where action 1 is possible.
fn at_least(k: u32, m: u32) -> [u8; 18] {
    let [k3, k2, k1, k0] = k.to_be_bytes();
    let [m3, m2, m1, m0] = m.to_be_bytes();
    [
        0x14, 0, 1, 1, 0x14, 0, 11, 1, 0, 1, k3, k2, k1, k0, m3, m2, m1, m0,
    ]
}

fn holds_in(rt: &impl Abort, k: u32, m: u32, set: u64) -> Result<(), Fail> {
    judged(rt, &at_least(k, m), &mut [0; 2], Verdict { set, depth: 2 })
}

fn refused(rt: &impl Abort, k: u32, m: u32) -> Result<(), Fail> {
    refused_over(rt, &at_least(k, m), [0; 2], 4, 4)
}

// 1 of 2 goes there from state 0, and 1 of 3 from state 2.
#[test]
fn shares_at_their_edges(rt: HostRuntime) -> Result<(), Fail> {
    holds_in(&rt, 0, 1, 0b0101)?;
    holds_in(&rt, 1, 3, 0b0101)?;
    holds_in(&rt, 1, 2, 0b0001)?;
    holds_in(&rt, 333_333_333, 1_000_000_000, 0b0101)?;
    holds_in(&rt, 333_333_334, 1_000_000_000, 0b0001)?;
    holds_in(&rt, 500_000_000, 1_000_000_000, 0b0001)?;
    holds_in(&rt, 500_000_001, 1_000_000_000, 0)?;
    holds_in(&rt, 1, 1, 0)?;
    holds_in(&rt, 1_000_000_000, 1_000_000_000, 0)
}

#[test]
fn shares_outside_their_range(rt: HostRuntime) -> Result<(), Fail> {
    refused(&rt, 0, 0)?;
    refused(&rt, 1, 0)?;
    refused(&rt, 2, 1)?;
    refused(&rt, 1_000_000_000, 999_999_999)?;
    refused(&rt, 0, 1_000_000_001)?;
    refused(&rt, u32::MAX, u32::MAX)
}

#[test]
fn actions_at_their_edge(rt: HostRuntime) {
    let source = Ladder::new(2, 31, 1, 1);
    let mut words = [0; 1];
    assert!(rt; judge(&source, &[0x14, 0, 1, 31], &mut words).is_ok());
    assert_eq!(rt; words, [1]);
    assert_eq!(rt;
        judge(&source, &[0x14, 0, 1, 32], &mut words),
        Err(JudgeFault::File(FileFault::Number(0)))
    );
}

/// A sentence of empty lines.
fn empty_lines(heap: Global, count: usize) -> Result<Vec<u8>, AllocError> {
    let mut file = Vec::new(heap);
    for _ in 0..count {
        file.extend_from_slice(&[0x12, 0, 0])?;
    }
    Ok(file)
}

// 4,095 lines are judged, the last one naming the one before it; a 4,096th is refused where it begins, unless its numbers
// are wrong.
#[test]
fn the_number_of_lines(rt: HostRuntime) -> Result<(), Fail> {
    let source = Ladder::new(2, 1, 1, 1);
    let mut words = vec![in rt.alloc(); 9u64; 4096]?;
    let mut file = empty_lines(rt.alloc(), 4094)?;
    file.extend_from_slice(&[0x11, 0, 2, 0x0f, 0xfe])?;
    assert_eq!(rt;
        judge(&source, file.as_slice(), words.as_mut_slice()),
        Ok(Verdict { set: 0, depth: 0 })
    );
    assert_eq!(rt; words.last().copied(), Some(9));
    let mut more = empty_lines(rt.alloc(), 4096)?;
    assert_eq!(rt;
        judge(&source, more.as_slice(), words.as_mut_slice()),
        Err(JudgeFault::File(FileFault::Limit(12285)))
    );
    more.truncate(12285);
    more.extend_from_slice(&[0x11, 0, 2, 0x10, 0])?;
    assert_eq!(rt;
        judge(&source, more.as_slice(), words.as_mut_slice()),
        Err(JudgeFault::File(FileFault::Number(12285)))
    );
    Ok(())
}

// A chain of steps is as deep as it is long.
#[test]
fn depth_grows_by_one_with_each_step(rt: HostRuntime) -> Result<(), Fail> {
    let source = Ladder::new(2, 1, 1, 1);
    let mut words = vec![in rt.alloc(); 0u64; 4095]?;
    let mut file = Vec::new(rt.alloc());
    file.extend_from_slice(&[0x14, 0, 1, 1])?;
    for line in 1..4095u16 {
        let [high, low] = line.to_be_bytes();
        file.extend_from_slice(&[0x14, 0, 11, 1, high, low, 0, 0, 0, 1, 0, 0, 0, 2])?;
    }
    assert_eq!(rt;
        judge(&source, file.as_slice(), words.as_mut_slice()),
        Ok(Verdict {
            set: 1,
            depth: 4095,
        })
    );
    Ok(())
}

#[test]
fn lengths_go_by_tags(rt: HostRuntime) {
    assert!(rt; SentenceField.allows(0x11, 2) && !SentenceField.allows(0x11, 4));
    assert!(rt; SentenceField.allows(0x13, 0) && !SentenceField.allows(0x13, 1));
    assert!(rt; SentenceField.allows(0x14, 21) && !SentenceField.allows(0x14, 20));
    assert!(rt; SentenceField.allows(0x20, 4) && !SentenceField.allows(0x20, 3));
    assert_eq!(rt; SentenceField::tag(LineKind::Step), 0x14);
}
