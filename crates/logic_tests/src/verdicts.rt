use logic::fault::{JudgeFault, Verdict};
use logic::judge::judge;
use logic::worked::fair_sentence;
use sources::disjoint::Union;
use sources::ladder::Ladder;
use std::process::Abort;
use std::test::Fail;
use table::table::Table;

/// States 0 to 3: 0 goes by action 1 with weights 1, 1 to 0, 1, and 2 with weights 1, 2 to 2, 3.
const TWO_COINS: [u8; 26] = [
    0x01, 0, 1, 4, 0x02, 0, 8, 0, 1, 0, 0, 1, 1, 0, 1, 0x02, 0, 8, 2, 1, 2, 0, 1, 3, 0, 2,
];

/// Judges a sentence in the two coins, over some words.
fn in_coins(rt: &impl Abort, sentence: &[u8], words: &mut [u64]) -> Result<Verdict, JudgeFault> {
    let mut coins = Table::new();
    assert!(rt; coins.read(&TWO_COINS).is_ok());
    judge(&coins, sentence, words)
}

/// Sees what a sentence is judged in the two coins, over some words.
pub(crate) fn judged(
    rt: &impl Abort,
    sentence: &[u8],
    words: &mut [u64],
    verdict: Verdict,
) -> Result<(), Fail> {
    assert_eq!(rt; in_coins(rt, sentence, words)?, verdict);
    Ok(())
}

fn holds_in(rt: &impl Abort, sentence: &[u8], set: u64, depth: u16) -> Result<(), Fail> {
    judged(rt, sentence, &mut [u64::MAX; 8], Verdict { set, depth })
}

#[test]
fn the_worked_sentence(rt: HostRuntime) -> Result<(), Fail> {
    let mut words = [7; 9];
    let verdict = in_coins(&rt, &fair_sentence(), &mut words)?;
    assert_eq!(rt; verdict, Verdict { set: 1, depth: 2 });
    assert_eq!(rt; words, [5, 10, 5, 5, 1, 14, 1, 7, 7]);
    Ok(())
}

// With no line, all is true and any is false; neither has a step under it.
#[test]
fn an_empty_all_and_an_empty_any(rt: HostRuntime) -> Result<(), Fail> {
    holds_in(&rt, &[0x12, 0, 0], 0b1111, 0)?;
    holds_in(&rt, &[0x13, 0, 0], 0, 0)?;
    holds_in(&rt, &[0x13, 0, 0, 0x11, 0, 2, 0, 1], 0b1111, 0)?;
    holds_in(&rt, &[0x12, 0, 0, 0x11, 0, 2, 0, 1], 0, 0)
}

#[test]
fn lines_in_any_order_and_repeated(rt: HostRuntime) -> Result<(), Fail> {
    let lines = [0x14, 0, 1, 1, 0x11, 0, 2, 0, 1];
    let mut both = [0; 17];
    both[0..9].copy_from_slice(&lines);
    both[9..17].copy_from_slice(&[0x12, 0, 4, 0, 2, 0, 1, 0]);
    assert!(rt; in_coins(&rt, &both, &mut [0; 3]).is_err());
    holds_in(
        &rt,
        b"\x14\0\x01\x01\x11\0\x02\0\x01\x12\0\x06\0\x02\0\x01\0\x02",
        0,
        1,
    )?;
    holds_in(
        &rt,
        b"\x14\0\x01\x01\x11\0\x02\0\x01\x13\0\x06\0\x02\0\x01\0\x02",
        0b1111,
        1,
    )
}

// An action that no state has, and one that some have.
#[test]
fn a_step_without_parts(rt: HostRuntime) -> Result<(), Fail> {
    holds_in(&rt, &[0x14, 0, 1, 1], 0b0101, 1)?;
    holds_in(&rt, &[0x14, 0, 1, 2], 0, 1)?;
    holds_in(&rt, &[0x14, 0, 1, 31], 0, 1)
}

// Every part must hold: at least a third to where action 1 is possible, and at least two thirds to where it is not.
#[test]
fn a_step_with_two_parts(rt: HostRuntime) -> Result<(), Fail> {
    holds_in(
        &rt,
        b"\x14\0\x01\x01\x11\0\x02\0\x01\x14\0\x15\x01\0\x01\0\0\0\x01\0\0\0\x03\0\x02\0\0\0\x02\0\0\0\x03",
        0b0100,
        2,
    )
}

// The ladder of three states: 2 has no step, 1 may miss to it with weight 1 of 3.
#[test]
fn other_sources_are_judged(rt: HostRuntime) {
    let stuck = b"\x14\0\x01\x05\x11\0\x02\0\x01\x14\0\x0b\x05\0\x02\0\0\0\x01\0\0\0\x03";
    let mut words = [0; 3];
    assert!(rt; judge(&Ladder::new(3, 5, 2, 1), stuck, &mut words).is_ok());
    assert_eq!(rt; words, [0b011, 0b100, 0b010]);
    let both = Union::new(Ladder::new(3, 5, 2, 1), Ladder::new(61, 5, 1, 1));
    assert!(rt; judge(&both, stuck, &mut words).is_ok());
    assert_eq!(rt; words[2], 0b010 | (1 << 62));
    assert_eq!(rt; words[1], 0b100 | (1 << 63));
}
