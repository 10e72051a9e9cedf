use fields::fault::{FieldFault, FileFault, Flaw};
use logic::fault::JudgeFault;
use logic::judge::judge;
use sources::ladder::Ladder;
use std::process::Abort;
use std::test::Fail;

/// A source of two states that is not void.
fn small() -> Ladder {
    Ladder::new(2, 1, 1, 1)
}

/// Sees a sentence refused, with its number and place, and the words as they were.
// The tests of the model file have a function of this kind, for another call that has no words.
pub(crate) fn refused_over<const N: usize>(
    rt: &impl Abort,
    sentence: &[u8],
    words: [u64; N],
    number: u8,
    place: usize,
) -> Result<(), Fail> {
    let mut after = words;
    let Err(fault) = judge(&small(), sentence, &mut after) else {
        return Err(Fail::new("judged"));
    };
    assert_eq!(rt; fault.number(), number);
    assert_eq!(rt; fault.place(), Some(place));
    assert_eq!(rt; after, words);
    Ok(())
}

fn refused(rt: &impl Abort, sentence: &[u8], number: u8, place: usize) -> Result<(), Fail> {
    refused_over(rt, sentence, [9; 4], number, place)
}

#[test]
fn a_fault_keeps_its_number_and_place(rt: HostRuntime) {
    let field = FieldFault {
        flaw: Flaw::Tag,
        place: 7,
    };
    let fault = JudgeFault::from(FileFault::Field(field));
    assert_eq!(rt; fault, JudgeFault::File(FileFault::Field(field)));
    assert_eq!(rt; fault.number(), 2);
    assert_eq!(rt; fault.place(), Some(7));
    assert_eq!(rt; JudgeFault::from(FileFault::Limit(8)).number(), 5);
    assert_eq!(rt; JudgeFault::Void.number(), 11);
    assert_eq!(rt; JudgeFault::Void.place(), None);
    assert_eq!(rt; JudgeFault::Words.number(), 21);
    assert_eq!(rt; JudgeFault::Words.place(), None);
}

#[test]
fn a_file_without_a_line(rt: HostRuntime) -> Result<(), Fail> {
    refused(&rt, &[], 1, 0)
}

// Each fault of a head or a value at a place that is not 0.
#[test]
fn fields_behind_the_first(rt: HostRuntime) -> Result<(), Fail> {
    refused(&rt, &[0x12, 0, 0, 0x12], 1, 3)?;
    refused(&rt, &[0x12, 0, 0, 0x12, 0], 1, 3)?;
    refused(&rt, &[0x12, 0, 0, 0x12, 0, 2, 0], 1, 3)?;
    refused(&rt, &[0x12, 0, 0, 0x10, 0, 0], 2, 3)?;
    refused(&rt, &[0x12, 0, 0, 0x15, 0, 0], 2, 3)?;
    refused(&rt, &[0x12, 0, 0, 0x11, 0, 0], 3, 3)?;
    refused(&rt, &[0x12, 0, 0, 0x11, 0, 4, 0, 1, 0, 1], 3, 3)?;
    refused(&rt, &[0x12, 0, 0, 0x12, 0, 1, 0], 3, 3)?;
    refused(&rt, &[0x12, 0, 0, 0x13, 0, 3, 0, 1, 0], 3, 3)?;
    refused(&rt, &[0x12, 0, 0, 0x14, 0, 0], 3, 3)?;
    refused(&rt, &[0x12, 0, 0, 0x14, 0, 10], 3, 3)?;
    refused(&rt, &[0x12, 0, 0, 0x14, 0, 31], 1, 3)?;
    refused(&rt, &[0x12, 0, 0, 0x14, 0, 32], 3, 3)?;
    refused(&rt, &[0x12, 0, 0, 0x11, 0, 2, 0, 3], 4, 3)
}

// A line names earlier lines only: not itself, no later one, and not 0.
#[test]
fn line_numbers(rt: HostRuntime) -> Result<(), Fail> {
    refused(&rt, &[0x12, 0, 0, 0x11, 0, 2, 0, 2], 4, 3)?;
    refused(&rt, &[0x12, 0, 0, 0x11, 0, 2, 0, 3, 0x12, 0, 0], 4, 3)?;
    refused(&rt, &[0x12, 0, 0, 0x11, 0, 2, 0, 0], 4, 3)?;
    refused(&rt, &[0x12, 0, 0, 0x12, 0, 4, 0, 1, 0, 2], 4, 3)?;
    refused(&rt, &[0x12, 0, 0, 0x13, 0, 4, 0, 1, 0, 0], 4, 3)?;
    refused(
        &rt,
        b"\x12\0\0\x14\0\x0b\x01\0\x02\0\0\0\x01\0\0\0\x02",
        4,
        3,
    )?;
    refused(&rt, b"\x12\0\0\x14\0\x0b\x01\0\0\0\0\0\x01\0\0\0\x02", 4, 3)?;
    refused(&rt, &[0x12, 0, 2, 0, 1], 4, 0)?;
    refused(&rt, &[0x12, 0, 2, 1, 0], 4, 0)
}

// 11 comes before the file, and the file before 21.
#[test]
fn the_order_of_the_checks(rt: HostRuntime) {
    let void = Ladder::new(0, 1, 1, 1);
    let mut none = [];
    let mut one = [9];
    assert_eq!(rt; judge(&void, &[], &mut none), Err(JudgeFault::Void));
    assert_eq!(rt;
        judge(&void, &[0x12, 0, 0], &mut one),
        Err(JudgeFault::Void)
    );
    assert_eq!(rt;
        judge(&small(), &[0x12, 0, 0, 0x11, 0, 2, 0, 2], &mut one),
        Err(JudgeFault::File(FileFault::Number(3)))
    );
    assert_eq!(rt;
        judge(&small(), &[0x12, 0, 0, 0x11, 0, 2, 0, 1], &mut one),
        Err(JudgeFault::Words)
    );
    assert_eq!(rt; one, [9]);
    assert_eq!(rt;
        judge(&small(), &[0x12, 0, 0], &mut none),
        Err(JudgeFault::Words)
    );
}

// As many words as lines are enough; the words behind them stay.
#[test]
fn words_at_their_edge(rt: HostRuntime) {
    let mut two = [9; 2];
    let mut three = [9; 3];
    let lines = [0x12, 0, 0, 0x11, 0, 2, 0, 1];
    assert!(rt; judge(&small(), &lines, &mut two).is_ok());
    assert_eq!(rt; two, [3, 0]);
    assert!(rt; judge(&small(), &lines, &mut three).is_ok());
    assert_eq!(rt; three, [3, 0, 9]);
}
