use crate::files::{add_step, full_file};
use fields::fault::{FieldFault, FileFault, Flaw};
use std::process::Abort;
use std::test::Fail;
use table::table::Table;

fn is_read(bytes: &[u8]) -> bool {
    Table::new().read(bytes).is_ok()
}

// The tests of the judge have a function of this name, for another call with other things to look at afterwards.
fn refused(rt: &impl Abort, bytes: &[u8], number: u8, place: usize) -> Result<(), Fail> {
    let Err(fault) = Table::new().read(bytes) else {
        return Err(Fail::new("read"));
    };
    assert_eq!(rt; fault.number(), number);
    assert_eq!(rt; fault.place(), place);
    Ok(())
}

#[test]
fn a_fault_keeps_its_number_and_place(rt: HostRuntime) {
    let fault = FieldFault {
        flaw: Flaw::Length,
        place: 7,
    };
    assert_eq!(rt; FileFault::from(fault), FileFault::Field(fault));
    assert_eq!(rt; FileFault::Field(fault).number(), 3);
    assert_eq!(rt; FileFault::Field(fault).place(), 7);
    assert_eq!(rt; FileFault::Number(8).number(), 4);
    assert_eq!(rt; FileFault::Number(8).place(), 8);
    assert_eq!(rt; FileFault::Limit(9).number(), 5);
    assert_eq!(rt; FileFault::Limit(9).place(), 9);
}

// The first field is due, so a file without it has fault 1 at its end.
#[test]
fn the_first_field(rt: HostRuntime) -> Result<(), Fail> {
    refused(&rt, &[], 1, 0)?;
    refused(&rt, &[0x01], 1, 0)?;
    refused(&rt, &[0x01, 0], 1, 0)?;
    refused(&rt, &[0x01, 0, 1], 1, 0)?;
    refused(&rt, &[0x02, 0, 1, 2], 2, 0)?;
    refused(&rt, &[0x01, 0, 0], 3, 0)?;
    refused(&rt, &[0x01, 0, 2, 1, 1], 3, 0)?;
    refused(&rt, &[0x01, 1, 1, 1], 3, 0)?;
    refused(&rt, &[0x01, 0, 1, 0], 4, 0)?;
    refused(&rt, &[0x01, 0, 1, 65], 4, 0)
}

#[test]
fn the_number_of_states_at_its_edges(rt: HostRuntime) {
    assert!(rt; is_read(&[0x01, 0, 1, 1]));
    assert!(rt; is_read(&[0x01, 0, 1, 64]));
}

// Each fault at a place that is not 0.
#[test]
fn a_later_field(rt: HostRuntime) -> Result<(), Fail> {
    refused(&rt, &[0x01, 0, 1, 2, 0x02], 1, 4)?;
    refused(&rt, &[0x01, 0, 1, 2, 0x02, 0], 1, 4)?;
    refused(&rt, &[0x01, 0, 1, 2, 0x02, 0, 5, 0, 1, 0, 0], 1, 4)?;
    refused(&rt, &[0x01, 0, 1, 2, 0x01, 0, 1, 2], 2, 4)?;
    refused(&rt, &[0x01, 0, 1, 2, 0x03, 0, 5, 0, 1, 0, 0, 1], 2, 4)?;
    refused(&rt, &[0x01, 0, 1, 2, 0x02, 0, 2, 0, 1], 3, 4)?;
    refused(&rt, &[0x01, 0, 1, 2, 0x02, 0, 6, 0, 1, 0, 0, 1, 1], 3, 4)?;
    refused(&rt, &[0x01, 0, 1, 2, 0x02, 0, 197], 3, 4)?;
    refused(
        &rt,
        b"\x01\0\x01\x02\x02\0\x05\0\x01\0\0\x01\x02\0\x05\x02\x01\0\0\x01",
        4,
        12,
    )
}

// Numbers of a step: the state, the action, the target, the order of targets, the weight.
#[test]
fn numbers_outside_their_range_or_order(rt: HostRuntime) -> Result<(), Fail> {
    refused(&rt, &[0x01, 0, 1, 2, 0x02, 0, 5, 2, 1, 0, 0, 1], 4, 4)?;
    refused(&rt, &[0x01, 0, 1, 2, 0x02, 0, 5, 0, 32, 0, 0, 1], 4, 4)?;
    refused(&rt, &[0x01, 0, 1, 2, 0x02, 0, 5, 0, 1, 2, 0, 1], 4, 4)?;
    refused(&rt, &[0x01, 0, 1, 2, 0x02, 0, 5, 0, 1, 0, 0, 0], 4, 4)?;
    refused(
        &rt,
        &[0x01, 0, 1, 2, 0x02, 0, 8, 0, 1, 1, 0, 1, 0, 0, 1],
        4,
        4,
    )?;
    refused(
        &rt,
        &[0x01, 0, 1, 2, 0x02, 0, 8, 0, 1, 1, 0, 1, 1, 0, 1],
        4,
        4,
    )?;
    assert!(rt; is_read(&[0x01, 0, 1, 2, 0x02, 0, 5, 1, 31, 1, 0, 1]));
    Ok(())
}

// The head's faults come before the value's: 2 before 3, and 3 before 1 for the value.
#[test]
fn the_order_of_the_checks(rt: HostRuntime) -> Result<(), Fail> {
    refused(&rt, &[0x01, 0, 1, 2, 0x07, 0, 9], 2, 4)?;
    refused(&rt, &[0x01, 0, 1, 2, 0x02, 0, 9], 3, 4)?;
    refused(&rt, &[0x01, 0, 1, 2, 0x02, 0, 8, 9], 1, 4)
}

#[test]
fn more_than_a_file_may_hold(rt: HostRuntime) -> Result<(), Fail> {
    let mut row = full_file(rt.alloc(), 2, 1, 16, 1)?;
    add_step(&mut row, 0, 1, 1)?;
    refused(&rt, row.as_slice(), 5, 4 + 16 * 8)?;
    let mut steps = full_file(rt.alloc(), 17, 16, 16, 1)?;
    add_step(&mut steps, 16, 1, 1)?;
    refused(&rt, steps.as_slice(), 5, 4 + 256 * 8)?;
    let mut branches = full_file(rt.alloc(), 64, 1, 16, 64)?;
    add_step(&mut branches, 1, 1, 1)?;
    refused(&rt, branches.as_slice(), 5, 4 + 16 * 197)?;
    let mut total = full_file(rt.alloc(), 2, 0, 0, 0)?;
    add_step(&mut total, 0, 2, 30_000)?;
    refused(&rt, total.as_slice(), 5, 4)
}

// Of a step that is one too many and has a bad number, the number is what is answered.
#[test]
fn numbers_come_before_limits(rt: HostRuntime) -> Result<(), Fail> {
    let mut row = full_file(rt.alloc(), 2, 1, 16, 1)?;
    row.extend_from_slice(&[0x02, 0, 5, 0, 0, 2, 0, 1])?;
    refused(&rt, row.as_slice(), 4, 4 + 16 * 8)?;
    let mut total = full_file(rt.alloc(), 2, 0, 0, 0)?;
    total.extend_from_slice(&[0x02, 0, 8, 0, 0, 0, 255, 255, 0, 0, 1])?;
    refused(&rt, total.as_slice(), 4, 4)
}
