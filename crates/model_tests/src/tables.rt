use crate::absent::answers_0;
use crate::files::{add_step, full_file};
use fields::field::Rule;
use model::source::Source;
use std::test::Fail;
use table::format::ModelField;
use table::table::Table;
use table::worked::coin_file;

// The worked file is the model of two states in which 0 goes by action 1 with weights 1, 1 to 0, 1.
#[test]
fn the_coin_is_read(rt: HostRuntime) {
    let mut table = Table::new();
    assert!(rt; table.read(&coin_file()).is_ok());
    assert_eq!(rt; table.states(), 2);
    assert_eq!(rt; table.most_steps(), 1);
    assert_eq!(rt; table.most_total(), 2);
    assert_eq!(rt; table.steps(0), 1);
    assert_eq!(rt; table.steps(1), 0);
    assert_eq!(rt; table.action(0, 0), 1);
    assert_eq!(rt; table.total(0, 0), 2);
    assert_eq!(rt; table.branches(0, 0), 2);
    assert_eq!(rt; table.target(0, 0, 0), 0);
    assert_eq!(rt; table.target(0, 0, 1), 1);
    assert_eq!(rt; table.weight(0, 0, 0), 1);
    assert_eq!(rt; table.weight(0, 0, 1), 1);
}

#[test]
fn a_table_starts_with_one_state_and_no_steps(rt: HostRuntime) {
    let table = Table::new();
    assert_eq!(rt; table.states(), 1);
    assert_eq!(rt; table.most_steps(), 0);
    assert_eq!(rt; table.most_total(), 0);
    assert_eq!(rt; table.steps(0), 0);
}

// State, step and branch 1 before, at and far past their ends.
#[test]
fn what_does_not_exist_answers_0(rt: HostRuntime) {
    let mut table = Table::new();
    let file = [0x01, 0, 1, 2, 0x02, 0, 5, 1, 7, 1, 0, 9];
    assert!(rt; table.read(&file).is_ok());
    for far in [2, 64, usize::MAX] {
        answers_0(&rt, &table, 1, far);
    }
    assert_eq!(rt; table.action(1, 1), 0);
    assert_eq!(rt; table.weight(1, 0, 1), 0);
    assert_eq!(rt; table.target(1, 0, 0), 1);
    assert_eq!(rt; table.weight(1, 0, 0), 9);
}

// A state's steps keep the order of the file, with steps of other states between them.
#[test]
fn steps_need_not_be_adjacent(rt: HostRuntime) -> Result<(), Fail> {
    let mut table = Table::new();
    let first = b"\x01\0\x01\x02\x02\0\x05\x01\x03\0\0\x01";
    let others = b"\x02\0\x05\0\x04\x01\x01\0\x02\0\x05\x01\x05\x01\0\x02";
    let mut file = first.to_vec(rt.alloc())?;
    file.extend_from_slice(others)?;
    assert!(rt; table.read(file.as_slice()).is_ok());
    assert_eq!(rt; table.most_steps(), 2);
    assert_eq!(rt; table.most_total(), 256);
    assert_eq!(rt; table.action(1, 0), 3);
    assert_eq!(rt; table.action(0, 0), 4);
    assert_eq!(rt; table.action(1, 1), 5);
    assert_eq!(rt; table.weight(1, 1, 0), 2);
    Ok(())
}

#[test]
fn what_is_refused_leaves_a_filled_table(rt: HostRuntime) {
    let mut table = Table::new();
    assert!(rt; table.read(&coin_file()).is_ok());
    let faulty = [0x01, 0, 1, 3, 0x02, 0, 5, 0, 0, 3, 0, 1];
    assert!(rt; table.read(&faulty).is_err());
    assert_eq!(rt; table.states(), 2);
    assert_eq!(rt; table.most_total(), 2);
    assert_eq!(rt; table.action(0, 0), 1);
    assert_eq!(rt; table.weight(0, 0, 1), 1);
}

// 64 branches a step, the 16th step of a state, the 1,024th branch; then the 256th step.
#[test]
fn the_largest_files_are_read(rt: HostRuntime) -> Result<(), Fail> {
    let mut table = Table::new();
    let wide = full_file(rt.alloc(), 64, 1, 16, 64)?;
    assert!(rt; table.read(wide.as_slice()).is_ok());
    assert_eq!(rt; table.steps(0), 16);
    assert_eq!(rt; table.branches(0, 15), 64);
    assert_eq!(rt; table.target(0, 15, 63), 63);
    assert_eq!(rt; table.most_total(), 64);
    let many = full_file(rt.alloc(), 16, 16, 16, 1)?;
    assert!(rt; table.read(many.as_slice()).is_ok());
    assert_eq!(rt; table.steps(15), 16);
    assert_eq!(rt; table.most_steps(), 16);
    Ok(())
}

#[test]
fn a_total_of_30000_is_read(rt: HostRuntime) -> Result<(), Fail> {
    let mut table = Table::new();
    let mut file = full_file(rt.alloc(), 2, 0, 0, 0)?;
    add_step(&mut file, 0, 2, 29_999)?;
    assert!(rt; table.read(file.as_slice()).is_ok());
    assert_eq!(rt; table.total(0, 0), 30_000);
    assert_eq!(rt; table.most_total(), 30_000);
    Ok(())
}

#[test]
fn lengths_go_by_what_is_due(rt: HostRuntime) {
    for tag in [0x01, 0x02, 0x77] {
        assert!(rt; ModelField::States.allows(tag, 1) && !ModelField::States.allows(tag, 2));
        assert!(rt; ModelField::Step.allows(tag, 194) && !ModelField::Step.allows(tag, 197));
    }
    assert_eq!(rt; ModelField::tag(ModelField::Step), 0x02);
}
