use crate::absent::answers_0;
use model::source::Source;
use sources::ladder::Ladder;

#[test]
fn a_ladder_of_four(rt: HostRuntime) {
    let ladder = Ladder::new(4, 7, 3, 2);
    assert_eq!(rt; ladder.states(), 4);
    assert_eq!(rt; ladder.most_steps(), 1);
    assert_eq!(rt; ladder.most_total(), 5);
    assert_eq!(rt; ladder.steps(3), 0);
    assert_eq!(rt; ladder.steps(2), 1);
    assert_eq!(rt; ladder.action(2, 0), 7);
    assert_eq!(rt; ladder.total(2, 0), 5);
    assert_eq!(rt; ladder.branches(2, 0), 2);
    assert_eq!(rt; ladder.target(2, 0, 0), 0);
    assert_eq!(rt; ladder.weight(2, 0, 0), 3);
    assert_eq!(rt; ladder.target(2, 0, 1), 3);
    assert_eq!(rt; ladder.weight(2, 0, 1), 2);
}

#[test]
fn what_does_not_exist_answers_0(rt: HostRuntime) {
    let ladder = Ladder::new(4, 7, 3, 2);
    for far in [4, usize::MAX] {
        answers_0(&rt, &ladder, 0, far);
        assert_eq!(rt; ladder.branches(3, far), 0);
    }
    assert_eq!(rt; ladder.action(0, 1), 0);
    assert_eq!(rt; ladder.target(3, 0, 1), 0);
    assert_eq!(rt; ladder.weight(0, 0, 2), 0);
}

fn stands(states: usize, action: u8, ok: u32, miss: u32) -> bool {
    Ladder::new(states, action, ok, miss).states() == states && states > 0
}

fn is_void(states: usize, action: u8, ok: u32, miss: u32) -> bool {
    let ladder = Ladder::new(states, action, ok, miss);
    ladder.states() == 0
        && ladder.most_steps() == 0
        && ladder.most_total() == 0
        && ladder.steps(0) == 0
}

// Each condition at its edge.
#[test]
fn when_a_ladder_is_void(rt: HostRuntime) {
    assert!(rt; is_void(0, 0, 1, 1) && stands(1, 0, 1, 1));
    assert!(rt; stands(64, 0, 1, 1) && is_void(65, 0, 1, 1));
    assert!(rt; stands(2, 31, 1, 1) && is_void(2, 32, 1, 1));
    assert!(rt; is_void(2, 0, 0, 1) && is_void(2, 0, 1, 0));
    assert!(rt; stands(2, 0, 29_999, 1) && is_void(2, 0, 30_000, 1));
    assert!(rt; stands(2, 0, 1, 29_999) && is_void(2, 0, 1, 30_000));
    assert!(rt; is_void(2, 0, u32::MAX, 1) && is_void(2, 0, u32::MAX, u32::MAX));
}

// A ladder of one state has no step, and is void all the same if its numbers are bad.
#[test]
fn a_ladder_of_one(rt: HostRuntime) {
    let ladder = Ladder::new(1, 0, 3, 2);
    assert_eq!(rt; ladder.states(), 1);
    assert_eq!(rt; ladder.most_steps(), 0);
    assert_eq!(rt; ladder.most_total(), 0);
    assert_eq!(rt; ladder.steps(0), 0);
    assert!(rt; is_void(1, 32, 3, 2) && is_void(1, 0, 0, 2));
}
