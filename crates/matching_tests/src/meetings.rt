use crate::large::{Complete, Diagonal};
use meeting::meeting::Meeting;
use sources::ladder::Ladder;

// In a ladder of 4 every state but the last has one step, to 0 with weight 2 and to the next state with weight 3.
#[test]
fn where_all_pairs_are_related(rt: HostRuntime) {
    let ladder = Ladder::new(4, 7, 2, 3);
    let meeting = Meeting {
        source: &ladder,
        relation: &Complete,
    };
    assert_eq!(rt; meeting.first_match(0, 0, 1), Some(0));
    assert_eq!(rt; meeting.first_match(0, 0, 3), None);
    assert_eq!(rt; meeting.first_unmatched(0, 1), None);
    assert_eq!(rt; meeting.first_unmatched(2, 3), Some(0));
    assert_eq!(rt; meeting.first_unmatched(3, 2), None);
    assert!(rt; meeting.is_met(0, 2) && meeting.is_met(3, 3));
    assert!(rt; !meeting.is_met(2, 3) && !meeting.is_met(3, 2));
}

// Where a state is related to itself alone, it meets itself alone.
#[test]
fn where_states_are_related_to_themselves(rt: HostRuntime) {
    let ladder = Ladder::new(4, 7, 2, 3);
    let meeting = Meeting {
        source: &ladder,
        relation: &Diagonal,
    };
    assert_eq!(rt; meeting.first_match(1, 0, 1), Some(0));
    assert_eq!(rt; meeting.first_match(0, 0, 1), None);
    assert_eq!(rt; meeting.first_unmatched(0, 1), Some(0));
    assert!(rt; meeting.is_met(1, 1) && !meeting.is_met(0, 1));
}

// A step that does not exist has action 0 and no branches; a state that does not exist has no steps.
#[test]
fn what_does_not_exist(rt: HostRuntime) {
    let ladder = Ladder::new(4, 7, 2, 3);
    let meeting = Meeting {
        source: &ladder,
        relation: &Complete,
    };
    assert_eq!(rt; meeting.first_match(0, 1, 1), None);
    assert_eq!(rt; meeting.first_unmatched(4, 0), None);
    assert!(rt; meeting.is_met(4, usize::MAX) && meeting.is_met(3, 4) && !meeting.is_met(0, 4));
}
