use matching::matching::{Matching, solve};
use matching::relation::Pairs;
use matching::step::{HeldStep, Refusal};
use model::Branch;
use sources::ladder::Ladder;
use std::test::Fail;

fn refused(step: &mut HeldStep, target: u8, weight: u32) -> Option<Refusal> {
    step.push(Branch { target, weight }).err()
}

// Each bound at its edge; what is refused leaves the step as it was.
#[test]
fn which_branches_are_added(rt: HostRuntime) {
    let mut step = HeldStep::new(1);
    assert_eq!(rt; refused(&mut step, 64, 1), Some(Refusal::Target));
    assert_eq!(rt; refused(&mut step, 5, 0), Some(Refusal::Weight));
    assert_eq!(rt; refused(&mut step, 5, 1_000_000_001), Some(Refusal::Total));
    assert_eq!(rt; refused(&mut step, 5, 999_999_999), None);
    assert_eq!(rt; refused(&mut step, 5, 1), Some(Refusal::Target));
    assert_eq!(rt; refused(&mut step, 4, 1), Some(Refusal::Target));
    assert_eq!(rt; refused(&mut step, 6, 2), Some(Refusal::Total));
    assert_eq!(rt; refused(&mut step, 63, 1), None);
    assert_eq!(rt; refused(&mut step, 63, 0), Some(Refusal::Target));
}

// A ladder's state 2 of 4 goes by action 7 to 0 with weight 2 and to 3 with weight 3.
#[test]
fn the_step_of_a_source(rt: HostRuntime) -> Result<(), Fail> {
    let ladder = Ladder::new(4, 7, 2, 3);
    let step = HeldStep::of_source(&ladder, 2, 0);
    let mut same = HeldStep::new(7);
    assert_eq!(rt; refused(&mut same, 0, 2), None);
    assert_eq!(rt; refused(&mut same, 3, 3), None);
    let pairs = Pairs {
        list: &[(0, 0), (3, 3)],
    };
    let Matching::Matched(weights) = solve(&step, &same, &pairs) else {
        return Err(Fail::new("no match"));
    };
    assert_eq!(rt; weights[0][0], 10);
    assert_eq!(rt; weights[3][3], 15);
    Ok(())
}

#[test]
fn a_step_that_does_not_exist(rt: HostRuntime) {
    let ladder = Ladder::new(4, 7, 2, 3);
    let pairs = Pairs { list: &[] };
    for far in [1, usize::MAX] {
        let step = HeldStep::of_source(&ladder, 2, far);
        assert!(rt;
            matches!(
                solve(&step, &HeldStep::new(0), &pairs),
                Matching::Matched(_)
            )
        );
    }
}
