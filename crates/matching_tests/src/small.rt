use matching::matching::{Matching, solve};
use matching::relation::{Pairs, Relation};
use matching::step::HeldStep;
use model::Branch;
use std::test::Fail;

// A step by action 3 with two branches of weight 1.
fn coin(first: u8, second: u8) -> HeldStep {
    let mut step = HeldStep::new(3);
    for target in [first, second] {
        let _added = step.push(Branch { target, weight: 1 });
    }
    step
}

#[test]
fn a_list_of_pairs(rt: HostRuntime) {
    let pairs = Pairs {
        list: &[(1, 3), (2, 4)],
    };
    assert!(rt; pairs.relates(1, 3) && pairs.relates(2, 4));
    assert!(rt; !pairs.relates(1, 4) && !pairs.relates(3, 1));
    assert!(rt; !Pairs { list: &[] }.relates(0, 0));
}

// 2 can only send to 3, so 1 sends to 4.
#[test]
fn a_match_has_its_weights(rt: HostRuntime) -> Result<(), Fail> {
    let pairs = Pairs {
        list: &[(1, 3), (1, 4), (2, 3)],
    };
    let Matching::Matched(weights) = solve(&coin(1, 2), &coin(3, 4), &pairs) else {
        return Err(Fail::new("no match"));
    };
    assert_eq!(rt; weights[1][4], 2);
    assert_eq!(rt; weights[2][3], 2);
    assert_eq!(rt; weights[1][3], 0);
    assert_eq!(rt; weights[2][4], 0);
    Ok(())
}

#[test]
fn no_match_has_its_cut(rt: HostRuntime) -> Result<(), Fail> {
    let pairs = Pairs {
        list: &[(1, 3), (1, 4)],
    };
    let Matching::Cut(cut) = solve(&coin(1, 2), &coin(3, 4), &pairs) else {
        return Err(Fail::new("no cut"));
    };
    for target in 0..64 {
        assert_eq!(rt; cut[target], target == 2);
    }
    Ok(())
}

#[test]
fn other_actions_do_not_match(rt: HostRuntime) {
    let mut other = HeldStep::new(4);
    assert!(rt;
        other
            .push(Branch {
                target: 1,
                weight: 1
            })
            .is_ok()
    );
    let pairs = Pairs {
        list: &[(1, 1), (2, 1)],
    };
    assert!(rt; matches!(solve(&coin(1, 2), &other, &pairs), Matching::Apart));
    assert!(rt;
        matches!(
            solve(&HeldStep::new(0), &HeldStep::new(1), &pairs),
            Matching::Apart
        )
    );
}

// Steps without branches send nothing.
#[test]
fn empty_steps_match(rt: HostRuntime) {
    let pairs = Pairs { list: &[] };
    assert!(rt;
        matches!(
            solve(&HeldStep::new(2), &HeldStep::new(2), &pairs),
            Matching::Matched(_)
        )
    );
    assert!(rt;
        matches!(
            solve(&coin(1, 2), &HeldStep::new(3), &pairs),
            Matching::Matched(_)
        )
    );
}
