use crate::absent::answers_0;
use model::source::Source;
use sources::disjoint::Union;
use sources::ladder::Ladder;
use table::table::Table;
use table::worked::coin_file;

fn ladders(left: usize, right: usize) -> Union<Ladder, Ladder> {
    Union::new(Ladder::new(left, 1, 1, 1), Ladder::new(right, 2, 3, 4))
}

#[test]
fn a_table_beside_a_ladder(rt: HostRuntime) {
    let mut table = Table::new();
    assert!(rt; table.read(&coin_file()).is_ok());
    let both = Union::new(table, Ladder::new(3, 5, 1, 4));
    assert_eq!(rt; both.states(), 5);
    assert_eq!(rt; both.most_steps(), 1);
    assert_eq!(rt; both.most_total(), 5);
    assert_eq!(rt; both.steps(2), 1);
    assert_eq!(rt; both.action(0, 0), 1);
    assert_eq!(rt; both.action(3, 0), 5);
    assert_eq!(rt; both.total(3, 0), 5);
    assert_eq!(rt; both.branches(3, 0), 2);
    assert_eq!(rt; both.target(0, 0, 1), 1);
    assert_eq!(rt; both.target(3, 0, 0), 2);
    assert_eq!(rt; both.target(3, 0, 1), 4);
    assert_eq!(rt; both.weight(3, 0, 1), 4);
}

// A branch that the right part does not have leads to 0, and not to the right part's first state.
#[test]
fn what_does_not_exist_answers_0(rt: HostRuntime) {
    let both = ladders(2, 3);
    assert_eq!(rt; both.target(2, 0, 2), 0);
    assert_eq!(rt; both.target(4, 0, 0), 0);
    for far in [5, 64, usize::MAX] {
        answers_0(&rt, &both, 2, far);
    }
}

#[test]
fn when_a_union_is_void(rt: HostRuntime) {
    assert_eq!(rt; ladders(32, 32).states(), 64);
    assert_eq!(rt; ladders(33, 32).states(), 0);
    assert_eq!(rt; ladders(33, 32).most_steps(), 0);
    assert_eq!(rt; ladders(33, 32).most_total(), 0);
    assert_eq!(rt; ladders(33, 32).steps(0), 0);
    assert_eq!(rt; ladders(0, 1).states(), 0);
    assert_eq!(rt; ladders(1, 0).states(), 0);
    assert_eq!(rt; ladders(1, 1).states(), 2);
}

#[test]
fn a_union_of_unions_gives_its_parts_back(rt: HostRuntime) {
    let three = Union::new(ladders(2, 2), Ladder::new(2, 9, 1, 1));
    assert_eq!(rt; three.states(), 6);
    assert_eq!(rt; three.action(4, 0), 9);
    assert_eq!(rt; three.target(4, 0, 1), 5);
    let (pair, last) = three.into_parts();
    assert_eq!(rt; pair.states(), 4);
    assert_eq!(rt; last.states(), 2);
}
