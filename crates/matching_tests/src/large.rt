use matching::matching::{Matching, solve};
use matching::relation::{Pairs, Relation};
use matching::step::HeldStep;
use model::Branch;
use std::test::Fail;

/// Every pair.
pub(crate) struct Complete;

impl Relation for Complete {
    ghost use Rattle.std.specs.Prelude.{true};

    ghost pairs = { λ _ u v. true };

    fn relates(&self, _u: usize, _v: usize) -> bool {
        true
    }
}

/// No pair.
struct Empty;

impl Relation for Empty {
    ghost use Rattle.std.specs.Prelude.{false};

    ghost pairs = { λ _ u v. false };

    fn relates(&self, _u: usize, _v: usize) -> bool {
        false
    }
}

/// Each number with itself.
pub(crate) struct Diagonal;

impl Relation for Diagonal {
    ghost use Rattle.std.specs.Prelude.{◌==◌};

    ghost pairs = { λ _ u v. u == v };

    fn relates(&self, u: usize, v: usize) -> bool {
        u == v
    }
}

/// Pairs that a row of pseudo-random numbers names.
fn scattered<const N: usize>(seed: u32) -> [(usize, usize); N] {
    let mut number = seed;
    let mut pairs = [(0, 0); N];
    for place in 0..N {
        number = number.wrapping_mul(1_664_525).wrapping_add(1_013_904_223);
        pairs[place] = ((number >> 26) as usize, ((number >> 20) & 63) as usize);
    }
    pairs
}

/// 15,625,000, but for `more` at the first target and as much less at the last one.
fn weight_at(target: u8, more: u32) -> u32 {
    match target {
        0 => 15_625_000_u32.saturating_add(more),
        63 => 15_625_000_u32.saturating_sub(more),
        _ => 15_625_000,
    }
}

/// A step by action 0 to all 64 targets with the weights above; its total is 1,000,000,000.
fn wide(more: u32) -> HeldStep {
    let mut step = HeldStep::new(0);
    for target in 0..64 {
        let weight = weight_at(target, more);
        let _added = step.push(Branch { target, weight });
    }
    step
}

/// What a step with the weights above is to send or to receive: each weight times 1,000,000,000.
fn scaled(target: u8, more: u32) -> u64 {
    u64::from(weight_at(target, more)).saturating_mul(1_000_000_000)
}

#[test]
fn complete_relations_match(rt: HostRuntime) -> Result<(), Fail> {
    let Matching::Matched(weights) = solve(&wide(0), &wide(7_654_321), &Complete) else {
        return Err(Fail::new("no match"));
    };
    let mut sent = 0;
    for row in &weights[5] {
        sent = u64::saturating_add(sent, *row);
    }
    assert_eq!(rt; sent, 15_625_000_000_000_000);
    let mut received = 0;
    for row in &weights {
        received = u64::saturating_add(received, row[0]);
    }
    assert_eq!(rt; received, 23_279_321_000_000_000);
    Ok(())
}

#[test]
fn of_the_empty_relation_all_is_cut(rt: HostRuntime) -> Result<(), Fail> {
    let Matching::Cut(cut) = solve(&wide(1), &wide(2), &Empty) else {
        return Err(Fail::new("no cut"));
    };
    assert!(rt; cut.iter().all(|member| *member));
    Ok(())
}

#[test]
fn equal_steps_match_along_the_diagonal(rt: HostRuntime) -> Result<(), Fail> {
    let Matching::Matched(weights) = solve(&wide(3), &wide(3), &Diagonal) else {
        return Err(Fail::new("no match"));
    };
    assert_eq!(rt; weights[0][0], 15_625_003_000_000_000);
    assert_eq!(rt; weights[1][1], 15_625_000_000_000_000);
    assert_eq!(rt; weights[63][63], 15_624_997_000_000_000);
    assert_eq!(rt; weights[0][1], 0);
    Ok(())
}

// The first target has more than its partner, and no other has.
#[test]
fn along_the_diagonal_what_is_heavier_is_cut(rt: HostRuntime) -> Result<(), Fail> {
    let Matching::Cut(cut) = solve(&wide(4), &wide(3), &Diagonal) else {
        return Err(Fail::new("no cut"));
    };
    for target in 0..64 {
        assert_eq!(rt; cut[target], target == 0);
    }
    Ok(())
}

// Ten pairs to a target, by and large: they carry all.
#[test]
fn many_scattered_pairs_match(rt: HostRuntime) -> Result<(), Fail> {
    for seed in [1, 22, 333] {
        let list = scattered::<640>(seed);
        let relation = Pairs { list: &list };
        let Matching::Matched(weights) = solve(&wide(7), &wide(9), &relation) else {
            return Err(Fail::new("no match"));
        };
        for target in 0..64_u8 {
            let (mut sent, mut received) = (0_u64, 0_u64);
            for other in 0..64 {
                let weight = weights[usize::from(target)][other];
                assert!(rt; weight == 0 || relation.relates(usize::from(target), other));
                sent = sent.saturating_add(weight);
                received = received.saturating_add(weights[other][usize::from(target)]);
            }
            assert_eq!(rt; sent, scaled(target, 7));
            assert_eq!(rt; received, scaled(target, 9));
        }
    }
    Ok(())
}

// Two pairs to a target, by and large: what is cut has more to send than what it stands to may receive.
#[test]
fn few_scattered_pairs_do_not(rt: HostRuntime) -> Result<(), Fail> {
    for seed in [1, 22, 333] {
        let list = scattered::<128>(seed);
        let relation = Pairs { list: &list };
        let Matching::Cut(cut) = solve(&wide(7), &wide(9), &relation) else {
            return Err(Fail::new("no cut"));
        };
        let (mut sends, mut receives) = (0_u64, 0_u64);
        for target in 0..64_u8 {
            let place = usize::from(target);
            if cut[place] {
                sends = sends.saturating_add(scaled(target, 7));
            }
            if (0..64usize).any(|u| cut[u] && relation.relates(u, place)) {
                receives = receives.saturating_add(scaled(target, 9));
            }
        }
        assert!(rt; sends > receives);
    }
    Ok(())
}
