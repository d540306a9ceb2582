//! Amounts and volumes at the limit.

use lg_base::{Amount, Volumes};

const LIMIT: u128 = 170141183460469231731687303715884105727;

fn volumes(input: u128, output: u128) -> Volumes {
    Volumes { input, output }
}

#[test]
fn amounts_end_at_the_limit(rt: HostRuntime) {
    assert_eq!(rt; Amount::of(LIMIT).map(|amount| amount.value()), Some(LIMIT));
    assert!(rt; Amount::of(LIMIT + 1).is_none());
}

#[test]
fn volumes_end_at_the_limit(rt: HostRuntime) {
    let first = volumes(107, 100);
    assert_eq!(rt; first.plus(volumes(3, 2)), Some(volumes(110, 102)));
    assert!(rt; first.plus(volumes(LIMIT, 0)).is_none());
}

#[test]
fn a_balance_is_the_input_less_the_output(rt: HostRuntime) {
    let first = Volumes {
        input: 107,
        output: 100,
    };
    assert_eq!(rt; first.balance(), 7);
    assert_eq!(rt; Volumes::zero().balance(), 0);
}
