use snow_flake::{Binary, ParamFault, Params, Rule, Snowball, Snowflake, Unary};
use std::test::Fail;

/// Parameters, and the first thing that is wrong with them.
const FAULTS: &[([u32; 5], ParamFault)] = &[
    ([2, 1, 1, 1, 1], ParamFault::AlphaLow),
    ([3, 3, 2, 1, 1], ParamFault::AlphaOrder),
    ([3, 2, 4, 0, 1], ParamFault::AlphaHigh),
    ([3, 2, 3, 0, 0], ParamFault::BetaZero),
    ([3, 2, 3, 1, 0], ParamFault::RepollsZero),
    ([3, 2, 3, 1, 2], ParamFault::RepollsHigh),
    ([1025, 1025, 1025, 65536, 1], ParamFault::KLarge),
    ([1024, 513, 1024, 65536, 1], ParamFault::BetaLarge),
];

/// Whether parameters are refused for this.
fn refuses(parameters: &[u32; 5], fault: ParamFault) -> bool {
    let [k, preference, confidence, beta, repolls] = *parameters;
    Params::check(k, preference, confidence, beta, repolls) == Err(fault)
}

#[test]
fn parameters_are_refused_in_order(rt: HostRuntime) {
    for (parameters, fault) in FAULTS {
        assert!(rt; refuses(parameters, *fault), "{fault}");
    }
}

/// The answer of an instance by both rules, whether it is final, and its confidence.
fn shown(instance: &Binary) -> (bool, bool, bool, u32) {
    (
        instance.preference::<Snowball>(),
        instance.preference::<Snowflake>(),
        instance.is_final(),
        instance.confidence(),
    )
}

/// Applies polls of one vote each, one after another.
fn apply(instance: &mut Binary, params: &Params, choices: &[bool]) {
    for choice in choices {
        instance.apply(params, 1, *choice);
    }
}

fn fail(instance: &mut Binary) {
    instance.fail();
}

/// Whether the rules part after two votes for one bit and one for the other, until two more.
fn rules_part(instance: &mut Binary, params: &Params) -> bool {
    apply(instance, params, &[false, false, true]);
    let parted = shown(instance) == (false, true, false, 1);
    apply(instance, params, &[true, true]);
    let joined = shown(instance) == (true, true, true, 3);
    fail(instance);
    parted && joined && shown(instance) == (true, true, true, 3)
}

#[test]
fn the_rules_part_until_the_instance_is_final(rt: HostRuntime) -> Result<(), Fail> {
    let params = Params::check(1, 1, 1, 3, 1)?;
    let mut instance = Unary::new().extend(false);
    assert!(rt; rules_part(&mut instance, &params));
    assert!(rt; Snowball::answer(true, false) && !Snowflake::answer(true, false));
    Ok(())
}

/// The confidence behind so many votes.
fn confidence_after(instance: &mut Unary, params: &Params, votes: u32) -> u32 {
    instance.apply(params, votes);
    instance.confidence()
}

fn fail_shared(instance: &mut Unary) {
    instance.fail();
}

/// Whether it is final, and the instance of two bits that it becomes.
fn are_final(instance: &Unary) -> bool {
    instance.is_final() && instance.extend(true).is_final()
}

/// Whether the confidence rises with votes, and falls to 0 without a quorum and without votes.
fn is_confident(instance: &mut Unary, params: &Params) -> bool {
    let before = confidence_after(instance, params, 18) == 1
        && confidence_after(instance, params, 15) == 0
        && confidence_after(instance, params, 20) == 1;
    fail_shared(instance);
    before
        && confidence_after(instance, params, 18) == 1
        && confidence_after(instance, params, 18) == 2
}

#[test]
fn one_bit_that_all_share(rt: HostRuntime) -> Result<(), Fail> {
    let params = Params::check(20, 15, 18, 2, 1)?;
    let mut instance = Unary::new();
    assert!(rt; is_confident(&mut instance, &params) && are_final(&instance));
    Ok(())
}
