//! What the test of the laws answers: that they hold, or the first part that is false.

use rinv_div::Budget;
use rinv_laws::{LawName, LawQuotients, LawStop, group_basis, laws_hold, test_laws};
use rinv_system::read_system;
use std::alloc::Global;

// Rotations of the plane.
const ROTATIONS: &[u8] =
    b"field 101\ngroup a, b\nspace x, y\nideal a^2+b^2-1\nunit 1, 0\nproduct a*a'-b*b', a*b'+b*a'\ninverse a, -b\naction a*x-b*y, b*x+a*y\n";

// No action: the square of a sum is not the sum of the squares.
const SQUARES: &[u8] =
    b"field 101\ngroup a\nspace x\nunit 0\nproduct a+a'\ninverse -a\naction x+a^2\n";

// The only point of the group is 1, but its product with itself is 2: both parts of a law are false.
const DOUBLES: &[u8] =
    b"field 101\ngroup a\nspace x\nideal a-1, a^2-a\nunit 1\nproduct 2*a*a'\ninverse a\naction x\n";

// What the test of the laws answers, where the text is a system.
fn answer(alloc: Global, text: &[u8]) -> Option<Result<LawQuotients, LawStop>> {
    if text.len() > 10_000 {
        return None;
    }
    let Ok(system) = read_system(alloc, text) else {
        return None;
    };
    let mut endless = Budget::without_end();
    match group_basis(alloc, &system, &mut endless) {
        Ok(group) => Some(test_laws(alloc, &system, &group)),
        Err(_) => None,
    }
}

// Whether the quick test finds that the laws hold; `otherwise` where there is no answer.
fn found(alloc: Global, text: &[u8], otherwise: bool) -> bool {
    if text.len() > 10_000 {
        return otherwise;
    }
    let Ok(system) = read_system(alloc, text) else {
        return otherwise;
    };
    let mut endless = Budget::without_end();
    let Ok(group) = group_basis(alloc, &system, &mut endless) else {
        return otherwise;
    };
    laws_hold(alloc, &system, &group).unwrap_or(otherwise)
}

// Whether the laws hold.
fn hold(alloc: Global, text: &[u8]) -> bool {
    matches!(answer(alloc, text), Some(Ok(_)))
}

// Whether this part is the first that is false.
fn is_false(alloc: Global, text: &[u8], law: LawName, part: u32) -> bool {
    match answer(alloc, text) {
        Some(Err(LawStop::Fault(fault))) => fault.law == law && fault.part == part,
        _ => false,
    }
}

#[test]
fn tells_whether_laws_hold(rt: HostRuntime) {
    assert!(rt;
        hold(rt.alloc(), ROTATIONS),
        "rotations are a group that acts"
    );
    assert!(rt;
        is_false(rt.alloc(), SQUARES, LawName::A2, 0),
        "sums do not act by squares"
    );
    assert!(rt;
        is_false(rt.alloc(), DOUBLES, LawName::L2, 0),
        "the first of two false parts"
    );
}

#[test]
fn finds_quickly_that_laws_hold(rt: HostRuntime) {
    assert!(rt; found(rt.alloc(), ROTATIONS, false), "rotations");
    assert!(rt;
        !found(rt.alloc(), SQUARES, true),
        "sums do not act by squares"
    );
    assert!(rt;
        !found(rt.alloc(), DOUBLES, true),
        "a product that is no point"
    );
}
