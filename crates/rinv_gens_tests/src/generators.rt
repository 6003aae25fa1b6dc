//! Systems and the generators of their fields of invariants.

ghost use Rattle.std.specs.Prelude.{IfSome};
ghost use Rattle.rinv_defs.specs.SystemForm.{IsSystem};

use rinv_gens::{GenStop, Phase, Symbol, pieces};
use rinv_laws::LawName;
use rinv_mono::Mono;
use rinv_system::read_system;
use rinv_text::System;
use std::alloc::Global;

const ROTATIONS: &[u8] =
    b"field 101\ngroup a, b\nspace x, y\nideal a^2+b^2-1\nunit 1, 0\nproduct a*a'-b*b', a*b'+b*a'\ninverse a, -b\naction a*x-b*y, b*x+a*y\n";

const TRANSLATIONS: &[u8] =
    b"field 101\ngroup a\nspace x, y\nunit 0\nproduct a+a'\ninverse -a\naction x+a, y\n";

const SCALINGS: &[u8] =
    b"field 101\ngroup a, b\nspace x, y\nideal a*b-1\nunit 1, 1\nproduct a*a', b*b'\ninverse b, a\naction a*x, a*y\n";

const SIGNS: &[u8] =
    b"field 7\ngroup a\nspace x\nideal a^2-1\nunit 1\nproduct a*a'\ninverse a\naction a*x\n";

const SHIFTS: &[u8] =
    b"field 5\ngroup a\nspace x\nideal a^5-a\nunit 0\nproduct a+a'\ninverse -a\naction x+a\n";

const NEAR_SHIFTS: &[u8] =
    b"field 5\ngroup a\nspace x\nideal a^5\nunit 0\nproduct a+a'\ninverse -a\naction x+a\n";

const NEAR_SIGNS: &[u8] =
    b"field 2\ngroup a\nspace x\nideal a^2-1\nunit 1\nproduct a*a'\ninverse a\naction a*x\n";

const PLANE_SIGNS: &[u8] =
    b"field 7\ngroup a\nspace x, y\nideal a^2-1\nunit 1\nproduct a*a'\ninverse a\naction a*x, a*y\n";

const EXCHANGES: &[u8] =
    b"field 7\ngroup a\nspace x, y\nideal a^2-1\nunit 1\nproduct a*a'\ninverse a\naction 4*(1+a)*x+4*(1-a)*y, 4*(1-a)*x+4*(1+a)*y\n";

const QUADRATICS: &[u8] =
    b"field 32003\ngroup a, b, c, d\nspace u, v, w\nideal a*d-b*c-1\nunit 1, 0, 0, 1\nproduct a*a'+b*c', a*b'+b*d', c*a'+d*c', c*b'+d*d'\ninverse d, -b, -c, a\naction a^2*u+a*b*v+b^2*w, 2*a*c*u+(a*d+b*c)*v+2*b*d*w, c^2*u+c*d*v+d^2*w\nbudget pairs 100000\nbudget steps 2000000\n";

const NO_PAIRS: &[u8] =
    b"field 101\ngroup a, b\nspace x, y\nideal a^2+b^2-1\nunit 1, 0\nproduct a*a'-b*b', a*b'+b*a'\ninverse a, -b\naction a*x-b*y, b*x+a*y\nbudget pairs 0\n";

const WRONG_PRODUCT: &[u8] =
    b"field 101\ngroup a, b\nspace x, y\nideal a^2+b^2-1\nunit 1, 0\nproduct a*a'+b*b', a*b'+b*a'\ninverse a, -b\naction a*x-b*y, b*x+a*y\n";

// The system of a text.
fn system_of(alloc: Global, text: &[u8]) -> Option<System>
    ensures { IfSome result (λ told. IsSystem told.system) }
{
    if text.len() > 10_000 {
        return None;
    }
    match read_system(alloc, text) {
        Ok(system) => Some(system),
        Err(_) => None,
    }
}

// How many generators there are.
fn count_of(alloc: Global, text: &[u8]) -> Option<usize> {
    let system = system_of(alloc, text)?;
    match pieces(alloc, &system) {
        Ok(found) => Some(found.fractions.len()),
        Err(_) => None,
    }
}

// Whether the work halts in the phase, after so many entries.
fn halts_in(alloc: Global, text: &[u8], wanted: Phase, entries: usize) -> bool {
    let Some(system) = system_of(alloc, text) else {
        return false;
    };
    match pieces(alloc, &system) {
        Err(GenStop::Incomplete { phase, journal, .. }) => {
            phase == wanted && journal.len() == entries
        }
        _ => false,
    }
}

// Whether a part of the law is false.
fn breaks(alloc: Global, text: &[u8], law: LawName, part: u32) -> bool {
    let Some(system) = system_of(alloc, text) else {
        return false;
    };
    match pieces(alloc, &system) {
        Err(GenStop::Law(fault)) => fault.law == law && fault.part == part,
        _ => false,
    }
}

// Whether these are the symbols of the terms.
fn are_symbols(tail: &[(Mono, Symbol)], wanted: &[Symbol]) -> bool {
    if tail.len() != wanted.len() {
        return false;
    }
    for k in 0..wanted.len() {
        if tail[k].1 != wanted[k] {
            return false;
        }
    }
    true
}

// Whether the tail of the relation at a place has these symbols.
fn has_symbols(alloc: Global, text: &[u8], place: usize, wanted: &[Symbol]) -> bool {
    let Some(system) = system_of(alloc, text) else {
        return false;
    };
    let Ok(found) = pieces(alloc, &system) else {
        return false;
    };
    match found.relations.get(place) {
        Some(relation) => are_symbols(&relation.tail, wanted),
        None => false,
    }
}

#[test]
fn finds_as_many_generators(rt: HostRuntime) {
    assert!(rt; count_of(rt.alloc(), ROTATIONS) == Some(1));
    assert!(rt; count_of(rt.alloc(), TRANSLATIONS) == Some(1));
    assert!(rt; count_of(rt.alloc(), SCALINGS) == Some(1));
    assert!(rt; count_of(rt.alloc(), SIGNS) == Some(1));
    assert!(rt; count_of(rt.alloc(), SHIFTS) == Some(1));
    assert!(rt; count_of(rt.alloc(), NEAR_SHIFTS) == Some(1));
    assert!(rt; count_of(rt.alloc(), NEAR_SIGNS) == Some(1));
    assert!(rt; count_of(rt.alloc(), PLANE_SIGNS) == Some(2));
    assert!(rt; count_of(rt.alloc(), EXCHANGES) == Some(2));
    assert!(rt; count_of(rt.alloc(), QUADRATICS) == Some(1));
}

#[test]
fn leaves_constants_out_and_numbers_values_once(rt: HostRuntime) {
    assert!(rt;
        has_symbols(
            rt.alloc(),
            ROTATIONS,
            0,
            &[Symbol::Constant(100), Symbol::Generator(1)]
        ),
        "of -Z2^2 + x^2 + y^2 the first coefficient is a number"
    );
    assert!(rt;
        has_symbols(
            rt.alloc(),
            EXCHANGES,
            1,
            &[Symbol::Generator(1), Symbol::Generator(2)]
        ),
        "x + y has its number already"
    );
}

#[test]
fn says_where_the_work_halts(rt: HostRuntime) {
    assert!(rt;
        halts_in(rt.alloc(), NO_PAIRS, Phase::Action, 0),
        "the group's run has no pair"
    );
}

#[test]
fn names_a_false_law(rt: HostRuntime) {
    assert!(rt;
        breaks(rt.alloc(), WRONG_PRODUCT, LawName::L2, 0),
        "products of points are no points"
    );
}
