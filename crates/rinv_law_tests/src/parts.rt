//! The parts of the laws: how many there are, and how many terms each has.

use rinv_laws::LawName;
use rinv_parts::{part_at, part_count, parts_of, variables_of};
use rinv_system::read_system;
use std::alloc::Global;

// Rotations of the plane.
const ROTATIONS: &[u8] =
    b"field 101\ngroup a, b\nspace x, y\nideal a^2+b^2-1\nunit 1, 0\nproduct a*a'-b*b', a*b'+b*a'\ninverse a, -b\naction a*x-b*y, b*x+a*y\n";

// No action: the square of a sum is not the sum of the squares.
const SQUARES: &[u8] =
    b"field 101\ngroup a\nspace x\nunit 0\nproduct a+a'\ninverse -a\naction x+a^2\n";

// A law, a place, and how many terms the part there has.
const TERMS_OF_ROTATIONS: [(LawName, u32, u32); 9] = [
    (LawName::L1, 0, 0),
    (LawName::L2, 0, 5),
    (LawName::L3, 0, 3),
    (LawName::L4, 1, 0),
    (LawName::L5, 3, 0),
    (LawName::L6, 0, 3),
    (LawName::L6, 1, 0),
    (LawName::L6, 2, 3),
    (LawName::A1, 1, 0),
];

// Whether the part at the place has so many terms.
fn has_terms(alloc: Global, text: &[u8], law: LawName, place: u32, terms: u32) -> bool {
    if text.len() > 10_000 {
        return false;
    }
    let Ok(system) = read_system(alloc, text) else {
        return false;
    };
    if place >= part_count(&system, law) {
        return false;
    }
    let Ok(parts) = parts_of(alloc, &system, law) else {
        return false;
    };
    match part_at(alloc, &system, &parts, place) {
        Ok(part) => parts.ring.len(&part) == terms,
        Err(_) => false,
    }
}

// Whether the law has so many parts, in so many variables.
fn has_parts(alloc: Global, text: &[u8], law: LawName, parts: u32, variables: u32) -> bool {
    if text.len() > 10_000 {
        return false;
    }
    match read_system(alloc, text) {
        Ok(system) => part_count(&system, law) == parts && variables_of(&system, law) == variables,
        Err(_) => false,
    }
}

#[test]
fn parts_have_their_terms(rt: HostRuntime) {
    for (law, place, terms) in TERMS_OF_ROTATIONS {
        assert!(rt;
            has_terms(rt.alloc(), ROTATIONS, law, place, terms),
            "the part has its terms"
        );
    }
    assert!(rt;
        has_terms(rt.alloc(), SQUARES, LawName::A2, 0, 1),
        "a^2 + a'^2 - (a+a')^2"
    );
}

#[test]
fn laws_have_their_parts(rt: HostRuntime) {
    for (law, parts, variables) in [
        (LawName::L1, 1, 0),
        (LawName::L4, 2, 6),
        (LawName::L5, 4, 2),
        (LawName::A2, 2, 6),
    ] {
        assert!(rt;
            has_parts(rt.alloc(), ROTATIONS, law, parts, variables),
            "the law has its parts"
        );
    }
}
