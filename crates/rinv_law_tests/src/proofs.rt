//! The proofs of the laws: how many cofactors each part has. That they multiply out is in the contract.

use rinv_div::Budget;
use rinv_laws::{LawName, LawProofs, check_laws, group_basis};
use rinv_system::read_system;
use std::alloc::Global;

// Rotations of the plane.
const ROTATIONS: &[u8] =
    b"field 101\ngroup a, b\nspace x, y\nideal a^2+b^2-1\nunit 1, 0\nproduct a*a'-b*b', a*b'+b*a'\ninverse a, -b\naction a*x-b*y, b*x+a*y\n";

// Translations along x, whose group has no ideal.
const TRANSLATIONS: &[u8] =
    b"field 101\ngroup a\nspace x, y\nunit 0\nproduct a+a'\ninverse -a\naction x+a, y\n";

// Two generators of one ideal, whose reduced basis has one element.
const SCALINGS: &[u8] =
    b"field 101\ngroup a, b\nspace x\nideal a*b-1, a^2*b-a\nunit 1, 1\nproduct a*a', b*b'\ninverse b, a\naction a*x\n";

// For each law the number of its parts, and of the cofactors of each.
type Counts = [(LawName, usize, usize); 6];

const OF_ROTATIONS: Counts = [
    (LawName::L2, 1, 2),
    (LawName::L3, 1, 1),
    (LawName::L4, 2, 3),
    (LawName::L5, 4, 1),
    (LawName::L6, 4, 1),
    (LawName::A2, 2, 2),
];

const OF_TRANSLATIONS: Counts = [
    (LawName::L2, 0, 0),
    (LawName::L3, 0, 0),
    (LawName::L4, 1, 0),
    (LawName::L5, 2, 0),
    (LawName::L6, 2, 0),
    (LawName::A2, 2, 0),
];

const OF_SCALINGS: Counts = [
    (LawName::L2, 2, 4),
    (LawName::L3, 2, 2),
    (LawName::L4, 2, 6),
    (LawName::L5, 4, 2),
    (LawName::L6, 4, 2),
    (LawName::A2, 1, 4),
];

// The proofs of the laws of a system, where the text is one and its laws hold.
fn proofs_of(alloc: Global, text: &[u8]) -> Option<LawProofs> {
    if text.len() > 10_000 {
        return None;
    }
    let Ok(system) = read_system(alloc, text) else {
        return None;
    };
    let mut endless = Budget::without_end();
    let Ok(group) = group_basis(alloc, &system, &mut endless) else {
        return None;
    };
    match check_laws(alloc, &system, &group) {
        Ok(proofs) => Some(proofs),
        Err(_) => None,
    }
}

// Whether the laws of the system are proved by as many cofactors.
fn has_counts(alloc: Global, text: &[u8], counts: &Counts) -> bool {
    let Some(proofs) = proofs_of(alloc, text) else {
        return false;
    };
    if proofs.cofactors.len() != counts.len() {
        return false;
    }
    for k in 0..counts.len() {
        let (law, parts, many) = counts[k];
        let (name, arrays) = &proofs.cofactors[k];
        if *name != law || arrays.len() != parts || !are_long(arrays, many) {
            return false;
        }
    }
    true
}

// Whether each list has so many entries.
fn are_long<T: Drop>(lists: &[Vec<T>], many: usize) -> bool {
    for list in lists {
        if list.len() != many {
            return false;
        }
    }
    true
}

#[test]
fn proves_each_part_by_cofactors(rt: HostRuntime) {
    for (text, counts) in [
        (ROTATIONS, &OF_ROTATIONS),
        (TRANSLATIONS, &OF_TRANSLATIONS),
        (SCALINGS, &OF_SCALINGS),
    ] {
        assert!(rt;
            has_counts(rt.alloc(), text, counts),
            "each part has its cofactors"
        );
    }
}
