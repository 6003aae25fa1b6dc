//! Rows of `laws`.

use crate::tests::run;
use rinv_serve::Status;
use std::alloc::{AllocError as NoMemory, Global};
use std::test::Fail;

// Rotations of the plane.
const ROTATIONS: &str =
    "field 101\ngroup a, b\nspace x, y\nideal a^2+b^2-1\nunit 1, 0\nproduct a*a'-b*b', a*b'+b*a'\ninverse a, -b\naction a*x-b*y, b*x+a*y\n";

// The affine group of the line.
const AFFINE: &str =
    "field 101\ngroup a, b, c\nspace x\nideal a*b-1\nunit 1, 1, 0\nproduct a*a', b*b', a*c'+c\ninverse b, a, -b*c\naction a*x+c\n";

// Texts of systems, what stands in them and what is put there, the answer and the status.
const LAWS: [(&str, &str, &str, &str, Status); 12] = [
    (ROTATIONS, "101", "101", "laws hold\n", Status::Done),
    (AFFINE, "101", "101", "laws hold\n", Status::Done),
    (
        ROTATIONS,
        "a*a'-b*b'",
        "a*a'+b*b'",
        "denied law L2 part 1 rest 4*a*b*a'*b'\n",
        Status::Denied,
    ),
    (
        AFFINE,
        "a*c'+c",
        "a'*c+c'",
        "denied law A2 part 1 rest 100*c*a' + a*c' + c + 100*c'\n",
        Status::Denied,
    ),
    (
        ROTATIONS,
        "ideal a^2+b^2-1",
        "ideal 1",
        "denied law L1 part 1 rest 1\n",
        Status::Denied,
    ),
    (
        ROTATIONS,
        "unit 1, 0",
        "unit 100, 0",
        "denied law L5 part 1 rest 99*a\n",
        Status::Denied,
    ),
    (
        ROTATIONS,
        "ideal a^2+b^2-1",
        "ideal a^2+b^2-1, a^2+b^2-1\nbudget pairs 0",
        "incomplete group pairs 0\n",
        Status::Incomplete,
    ),
    (
        ROTATIONS,
        "ideal a^2+b^2-1",
        "ideal a^2+b^2-1, a*b\nbudget steps 0",
        "incomplete group steps 0\n",
        Status::Incomplete,
    ),
    (
        ROTATIONS,
        "101",
        "100",
        "refused line 1 Field not listed\n",
        Status::Refused,
    ),
    (
        ROTATIONS,
        "unit 1, 0",
        "",
        "refused line 9 Missing\n",
        Status::Refused,
    ),
    (
        ROTATIONS,
        "inverse a, -b",
        "inverse a, -",
        "refused line 7 Expression\n",
        Status::Refused,
    ),
    (
        ROTATIONS,
        "space x, y",
        "space x, a",
        "refused line 3 Name\n",
        Status::Refused,
    ),
];

// Whether `laws` answers so to the text with a part of it changed.
fn answers(alloc: Global, row: &(&str, &str, &str, &str, Status)) -> Result<bool, NoMemory> {
    let (text, old, new, answer, status) = row;
    let input = match text.split_once(old) {
        Some((before, after)) => format!(in alloc; "{before}{new}{after}")?,
        None => return Ok(false),
    };
    let (found, written) = run(alloc, &["laws"], input.into_bytes(), (100, 0), (100, 0), 64)?;
    Ok(found == *status && written.as_slice() == answer.as_bytes())
}

#[test]
fn answers_the_laws_of_systems(rt: HostRuntime) -> Result<(), Fail> {
    for row in &LAWS {
        assert!(rt; answers(rt.alloc(), row)?, "{}", row.3);
    }
    Ok(())
}
