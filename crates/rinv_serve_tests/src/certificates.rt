//! Rows of `check` on certificates of the kinds `full` and `sound`.

use crate::tests::run;
use rinv_serve::Status;
use std::alloc::{AllocError as NoMemory, Global};
use std::test::Fail;

// Translations of the plane along x, and that y generates the invariants.
const FULL: &str =
    "{\"action\":[[[1,[1,0,0]],[1,[0,1,0]]],[[1,[0,0,1]]]],\"basis\":[[[[1,[1,0,0,0,0]],[100,[0,1,0,0,0]],[1,[0,0,0,1,0]]],[]],[[[1,[0,0,1,0,0]],[100,[0,0,0,0,1]]],[]]],\"field\":101,\"fractions\":[[[[1,[0,1]]],[[1,[0,0]]]]],\"group\":[\"a\"],\"ideal\":[],\"inputs\":[[[[100,[0,0,0,0,0]]],[]],[[],[[1,[0,0,0,0,0]]]]],\"invariance\":[[]],\"inverse\":[[[100,[1]]]],\"kind\":\"full\",\"laws\":{\"A2\":[[],[]],\"L2\":[],\"L3\":[],\"L4\":[[]],\"L5\":[[],[]],\"L6\":[[],[]]},\"pairs\":[[\"coprime\",1,2]],\"product\":[[[1,[1,0]],[1,[0,1]]]],\"relations\":[[[0,1],[[1,[0,0]]],[[[0,0],[[1,[0,1]]],[\"generator\",1]]],[]]],\"space\":[\"x\",\"y\"],\"unit\":[0],\"version\":1}";

// The same, and that y is invariant.
const SOUND: &str =
    "{\"action\":[[[1,[1,0,0]],[1,[0,1,0]]],[[1,[0,0,1]]]],\"field\":101,\"fractions\":[[[[1,[0,1]]],[[1,[0,0]]]]],\"group\":[\"a\"],\"ideal\":[],\"invariance\":[[]],\"inverse\":[[[100,[1]]]],\"kind\":\"sound\",\"laws\":{\"A2\":[[],[]],\"L2\":[],\"L3\":[],\"L4\":[[]],\"L5\":[[],[]],\"L6\":[[],[]]},\"product\":[[[1,[1,0]],[1,[0,1]]]],\"space\":[\"x\",\"y\"],\"unit\":[0],\"version\":1}";

// Certificates, what stands in them and what is put there, the answer and the status.
const ROWS: [(&str, &str, &str, &str, Status); 8] = [
    (FULL, "101", "101", "yes\ny1 = y\ncomplete\n", Status::Done),
    (SOUND, "101", "101", "yes\ny1 = y\nsound\n", Status::Done),
    (
        FULL,
        "\"unit\":[0]",
        "\"unit\":[1]",
        "no C2 5\n",
        Status::Denied,
    ),
    (
        FULL,
        "\"inputs\":[[[[100",
        "\"inputs\":[[[[99",
        "no C4 1\n",
        Status::Denied,
    ),
    (
        FULL,
        "\"coprime\",1,2",
        "\"coprime\",2,1",
        "no C1 16\n",
        Status::Denied,
    ),
    (
        FULL,
        "[[\"coprime\",1,2]]",
        "[]",
        "no C5 1\n",
        Status::Denied,
    ),
    (
        FULL,
        "\"generator\",1",
        "\"constant\",1",
        "no C6 1\n",
        Status::Denied,
    ),
    (
        FULL,
        "\"kind\":\"full\"",
        "\"kind\":\"sound\"",
        "refused key 0\n",
        Status::Refused,
    ),
];

// Whether `check` answers so to the certificate with a part of it changed.
fn answers(alloc: Global, row: &(&str, &str, &str, &str, Status)) -> Result<bool, NoMemory> {
    let (text, old, new, answer, status) = row;
    let input = match text.split_once(old) {
        Some((before, after)) => format!(in alloc; "{before}{new}{after}")?,
        None => return Ok(false),
    };
    let (found, written) = run(
        alloc,
        &["check"],
        input.into_bytes(),
        (100, 0),
        (100, 0),
        64,
    )?;
    Ok(found == *status && written.as_slice() == answer.as_bytes())
}

#[test]
fn answers_certificates_of_the_other_kinds(rt: HostRuntime) -> Result<(), Fail> {
    for row in &ROWS {
        assert!(rt; answers(rt.alloc(), row)?, "{}", row.3);
    }
    Ok(())
}
