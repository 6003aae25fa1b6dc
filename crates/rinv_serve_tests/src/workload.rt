//! The workload: its summary, and numbers that are none of its command.

use crate::tests::run;
use rinv_serve::Status;
use std::alloc::{AllocError as NoMemory, Global};
use std::test::Fail;

const SUMMARY: &str =
    "bench 3\ngenerators 1\nrewritten 2\nnot invariant 1\nlast 2 = (y1^3 + 10*y1^2 + 67*y1 + 52)/(y1 + 38)\ncomplete\n";

// The number, the answer and the status.
const ROWS: [(&str, &str, Status); 6] = [
    ("3", SUMMARY, Status::Done),
    ("0", "", Status::Usage),
    ("1001", "", Status::Usage),
    ("03", "", Status::Usage),
    ("", "", Status::Usage),
    (
        "1000000000000000000000000000000000000000",
        "",
        Status::Usage,
    ),
];

// Whether `bench` answers so. Nothing is read: the first read would fail.
fn answers(alloc: Global, row: &(&str, &str, Status)) -> Result<bool, NoMemory> {
    let (number, answer, status) = row;
    let words: &[&str] = &["bench", *number];
    let (found, written) = run(alloc, words, Vec::new(alloc), (100, 1), (100, 0), 200)?;
    Ok(found == *status && written.as_slice() == answer.as_bytes())
}

#[test]
fn sums_up_the_workload(rt: HostRuntime) -> Result<(), Fail> {
    for row in &ROWS {
        assert!(rt; answers(rt.alloc(), row)?, "{}", row.0);
    }
    Ok(())
}
