//! What `certify` writes, and the answer of `check` to it.

use crate::tests::run;
use rinv_serve::Status;
use std::alloc::{AllocError as NoMemory, Global};
use std::test::Fail;

const TRANSLATIONS: &str =
    "field 101\ngroup a\nspace x, y\nunit 0\nproduct a+a'\ninverse -a\naction x+a, y\n";

const SCALINGS: &str =
    "field 101\ngroup a, b\nspace x, y\nideal a*b-1\nunit 1, 1\nproduct a*a', b*b'\ninverse b, a\naction a*x, a*y\n";

// A text of a system, the lines behind it, and what `check` answers to its certificate.
const ROWS: [(&str, &str, &str); 3] = [
    (TRANSLATIONS, "", "yes\ny1 = y\ncomplete\n"),
    (SCALINGS, "", "yes\ny1 = x/y\ncomplete\n"),
    (SCALINGS, "section y-1\n", "yes\ny1 = x/y\nsound\n"),
];

// Whether `certify` is done with the text, and `check` answers so to what it wrote.
fn is_accepted(alloc: Global, row: &(&str, &str, &str)) -> Result<bool, NoMemory> {
    let (text, lines, answer) = row;
    let input = format!(in alloc; "{text}{lines}")?;
    let words: &[&str] = &["certify"];
    let (made, certificate) = run(alloc, words, input.into_bytes(), (100, 0), (100, 0), 10_000)?;
    let words: &[&str] = &["check"];
    let (found, written) = run(alloc, words, certificate, (100, 0), (100, 0), 64)?;
    Ok(made == Status::Done && found == Status::Done && written.as_slice() == answer.as_bytes())
}

#[test]
fn checks_what_it_certified(rt: HostRuntime) -> Result<(), Fail> {
    for row in &ROWS {
        assert!(rt; is_accepted(rt.alloc(), row)?, "{}", row.2);
    }
    Ok(())
}
