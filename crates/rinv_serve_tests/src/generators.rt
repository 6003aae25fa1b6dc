//! Worked rows of `gen`, from the bytes read to the bytes written.

use crate::tests::run;
use rinv_serve::Status;
use std::alloc::{AllocError as NoMemory, Global};
use std::test::Fail;

const ROTATIONS: &str =
    "field 101\ngroup a, b\nspace x, y\nideal a^2+b^2-1\nunit 1, 0\nproduct a*a'-b*b', a*b'+b*a'\ninverse a, -b\naction a*x-b*y, b*x+a*y\n";

const TRANSLATIONS: &str =
    "field 101\ngroup a\nspace x, y\nunit 0\nproduct a+a'\ninverse -a\naction x+a, y\n";

const SCALINGS: &str =
    "field 101\ngroup a, b\nspace x, y\nideal a*b-1\nunit 1, 1\nproduct a*a', b*b'\ninverse b, a\naction a*x, a*y\n";

const SIGNS: &str =
    "field 7\ngroup a\nspace x\nideal a^2-1\nunit 1\nproduct a*a'\ninverse a\naction a*x\n";

const SHIFTS: &str =
    "field 5\ngroup a\nspace x\nideal a^5-a\nunit 0\nproduct a+a'\ninverse -a\naction x+a\n";

// SL2 on binary quadratics.
const QUADRATICS: &str =
    "field 32003\ngroup a, b, c, d\nspace u, v, w\nideal a*d-b*c-1\nunit 1, 0, 0, 1\nproduct a*a'+b*c', a*b'+b*d', c*a'+d*c', c*b'+d*d'\ninverse d, -b, -c, a\naction a^2*u+a*b*v+b^2*w, 2*a*c*u+(a*d+b*c)*v+2*b*d*w, c^2*u+c*d*v+d^2*w\nbudget pairs 100000\nbudget steps 2000000\n";

// Rigid motions of two points of the plane.
const MOTIONS: &str =
    "field 101\ngroup a, b, c, d\nspace u, v, s, t\nideal a^2+b^2-1\nunit 1, 0, 0, 0\nproduct a*a'-b*b', a*b'+b*a', a*c'-b*d'+c, b*c'+a*d'+d\ninverse a, -b, -a*c-b*d, b*c-a*d\naction a*u-b*v+c, b*u+a*v+d, a*s-b*t+c, b*s+a*t+d\nbudget pairs 100000\nbudget steps 2000000\n";

// Texts of systems, what stands in them and what is put there, the answer and the status.
const ROWS: [(&str, &str, &str, &str, Status); 21] = [
    (
        ROTATIONS,
        "101",
        "101",
        "y1 = x^2 + y^2\ncomplete\n",
        Status::Done,
    ),
    (
        TRANSLATIONS,
        "101",
        "101",
        "y1 = y\ncomplete\n",
        Status::Done,
    ),
    (SCALINGS, "101", "101", "y1 = x/y\ncomplete\n", Status::Done),
    (SIGNS, "7", "7", "y1 = x^2\ncomplete\n", Status::Done),
    (SHIFTS, "5", "5", "y1 = x^5 + 4*x\ncomplete\n", Status::Done),
    (SHIFTS, "a^5-a", "a^5", "y1 = x^5\ncomplete\n", Status::Done),
    (SIGNS, "7", "2", "y1 = x^2\ncomplete\n", Status::Done),
    (
        QUADRATICS,
        "32003",
        "32003",
        "y1 = v^2 + 31999*u*w\ncomplete\n",
        Status::Done,
    ),
    (
        MOTIONS,
        "101",
        "101",
        "y1 = u^2 + v^2 + 99*u*s + s^2 + 99*v*t + t^2\ncomplete\n",
        Status::Done,
    ),
    (
        ROTATIONS,
        "ideal a^2+b^2-1",
        "ideal 1",
        "denied law L1 part 1 rest 1\n",
        Status::Denied,
    ),
    (
        ROTATIONS,
        "b*x+a*y\n",
        "b*x+a*y\nbudget pairs 0\n",
        "incomplete action pairs 0\n",
        Status::Incomplete,
    ),
    (
        ROTATIONS,
        "b*x+a*y\n",
        "b*x+a*y\nbudget steps 0\n",
        "incomplete action steps 0\n",
        Status::Incomplete,
    ),
    (
        TRANSLATIONS,
        "101",
        "4",
        "refused line 1 Field not listed\n",
        Status::Refused,
    ),
    (
        TRANSLATIONS,
        "101",
        "1",
        "refused line 1 Field too small\n",
        Status::Refused,
    ),
    (
        TRANSLATIONS,
        "101",
        "32003",
        "y1 = y\ncomplete\n",
        Status::Done,
    ),
    (
        TRANSLATIONS,
        "101",
        "32004",
        "refused line 1 Field too large\n",
        Status::Refused,
    ),
    (
        TRANSLATIONS,
        "space x, y",
        "space x, x",
        "refused line 3 Name\n",
        Status::Refused,
    ),
    (
        TRANSLATIONS,
        "x+a, y",
        "x^65+a, y",
        "refused line 7 FormalDegree\n",
        Status::Refused,
    ),
    (
        TRANSLATIONS,
        "x+a, y\n",
        "x+a, y\nrewrite y\n",
        "refused line 8 Word\n",
        Status::Refused,
    ),
    (
        SIGNS,
        "space x\nideal a^2-1\nunit 1\nproduct a*a'\ninverse a\naction a*x",
        "space x, y\nideal a^2-1\nunit 1\nproduct a*a'\ninverse a\naction a*x, a*y",
        "y1 = x/y\ny2 = y^2\ncomplete\n",
        Status::Done,
    ),
    (
        SIGNS,
        "space x\nideal a^2-1\nunit 1\nproduct a*a'\ninverse a\naction a*x",
        "space x, y\nideal a^2-1\nunit 1\nproduct a*a'\ninverse a\naction 4*(1+a)*x+4*(1-a)*y, 4*(1-a)*x+4*(1+a)*y",
        "y1 = x + y\ny2 = 6*x*y\ncomplete\n",
        Status::Done,
    ),
];

// Whether `gen` answers so to the text with a part of it changed.
fn answers(alloc: Global, row: &(&str, &str, &str, &str, Status)) -> Result<bool, NoMemory> {
    let (text, old, new, answer, status) = row;
    let input = match text.split_once(old) {
        Some((before, after)) => format!(in alloc; "{before}{new}{after}")?,
        None => return Ok(false),
    };
    let (found, written) = run(alloc, &["gen"], input.into_bytes(), (100, 0), (100, 0), 64)?;
    Ok(found == *status && written.as_slice() == answer.as_bytes())
}

// The text of translations, read and written in pieces, where a read or a write may fail.
fn pieces_give(
    alloc: Global,
    reads: (usize, u32),
    writes: (usize, u32),
    text: &str,
    status: Status,
) -> Result<bool, NoMemory> {
    let bytes = Vec::from_slice(alloc, TRANSLATIONS.as_bytes())?;
    let (found, written) = run(alloc, &["gen"], bytes, reads, writes, 64)?;
    Ok(found == status && written.as_slice() == text.as_bytes())
}

#[test]
fn answers_the_generators_of_systems(rt: HostRuntime) -> Result<(), Fail> {
    for row in &ROWS {
        assert!(rt; answers(rt.alloc(), row)?, "{}", row.3);
    }
    Ok(())
}

#[test]
fn tells_failing_devices_apart(rt: HostRuntime) -> Result<(), Fail> {
    let alloc = rt.alloc();
    assert!(rt;
        pieces_give(alloc, (10, 2), (100, 0), "", Status::ReadFault)?,
        "the second read fails"
    );
    assert!(rt;
        pieces_give(alloc, (100, 0), (3, 2), "y1 ", Status::WriteFault)?,
        "the second write fails"
    );
    assert!(rt;
        pieces_give(alloc, (100, 0), (1, 0), "y1 = y\ncomplete\n", Status::Done)?,
        "a byte at a time"
    );
    Ok(())
}

#[test]
fn refuses_an_empty_input_and_one_that_is_too_long(rt: HostRuntime) -> Result<(), Fail> {
    let alloc = rt.alloc();
    for (length, text) in [
        (0usize, "refused line 1 Missing\n"),
        (16_777_217, "refused input too long\n"),
    ] {
        let bytes = vec![in alloc; b'#'; length]?;
        let (found, written) = run(alloc, &["gen"], bytes, (65_536, 0), (7, 0), 64)?;
        assert_eq!(rt; written.as_slice(), text.as_bytes());
        assert_eq!(rt; found, Status::Refused);
    }
    Ok(())
}
