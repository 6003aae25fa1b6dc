//! Worked texts of systems, and how changed ones are refused.

ghost use Rattle.std.specs.Prelude.{IfOk};
ghost use Rattle.rinv_defs.specs.SystemForm.{IsSystem};

use rinv_ring::FieldFault;
use rinv_system::{Code, SystemStop, read_system, write_system};
use rinv_text::{System, TextCode};
use std::alloc::{AllocError, Global};
use std::test::Fail;

// Translations along x.
const TRANSLATIONS: &str =
    "field 101\ngroup a\nspace x, y\nunit 0\nproduct a+a'\ninverse -a\naction x+a, y\n";

// Parts of the text above, and others in place of them; the line that is refused, and why.
const CHANGED: &[(&str, &str, u32, Code)] = &[
    ("group a", "field 101", 2, Code::Missing),
    ("x+a, y\n", "x+a, y\nunit 0", 8, Code::Twice),
    (
        "x+a, y\n",
        "x+a, y\nideal a+",
        8,
        Code::Text(TextCode::Expression),
    ),
    ("unit 0", "unit 0, 0", 4, Code::Count),
    ("x+a, y", "x/a, y", 7, Code::Text(TextCode::Expression)),
    ("x+a, y", "x+a, z", 7, Code::Text(TextCode::Name)),
    (
        "x+a, y\n",
        "x+a, y\nbudget pairs 1000001",
        8,
        Code::Text(TextCode::Limit),
    ),
    ("group a", "group y1", 2, Code::Text(TextCode::Name)),
    ("x+a, y\n", "x+a, y\n\nsections y-1", 9, Code::Word),
    ("x+a, y\n", "x+a, y\nsection x\nsection y", 9, Code::Twice),
    (
        "x+a, y\n",
        "x+a, y\nsection x+a",
        8,
        Code::Text(TextCode::Name),
    ),
    (
        "x+a, y\n",
        "x+a, y\nsection",
        8,
        Code::Text(TextCode::Expression),
    ),
    (
        "x+a, y\n",
        "x+a, y\nsection x,x,x,x,x,x,x,x,x,x,x,x,x,x,x,x,x,x,x,x,x,x,x,x,x,x,x,x,x,x,x,x,x,x,x,x,x,x,x,x,x,x,x,x,x,x,x,x,x,x,x,x,x,x,x,x,x,x,x,x,x,x,x,x,x",
        8,
        Code::Text(TextCode::Limit),
    ),
    ("101", "4", 1, Code::Field(FieldFault::NotListed)),
    ("101", "1", 1, Code::Field(FieldFault::TooSmall)),
    ("101", "32004", 1, Code::Field(FieldFault::TooLarge)),
    ("x, y", "x, x", 3, Code::Text(TextCode::Name)),
    ("x+a, y", "x^65+a, y", 7, Code::Text(TextCode::FormalDegree)),
    ("x+a, y\n", "x+a, y\nrewrite y", 8, Code::Word),
    ("x+a, y\n", "x+a, y\nbudget 5", 8, Code::Word),
    ("inverse -a", "", 8, Code::Missing),
    ("unit 0", "unit 0\u{7f}", 4, Code::NotText),
];

// Whole texts that are refused.
const WHOLE: &[(&str, u32, Code)] = &[
    ("", 1, Code::Missing),
    ("\n", 2, Code::Missing),
    ("# nothing", 2, Code::Missing),
];

// Texts that are read, and how many variables the group and the space have, and elements the ideal, the unit, the action and the section.
const WORKED: &[(&str, [usize; 6])] = &[
    (TRANSLATIONS, [1, 2, 0, 1, 2, 0]),
    (
        "field 101\ngroup a, b\nspace x, y\nideal a^2+b^2-1\nunit 1, 0\nproduct a*a'-b*b', a*b'+b*a'\ninverse a, -b\naction a*x-b*y, b*x+a*y",
        [2, 2, 1, 2, 2, 0],
    ),
    (
        "field 101\r\ngroup a, b\r\n\tspace x ,y # two\r\n\r\nideal a*b-1\r\nunit 1, 1\r\nproduct a*a', b*b'\r\ninverse b, a\r\naction a*x, a*y\r",
        [2, 2, 1, 2, 2, 0],
    ),
    (
        "field 7\ngroup a\nspace x, y\nideal a^2-1\nunit 1\nproduct a*a'\ninverse a\naction 4*(1+a)*x+4*(1-a)*y, 4*(1-a)*x+4*(1+a)*y",
        [1, 2, 1, 1, 2, 0],
    ),
    (
        "field 5\ngroup a\nspace x\nideal a^5-a\nunit 0\nproduct a+a'\ninverse -a\naction x+a\nbudget pairs 0\nbudget\tsteps 7",
        [1, 1, 1, 1, 1, 0],
    ),
    (
        "field 32003\ngroup a, b, c, d\nspace u, v, w\nideal a*d-b*c-1\nunit 1, 0, 0, 1\nproduct a*a'+b*c', a*b'+b*d', c*a'+d*c', c*b'+d*d'\ninverse d, -b, -c, a\naction a^2*u+a*b*v+b^2*w, 2*a*c*u+(a*d+b*c)*v+2*b*d*w, c^2*u+c*d*v+d^2*w\nbudget pairs 100000\nbudget steps 2000000",
        [4, 3, 1, 4, 3, 0],
    ),
    (
        "field 101\ngroup a, b, c, d\nspace u, v, s, t\nideal a^2+b^2-1\nunit 1, 0, 0, 0\nproduct a*a'-b*b', a*b'+b*a', a*c'-b*d'+c, b*c'+a*d'+d\ninverse a, -b, -a*c-b*d, b*c-a*d\naction a*u-b*v+c, b*u+a*v+d, a*s-b*t+c, b*s+a*t+d",
        [4, 4, 1, 4, 4, 0],
    ),
    (
        "field 101\ngroup a, b, c\nspace x\nideal a*b-1\nunit 1, 1, 0\nproduct a*a', b*b', a*c'+c\ninverse b, a, -b*c\naction a*x+c",
        [3, 1, 1, 3, 1, 0],
    ),
    (
        "field 2\ngroup a\nspace x\nideal a^2-1\nunit 1\nproduct a*a'\ninverse a\naction a*x",
        [1, 1, 1, 1, 1, 0],
    ),
    (
        "field 7\ngroup a\nspace x\nideal a^2-1\nunit 1\nproduct a*a'\ninverse a\naction a*x",
        [1, 1, 1, 1, 1, 0],
    ),
    (
        "field 5\ngroup a\nspace x\nideal a^5\nunit 0\nproduct a+a'\ninverse -a\naction x+a",
        [1, 1, 1, 1, 1, 0],
    ),
    (
        "field 101\ngroup a, b\nspace x\nideal a*b-1\nunit 1, 1\nproduct a*a', b*b'\ninverse b, a\naction a*x",
        [2, 1, 1, 2, 1, 0],
    ),
    (
        "field 5\ngroup a\nspace x\nunit 0\nproduct a+a'\ninverse -a\naction x+a",
        [1, 1, 0, 1, 1, 0],
    ),
    (
        "field 7\ngroup a\nspace x, y\nideal a^2-1\nunit 1\nproduct a*a'\ninverse a\naction a*x, a*y",
        [1, 2, 1, 1, 2, 0],
    ),
    (
        "field 101\ngroup a, b\nspace x, y\nsection y-1, 0\nideal a*b-1\nunit 1, 1\nproduct a*a', b*b'\ninverse b, a\naction a*x, a*y",
        [2, 2, 1, 2, 2, 2],
    ),
    (
        "field 101\ngroup a\nspace x, y\nunit 0\nproduct a+a'\ninverse -a\naction x+a, y\nsection x,x,x,x,x,x,x,x,x,x,x,x,x,x,x,x,x,x,x,x,x,x,x,x,x,x,x,x,x,x,x,x,x,x,x,x,x,x,x,x,x,x,x,x,x,x,x,x,x,x,x,x,x,x,x,x,x,x,x,x,x,x,x,x",
        [1, 2, 0, 1, 2, 64],
    ),
];

// Texts, and how they are written once they are read.
const WRITTEN: &[(&str, &str)] = &[
    (
        TRANSLATIONS,
        "field 101\ngroup a\nspace x, y\nunit 0\nproduct a + a'\ninverse 100*a\naction a + x, y\n",
    ),
    (
        "field 5\ngroup a\nspace x\nbudget\tsteps 7\nideal a^5-a\nunit 5\nproduct a+a'\ninverse -a\naction x+a\nbudget pairs 0",
        "field 5\ngroup a\nspace x\nideal a^5 + 4*a\nunit 0\nproduct a + a'\ninverse 4*a\naction a + x\nbudget pairs 0\nbudget steps 7\n",
    ),
    (
        "field 101\ngroup a\nspace x, y\nsection x-1, 2*x*y\nunit 0\nproduct a+a'\ninverse -a\naction x+a, y\nbudget steps 7",
        "field 101\ngroup a\nspace x, y\nunit 0\nproduct a + a'\ninverse 100*a\naction a + x, y\nsection x + 100, 2*x*y\nbudget steps 7\n",
    ),
];

// The text above, with a part of it changed.
fn changed(alloc: Global, old: &str, new: &str) -> Result<String, AllocError> {
    match TRANSLATIONS.split_once(old) {
        Some((before, after)) => format!(in alloc; "{before}{new}{after}"),
        None => format!(in alloc; "no {old}"),
    }
}

// The system that a text of a usual length denotes.
fn read(alloc: Global, text: &str) -> Result<System, SystemStop>
    ensures { IfOk result (λ told. IsSystem told.system) }
{
    if text.len() > 10_000 {
        return Err(SystemStop::NoMemory);
    }
    let system = read_system(alloc, text.as_bytes())?;
    Ok(system)
}

// Whether the text is refused at this line, and so.
fn refuses(alloc: Global, text: &str, line: u32, code: Code) -> bool {
    match read(alloc, text) {
        Err(SystemStop::Refused(refused)) => refused.line == line && refused.code == code,
        _ => false,
    }
}

#[test]
fn refuses_changed_texts(rt: HostRuntime) -> Result<(), Fail> {
    for (old, new, line, code) in CHANGED {
        let text = changed(rt.alloc(), old, new)?;
        assert!(rt;
            refuses(rt.alloc(), text.as_str(), *line, *code),
            "at {new}"
        );
    }
    Ok(())
}

#[test]
fn refuses_whole_texts(rt: HostRuntime) {
    for (text, line, code) in WHOLE {
        assert!(rt; refuses(rt.alloc(), text, *line, *code), "at {text}");
    }
}

// How many variables and elements the parts have.
fn sizes(system: &System) -> [usize; 6] {
    [
        system.group.len() as usize,
        system.space.len() as usize,
        system.ideal.len(),
        system.unit.len(),
        system.action.len(),
        system.section.len(),
    ]
}

// Whether the text is read as a system of these sizes.
fn reads(alloc: Global, text: &str, expected: &[usize; 6]) -> bool {
    match read(alloc, text) {
        Ok(system) => sizes(&system) == *expected,
        Err(_) => false,
    }
}

#[test]
fn reads_worked_texts(rt: HostRuntime) {
    for (text, expected) in WORKED {
        assert!(rt; reads(rt.alloc(), text, expected), "at {text}");
    }
}

// The text as it is written once it has been read.
fn rewritten(alloc: Global, text: &str) -> Result<Vec<u8>, SystemStop> {
    let system = read(alloc, text)?;
    let written = write_system(alloc, &system)?;
    Ok(written)
}

// Whether the text is written so.
fn is_written(alloc: Global, text: &str, written: &str) -> bool {
    match rewritten(alloc, text) {
        Ok(bytes) => bytes.as_slice() == written.as_bytes(),
        Err(_) => false,
    }
}

#[test]
fn writes_what_it_has_read(rt: HostRuntime) {
    for (text, written) in WRITTEN {
        assert!(rt; is_written(rt.alloc(), text, written), "at {text}");
        assert!(rt; is_written(rt.alloc(), written, written), "again at {text}");
    }
}
