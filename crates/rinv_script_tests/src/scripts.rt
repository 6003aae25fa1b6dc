//! Worked texts of scripts, and how others are refused.

use rinv_frac::FracRing;
use rinv_poly::PolyRing;
use rinv_script::{Form, Query, Script, read_script};
use rinv_system::{Code, SystemStop};
use rinv_text::TextCode;
use std::alloc::{AllocError, Global};
use std::test::Fail;

// Rotations of the plane.
const ROTATIONS: &str =
    "field 101\ngroup a, b\nspace x, y\nideal a^2+b^2-1\nunit 1, 0\nproduct a*a'-b*b', a*b'+b*a'\ninverse a, -b\naction a*x-b*y, b*x+a*y\n";

// Translations along x.
const TRANSLATIONS: &str =
    "field 101\ngroup a\nspace x, y\nunit 0\nproduct a+a'\ninverse -a\naction x+a, y\n";

// A query, and the numbers of terms of its fraction's numerator and denominator.
type Row = (char, usize, usize);

// Lines after the rotations, the form, and what they ask.
const ASKED: &[(&str, Form, &[(char, usize, usize)])] = &[
    ("", Form::SystemOnly, &[]),
    ("", Form::Rewrites, &[]),
    (
        "rewrite (x^2+y^2)^3/(x^2+y^2+1)\nrewrite x",
        Form::Rewrites,
        &[('r', 4, 3), ('r', 1, 1)],
    ),
    (
        "def r = x^2+y^2\nlaws\ninvariant r^2\ninvariant x\ngenerators",
        Form::Whole,
        &[('l', 0, 0), ('i', 3, 1), ('i', 1, 1), ('g', 0, 0)],
    ),
    (
        "def s=x/(x*y)\n# a comment\n\ndef t = s + y\nrewrite t/s",
        Form::Whole,
        &[('r', 2, 1)],
    ),
    ("invariant (y+y)^19", Form::Whole, &[('i', 1, 1)]),
    ("section y\nrewrite x", Form::Rewrites, &[('r', 1, 1)]),
];

// Lines after the translations, the form, the line that is refused, and why.
const REFUSED: &[(&str, Form, u32, Code)] = &[
    ("rewrite y", Form::SystemOnly, 8, Code::Word),
    ("def q = x", Form::Rewrites, 8, Code::Word),
    ("laws", Form::Rewrites, 8, Code::Word),
    ("bench 3", Form::Whole, 8, Code::Word),
    ("laws\nbudget pairs 5", Form::Whole, 9, Code::Word),
    ("def q = x\nsection q", Form::Whole, 9, Code::Word),
    (
        "rewrite 1/(y-y)",
        Form::Rewrites,
        8,
        Code::Text(TextCode::ZeroDenominator),
    ),
    (
        "def q = y-y\nrewrite x/q",
        Form::Whole,
        9,
        Code::Text(TextCode::ZeroDenominator),
    ),
    (
        "invariant (y+y)^20",
        Form::Whole,
        8,
        Code::Text(TextCode::FormalTerms),
    ),
    (
        "def q = x^33\nrewrite q^2",
        Form::Whole,
        9,
        Code::Text(TextCode::FormalDegree),
    ),
    (
        "def q = x\ndef q = x",
        Form::Whole,
        9,
        Code::Text(TextCode::Name),
    ),
    ("def x = y", Form::Whole, 8, Code::Text(TextCode::Name)),
    ("def a = y", Form::Whole, 8, Code::Text(TextCode::Name)),
    ("def y1 = y", Form::Whole, 8, Code::Text(TextCode::Name)),
    (
        "rewrite q\ndef q = x",
        Form::Whole,
        8,
        Code::Text(TextCode::Name),
    ),
    ("def q = q", Form::Whole, 8, Code::Text(TextCode::Name)),
    (
        "def q' = x",
        Form::Whole,
        8,
        Code::Text(TextCode::Expression),
    ),
    ("def q x", Form::Whole, 8, Code::Text(TextCode::Expression)),
    (
        "def x = y/",
        Form::Whole,
        8,
        Code::Text(TextCode::Expression),
    ),
    ("laws 1", Form::Whole, 8, Code::Text(TextCode::Expression)),
    (
        "generators x",
        Form::Whole,
        8,
        Code::Text(TextCode::Expression),
    ),
    (
        "invariant",
        Form::Whole,
        8,
        Code::Text(TextCode::Expression),
    ),
    (
        "rewrite x, y",
        Form::Whole,
        8,
        Code::Text(TextCode::Expression),
    ),
    ("rewrite x\n\u{7f}", Form::Whole, 9, Code::NotText),
];

// A query as a row. The field is only there to look into fractions.
fn row(query: &Query, field: &FracRing) -> Row {
    match query {
        Query::Laws => ('l', 0, 0),
        Query::Generators => ('g', 0, 0),
        Query::Invariant(f) => ('i', field.num(f).terms().len(), field.den(f).terms().len()),
        Query::Rewrite(f) => ('r', field.num(f).terms().len(), field.den(f).terms().len()),
    }
}

// Whether the queries are these.
fn are(queries: &[Query], field: &FracRing, expected: &[Row]) -> bool {
    if queries.len() != expected.len() {
        return false;
    }
    for k in 0..queries.len() {
        if row(&queries[k], field) != expected[k] {
            return false;
        }
    }
    true
}

// The text with more lines.
fn with(alloc: Global, system: &str, lines: &str) -> Result<String, AllocError> {
    format!(in alloc; "{system}{lines}")
}

// What a text of a usual length tells.
fn read(alloc: Global, text: &str, form: Form) -> Result<Script, SystemStop> {
    if text.len() > 1_000_000 {
        return Err(SystemStop::NoMemory);
    }
    let script = read_script(alloc, text.as_bytes(), form)?;
    Ok(script)
}

// Whether the script asks this.
fn has_asked(script: &Script, expected: &[Row]) -> bool {
    let field = FracRing::new(PolyRing::new(script.system.field, 2));
    are(&script.queries, &field, expected)
}

// Whether the text asks this.
fn asks(alloc: Global, text: &str, form: Form, expected: &[Row]) -> bool {
    match read(alloc, text, form) {
        Ok(script) => has_asked(&script, expected),
        Err(_) => false,
    }
}

// Whether the text is refused at this line, and so.
fn refuses(alloc: Global, text: &str, form: Form, line: u32, code: Code) -> bool {
    match read(alloc, text, form) {
        Err(SystemStop::Refused(refused)) => refused.line == line && refused.code == code,
        _ => false,
    }
}

#[test]
fn reads_what_is_asked(rt: HostRuntime) -> Result<(), Fail> {
    for (lines, form, expected) in ASKED {
        let text = with(rt.alloc(), ROTATIONS, lines)?;
        assert!(rt;
            asks(rt.alloc(), text.as_str(), *form, expected),
            "at {lines}"
        );
    }
    Ok(())
}

#[test]
fn refuses_at_the_first_fault(rt: HostRuntime) -> Result<(), Fail> {
    for (lines, form, line, code) in REFUSED {
        let text = with(rt.alloc(), TRANSLATIONS, lines)?;
        assert!(rt;
            refuses(rt.alloc(), text.as_str(), *form, *line, *code),
            "at {lines}"
        );
    }
    Ok(())
}

// A script line stands before the system is whole.
#[test]
fn refuses_an_early_query(rt: HostRuntime) {
    let text = "field 101\ngroup a\nspace x, y\nunit 0\nlaws\nproduct a+a'";
    assert!(rt; refuses(rt.alloc(), text, Form::Whole, 5, Code::Missing));
}

// The translations with so many queries, and then more lines.
fn with_many(alloc: Global, count: u32, lines: &str) -> Result<String, AllocError> {
    let mut text = String::from_str(alloc, TRANSLATIONS)?;
    for _ in 0..count {
        text.push_str("laws\n")?;
    }
    text.push_str(lines)?;
    Ok(text)
}

// How many queries are read.
fn count(alloc: Global, text: &str) -> usize {
    match read(alloc, text, Form::Whole) {
        Ok(script) => script.queries.len(),
        Err(_) => 0,
    }
}

#[test]
fn takes_ten_thousand_queries(rt: HostRuntime) -> Result<(), Fail> {
    let text = with_many(rt.alloc(), 10_000, "def q = x")?;
    assert!(rt; count(rt.alloc(), text.as_str()) == 10_000);
    let limit = Code::Text(TextCode::Limit);
    let text = with_many(rt.alloc(), 10_000, "rewrite z")?;
    assert!(rt; refuses(rt.alloc(), text.as_str(), Form::Whole, 10_008, limit));
    let text = with_many(rt.alloc(), 10_001, "")?;
    assert!(rt; refuses(rt.alloc(), text.as_str(), Form::Whole, 10_008, limit));
    let text = with_many(rt.alloc(), 10_000, "rewrite +")?;
    let code = Code::Text(TextCode::Expression);
    assert!(rt; refuses(rt.alloc(), text.as_str(), Form::Whole, 10_008, code));
    Ok(())
}
