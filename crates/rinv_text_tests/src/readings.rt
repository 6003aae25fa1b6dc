//! Texts over GF(7), in x and y.

use crate::polynomials::printed;
use rinv_text::{Names, TextCode, TextStop};
use std::alloc::{AllocError, Global};
use std::test::Fail;

// Texts, and how they are printed once they are read.
const READ: &[(&str, &str)] = &[
    ("x", "x"),
    ("007", "0"),
    ("-x^2", "6*x^2"),
    ("- x + y", "6*x + y"),
    ("+x-y-1", "x + 6*y + 6"),
    ("2*x^2*3*y", "6*x^2*y"),
    ("(x+y)*(x-y)", "x^2 + 6*y^2"),
    ("\t( x + 1 )^2 ", "x^2 + 2*x + 1"),
    ("(x-x)^0", "1"),
    ("x^64", "x^64"),
    ("((x+1)*0+y)*1*2", "2*y"),
    ("340282366920938463463374607431768211455*x", "3*x"),
];

// Texts that are refused, and their first faults with their places.
const REFUSED: &[(&str, u32, TextCode)] = &[
    ("", 0, TextCode::Expression),
    ("  ", 2, TextCode::Expression),
    ("x y", 2, TextCode::Expression),
    ("2x", 1, TextCode::Expression),
    ("x+", 2, TextCode::Expression),
    ("x+-y", 2, TextCode::Expression),
    ("(x", 2, TextCode::Expression),
    ("x)", 1, TextCode::Expression),
    ("x/y", 1, TextCode::Expression),
    ("x^y", 2, TextCode::Expression),
    ("x^2^2", 3, TextCode::Expression),
    ("2^3^1", 3, TextCode::Expression),
    ("x\r", 1, TextCode::Expression),
    ("x''", 2, TextCode::Expression),
    ("z + é", 4, TextCode::Expression),
    ("x+zz^99", 2, TextCode::Name),
    (
        " 340282366920938463463374607431768211456 + z",
        43,
        TextCode::Name,
    ),
    (
        " x^340282366920938463463374607431768211456",
        1,
        TextCode::Limit,
    ),
    ("  x^65", 2, TextCode::FormalDegree),
    ("(x+1)^20 * (x^32*y^32*x)", 0, TextCode::FormalDegree),
    (" (x+1)^20", 1, TextCode::FormalTerms),
    ("((x+1)^20)^0", 0, TextCode::FormalTerms),
];

// What is read of the text, printed again.
fn rewritten(alloc: Global, text: &str) -> Result<Vec<u8>, TextStop> {
    let x = String::from_str(alloc, "x")?;
    let y = String::from_str(alloc, "y")?;
    let names = Names::from_words(alloc, &[x, y])?;
    printed(alloc, &names, b"", text)
}

// Whether the text is read, and then printed so.
fn reads(alloc: Global, text: &str, expected: &str) -> bool {
    match rewritten(alloc, text) {
        Ok(out) => out.as_slice() == expected.as_bytes(),
        Err(_) => false,
    }
}

// Whether the text is refused for this fault at this place.
fn refuses(alloc: Global, text: &str, place: u32, code: TextCode) -> bool {
    match rewritten(alloc, text) {
        Err(TextStop::Fault(fault)) => fault.place == place && fault.code == code,
        _ => false,
    }
}

#[test]
fn reads_polynomials(rt: HostRuntime) {
    for (text, expected) in READ {
        assert!(rt; reads(rt.alloc(), text, expected), "at {text}");
    }
}

#[test]
fn names_the_first_fault(rt: HostRuntime) {
    for (text, place, code) in REFUSED {
        assert!(rt; refuses(rt.alloc(), text, *place, *code), "at {text}");
    }
}

// So many opening parentheses, `x`, and as many closing ones.
fn nested(alloc: Global, depth: usize) -> Result<String, AllocError> {
    let open = "(".repeat(alloc, depth)?;
    let close = ")".repeat(alloc, depth)?;
    format!(in alloc; "{open}x{close}")
}

#[test]
fn counts_parentheses(rt: HostRuntime) -> Result<(), Fail> {
    let deep = nested(rt.alloc(), 100)?;
    assert!(rt; reads(rt.alloc(), deep.as_str(), "x"), "at depth 100");
    let deeper = nested(rt.alloc(), 101)?;
    assert!(rt;
        refuses(rt.alloc(), deeper.as_str(), 0, TextCode::Limit),
        "at depth 101"
    );
    Ok(())
}
