//! Printed polynomials and fractions over GF(7), in the symbols y1, y2 and y3.

use crate::polynomials::{polynomial, printed};
use rinv_text::{Names, TextStop, write_fraction};
use std::alloc::Global;

// Numerators, denominators, and the texts of the fractions.
const FRACTIONS: &[(&str, &str, &str)] = &[
    ("0", "1", "0"),
    ("1", "1", "1"),
    ("y1*y3+y2^2-1", "1", "y2^2 + y1*y3 + 6"),
    ("2*y1^2+4*y1*y2", "3", "(2*y1^2 + 4*y1*y2)/3"),
    ("y1", "y2*y3", "y1/(y2*y3)"),
];

// The text of the fraction.
fn fraction(alloc: Global, num: &str, den: &str) -> Result<Vec<u8>, TextStop> {
    let names = Names::symbols(alloc, 3)?;
    let num = polynomial(alloc, &names, num)?;
    let den = polynomial(alloc, &names, den)?;
    let mut out = Vec::new(alloc);
    write_fraction(alloc, &num, &den, &names, &mut out)?;
    Ok(out)
}

// The text of the polynomial, behind `f = `.
fn equation(alloc: Global, text: &str) -> Result<Vec<u8>, TextStop> {
    let names = Names::symbols(alloc, 3)?;
    printed(alloc, &names, b"f = ", text)
}

// Whether the bytes are this text.
fn is_text(bytes: &Result<Vec<u8>, TextStop>, text: &str) -> bool {
    match bytes {
        Ok(bytes) => bytes.as_slice() == text.as_bytes(),
        Err(_) => false,
    }
}

#[test]
fn prints_polynomials_and_fractions(rt: HostRuntime) {
    for (num, den, text) in FRACTIONS {
        let bytes = fraction(rt.alloc(), num, den);
        assert!(rt; is_text(&bytes, text), "at {text}");
    }
    let bytes = equation(rt.alloc(), "y3^2+2*y2*y3");
    assert!(rt; is_text(&bytes, "f = 2*y2*y3 + y3^2"));
}
