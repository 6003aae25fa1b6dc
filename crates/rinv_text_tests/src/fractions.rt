//! Texts of fractions over GF(7), in x and y.

ghost use Rattle.std.specs.Prelude.{◌≡◌, ◌≤◌, [], ◌∷◌, length, map, codes, false, All, IfOk};
ghost use Rattle.rinv_algebra.specs.Monomial.{total_degree};
ghost use Rattle.rinv_frac.specs.Fractions.{IsStored};
ghost use Rattle.rinv_text.specs.Names.{meet};
ghost use Rattle.rinv_text.specs.Reading.{Definition};

use rinv_frac::{Frac, FracRing};
use rinv_poly::PolyRing;
use rinv_ring::Gf;
use rinv_text::{Defs, Formal, Names, TextCode, TextStop, read_frac, write_frac};
use std::alloc::Global;

// Texts, how their fractions are printed, and their formal numbers.
const READ: &[(&str, &str, [u64; 4])] = &[
    ("x/(x*y)", "1/y", [1, 2, 1, 1]),
    ("x/y + y/x", "(x^2 + y^2)/(x*y)", [2, 2, 2, 1]),
    ("(x^3+x*y^2)/(x^2+y^2)", "x", [3, 2, 2, 2]),
    ("(x^2+y^2)/(x^3+x*y^2)", "1/x", [2, 3, 2, 2]),
    ("1/(x/y)", "y/x", [1, 1, 1, 1]),
    ("x/y/x", "1/y", [1, 2, 1, 1]),
    ("x/y*x", "x^2/y", [2, 1, 1, 1]),
    ("-x/y", "6*x/y", [1, 1, 1, 1]),
    ("x-1/y", "(x*y + 6)/y", [2, 1, 2, 1]),
    ("x^2/(2*x)", "4*x", [2, 1, 1, 1]),
    ("(x/(x+y))^2", "x^2/(x^2 + 2*x*y + y^2)", [2, 2, 1, 4]),
    ("(x/y)^0 + 0^0", "2", [0, 0, 2, 1]),
    ("(x-x)/y", "0", [1, 1, 2, 1]),
    ("x/(y-y)^0", "x", [1, 0, 1, 1]),
    ("(y+y)^19/2^64", "y^19", [19, 0, 524288, 1]),
    ("x^64/y^64", "x^64/y^64", [64, 64, 1, 1]),
];

// What `t` stands for, texts in which it stands, and how they are printed.
const DEFINED: &[(&str, &str, &str)] = &[
    ("x/y", "t*y", "x"),
    ("x/y", "1/t", "y/x"),
    ("x^2/(x*y)", "t^2 + t", "(x^2 + x*y)/y^2"),
    ("x-x", "x + t", "x"),
];

// Texts that are refused, and their first faults with their places.
const REFUSED: &[(&str, u32, TextCode)] = &[
    ("x//y", 2, TextCode::Expression),
    ("/x", 0, TextCode::Expression),
    ("x/", 2, TextCode::Expression),
    ("x/-y", 2, TextCode::Expression),
    ("1/(y-y", 6, TextCode::Expression),
    ("1/(y-y) + z", 10, TextCode::Name),
    (
        "z/340282366920938463463374607431768211456",
        0,
        TextCode::Name,
    ),
    (
        "1/(340282366920938463463374607431768211456*x^65)",
        0,
        TextCode::Limit,
    ),
    ("  (x+1)^20/x^65", 2, TextCode::FormalDegree),
    ("1/(x^64*y)", 0, TextCode::FormalDegree),
    ("(1/(x+1) + 1/(y+1))^33", 0, TextCode::FormalDegree),
    ("1/(x/y)^65", 0, TextCode::FormalDegree),
    (" (x+1)^20/(y-y)", 1, TextCode::FormalTerms),
    ("1/(x+1)^20", 0, TextCode::FormalTerms),
    ("1/((1+1)^64)^64", 0, TextCode::FormalTerms),
    ("((1+1)^64)^64*0 + 1", 0, TextCode::FormalTerms),
    ("1/(y-y)", 0, TextCode::ZeroDenominator),
    ("\tx + 1/(y-y)", 1, TextCode::ZeroDenominator),
    ("1/7", 0, TextCode::ZeroDenominator),
    ("(1/0)^0", 0, TextCode::ZeroDenominator),
    ("0*(x/0)", 0, TextCode::ZeroDenominator),
];

// The fractions in two variables over GF(7).
fn fractions() -> FracRing
    ensures { result.base.vars ≡ 2 }
{
    let Ok(field) = Gf::new(7) else {
        unreachable!()
    };
    FracRing::new(PolyRing::new(field, 2))
}

// The names x and y.
fn x_and_y(alloc: Global) -> Result<Names, TextStop>
    ensures { IfOk result (λ n. n ≡ codes "x" ∷ codes "y" ∷ []) }
{
    let x = String::from_str(alloc, "x")?;
    let y = String::from_str(alloc, "y")?;
    let names = Names::from_words(alloc, &[x, y])?;
    Ok(names)
}

// What is read of the text.
fn read(
    alloc: Global,
    text: &str,
    names: &Names,
    defs: &Defs,
    field: &FracRing,
) -> Result<(Frac, Formal), TextStop>
    requires many { length names.now ≡ field.now.base.vars }
    requires apart { meet names.now (map (λ d. d.name) defs.now) ≡ false }
    requires values { All (λ d. IsStored field.now.base.coeffs field.now.base.vars d.value) defs.now }
    ensures element { IfOk result (λ r. IsStored field.now.base.coeffs field.now.base.vars r.0) }
    ensures numerator { IfOk result (λ r. All (λ t. total_degree t.0 ≤ r.1.num_degree) r.0.0) }
    ensures denominator { IfOk result (λ r. All (λ t. total_degree t.0 ≤ r.1.den_degree) r.0.1) }
{
    if text.len() > 1_000_000 {
        return Err(TextStop::NoMemory);
    }
    let answer = read_frac(alloc, text, names, defs, field)?;
    Ok(answer)
}

// The text of the fraction.
fn printed(alloc: Global, f: &Frac, names: &Names, field: &FracRing) -> Result<Vec<u8>, TextStop>
    requires fraction { IsStored field.now.base.coeffs field.now.base.vars f.now }
    requires names { length names.now ≡ field.now.base.vars }
{
    let mut out = Vec::new(alloc);
    write_frac(alloc, f, names, field, &mut out)?;
    Ok(out)
}

// What is read of the text, printed again, with its formal numbers.
fn rewritten(alloc: Global, text: &str) -> Result<(Vec<u8>, Formal), TextStop> {
    let field = fractions();
    let names = x_and_y(alloc)?;
    let defs = Defs::empty(alloc);
    let (fraction, formal) = read(alloc, text, &names, &defs, &field)?;
    let out = printed(alloc, &fraction, &names, &field)?;
    Ok((out, formal))
}

// The abbreviation `t` alone.
fn called_t(alloc: Global, value: Frac, formal: Formal) -> Result<Defs, TextStop>
    requires numerator { All (λ t. total_degree t.0 ≤ formal.num_degree) value.0 }
    requires denominator { All (λ t. total_degree t.0 ≤ formal.den_degree) value.1 }
    ensures { IfOk result (λ ds. ds ≡ (record { name = codes "t"; value = value; formal = formal }) ∷ []) }
{
    let mut defs = Defs::empty(alloc);
    let name = String::from_str(alloc, "t")?;
    defs.add(name, value, formal)?;
    Ok(defs)
}

// Whether these are the formal numbers.
fn are_numbers(formal: Formal, numbers: [u64; 4]) -> bool {
    let [num_degree, den_degree, num_terms, den_terms] = numbers;
    formal.num_degree == num_degree
        && formal.den_degree == den_degree
        && formal.num_terms == num_terms
        && formal.den_terms == den_terms
}

// The text read where `t` stands for what the other text denotes, and printed again.
fn defined(alloc: Global, value: &str, text: &str) -> Result<Vec<u8>, TextStop> {
    let field = fractions();
    let names = x_and_y(alloc)?;
    let none = Defs::empty(alloc);
    let (value, formal) = read(alloc, value, &names, &none, &field)?;
    let defs = called_t(alloc, value, formal)?;
    let (fraction, _) = read(alloc, text, &names, &defs, &field)?;
    let out = printed(alloc, &fraction, &names, &field)?;
    Ok(out)
}

// Whether the text is printed so, where `t` stands for the value.
fn means(alloc: Global, value: &str, text: &str, expected: &str) -> bool {
    match defined(alloc, value, text) {
        Ok(out) => out.as_slice() == expected.as_bytes(),
        Err(_) => false,
    }
}

// Whether the text is refused for this fault, where `t` stands for the value.
fn fails(alloc: Global, value: &str, text: &str, code: TextCode) -> bool {
    match defined(alloc, value, text) {
        Err(TextStop::Fault(fault)) => fault.code == code,
        _ => false,
    }
}

// Whether the text is read, and then printed so, and has these formal numbers.
fn reads(alloc: Global, text: &str, expected: &str, numbers: [u64; 4]) -> bool {
    match rewritten(alloc, text) {
        Ok((out, formal)) => out.as_slice() == expected.as_bytes() && are_numbers(formal, numbers),
        Err(_) => false,
    }
}

// Whether the text is refused for this fault at this place.
fn refuses(alloc: Global, text: &str, place: u32, code: TextCode) -> bool {
    match rewritten(alloc, text) {
        Err(TextStop::Fault(fault)) => fault.place == place && fault.code == code,
        _ => false,
    }
}

#[test]
fn reads_fractions(rt: HostRuntime) {
    for (text, expected, numbers) in READ {
        assert!(rt; reads(rt.alloc(), text, expected, *numbers), "at {text}");
    }
}

#[test]
fn names_the_first_fault(rt: HostRuntime) {
    for (text, place, code) in REFUSED {
        assert!(rt; refuses(rt.alloc(), text, *place, *code), "at {text}");
    }
}

#[test]
fn knows_abbreviations(rt: HostRuntime) {
    for (value, text, expected) in DEFINED {
        assert!(rt; means(rt.alloc(), value, text, expected), "at {text}");
    }
    // the formal numbers are those of the expression, not of the cancelled fraction
    assert!(rt; fails(rt.alloc(), "x^40/x^40", "t^2", TextCode::FormalDegree));
    assert!(rt; fails(rt.alloc(), "(x+1)^19", "t^2", TextCode::FormalTerms));
    assert!(rt; fails(rt.alloc(), "x-x", "1/t", TextCode::ZeroDenominator));
    assert!(rt; fails(rt.alloc(), "x", "t2", TextCode::Name));
}
