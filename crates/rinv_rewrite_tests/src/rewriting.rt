//! Systems, and fractions that are rewritten in their generators or refused.

ghost use Rattle.std.specs.Prelude.{IfSome};
ghost use Rattle.rinv_defs.specs.System.{space_count};
ghost use Rattle.rinv_defs.specs.SystemForm.{IsSystem};
ghost use Rattle.rinv_frac.specs.Fractions.{IsPart, IsStored};
ghost use Rattle.rinv_gens.specs.Found.{ArePieces};

use rinv_frac::{Frac, FracRing};
use rinv_gens::{Findings, pieces};
use rinv_mono::Mono;
use rinv_poly::{KPoly, PolyRing};
use rinv_rewrite::{Expression, RewriteStop, prepared, rewritten};
use rinv_system::read_system;
use rinv_text::{System, read_poly};
use std::alloc::Global;

const ROTATIONS: &[u8] =
    b"field 101\ngroup a, b\nspace x, y\nideal a^2+b^2-1\nunit 1, 0\nproduct a*a'-b*b', a*b'+b*a'\ninverse a, -b\naction a*x-b*y, b*x+a*y\n";

const LINE_SCALINGS: &[u8] =
    b"field 101\ngroup a, b\nspace x\nideal a*b-1\nunit 1, 1\nproduct a*a', b*b'\ninverse b, a\naction a*x\n";

const SCALINGS: &[u8] =
    b"field 101\ngroup a, b\nspace x, y\nideal a*b-1\nunit 1, 1\nproduct a*a', b*b'\ninverse b, a\naction a*x, a*y\n";

const SHIFTS: &[u8] = b"field 5\ngroup a\nspace x\nunit 0\nproduct a+a'\ninverse -a\naction x+a\n";

const PLANE_SIGNS: &[u8] =
    b"field 7\ngroup a\nspace x, y\nideal a^2-1\nunit 1\nproduct a*a'\ninverse a\naction a*x, a*y\n";

const EXCHANGES: &[u8] =
    b"field 7\ngroup a\nspace x, y\nideal a^2-1\nunit 1\nproduct a*a'\ninverse a\naction 4*(1+a)*x+4*(1-a)*y, 4*(1-a)*x+4*(1+a)*y\n";

// The exponents and the coefficient.
type Term<'a> = (&'a [u32], u32);

// One, in so many symbols.
const ONE_IN_NONE: &[Term] = &[(&[], 1)];

const ONE_IN_ONE: &[Term] = &[(&[0], 1)];

const ONE_IN_TWO: &[Term] = &[(&[0, 0], 1)];

// The system of a text.
fn system_of(alloc: Global, text: &[u8]) -> Option<System>
    ensures { IfSome result (λ told. IsSystem told.system) }
{
    if text.len() > 10_000 {
        return None;
    }
    match read_system(alloc, text) {
        Ok(system) => Some(system),
        Err(_) => None,
    }
}

// The system with the polynomial of a text in its section too.
fn with_equation(alloc: Global, system: System, text: &str) -> Option<System>
    requires { IsSystem system.system }
    ensures { IfSome result (λ told. IsSystem told.system) }
{
    let mut system = system;
    if text.len() > 10_000 || system.section.len() >= 64 {
        return None;
    }
    let Ok(f) = read_poly(alloc, text, &system.space, &system.field) else {
        return None;
    };
    if system.section.push(f).is_err() {
        return None;
    }
    Some(system)
}

// The system of a text on the line where y is 1.
fn on_line(alloc: Global, text: &[u8]) -> Option<System>
    ensures { IfSome result (λ told. IsSystem told.system) }
{
    let system = system_of(alloc, text)?;
    with_equation(alloc, system, "y-1")
}

// What is found for it.
fn found_of(alloc: Global, system: &System) -> Option<Findings>
    requires { IsSystem system.now.system }
    ensures { IfSome result (ArePieces system.now) }
{
    match pieces(alloc, system) {
        Ok(found) => Some(found),
        Err(_) => None,
    }
}

// The polynomial of a text in the space's variables.
fn poly_of(alloc: Global, system: &System, text: &str) -> Option<KPoly>
    ensures { IfSome result (IsPart system.now.system.p (space_count system.now.system)) }
{
    if text.len() > 10_000 {
        return None;
    }
    match read_poly(alloc, text, &system.space, &system.field) {
        Ok(f) => Some(f),
        Err(_) => None,
    }
}

// The fraction of two texts.
fn fraction_of(alloc: Global, system: &System, num: &str, den: &str) -> Option<Frac>
    ensures { IfSome result (IsStored system.now.system.p (space_count system.now.system)) }
{
    let num = poly_of(alloc, system, num)?;
    let den = poly_of(alloc, system, den)?;
    let ring = PolyRing::new(system.field, system.space.len());
    let field = FracRing::new(ring);
    match field.fraction(num, den) {
        Ok(fraction) => fraction,
        Err(_) => None,
    }
}

// Whether the monomial has these exponents.
fn has_exponents(mono: &Mono, wanted: &[u32]) -> bool {
    if mono.vars() as usize != wanted.len() {
        return false;
    }
    for k in 0..wanted.len() {
        if mono.exponent_or_zero(k as u32) != wanted[k] {
            return false;
        }
    }
    true
}

// Whether the polynomial has these terms.
fn has_terms(f: &KPoly, wanted: &[Term]) -> bool {
    let terms = f.terms();
    if terms.len() != wanted.len() {
        return false;
    }
    for k in 0..terms.len() {
        let ((mono, c), (exponents, d)) = (&terms[k], &wanted[k]);
        if c != d || !has_exponents(mono, exponents) {
            return false;
        }
    }
    true
}

// What is answered for the fraction.
fn answer(
    alloc: Global,
    system: &System,
    num: &str,
    den: &str,
) -> Option<Result<Option<Expression>, RewriteStop>>
    requires { IsSystem system.now.system }
{
    let found = found_of(alloc, system)?;
    let f = fraction_of(alloc, system, num, den)?;
    match prepared(alloc, system, &found) {
        Ok(basis) => Some(rewritten(alloc, system, &found, &basis, &f)),
        Err(_) => None,
    }
}

// Whether it is an expression with these parts.
fn is_expression(
    answer: Option<Result<Option<Expression>, RewriteStop>>,
    num: &[Term],
    den: &[Term],
) -> bool {
    match answer {
        Some(Ok(Some(expression))) => {
            has_terms(&expression.num, num) && has_terms(&expression.den, den)
        }
        _ => false,
    }
}

// Whether the fraction is rewritten to these parts.
fn gives(alloc: Global, text: &[u8], fraction: (&str, &str), num: &[Term], den: &[Term]) -> bool {
    match system_of(alloc, text) {
        Some(system) => is_expression(answer(alloc, &system, fraction.0, fraction.1), num, den),
        None => false,
    }
}

// Whether it is so on the line where y is 1.
fn gives_on_line(
    alloc: Global,
    text: &[u8],
    fraction: (&str, &str),
    num: &[Term],
    den: &[Term],
) -> bool {
    match on_line(alloc, text) {
        Some(system) => is_expression(answer(alloc, &system, fraction.0, fraction.1), num, den),
        None => false,
    }
}

// Whether the fraction is not invariant, with this rest.
fn strays(alloc: Global, text: &[u8], num: &str, den: &str, wanted: &[Term]) -> bool {
    let Some(system) = system_of(alloc, text) else {
        return false;
    };
    match answer(alloc, &system, num, den) {
        Some(Err(RewriteStop::NotInvariant { rest })) => has_terms(&rest, wanted),
        _ => false,
    }
}

// Whether its denominator vanishes on the line where y is 1.
fn vanishes_on_line(alloc: Global, text: &[u8], num: &str, den: &str) -> bool {
    let Some(system) = on_line(alloc, text) else {
        return false;
    };
    match answer(alloc, &system, num, den) {
        Some(Ok(None)) => true,
        _ => false,
    }
}

#[test]
fn rewrites_invariants_in_their_generators(rt: HostRuntime) {
    assert!(rt;
        gives(
            rt.alloc(),
            ROTATIONS,
            ("(x^2+y^2)^3", "1+x^2+y^2"),
            &[(&[3], 1)],
            &[(&[1], 1), (&[0], 1)]
        ),
        "y1^3/(y1 + 1)"
    );
    assert!(rt;
        gives(rt.alloc(), ROTATIONS, ("0", "x"), &[], ONE_IN_ONE),
        "nothing is nothing"
    );
    assert!(rt;
        gives(
            rt.alloc(),
            PLANE_SIGNS,
            ("x^2", "1"),
            &[(&[2, 1], 1)],
            ONE_IN_TWO
        ),
        "y1^2*y2"
    );
    assert!(rt;
        gives(
            rt.alloc(),
            PLANE_SIGNS,
            ("x^3", "y"),
            &[(&[3, 1], 1)],
            ONE_IN_TWO
        ),
        "y1^3*y2: the rest of the denominator is divided by Z2, whose coefficient is 1"
    );
    assert!(rt;
        gives(
            rt.alloc(),
            EXCHANGES,
            ("x^2+y^2", "1"),
            &[(&[2, 0], 1), (&[0, 1], 2)],
            ONE_IN_TWO
        ),
        "y1^2 + 2*y2"
    );
}

#[test]
fn leaves_numbers_as_they_are(rt: HostRuntime) {
    assert!(rt;
        gives(
            rt.alloc(),
            LINE_SCALINGS,
            ("5", "1"),
            &[(&[], 5)],
            ONE_IN_NONE
        ),
        "no generator is needed"
    );
}

#[test]
fn refuses_what_is_not_invariant(rt: HostRuntime) {
    assert!(rt;
        strays(
            rt.alloc(),
            ROTATIONS,
            "x",
            "1",
            &[
                (&[1, 0, 1, 0], 1),
                (&[0, 1, 0, 1], 100),
                (&[0, 0, 1, 0], 100)
            ]
        ),
        "a*x - b*y - x"
    );
    assert!(rt;
        strays(
            rt.alloc(),
            SHIFTS,
            "x^5-x",
            "1",
            &[(&[5, 0], 1), (&[1, 0], 4)]
        ),
        "a^5 - a is zero at each point of the line, and no zero polynomial"
    );
}

#[test]
fn sees_denominators_that_vanish_on_a_section(rt: HostRuntime) {
    assert!(rt;
        gives_on_line(rt.alloc(), SCALINGS, ("x", "y"), &[(&[1], 1)], ONE_IN_ONE),
        "y1"
    );
    assert!(rt;
        vanishes_on_line(rt.alloc(), SCALINGS, "x*y-x", "y^2-y"),
        "y^2 - y is zero where y is 1"
    );
}
