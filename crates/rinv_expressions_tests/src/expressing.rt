//! Invariants that have an expression in generators with their proofs, without a section and on one, and fractions that have none.

ghost use Rattle.std.specs.Prelude.{IfSome};
ghost use Rattle.rinv_defs.specs.System.{space_count};
ghost use Rattle.rinv_defs.specs.SystemForm.{IsSystem};
ghost use Rattle.rinv_frac.specs.Fractions.{IsPart, IsStored};

use rinv_expressions::{OnStop, rewrite, rewrite_on};
use rinv_frac::{Frac, FracRing};
use rinv_generators::generators_on;
use rinv_generators::kinds::Generators;
use rinv_poly::{KPoly, PolyRing};
use rinv_rewrite::Expression;
use rinv_system::read_system;
use rinv_text::{System, read_poly};
use std::alloc::Global;

const ROTATIONS: &[u8] =
    b"field 101\ngroup a, b\nspace x, y\nideal a^2+b^2-1\nunit 1, 0\nproduct a*a'-b*b', a*b'+b*a'\ninverse a, -b\naction a*x-b*y, b*x+a*y\n";

const SCALINGS_ON_A_LINE: &[u8] =
    b"field 101\ngroup a, b\nspace x, y\nideal a*b-1\nunit 1, 1\nproduct a*a', b*b'\ninverse b, a\naction a*x, a*y\nsection y-1\n";

// The system of a text.
fn system_of(alloc: Global, text: &[u8]) -> Option<System>
    ensures { IfSome result (λ told. IsSystem told.system) }
{
    if text.len() > 10_000 {
        return None;
    }
    match read_system(alloc, text) {
        Ok(system) => Some(system),
        Err(_) => None,
    }
}

// Its generators.
fn generators_of(alloc: Global, text: &[u8]) -> Option<Generators> {
    match generators_on(alloc, system_of(alloc, text)?) {
        Ok(gens) => Some(gens),
        Err(_) => None,
    }
}

// The polynomial of a text in the space's variables.
fn poly_of(alloc: Global, system: &System, text: &str) -> Option<KPoly>
    ensures { IfSome result (IsPart system.now.system.p (space_count system.now.system)) }
{
    if text.len() > 10_000 {
        return None;
    }
    match read_poly(alloc, text, &system.space, &system.field) {
        Ok(f) => Some(f),
        Err(_) => None,
    }
}

// The fraction of two texts.
fn fraction_of(alloc: Global, system: &System, num: &str, den: &str) -> Option<Frac>
    ensures { IfSome result (IsStored system.now.system.p (space_count system.now.system)) }
{
    let num = poly_of(alloc, system, num)?;
    let den = poly_of(alloc, system, den)?;
    let ring = PolyRing::new(system.field, system.space.len());
    let field = FracRing::new(ring);
    match field.fraction(num, den) {
        Ok(fraction) => fraction,
        Err(_) => None,
    }
}

// How many terms its two parts have.
fn sizes(expression: &Expression) -> (usize, usize) {
    (expression.num.terms().len(), expression.den.terms().len())
}

// The sizes of the expression of a fraction where there is no section; None where it is not invariant, or there is none.
fn plain_sizes(alloc: Global, gens: &Generators, num: &str, den: &str) -> Option<(usize, usize)> {
    let f = fraction_of(alloc, &gens.system, num, den)?;
    if !gens.system.section.is_empty() {
        return None;
    }
    match rewrite(alloc, gens, &f) {
        Ok(expression) => Some(sizes(&expression)),
        Err(_) => None,
    }
}

// The same on a section, or without one; of no terms where the denominator vanishes on it.
fn section_sizes(alloc: Global, gens: &Generators, num: &str, den: &str) -> Option<(usize, usize)> {
    let f = fraction_of(alloc, &gens.system, num, den)?;
    match rewrite_on(alloc, gens, &f) {
        Ok(expression) => Some(sizes(&expression)),
        Err(OnStop::VanishingDenominator) => Some((0, 0)),
        Err(_) => None,
    }
}

// Whether (x^2 + y^2)^2/(x^2 + y^2 + 1) has the expression y1^2/(y1 + 1) under rotations, and x none.
fn rotations_are_rewritten(alloc: Global) -> bool {
    let Some(gens) = generators_of(alloc, ROTATIONS) else {
        return false;
    };
    plain_sizes(alloc, &gens, "(x^2+y^2)^2", "1+x^2+y^2") == Some((1, 2))
        && plain_sizes(alloc, &gens, "x", "1").is_none()
}

// Whether x/y has the expression y1 under scalings on the line where y is 1, and (x*y - x)/(y^2 - y) none, since its denominator vanishes there.
fn scalings_are_rewritten(alloc: Global) -> bool {
    let Some(gens) = generators_of(alloc, SCALINGS_ON_A_LINE) else {
        return false;
    };
    section_sizes(alloc, &gens, "x", "y") == Some((1, 1))
        && section_sizes(alloc, &gens, "x*y-x", "y^2-y") == Some((0, 0))
}

#[test]
fn rewrites_in_generators(rt: HostRuntime) {
    assert!(rt; rotations_are_rewritten(rt.alloc()), "y1^2/(y1 + 1)");
    assert!(rt; scalings_are_rewritten(rt.alloc()), "y1, on the section");
}
