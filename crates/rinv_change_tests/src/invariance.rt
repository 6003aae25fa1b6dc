//! Rotations of the plane, and fractions that they change or leave as they are.

ghost use Rattle.std.specs.Prelude.{IfSome};
ghost use Rattle.rinv_defs.specs.System.{space_count};
ghost use Rattle.rinv_defs.specs.SystemForm.{IsSystem};
ghost use Rattle.rinv_frac.specs.Fractions.{IsPart, IsStored};
ghost use Rattle.rinv_laws.specs.Group.{IsGroupBasis};

use rinv_change::{invariance_proof, kept_cofactors, test_invariant};
use rinv_div::Budget;
use rinv_frac::{Frac, FracRing};
use rinv_laws::{GroupBasis, group_basis};
use rinv_mono::Mono;
use rinv_poly::{KPoly, PolyRing};
use rinv_system::read_system;
use rinv_text::{System, read_poly};
use std::alloc::Global;

const ROTATIONS: &[u8] =
    b"field 101\ngroup a, b\nspace x, y\nideal a^2+b^2-1\nunit 1, 0\nproduct a*a'-b*b', a*b'+b*a'\ninverse a, -b\naction a*x-b*y, b*x+a*y\n";

// The exponents of a, b, x and y, and the coefficient.
type Term<'a> = (&'a [u32], u32);

// An invariant fraction has no rest.
const NONE: &[Term] = &[];

// a*x - b*y - x
const REST_OF_X: &[Term] = &[
    (&[1, 0, 1, 0], 1),
    (&[0, 1, 0, 1], 100),
    (&[0, 0, 1, 0], 100),
];

// x^2 + y^2
const SQUARES: &[Term] = &[(&[0, 0, 2, 0], 1), (&[0, 0, 0, 2], 1)];

// The system of a text.
fn system_of(alloc: Global, text: &[u8]) -> Option<System>
    ensures { IfSome result (λ told. IsSystem told.system) }
{
    if text.len() > 10_000 {
        return None;
    }
    match read_system(alloc, text) {
        Ok(system) => Some(system),
        Err(_) => None,
    }
}

// The basis of its group's ideal.
fn group_of(alloc: Global, system: &System) -> Option<GroupBasis>
    requires { IsSystem system.now.system }
    ensures { IfSome result (λ g. IsGroupBasis system.now.system g.basis g.reduced.items) }
{
    let mut endless = Budget::without_end();
    match group_basis(alloc, system, &mut endless) {
        Ok(group) => Some(group),
        Err(_) => None,
    }
}

// The polynomial of a text in the space's variables.
fn poly_of(alloc: Global, system: &System, text: &str) -> Option<KPoly>
    ensures { IfSome result (IsPart system.now.system.p (space_count system.now.system)) }
{
    if text.len() > 10_000 {
        return None;
    }
    match read_poly(alloc, text, &system.space, &system.field) {
        Ok(f) => Some(f),
        Err(_) => None,
    }
}

// The fraction of two texts.
fn fraction_of(alloc: Global, system: &System, num: &str, den: &str) -> Option<Frac>
    ensures { IfSome result (IsStored system.now.system.p (space_count system.now.system)) }
{
    let num = poly_of(alloc, system, num)?;
    let den = poly_of(alloc, system, den)?;
    let ring = PolyRing::new(system.field, system.space.len());
    let field = FracRing::new(ring);
    match field.fraction(num, den) {
        Ok(fraction) => fraction,
        Err(_) => None,
    }
}

// Whether the monomial has these exponents.
fn has_exponents(mono: &Mono, wanted: &[u32]) -> bool {
    if mono.vars() as usize != wanted.len() {
        return false;
    }
    for k in 0..wanted.len() {
        if mono.exponent_or_zero(k as u32) != wanted[k] {
            return false;
        }
    }
    true
}

// Whether the polynomial has these terms.
fn has_terms(f: &KPoly, wanted: &[Term]) -> bool {
    let terms = f.terms();
    if terms.len() != wanted.len() {
        return false;
    }
    for k in 0..terms.len() {
        let ((mono, c), (exponents, d)) = (&terms[k], &wanted[k]);
        if c != d || !has_exponents(mono, exponents) {
            return false;
        }
    }
    true
}

// Whether the test of the fraction leaves this rest.
fn leaves(alloc: Global, system: &System, num: &str, den: &str, wanted: &[Term]) -> bool
    requires { IsSystem system.now.system }
{
    let Some(group) = group_of(alloc, system) else {
        return false;
    };
    let Some(f) = fraction_of(alloc, system, num, den) else {
        return false;
    };
    match test_invariant(alloc, system, &group, &f) {
        Ok(Some(rest)) => !wanted.is_empty() && has_terms(&rest, wanted),
        Ok(None) => wanted.is_empty(),
        Err(_) => false,
    }
}

// Whether it does so under rotations.
fn tests_as(alloc: Global, num: &str, den: &str, wanted: &[Term]) -> bool {
    match system_of(alloc, ROTATIONS) {
        Some(system) => leaves(alloc, &system, num, den, wanted),
        None => false,
    }
}

// The cofactors of an invariant fraction's change over the group's ideal.
fn cofactors_of(alloc: Global, system: &System, num: &str, den: &str) -> Option<Vec<KPoly>>
    requires { IsSystem system.now.system }
{
    let group = group_of(alloc, system)?;
    let f = fraction_of(alloc, system, num, den)?;
    let Ok(kept) = kept_cofactors(alloc, system, &group) else {
        return None;
    };
    match test_invariant(alloc, system, &group, &f) {
        Ok(None) => match invariance_proof(alloc, system, &group, &kept, &f) {
            Ok(cofactors) => Some(cofactors),
            Err(_) => None,
        },
        _ => None,
    }
}

// Whether there is one cofactor under rotations, and it is this.
fn has_cofactor(alloc: Global, num: &str, den: &str, wanted: &[Term]) -> bool {
    let Some(system) = system_of(alloc, ROTATIONS) else {
        return false;
    };
    match cofactors_of(alloc, &system, num, den) {
        Some(cofactors) => cofactors.len() == 1 && has_terms(&cofactors[0], wanted),
        None => false,
    }
}

#[test]
fn tells_invariant_fractions_by_their_changes(rt: HostRuntime) {
    for (num, den, wanted) in [
        ("x^2+y^2", "1", NONE),
        ("x^3+x*y^2", "x", NONE),
        ("5", "1", NONE),
        ("0", "x", NONE),
        ("x", "1", REST_OF_X),
    ] {
        assert!(rt;
            tests_as(rt.alloc(), num, den, wanted),
            "each fraction has its answer"
        );
    }
}

#[test]
fn proves_a_sum_of_squares_invariant(rt: HostRuntime) {
    assert!(rt;
        has_cofactor(rt.alloc(), "x^2+y^2", "1", SQUARES),
        "(a*x - b*y)^2 + (b*x + a*y)^2 - (x^2 + y^2) is (x^2 + y^2)*(a^2 + b^2 - 1)"
    );
}
