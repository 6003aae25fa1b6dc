//! Polynomials in Z and the space's variables, read as polynomials in Z: the exponents of Z in a monomial, and the coefficient of one.

ghost use Rattle.std.specs.Prelude.{◌≡◌, ◌+◌, ◌≤◌, ◌^◌, List, length, take, drop, All, IfOk, IsTrue};
ghost use Rattle.rinv_algebra.specs.Monomial.{same_monomial};
ghost use Rattle.rinv_groebner.specs.Elimination.{is_free};
ghost use Rattle.rinv_defs.specs.System.{group_count, space_count};
ghost use Rattle.rinv_defs.specs.SystemForm.{IsSystem};
ghost use Rattle.rinv_defs.specs.RelationConditions.{z_part};
ghost use Rattle.rinv_frac.specs.Fractions.{IsPart};
ghost use Rattle.rinv_reduction.specs.Localised.{all_count, z_coefficient};

use rinv_mono::Mono;
use rinv_poly::{KPoly, PolyRing};
use rinv_ring::{Gf, NoMemory};
use rinv_text::System;
use std::alloc::Global;

/// So many exponents of the monomial from a place on.
fn part(alloc: Global, mono: &Mono, start: u32, count: u32) -> Result<Mono, NoMemory>
    requires { start + count ≤ length mono.now }
    ensures { IfOk result (λ m. m ≡ take count (drop start mono.now)) }
{
    let _degree = mono.degree();
    let _vars = mono.vars();
    let exponents = mono.to_exponents(alloc)?;
    match Mono::from_exponents(alloc, &exponents[start as usize..(start + count) as usize])? {
        Some(part) => Ok(part),
        None => unreachable!(),
    }
}

/// The exponents of Z.
pub(crate) fn z_part(alloc: Global, system: &System, mono: &Mono) -> Result<Mono, NoMemory>
    requires system { IsSystem system.now.system }
    requires vars { length mono.now ≡ all_count system.now.system }
    ensures { IfOk result (λ m. m ≡ z_part system.now.system mono.now) }
{
    let group = system.group.len();
    let space = system.space.len();
    part(alloc, mono, group, space)
}

// The exponents of the space's variables.
fn space_part(alloc: Global, system: &System, mono: &Mono) -> Result<Mono, NoMemory>
    requires system { IsSystem system.now.system }
    requires vars { length mono.now ≡ all_count system.now.system }
    ensures { IfOk result (λ m. m ≡ drop (group_count system.now.system + space_count system.now.system) mono.now) }
{
    let group = system.group.len();
    let space = system.space.len();
    part(alloc, mono, group + space, space)
}

/// The coefficient of a monomial in Z in a polynomial without the group's variables.
pub(crate) fn z_coefficient(
    alloc: Global,
    system: &System,
    space_ring: &PolyRing<Gf>,
    h: &KPoly,
    z: &Mono,
) -> Result<KPoly, NoMemory>
    requires system { IsSystem system.now.system }
    requires field { space_ring.now.coeffs ≡ system.now.system.p }
    requires vars { space_ring.now.vars ≡ space_count system.now.system }
    requires polynomial { IsPart system.now.system.p (all_count system.now.system) h.now }
    requires free { All (λ t. IsTrue (is_free (group_count system.now.system) t.0)) h.now }
    requires z { length z.now ≡ space_count system.now.system }
    ensures stored { IfOk result (IsPart system.now.system.p (space_count system.now.system)) }
    ensures value { IfOk result (λ f. f ≡ z_coefficient system.now.system h.now z.now) }
{
    let mut terms = Vec::new(alloc);
    'each: for (mono, c) in h.terms() {
        let exponents = z_part(alloc, system, mono)?;
        if !is_same(&exponents, z) {
            continue;
        }
        let rest = space_part(alloc, system, mono)?;
        terms.push((rest, *c))?;
    }
    // The terms descend as those of the polynomial do.
    let made = space_ring.stored(terms)?;
    match made {
        Some(coefficient) => Ok(coefficient),
        None => unreachable!(),
    }
}

/// Whether two monomials are the same.
pub(crate) fn is_same(a: &Mono, b: &Mono) -> bool
    requires { length a.now ≡ length b.now }
    ensures { result ≡ same_monomial a.now b.now }
{
    a.divides(b) && b.divides(a)
}
