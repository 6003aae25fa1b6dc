//! Terms of relations: Z^a times a polynomial in the space's variables, in all variables.

ghost use Rattle.std.specs.Prelude.{◌≡◌, [], ◌∷◌, length, IfOk, IfErr, OnOk};
ghost use Rattle.rinv_reduction.specs.Localised.{all_count};
ghost use Rattle.rinv_defs.specs.System.{space_count};
ghost use Rattle.rinv_defs.specs.SystemForm.{IsSystem};
ghost use Rattle.rinv_defs.specs.RelationConditions.{z_power};
ghost use Rattle.rinv_ring.specs.Fault.{DegreesMeet};
ghost use Rattle.rinv_certify.specs.Meets.{TermMeets};
ghost use Rattle.rinv_certify.specs.Terms.{IsTerm, TermFits};
ghost use Rattle.rinv_certify.specs.InSpace.{IsInAll, IsInSpace, IsSameOver};
ghost use Rattle.rinv_frac.specs.Fractions.{IsPart};

use crate::products::product_of_two;
use rinv_action::action_ring;
use rinv_mono::Mono;
use rinv_poly::{KPoly, PolyRing};
use rinv_ring::{Gf, NoMemory, RingFault};
use rinv_text::System;
use std::alloc::Global;

// Z^a.
fn z_power(alloc: Global, system: &System, ring: &PolyRing<Gf>, a: &Mono) -> Result<KPoly, NoMemory>
    requires system { IsSystem system.now.system }
    requires field { ring.now.coeffs ≡ system.now.system.p }
    requires vars { ring.now.vars ≡ all_count system.now.system }
    requires exponents { length a.now ≡ space_count system.now.system }
    ensures normal { IfOk result (IsPart ring.now.coeffs ring.now.vars) }
    ensures value { IfOk result (λ r. IsSameOver ring.now.coeffs r (z_power system.now.system a.now ∷ [])) }
{
    let _degree = a.degree();
    let own = a.to_exponents(alloc)?;
    let mut exponents = vec![in alloc; 0; system.group.len() as usize]?;
    exponents.extend_from_slice(&own)?;
    let after = vec![in alloc; 0; own.len()]?;
    exponents.extend_from_slice(&after)?;
    let Some(mono) = Mono::from_exponents(alloc, &exponents)? else {
        unreachable!()
    };
    let _p = ring.coeffs().modulus();
    let terms = vec![in alloc; (mono, 1)]?;
    let power = ring.from_distinct(terms)?;
    Ok(power)
}

/// Z^a times the polynomial. Degree tells two monomials whose product is over the limit.
pub(crate) fn term(alloc: Global, system: &System, a: &Mono, f: &KPoly) -> Result<KPoly, RingFault>
    requires system { IsSystem system.now.system }
    requires exponents { length a.now ≡ space_count system.now.system }
    requires polynomial { IsInSpace system.now.system f.now }
    ensures normal { IfOk result (IsInAll system.now.system) }
    ensures value { IfOk result (IsTerm system.now.system a.now f.now) }
    ensures fits { OnOk result (TermFits system.now.system a.now f.now) }
    ensures degree { IfErr result (DegreesMeet (TermMeets system.now.system a.now f.now)) }
{
    let ring = action_ring(system);
    let power = z_power(alloc, system, &ring, a)?;
    let space = system.space.len();
    let before = system.group.len() + space;
    let from = PolyRing::new(system.field, space);
    let behind = from.behind(alloc, before, f, &ring)?;
    let term = product_of_two(alloc, &ring, &power, &behind)?;
    Ok(term)
}
