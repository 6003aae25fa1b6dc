//! The relation of an element: it is divided by the coefficient of its leading monomial in Z, and solved for this monomial.

ghost use Rattle.std.specs.Prelude.{◌≡◌, length, All, IfOk, IsTrue, IsFalse};
ghost use Rattle.std.specs.List.{list_any};
ghost use Rattle.rinv_algebra.specs.Residue.{residue_ops};
ghost use Rattle.rinv_algebra.specs.Monomial.{same_monomial};
ghost use Rattle.rinv_algebra.specs.Polynomial.{is_zero};
ghost use Rattle.rinv_groebner.specs.Elimination.{is_free};
ghost use Rattle.rinv_defs.specs.System.{group_count, space_count};
ghost use Rattle.rinv_defs.specs.SystemForm.{IsSystem};
ghost use Rattle.rinv_defs.specs.PairConditions.{leading};
ghost use Rattle.rinv_frac.specs.Fractions.{IsPart, IsStored};
ghost use Rattle.rinv_tails.specs.Stored.{IsStoredRelation};
ghost use Rattle.rinv_reduction.specs.Localised.{all_count, lead_in_z};
ghost use Rattle.rinv_elim.specs.Localising.{IsSolved, IsMinus, IsSolvedBy};

use crate::coefficients::{is_same, z_coefficient, z_part};
use rinv_frac::{Frac, FracRing};
use rinv_mono::{Grevlex, Mono, MonoOrder};
use rinv_poly::KPoly;
use rinv_ring::{NoMemory, Ring};
use rinv_tails::FracRelation;
use rinv_text::System;
use std::alloc::Global;

/// The element divided by the coefficient of its leading monomial in Z, and solved for this monomial.
pub(crate) fn relation_of(
    alloc: Global,
    system: &System,
    field: &FracRing,
    h: &KPoly,
    lead: &Mono,
) -> Result<FracRelation, NoMemory>
    requires system { IsSystem system.now.system }
    requires field { field.now.base.coeffs ≡ system.now.system.p }
    requires vars { field.now.base.vars ≡ space_count system.now.system }
    requires normal { IsPart system.now.system.p (all_count system.now.system) h.now }
    requires nonzero { IsFalse (is_zero (residue_ops system.now.system.p) h.now) }
    requires free { IsTrue (is_free (group_count system.now.system) (leading system.now.system h.now)) }
    requires lead { lead.now ≡ lead_in_z system.now.system h.now }
    ensures solved { IfOk result (IsSolved system.now.system h.now) }
    ensures stored { IfOk result (IsStoredRelation system.now.system.p (space_count system.now.system)) }
{
    let divisor = z_coefficient(alloc, system, field.base(), h, lead)?;
    let mut tail = Vec::new(alloc);
    'each: for (mono, _) in h.terms() {
        let z = z_part(alloc, system, mono)?;
        if is_same(&z, lead) {
            continue;
        }
        if has_monomial(&tail, &z) {
            continue; // made before
        }
        let solved = solved_at(alloc, system, field, h, &z, &divisor)?;
        tail.push((z, solved))?;
    }
    tail.sort_unstable_by(|s: &(Mono, Frac), t| Grevlex.compare(&t.0, &s.0));
    let lead = lead.copy(alloc)?;
    Ok(FracRelation { lead, tail })
}

// Minus the coefficient of a monomial in Z by the divisor, cancelled.
fn solved_at(
    alloc: Global,
    system: &System,
    field: &FracRing,
    h: &KPoly,
    z: &Mono,
    divisor: &KPoly,
) -> Result<Frac, NoMemory>
    requires system { IsSystem system.now.system }
    requires field { field.now.base.coeffs ≡ system.now.system.p }
    requires vars { field.now.base.vars ≡ space_count system.now.system }
    requires normal { IsPart system.now.system.p (all_count system.now.system) h.now }
    requires free { All (λ t. IsTrue (is_free (group_count system.now.system) t.0)) h.now }
    requires z { length z.now ≡ space_count system.now.system }
    requires divisor { IsPart system.now.system.p (space_count system.now.system) divisor.now }
    requires nonzero { IsFalse (is_zero (residue_ops system.now.system.p) divisor.now) }
    ensures stored { IfOk result (IsStored system.now.system.p (space_count system.now.system)) }
    ensures solved { IfOk result (IsSolvedBy system.now.system h.now z.now divisor.now) }
{
    let coefficient = z_coefficient(alloc, system, field.base(), h, z)?;
    let solved = solved(alloc, field, &coefficient, divisor)?;
    Ok(solved)
}

// Whether a term has the monomial.
fn has_monomial(terms: &[(Mono, Frac)], mono: &Mono) -> bool
    requires { All (λ t. length t.0 ≡ length mono.now) terms.now }
    ensures { result ≡ list_any (λ t. same_monomial t.0 mono.now) terms.now }
{
    'terms: for k in 0..terms.len() {
        let (other, _) = &terms[k];
        if is_same(other, mono) {
            return true;
        }
    }
    false
}

// -c/d, cancelled.
fn solved(alloc: Global, field: &FracRing, c: &KPoly, d: &KPoly) -> Result<Frac, NoMemory>
    requires num { IsPart field.now.base.coeffs field.now.base.vars c.now }
    requires den { IsPart field.now.base.coeffs field.now.base.vars d.now }
    requires nonzero { IsFalse (is_zero (residue_ops field.now.base.coeffs) d.now) }
    ensures stored { IfOk result (IsStored field.now.base.coeffs field.now.base.vars) }
    ensures solved { IfOk result (IsMinus field.now.base.coeffs c.now d.now) }
{
    let ring = field.base();
    let zero = ring.zero(alloc)?;
    // Differences of numbers modulo a prime are refused for memory alone.
    let Ok(num) = ring.sub(alloc, &zero, c) else {
        return Err(NoMemory);
    };
    let den = ring.copy(alloc, d)?;
    let made = field.fraction(num, den)?;
    let Some(fraction) = made else { unreachable!() };
    let solved = field.cancel(alloc, fraction)?;
    Ok(solved)
}
