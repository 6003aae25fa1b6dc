//! The elements of the reduced basis that have none of the group's variables.

ghost use Rattle.std.specs.Prelude.{◌≡◌, false, All, IfOk, IfErr};
ghost use Rattle.rinv_algebra.specs.Residue.{residue_ops};
ghost use Rattle.rinv_algebra.specs.Polynomial.{is_zero};
ghost use Rattle.rinv_algebra.specs.BlockEnds.{last_from};
ghost use Rattle.rinv_groebner.specs.Elimination.{is_free};
ghost use Rattle.rinv_ring.specs.Fault.{DegreesMeet};
ghost use Rattle.rinv_defs.specs.System.{group_count};
ghost use Rattle.rinv_defs.specs.SystemForm.{IsSystem};
ghost use Rattle.rinv_parts.specs.Points.{ArePolynomials};
ghost use Rattle.rinv_reduction.specs.Localised.{all_count, IsCut};
ghost use Rattle.rinv_elim.specs.Action.{IsActionBasis, EliminationMeets};
ghost use Rattle.rinv_elim.specs.Localising.{without_group};

use rinv_action::{action_order, action_ring};
use rinv_buch::kinds::Basis;
use rinv_buch::{interreduce, leading_term};
use rinv_mono::{Blocks, Mono};
use rinv_poly::{KPoly, PolyRing};
use rinv_ring::{Gf, NoMemory, Ring, RingFault};
use rinv_text::System;
use std::alloc::Global;

/// The elements of the reduced basis that have none of the group's variables, with ascending leading monomials. Only these are made.
pub fn eliminate(alloc: Global, system: &System, basis: &Basis<Gf>) -> Result<Vec<KPoly>, RingFault>
    requires system { IsSystem system.now.system }
    requires basis { IsActionBasis system.now.system basis.now }
    ensures cut { IfOk result (λ v. IsCut system.now.system v.items) }
    ensures normal { IfOk result (λ v. ArePolynomials system.now.system.p (all_count system.now.system) v.items) }
    ensures degree { IfErr result (DegreesMeet (EliminationMeets system.now.system basis.now)) }
{
    let ring = action_ring(system);
    let order = action_order(alloc, system)?;
    let polys = free_elements(alloc, system, &ring, &order, &basis.polys)?;
    let free = Basis {
        polys,
        journal: Vec::new(alloc),
    };
    let cut = interreduce(&ring, alloc, &free, &order)?;
    Ok(cut)
}

// Whether the monomial has none of the group's variables.
fn is_free(system: &System, mono: &Mono) -> bool
    ensures { result ≡ is_free (group_count system.now.system) mono.now }
{
    'group: for k in 0..system.group.len() {
        if mono.exponent_or_zero(k) > 0 {
            return false;
        }
    }
    true
}

// Copies of the elements whose leading monomials have none of the group's variables.
fn free_elements(
    alloc: Global,
    system: &System,
    ring: &PolyRing<Gf>,
    order: &Blocks,
    polys: &[KPoly],
) -> Result<Vec<KPoly>, NoMemory>
    requires suits { ring.now.vars ≡ last_from 0 order.now }
    requires polys { ArePolynomials ring.now.coeffs ring.now.vars polys.now }
    requires nonzero { All (λ h. is_zero (residue_ops ring.now.coeffs) h ≡ false) polys.now }
    ensures { IfOk result (λ r. r.items ≡ without_group ring.now.coeffs order.now system.now.system polys.now) }
{
    let mut free = Vec::new(alloc);
    'elements: for k in 0..polys.len() {
        let h = &polys[k];
        let (lead, _) = leading_term(ring, h, order);
        if !is_free(system, lead) {
            continue;
        }
        let copy = ring.copy(alloc, h)?;
        free.push(copy)?;
    }
    Ok(free)
}
