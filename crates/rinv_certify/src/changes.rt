//! Whether the proofs of the generators' invariance multiply out within the limit on degrees.

ghost use Rattle.std.specs.Prelude.{◌≡◌, ◌<◌, length, true, IfErr, IfOk, OnOk};
ghost use Rattle.std.specs.Result.{MatchResult};
ghost use Rattle.rinv_algebra.specs.Polynomial.{past};
ghost use Rattle.rinv_defs.specs.System.{group_count};
ghost use Rattle.rinv_defs.specs.SystemForm.{IsSystem};
ghost use Rattle.rinv_ring.specs.Fault.{DegreesMeet};
ghost use Rattle.rinv_acceptance.specs.Fits.{change_multiplies};
ghost use Rattle.rinv_change.specs.Asked.{IsChangeRing};
ghost use Rattle.rinv_certify.specs.Meets.{ChangeProductsMeet, ChangesMeet};
ghost use Rattle.rinv_certify.specs.Parts.{ChangesFit};
ghost use Rattle.rinv_certify.specs.Stated.{AreInChange, ChangeFits, IsIdealStored, IsMovedValue, MovedMeets};
ghost use Rattle.rinv_certify.specs.InSpace.{IsFractionIn, IsInSpace};
ghost use Rattle.rinv_frac.specs.Fractions.{IsPart};

use rinv_change::change_ring;
use rinv_fits::{check_product, check_sums};
use rinv_frac::{Frac, FracRing};
use rinv_generators::kinds::Generators;
use rinv_identities::widened_ideal;
use rinv_poly::{KPoly, PolyRing};
use rinv_ring::{Gf, NoMemory, RingFault};
use rinv_sub::substitute_over_field;
use rinv_text::System;
use std::alloc::Global;

// The polynomial at the moved point.
fn moved(
    alloc: Global,
    system: &System,
    whole: &PolyRing<Gf>,
    f: &KPoly,
) -> Result<KPoly, RingFault>
    requires system { IsSystem system.now.system }
    requires ring { IsChangeRing system.now.system whole.now.coeffs whole.now.vars }
    requires polynomial { IsInSpace system.now.system f.now }
    ensures { MatchResult result (IsMovedValue system.now.system f.now) (DegreesMeet (MovedMeets system.now.system f.now)) }
{
    let space = PolyRing::new(system.field, system.space.len());
    substitute_over_field(&space, alloc, f, whole, &system.action)
}

// The polynomial behind the group's variables.
fn behind(
    alloc: Global,
    system: &System,
    whole: &PolyRing<Gf>,
    f: &KPoly,
) -> Result<KPoly, NoMemory>
    requires ring { IsChangeRing system.now.system whole.now.coeffs whole.now.vars }
    requires polynomial { IsInSpace system.now.system f.now }
    ensures normal { IfOk result (IsPart whole.now.coeffs whole.now.vars) }
    ensures value { IfOk result (λ r. r ≡ past (group_count system.now.system) f.now) }
{
    let space = PolyRing::new(system.field, system.space.len());
    space.behind(alloc, system.group.len(), f, whole)
}

// Forms the value of each part of a fraction, and tests the products with the other part, and those of cofactors and the ideal.
fn products_fit(
    alloc: Global,
    system: &System,
    fraction: &Frac,
    cofactors: &[KPoly],
    ideal: &[KPoly],
) -> Result<(), RingFault>
    requires system { IsSystem system.now.system }
    requires fraction { IsFractionIn system.now.system fraction.now }
    requires number { length cofactors.now ≡ length system.now.system.ideal }
    requires cofactors { AreInChange system.now.system cofactors.now }
    requires ideal { IsIdealStored system.now.system ideal.now }
    ensures fits { OnOk result (change_multiplies system.now.system (fraction.now, cofactors.now) ≡ true) }
    ensures degree { IfErr result (DegreesMeet (ChangeProductsMeet system.now.system fraction.now cofactors.now ideal.now)) }
{
    let whole = change_ring(system);
    let field = FracRing::new(PolyRing::new(system.field, system.space.len()));
    let (num, den) = (field.num(fraction), field.den(fraction));
    let moved_num = moved(alloc, system, &whole, num)?;
    let kept_den = behind(alloc, system, &whole, den)?;
    check_product(&whole, &moved_num, &kept_den)?;
    let moved_den = moved(alloc, system, &whole, den)?;
    let kept_num = behind(alloc, system, &whole, num)?;
    check_product(&whole, &kept_num, &moved_den)?;
    check_sums(&whole, cofactors, ideal)?;
    Ok(())
}

// Those of the fraction at a place.
fn change_fits(alloc: Global, gens: &Generators, ideal: &[KPoly], k: usize) -> Result<(), RingFault>
    requires inside { k < length gens.now.fractions }
    requires ideal { IsIdealStored gens.now.told.system ideal.now }
    ensures fits { OnOk result (ChangeFits gens.now k) }
    ensures degree { IfErr result (DegreesMeet (ChangesMeet gens.now)) }
{
    let fractions = gens.fractions.as_slice();
    let proofs = gens.proofs.as_slice();
    let fraction = &fractions[k];
    let cofactors = proofs[k].as_slice();
    products_fit(alloc, &gens.system, fraction, cofactors, ideal)?;
    Ok(())
}

/// Tests each product that the changes of the generators and their cofactors ask for. Degree comes only where one of them meets these
/// degrees.
pub(crate) fn changes_fit(alloc: Global, gens: &Generators) -> Result<(), RingFault>
    ensures fits { OnOk result (ChangesFit gens.now) }
    ensures degree { IfErr result (DegreesMeet (ChangesMeet gens.now)) }
{
    let ideal = ideal_of(alloc, &gens.system)?;
    let count = gens.fractions.len();
    'fractions: for k in 0..count {
        change_fits(alloc, gens, &ideal, k)?;
    }
    Ok(())
}

// The group's ideal, in the variables of a change.
fn ideal_of(alloc: Global, system: &System) -> Result<Vec<KPoly>, NoMemory>
    requires { IsSystem system.now.system }
    ensures { IfOk result (λ r. IsIdealStored system.now.system r.items) }
{
    let whole = change_ring(system);
    let group = PolyRing::new(system.field, system.group.len());
    let ideal = widened_ideal(alloc, &group, &system.ideal, &whole)?;
    Ok(ideal)
}
