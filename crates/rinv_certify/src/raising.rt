//! The common denominator of a relation's coefficients: the product of their denominators, each value once.

ghost use Rattle.std.specs.Prelude.{◌≡◌, IfOk, IfErr, OnOk};
ghost use Rattle.rinv_algebra.specs.Residue.{residue_ops};
ghost use Rattle.rinv_algebra.specs.Polynomial.{same};
ghost use Rattle.rinv_defs.specs.SystemForm.{IsSystem};
ghost use Rattle.rinv_ring.specs.Fault.{DegreesMeet};
ghost use Rattle.rinv_acceptance.specs.Denominators.{once};
ghost use Rattle.rinv_acceptance.specs.Raised.{denominators};
ghost use Rattle.rinv_certify.specs.Meets.{FactorsMeet, ProductMeets};
ghost use Rattle.rinv_certify.specs.InSpace.{AreInSpace, IsFractionIn, IsInSpace, IsRelationIn};
ghost use Rattle.rinv_certify.specs.Raising.{IsProductFrom, IsProductOf, IsRaisedBy, NumeratorMeets, has_same, with_one, with_other, without};

use crate::products::product_of_two;
use rinv_frac::{Frac, FracRing};
use rinv_poly::{KPoly, PolyRing};
use rinv_ring::{NoMemory, Ring, RingFault};
use rinv_tails::FracRelation;
use rinv_text::System;
use std::alloc::Global;

// Whether two polynomials in the space's variables are the same.
fn are_same(alloc: Global, system: &System, f: &KPoly, g: &KPoly) -> Result<bool, NoMemory>
    requires first { IsInSpace system.now.system f.now }
    requires second { IsInSpace system.now.system g.now }
    ensures { IfOk result (λ b. b ≡ same (residue_ops system.now.system.p) f.now g.now) }
{
    let space = PolyRing::new(system.field, system.space.len());
    // Residues are refused for memory alone.
    let Ok(same) = space.same(alloc, f, g) else {
        return Err(NoMemory);
    };
    Ok(same)
}

// Whether the polynomial is the same as one of the list.
fn is_among(alloc: Global, system: &System, list: &[KPoly], f: &KPoly) -> Result<bool, NoMemory>
    requires list { AreInSpace system.now.system list.now }
    requires polynomial { IsInSpace system.now.system f.now }
    ensures { IfOk result (λ b. b ≡ has_same system.now.system f.now list.now) }
{
    'list: for k in 0..list.len() {
        let same = are_same(alloc, system, &list[k], f)?;
        if same {
            return Ok(true);
        }
    }
    Ok(false)
}

// Adds the polynomial, unless it is the same as one of the list.
fn add_once(
    alloc: Global,
    system: &System,
    list: &mut Vec<KPoly>,
    f: &KPoly,
) -> Result<(), NoMemory>
    requires list { AreInSpace system.now.system list.old.items }
    requires polynomial { IsInSpace system.now.system f.now }
    ensures normal { OnOk result (AreInSpace system.now.system list.new.items) }
    ensures value { OnOk result (list.new.items ≡ with_one system.now.system f.now list.old.items) }
{
    let known = is_among(alloc, system, list, f)?;
    if known {
        return Ok(());
    }
    let space = PolyRing::new(system.field, system.space.len());
    let copy = space.copy(alloc, f)?;
    list.push(copy)?;
    Ok(())
}

/// The denominators of the tail in their order, each value once.
pub(crate) fn denominators_once(
    alloc: Global,
    system: &System,
    relation: &FracRelation,
) -> Result<Vec<KPoly>, NoMemory>
    requires system { IsSystem system.now.system }
    requires relation { IsRelationIn system.now.system relation.now }
    ensures normal { IfOk result (λ ds. AreInSpace system.now.system ds.items) }
    ensures value { IfOk result (λ ds. ds.items ≡ once system.now.system (denominators relation.now)) }
{
    let field = FracRing::new(PolyRing::new(system.field, system.space.len()));
    let tail = relation.tail.as_slice();
    let mut list = Vec::new(alloc);
    'tail: for k in 0..tail.len() {
        let (_mono, c) = &tail[k];
        let den = field.den(c);
        add_once(alloc, system, &mut list, den)?;
    }
    Ok(list)
}

// Adds the factor, unless it is the same as a denominator.
fn add_other(
    alloc: Global,
    system: &System,
    others: &mut Vec<KPoly>,
    factor: &KPoly,
    den: &KPoly,
) -> Result<(), NoMemory>
    requires others { AreInSpace system.now.system others.old.items }
    requires factor { IsInSpace system.now.system factor.now }
    requires denominator { IsInSpace system.now.system den.now }
    ensures normal { OnOk result (AreInSpace system.now.system others.new.items) }
    ensures value { OnOk result (others.new.items ≡ with_other system.now.system factor.now den.now others.old.items) }
{
    let own = are_same(alloc, system, factor, den)?;
    if own {
        return Ok(());
    }
    let space = PolyRing::new(system.field, system.space.len());
    let copy = space.copy(alloc, factor)?;
    others.push(copy)?;
    Ok(())
}

// The factors that are not the same as a denominator.
fn factors_but(
    alloc: Global,
    system: &System,
    factors: &[KPoly],
    den: &KPoly,
) -> Result<Vec<KPoly>, NoMemory>
    requires factors { AreInSpace system.now.system factors.now }
    requires denominator { IsInSpace system.now.system den.now }
    ensures normal { IfOk result (λ ds. AreInSpace system.now.system ds.items) }
    ensures value { IfOk result (λ ds. ds.items ≡ without system.now.system den.now factors.now) }
{
    let mut others = Vec::new(alloc);
    'factors: for k in 0..factors.len() {
        add_other(alloc, system, &mut others, &factors[k], den)?;
    }
    Ok(others)
}

// The polynomial times the factors, from the left.
fn times_factors(
    alloc: Global,
    system: &System,
    f: KPoly,
    factors: &[KPoly],
) -> Result<KPoly, RingFault>
    requires system { IsSystem system.now.system }
    requires polynomial { IsInSpace system.now.system f }
    requires factors { AreInSpace system.now.system factors.now }
    ensures normal { IfOk result (IsInSpace system.now.system) }
    ensures value { IfOk result (IsProductFrom system.now.system f factors.now) }
    ensures degree { IfErr result (DegreesMeet (FactorsMeet system.now.system f factors.now)) }
{
    let space = PolyRing::new(system.field, system.space.len());
    let mut product = f;
    'factors: for k in 0..factors.len() {
        product = product_of_two(alloc, &space, &product, &factors[k])?;
    }
    Ok(product)
}

/// The product of the factors.
pub(crate) fn common_denominator(
    alloc: Global,
    system: &System,
    factors: &[KPoly],
) -> Result<KPoly, RingFault>
    requires system { IsSystem system.now.system }
    requires factors { AreInSpace system.now.system factors.now }
    ensures normal { IfOk result (IsInSpace system.now.system) }
    ensures value { IfOk result (IsProductOf system.now.system factors.now) }
    ensures degree { IfErr result (DegreesMeet (ProductMeets system.now.system factors.now)) }
{
    let space = PolyRing::new(system.field, system.space.len());
    let Some((first, others)) = factors.split_first() else {
        let one = space.one(alloc)?;
        return Ok(one);
    };
    let start = space.copy(alloc, first)?;
    let product = times_factors(alloc, system, start, others)?;
    Ok(product)
}

/// The numerator of a coefficient times the factors other than its own denominator.
pub(crate) fn raised_numerator(
    alloc: Global,
    system: &System,
    factors: &[KPoly],
    c: &Frac,
) -> Result<KPoly, RingFault>
    requires system { IsSystem system.now.system }
    requires factors { AreInSpace system.now.system factors.now }
    requires coefficient { IsFractionIn system.now.system c.now }
    ensures normal { IfOk result (IsInSpace system.now.system) }
    ensures value { IfOk result (IsRaisedBy system.now.system factors.now c.now) }
    ensures degree { IfErr result (DegreesMeet (NumeratorMeets system.now.system factors.now c.now)) }
{
    let space = PolyRing::new(system.field, system.space.len());
    let field = FracRing::new(PolyRing::new(system.field, system.space.len()));
    let (num, den) = (field.num(c), field.den(c));
    let others = factors_but(alloc, system, factors, den)?;
    let start = space.copy(alloc, num)?;
    let product = times_factors(alloc, system, start, &others)?;
    Ok(product)
}
