//! The field of fractions of the polynomials in some variables.

ghost use Rattle.std.specs.Prelude.{◌≡◌, ◌≤◌, ◌+◌, ◌↔◌, ℕ, [], false, IsTrue, IsNone, IfOk, IfErr, IfSome};
ghost use Rattle.rinv_algebra.specs.Ring.{IsSame};
ghost use Rattle.rinv_algebra.specs.Residue.{residue_ops};
ghost use Rattle.rinv_algebra.specs.Polynomial.{constant, is_zero};
ghost use Rattle.rinv_algebra.specs.Fraction.{over_one, fraction_ops};
ghost use Rattle.rinv_algebra.proofs.ResidueLaws.{residue_laws};
ghost use Rattle.rinv_algebra.proofs.ResidueField.{residue_field_laws};
ghost use Rattle.rinv_theory.proofs.Fields.{fraction_laws, fraction_field};
ghost use Rattle.rinv_ring.specs.Operation.{adds, subtracts, multiplies, compares};
ghost use Rattle.rinv_ring.specs.Fault.{DegreesMeet};
ghost use Rattle.rinv_frac.specs.Fractions.{IsPart, is_stored, IsStored, height};
ghost use Rattle.rinv_frac.specs.Cancelling.{IsSamePair};
ghost use Rattle.rinv_frac.specs.Arithmetic.{IsSum, IsDifference, IsProduct, IsInverse};
ghost use Rattle.rinv_frac.specs.Faults.{fractions_meet, fractions_over};

use crate::fraction::Frac;
use crate::parts::{are_same, over_one, times};
use crate::uncancelled::{Joining, turned_over, uncancelled_product, uncancelled_sum};
use rinv_poly::{KPoly, PolyRing};
use rinv_ring::{Field, Gf, NoMemory, Ring, RingFault};
use std::alloc::Global;

/// The field of fractions of a ring of polynomials.
#[derive(Drop)]
pub struct FracRing {
    base: PolyRing<Gf>,
}

impl FracRing {
    /// The field of fractions of the ring.
    pub fn new(base: PolyRing<Gf>) -> FracRing
        ensures { result.base ≡ base }
    {
        FracRing { base }
    }

    /// The ring of the numerators and denominators.
    pub fn base(&self) -> &PolyRing<Gf>
        ensures { result.now ≡ self.now.base }
    {
        &self.base
    }

    /// The fraction with these parts, not cancelled; None exactly where the denominator is zero.
    pub fn fraction(&self, num: KPoly, den: KPoly) -> Result<Option<Frac>, NoMemory>
        requires numerator { IsPart self.now.base.coeffs self.now.base.vars num }
        requires denominator { IsPart self.now.base.coeffs self.now.base.vars den }
        ensures none { IfOk result (λ o. IsNone o ↔ IsTrue (is_zero (residue_ops self.now.base.coeffs) den)) }
        ensures parts { IfOk result (λ o. IfSome o (λ f. f ≡ (num, den))) }
        ensures element { IfOk result (λ o. IfSome o (IsStored self.now.base.coeffs self.now.base.vars)) }
    {
        if self.base.is_zero(&den) {
            return Ok(None);
        }
        Ok(Some(Frac { num, den }))
    }

    /// The polynomial over one.
    pub fn over_one(&self, alloc: Global, num: KPoly) -> Result<Frac, NoMemory>
        requires { IsPart self.now.base.coeffs self.now.base.vars num }
        ensures element { IfOk result (IsStored self.now.base.coeffs self.now.base.vars) }
        ensures value { IfOk result (λ r. IsSamePair (residue_ops self.now.base.coeffs) r (over_one (residue_ops self.now.base.coeffs) num)) }
    {
        let fraction = over_one(&self.base, alloc, num)?;
        Ok(fraction)
    }

    /// The numerator.
    pub fn num<'a>(&self, f: &'a Frac) -> &'a KPoly
        ensures { result.now ≡ f.now.0 }
    {
        &f.num
    }

    /// The denominator.
    pub fn den<'a>(&self, f: &'a Frac) -> &'a KPoly
        ensures { result.now ≡ f.now.1 }
    {
        &f.den
    }
}

impl Ring for FracRing {
    type Elem = Frac;

    ghost ops = { λ s. fraction_ops (residue_ops s.base.coeffs) };

    ghost is_element = { λ s f. is_stored s.base.coeffs s.base.vars f };

    ghost too_high = { λ s op f g x y. fractions_meet (residue_ops s.base.coeffs) op f g x y };

    ghost over = { λ s op f g x y h. fractions_over (residue_ops s.base.coeffs) op f g x y h };

    ghost laws = { λ s. fraction_laws (residue_ops s.base.coeffs) (residue_laws s.base.coeffs) (residue_field_laws s.base.coeffs) };

    fn zero(&self, alloc: Global) -> Result<Frac, NoMemory>
        ensures element { IfOk result (IsStored self.now.base.coeffs self.now.base.vars) }
        ensures value { IfOk result (λ r. IsSame (fraction_ops (residue_ops self.now.base.coeffs)) r (fraction_ops (residue_ops self.now.base.coeffs)).zero) }
        ensures made { IfOk result (λ r. IsSamePair (residue_ops self.now.base.coeffs) r (over_one (residue_ops self.now.base.coeffs) [])) }
    {
        let num = self.base.zero(alloc)?;
        let zero = over_one(&self.base, alloc, num)?;
        Ok(zero)
    }

    fn one(&self, alloc: Global) -> Result<Frac, NoMemory>
        ensures element { IfOk result (IsStored self.now.base.coeffs self.now.base.vars) }
        ensures value { IfOk result (λ r. IsSame (fraction_ops (residue_ops self.now.base.coeffs)) r (fraction_ops (residue_ops self.now.base.coeffs)).one) }
        ensures made { IfOk result (λ r. IsSamePair (residue_ops self.now.base.coeffs) r (over_one (residue_ops self.now.base.coeffs) (constant (residue_ops self.now.base.coeffs) 1))) }
    {
        let num = self.base.one(alloc)?;
        let one = over_one(&self.base, alloc, num)?;
        Ok(one)
    }

    fn add(&self, alloc: Global, a: &Frac, b: &Frac) -> Result<Frac, RingFault>
        requires left { IsStored self.now.base.coeffs self.now.base.vars a.now }
        requires right { IsStored self.now.base.coeffs self.now.base.vars b.now }
        ensures element { IfOk result (IsStored self.now.base.coeffs self.now.base.vars) }
        ensures value { IfOk result (λ r. IsSame (fraction_ops (residue_ops self.now.base.coeffs)) r ((fraction_ops (residue_ops self.now.base.coeffs)).add a.now b.now)) }
        ensures height { IfOk result (λ r. height (residue_ops self.now.base.coeffs) r ≤ height (residue_ops self.now.base.coeffs) a.now + height (residue_ops self.now.base.coeffs) b.now) }
        ensures made { IfOk result (IsSum (residue_ops self.now.base.coeffs) a.now b.now) }
        ensures degree { IfErr result (DegreesMeet (fractions_meet (residue_ops self.now.base.coeffs) adds a.now b.now)) }
    {
        let sum = uncancelled_sum(&self.base, alloc, Joining::Sum, a, b)?;
        let sum = self.cancel(alloc, sum)?;
        Ok(sum)
    }

    fn sub(&self, alloc: Global, a: &Frac, b: &Frac) -> Result<Frac, RingFault>
        requires left { IsStored self.now.base.coeffs self.now.base.vars a.now }
        requires right { IsStored self.now.base.coeffs self.now.base.vars b.now }
        ensures element { IfOk result (IsStored self.now.base.coeffs self.now.base.vars) }
        ensures value { IfOk result (λ r. IsSame (fraction_ops (residue_ops self.now.base.coeffs)) r ((fraction_ops (residue_ops self.now.base.coeffs)).add a.now ((fraction_ops (residue_ops self.now.base.coeffs)).neg b.now))) }
        ensures height { IfOk result (λ r. height (residue_ops self.now.base.coeffs) r ≤ height (residue_ops self.now.base.coeffs) a.now + height (residue_ops self.now.base.coeffs) b.now) }
        ensures made { IfOk result (IsDifference (residue_ops self.now.base.coeffs) a.now b.now) }
        ensures degree { IfErr result (DegreesMeet (fractions_meet (residue_ops self.now.base.coeffs) subtracts a.now b.now)) }
    {
        let difference = uncancelled_sum(&self.base, alloc, Joining::Difference, a, b)?;
        let difference = self.cancel(alloc, difference)?;
        Ok(difference)
    }

    fn mul(&self, alloc: Global, a: &Frac, b: &Frac) -> Result<Frac, RingFault>
        requires left { IsStored self.now.base.coeffs self.now.base.vars a.now }
        requires right { IsStored self.now.base.coeffs self.now.base.vars b.now }
        ensures element { IfOk result (IsStored self.now.base.coeffs self.now.base.vars) }
        ensures value { IfOk result (λ r. IsSame (fraction_ops (residue_ops self.now.base.coeffs)) r ((fraction_ops (residue_ops self.now.base.coeffs)).mul a.now b.now)) }
        ensures height { IfOk result (λ r. height (residue_ops self.now.base.coeffs) r ≤ height (residue_ops self.now.base.coeffs) a.now + height (residue_ops self.now.base.coeffs) b.now) }
        ensures made { IfOk result (IsProduct (residue_ops self.now.base.coeffs) a.now b.now) }
        ensures degree { IfErr result (DegreesMeet (fractions_meet (residue_ops self.now.base.coeffs) multiplies a.now b.now)) }
    {
        let product = uncancelled_product(&self.base, alloc, a, b)?;
        let product = self.cancel(alloc, product)?;
        Ok(product)
    }

    fn is_zero(&self, a: &Frac) -> bool {
        self.base.is_zero(&a.num)
    }

    fn same(&self, alloc: Global, a: &Frac, b: &Frac) -> Result<bool, RingFault> {
        let left = times(&self.base, alloc, &a.num, &b.den)?;
        let right = times(&self.base, alloc, &b.num, &a.den)?;
        let same = are_same(&self.base, alloc, &left, &right)?;
        Ok(same)
    }

    fn copy(&self, alloc: Global, a: &Frac) -> Result<Frac, NoMemory> {
        let num = self.base.copy(alloc, &a.num)?;
        let den = self.base.copy(alloc, &a.den)?;
        Ok(Frac { num, den })
    }
}

impl Field for FracRing {
    fn inverse(&self, alloc: Global, a: &Frac) -> Result<Option<Frac>, NoMemory>
        requires { IsStored self.now.base.coeffs self.now.base.vars a.now }
        ensures none { IfOk result (λ o. IsNone o ↔ IsSame (fraction_ops (residue_ops self.now.base.coeffs)) a.now (fraction_ops (residue_ops self.now.base.coeffs)).zero) }
        ensures element { IfOk result (λ o. IfSome o (IsStored self.now.base.coeffs self.now.base.vars)) }
        ensures value { IfOk result (λ o. IfSome o (λ b. IsSame (fraction_ops (residue_ops self.now.base.coeffs)) ((fraction_ops (residue_ops self.now.base.coeffs)).mul a.now b) (fraction_ops (residue_ops self.now.base.coeffs)).one)) }
        ensures made { IfOk result (λ o. IfSome o (IsInverse (residue_ops self.now.base.coeffs) a.now)) }
    {
        if self.is_zero(a) {
            return Ok(None);
        }
        let turned = turned_over(&self.base, alloc, a)?;
        let inverse = self.cancel(alloc, turned)?;
        Ok(Some(inverse))
    }

    ghost field_laws = { λ s. fraction_field (residue_ops s.base.coeffs) (residue_laws s.base.coeffs) (residue_field_laws s.base.coeffs) };
}
