//! Values of parts of an expression: numerators and denominators, of which nothing is cancelled.

ghost use Rattle.std.specs.Prelude.{◌≡◌, ◌+◌, ◌*◌, ◌<◌, ◌≤◌, ◌||◌, ℕ, Some, IfOk};
ghost use Rattle.rinv_algebra.specs.Residue.{residue_ops};
ghost use Rattle.rinv_algebra.specs.Monomial.{max_degree};
ghost use Rattle.rinv_algebra.specs.Polynomial.{Polynomial, product};
ghost use Rattle.rinv_text.specs.Reading.{to_the};
ghost use Rattle.rinv_text.specs.Values.{Stands, IsOver, MayCross, MayJoin};
ghost use Rattle.rinv_text.specs.Meanings.{Meaning, number_meaning, variable_meaning, negative_meaning, sum_meaning, product_meaning, quotient_meaning, power_meaning, within, StandsFor};

use crate::operations::{multiplied, raised};
use crate::partial::Partial;
use rinv_poly::{KPoly, PolyRing};
use rinv_ring::{Gf, Ring};
use std::alloc::{AllocError as NoMemory, Global};

/// A numerator; a denominator, where it is not 1; and whether something was divided by zero.
#[derive(Drop)]
pub struct Parts {
    pub num: Partial,
    pub den: Option<KPoly>,
    pub by_zero: bool,
}

// Whether one of two holds.
fn either(left: bool, right: bool) -> bool
    ensures { result ≡ (left || right) }
{
    left || right
}

// A numerator times a denominator.
fn crossed(
    alloc: Global,
    num: Partial,
    den: &Option<KPoly>,
    ring: &PolyRing<Gf>,
) -> Result<Partial, NoMemory>
    requires { MayCross ring.now.coeffs ring.now.vars num den.now }
    ensures { (d e : ℕ) (f g : Polynomial ℕ) → Stands ring.now.coeffs ring.now.vars d f num → IsOver ring.now.coeffs ring.now.vars e g den.now → IfOk result (Stands ring.now.coeffs ring.now.vars (d + e) (product (residue_ops ring.now.coeffs) f g)) }
{
    match den {
        None => Ok(num),
        Some(den) => {
            let den = ring.copy(alloc, den)?;
            let factor = Partial::whole(alloc, den, ring)?;
            let crossed = num.product(alloc, factor, ring)?;
            Ok(crossed)
        }
    }
}

// The product of two denominators.
fn joined(
    alloc: Global,
    first: Option<KPoly>,
    second: Option<KPoly>,
    ring: &PolyRing<Gf>,
) -> Result<Option<KPoly>, NoMemory>
    requires { MayJoin ring.now.coeffs ring.now.vars first second }
    ensures { (d e : ℕ) (f g : Polynomial ℕ) → IsOver ring.now.coeffs ring.now.vars d f first → IsOver ring.now.coeffs ring.now.vars e g second → IfOk result (IsOver ring.now.coeffs ring.now.vars (d + e) (product (residue_ops ring.now.coeffs) f g)) }
{
    let Some(first) = first else {
        return Ok(second);
    };
    let Some(second) = second else {
        return Ok(Some(first));
    };
    let den = multiplied(ring, alloc, &first, &second)?;
    Ok(Some(den))
}

// A denominator to the power.
fn den_power(
    alloc: Global,
    den: Option<KPoly>,
    exponent: u32,
    ring: &PolyRing<Gf>,
) -> Result<Option<KPoly>, NoMemory>
    requires { (d : ℕ) × (f : Polynomial ℕ) × IsOver ring.now.coeffs ring.now.vars d f den × (exponent * d ≤ max_degree) }
    ensures { (d : ℕ) (f : Polynomial ℕ) → IsOver ring.now.coeffs ring.now.vars d f den → IfOk result (IsOver ring.now.coeffs ring.now.vars (exponent * d) (to_the (residue_ops ring.now.coeffs) exponent f)) }
{
    match den {
        None => Ok(None),
        Some(den) => {
            let power = raised(ring, alloc, &den, exponent)?;
            Ok(Some(power))
        }
    }
}

impl Parts {
    // A number below the modulus.
    pub fn number(alloc: Global, c: u32, ring: &PolyRing<Gf>) -> Result<Parts, NoMemory>
        requires { c < ring.now.coeffs }
        ensures { IfOk result (λ x. StandsFor ring.now.coeffs ring.now.vars x (number_meaning ring.now.coeffs c)) }
    {
        let num = Partial::number(alloc, c, ring)?;
        Ok(Parts {
            num,
            den: None,
            by_zero: false,
        })
    }

    // The variable at a place.
    pub fn variable(alloc: Global, k: u32, ring: &PolyRing<Gf>) -> Result<Parts, NoMemory>
        requires { k < ring.now.vars }
        ensures { IfOk result (λ x. StandsFor ring.now.coeffs ring.now.vars x (variable_meaning ring.now.coeffs k)) }
    {
        let num = Partial::variable(alloc, k, ring)?;
        Ok(Parts {
            num,
            den: None,
            by_zero: false,
        })
    }

    // The opposite.
    pub fn negative(self, ring: &PolyRing<Gf>) -> Parts
        requires { (a : Meaning) × StandsFor ring.now.coeffs ring.now.vars self a }
        ensures { (a : Meaning) → StandsFor ring.now.coeffs ring.now.vars self a → StandsFor ring.now.coeffs ring.now.vars result (negative_meaning ring.now.coeffs a) }
    {
        let Parts { num, den, by_zero } = self;
        let num = num.negative(ring);
        Parts { num, den, by_zero }
    }

    // The sum of two: n/d + m/e is (n*e + m*d)/(d*e).
    pub fn sum(self, alloc: Global, other: Parts, ring: &PolyRing<Gf>) -> Result<Parts, NoMemory>
        requires { (a b z : Meaning) × StandsFor ring.now.coeffs ring.now.vars self a × StandsFor ring.now.coeffs ring.now.vars other b × (within (sum_meaning ring.now.coeffs a b) ≡ Some z) }
        ensures { (a b z : Meaning) → StandsFor ring.now.coeffs ring.now.vars self a → StandsFor ring.now.coeffs ring.now.vars other b → within (sum_meaning ring.now.coeffs a b) ≡ Some z → IfOk result (λ x. StandsFor ring.now.coeffs ring.now.vars x z) }
    {
        let by_zero = either(self.by_zero, other.by_zero);
        let left = crossed(alloc, self.num, &other.den, ring)?;
        let right = crossed(alloc, other.num, &self.den, ring)?;
        let num = left.sum(alloc, right, ring)?;
        let den = joined(alloc, self.den, other.den, ring)?;
        Ok(Parts { num, den, by_zero })
    }

    // The product of two.
    pub fn product(
        self,
        alloc: Global,
        other: Parts,
        ring: &PolyRing<Gf>,
    ) -> Result<Parts, NoMemory>
        requires { (a b z : Meaning) × StandsFor ring.now.coeffs ring.now.vars self a × StandsFor ring.now.coeffs ring.now.vars other b × (within (product_meaning ring.now.coeffs a b) ≡ Some z) }
        ensures { (a b z : Meaning) → StandsFor ring.now.coeffs ring.now.vars self a → StandsFor ring.now.coeffs ring.now.vars other b → within (product_meaning ring.now.coeffs a b) ≡ Some z → IfOk result (λ x. StandsFor ring.now.coeffs ring.now.vars x z) }
    {
        let by_zero = either(self.by_zero, other.by_zero);
        let num = self.num.product(alloc, other.num, ring)?;
        let den = joined(alloc, self.den, other.den, ring)?;
        Ok(Parts { num, den, by_zero })
    }

    // One divided by another: n/d by m/e is (n*e)/(d*m), and nothing is divided by zero where m is not zero.
    pub fn quotient(
        self,
        alloc: Global,
        other: Parts,
        ring: &PolyRing<Gf>,
    ) -> Result<Parts, NoMemory>
        requires { (a b z : Meaning) × StandsFor ring.now.coeffs ring.now.vars self a × StandsFor ring.now.coeffs ring.now.vars other b × (within (quotient_meaning ring.now.coeffs a b) ≡ Some z) }
        ensures { (a b z : Meaning) → StandsFor ring.now.coeffs ring.now.vars self a → StandsFor ring.now.coeffs ring.now.vars other b → within (quotient_meaning ring.now.coeffs a b) ≡ Some z → IfOk result (λ x. StandsFor ring.now.coeffs ring.now.vars x z) }
    {
        let any = either(self.by_zero, other.by_zero);
        let num = crossed(alloc, self.num, &other.den, ring)?;
        let divisor = other.num.settled(alloc, ring)?;
        let is_zero = ring.is_zero(&divisor);
        let by_zero = either(any, is_zero);
        let den = joined(alloc, self.den, Some(divisor), ring)?;
        Ok(Parts { num, den, by_zero })
    }

    // The power.
    pub fn power(self, alloc: Global, exponent: u32, ring: &PolyRing<Gf>) -> Result<Parts, NoMemory>
        requires { (a z : Meaning) × StandsFor ring.now.coeffs ring.now.vars self a × (within (power_meaning ring.now.coeffs a exponent) ≡ Some z) }
        ensures { (a z : Meaning) → StandsFor ring.now.coeffs ring.now.vars self a → within (power_meaning ring.now.coeffs a exponent) ≡ Some z → IfOk result (λ x. StandsFor ring.now.coeffs ring.now.vars x z) }
    {
        let num = self.num.power(alloc, exponent, ring)?;
        let den = den_power(alloc, self.den, exponent, ring)?;
        Ok(Parts {
            num,
            den,
            by_zero: self.by_zero,
        })
    }
}
