//! Polynomials and their products, as division by a list of polynomials leaves them.

ghost use Rattle.std.specs.Prelude.{IfOk};
ghost use Rattle.rinv_algebra.specs.Residue.{residue_ops};
ghost use Rattle.rinv_algebra.specs.Polynomial.{product};
ghost use Rattle.rinv_modulo.specs.Congruence.{StandsFor};
ghost use Rattle.rinv_modulo.specs.Divisors.{AreDivisorsOf, IsPart};

use rinv_div::{Divisors, remainder_wholly};
use rinv_mono::Grevlex;
use rinv_poly::{KPoly, PolyRing};
use rinv_ring::{Gf, Ring, RingFault};
use std::alloc::Global;

/// What division of the polynomial by the basis leaves.
pub fn reduced(
    ring: &PolyRing<Gf>,
    alloc: Global,
    f: &KPoly,
    basis: &[KPoly],
    divisors: &Divisors<Gf>,
) -> Result<KPoly, RingFault>
    requires polynomial { IsPart ring.now.coeffs ring.now.vars f.now }
    requires divisors { AreDivisorsOf ring.now.coeffs ring.now.vars basis.now divisors.now.list.items }
    ensures { IfOk result (StandsFor ring.now.coeffs ring.now.vars basis.now f.now) }
{
    let rest = remainder_wholly(ring, alloc, f, basis, divisors, &Grevlex)?;
    Ok(rest)
}

/// What division of the product of two polynomials by the basis leaves.
pub(crate) fn product_modulo(
    ring: &PolyRing<Gf>,
    alloc: Global,
    f: &KPoly,
    g: &KPoly,
    basis: &[KPoly],
    divisors: &Divisors<Gf>,
) -> Result<KPoly, RingFault>
    requires left { IsPart ring.now.coeffs ring.now.vars f.now }
    requires right { IsPart ring.now.coeffs ring.now.vars g.now }
    requires divisors { AreDivisorsOf ring.now.coeffs ring.now.vars basis.now divisors.now.list.items }
    ensures { IfOk result (StandsFor ring.now.coeffs ring.now.vars basis.now (product (residue_ops ring.now.coeffs) f.now g.now)) }
{
    let product = ring.mul(alloc, f, g)?;
    let rest = reduced(ring, alloc, &product, basis, divisors)?;
    Ok(rest)
}
