//! Values of polynomials modulo an ideal, by tables of the powers of the images.

ghost use Rattle.std.specs.Prelude.{◌≡◌, length, map, nat_lt, All, IsTrue, IfOk};
ghost use Rattle.rinv_poly.specs.Terms.{IsTerm};
ghost use Rattle.rinv_modulo.specs.Congruence.{ArePowersModulo, AreTablesModulo};
ghost use Rattle.rinv_modulo.specs.Divisors.{AreDivisorsOf, IsPart, StandsForTerm, StandsForTimes, StandsForValue};

use crate::reducing::product_modulo;
use rinv_div::Divisors;
use rinv_mono::Mono;
use rinv_poly::{KPoly, PolyRing};
use rinv_ring::{Gf, Ring, RingFault};
use std::alloc::Global;

// The polynomial times a power of the factor, which is in the table, or else is formed.
fn times_power(
    ring: &PolyRing<Gf>,
    alloc: Global,
    f: KPoly,
    factor: &KPoly,
    powers: &[KPoly],
    exponent: u32,
    basis: &[KPoly],
    divisors: &Divisors<Gf>,
) -> Result<KPoly, RingFault>
    requires left { IsPart ring.now.coeffs ring.now.vars f }
    requires right { IsPart ring.now.coeffs ring.now.vars factor.now }
    requires powers { ArePowersModulo ring.now.coeffs ring.now.vars basis.now factor.now powers.now }
    requires divisors { AreDivisorsOf ring.now.coeffs ring.now.vars basis.now divisors.now.list.items }
    ensures { IfOk result (StandsForTimes ring.now.coeffs ring.now.vars basis.now f factor.now exponent) }
{
    if exponent == 0 {
        return Ok(f);
    }
    if (exponent as usize) < powers.len() {
        let product = product_modulo(ring, alloc, &f, &powers[exponent as usize], basis, divisors)?;
        return Ok(product);
    }
    let mut product = f;
    'powers: for k in 0..exponent {
        product = product_modulo(ring, alloc, &product, factor, basis, divisors)?;
    }
    Ok(product)
}

// The value of a term at the images.
fn term_modulo(
    ring: &PolyRing<Gf>,
    alloc: Global,
    coefficient: u32,
    mono: &Mono,
    images: &[KPoly],
    tables: &[Vec<KPoly>],
    basis: &[KPoly],
    divisors: &Divisors<Gf>,
) -> Result<KPoly, RingFault>
    requires coefficient { IsTrue (nat_lt coefficient ring.now.coeffs) }
    requires many { length images.now ≡ length mono.now }
    requires images { All (IsPart ring.now.coeffs ring.now.vars) images.now }
    requires tables { AreTablesModulo ring.now.coeffs ring.now.vars basis.now images.now (map (λ t. t.items) tables.now) }
    requires divisors { AreDivisorsOf ring.now.coeffs ring.now.vars basis.now divisors.now.list.items }
    ensures { IfOk result (StandsForTerm ring.now.coeffs ring.now.vars basis.now images.now mono.now coefficient) }
{
    let mut product = ring.constant(alloc, coefficient)?;
    'images: for k in 0..mono.vars() {
        product = times_power(
            ring,
            alloc,
            product,
            &images[k as usize],
            &tables[k as usize],
            mono.exponent(k),
            basis,
            divisors,
        )?;
    }
    Ok(product)
}

/// The value of the sum of the terms at the images: the values of both halves, added up.
pub fn value_modulo(
    ring: &PolyRing<Gf>,
    alloc: Global,
    terms: &[(Mono, u32)],
    images: &[KPoly],
    tables: &[Vec<KPoly>],
    basis: &[KPoly],
    divisors: &Divisors<Gf>,
) -> Result<KPoly, RingFault>
    requires terms { All (IsTerm (λ c. nat_lt c ring.now.coeffs) (length images.now)) terms.now }
    requires images { All (IsPart ring.now.coeffs ring.now.vars) images.now }
    requires tables { AreTablesModulo ring.now.coeffs ring.now.vars basis.now images.now (map (λ t. t.items) tables.now) }
    requires divisors { AreDivisorsOf ring.now.coeffs ring.now.vars basis.now divisors.now.list.items }
    ensures { IfOk result (StandsForValue ring.now.coeffs ring.now.vars basis.now images.now terms.now) }
{
    if terms.is_empty() {
        let zero = ring.zero(alloc)?;
        return Ok(zero);
    }
    if terms.len() == 1 {
        let (mono, c) = &terms[0];
        let value = term_modulo(ring, alloc, *c, mono, images, tables, basis, divisors)?;
        return Ok(value);
    }
    let half = terms.len() / 2;
    let lower = value_modulo(ring, alloc, &terms[..half], images, tables, basis, divisors)?;
    let upper = value_modulo(ring, alloc, &terms[half..], images, tables, basis, divisors)?;
    let sum = ring.add(alloc, &lower, &upper)?;
    Ok(sum)
}
