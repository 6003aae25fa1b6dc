//! Tables of the powers of polynomials modulo an ideal.

ghost use Rattle.std.specs.Prelude.{◌≡◌, length, map, All, IfOk};
ghost use Rattle.rinv_modulo.specs.Congruence.{ArePowersModulo, AreTablesModulo};
ghost use Rattle.rinv_modulo.specs.Divisors.{AreDivisorsOf, IsPart};

use crate::reducing::product_modulo;
use rinv_div::Divisors;
use rinv_poly::{KPoly, PolyRing};
use rinv_ring::{Gf, NoMemory, Ring, RingFault};
use std::alloc::Global;

// The powers of the polynomial, up to this exponent, each divided as it is formed.
fn powers_modulo(
    ring: &PolyRing<Gf>,
    alloc: Global,
    f: &KPoly,
    greatest: u32,
    basis: &[KPoly],
    divisors: &Divisors<Gf>,
) -> Result<Vec<KPoly>, RingFault>
    requires polynomial { IsPart ring.now.coeffs ring.now.vars f.now }
    requires divisors { AreDivisorsOf ring.now.coeffs ring.now.vars basis.now divisors.now.list.items }
    ensures { IfOk result (λ r. ArePowersModulo ring.now.coeffs ring.now.vars basis.now f.now r.items) }
{
    let mut powers = Vec::new(alloc);
    let mut power = ring.one(alloc)?;
    'powers: for k in 0..greatest {
        let next = product_modulo(ring, alloc, &power, f, basis, divisors)?;
        powers.push(power)?;
        power = next;
    }
    powers.push(power)?;
    Ok(powers)
}

/// For each of the polynomials its powers, up to the exponent at its place.
pub fn tables_modulo(
    ring: &PolyRing<Gf>,
    alloc: Global,
    fs: &[KPoly],
    greatest: &[u32],
    basis: &[KPoly],
    divisors: &Divisors<Gf>,
) -> Result<Vec<Vec<KPoly>>, RingFault>
    requires many { length greatest.now ≡ length fs.now }
    requires polynomials { All (IsPart ring.now.coeffs ring.now.vars) fs.now }
    requires divisors { AreDivisorsOf ring.now.coeffs ring.now.vars basis.now divisors.now.list.items }
    ensures { IfOk result (λ r. AreTablesModulo ring.now.coeffs ring.now.vars basis.now fs.now (map (λ t. t.items) r.items)) }
{
    let mut tables = Vec::new(alloc);
    'polynomials: for k in 0..fs.len() {
        let powers = powers_modulo(ring, alloc, &fs[k], greatest[k], basis, divisors)?;
        tables.push(powers)?;
    }
    Ok(tables)
}

/// For each variable the greatest exponent that it has in one of the polynomials.
pub fn greatest_exponents(alloc: Global, fs: &[KPoly], vars: u32) -> Result<Vec<u32>, NoMemory>
    ensures { IfOk result (λ r. length r.items ≡ vars) }
{
    let mut greatest = Vec::new(alloc);
    'variables: for i in 0..vars {
        greatest.push(greatest_exponent(fs, i))?;
    }
    Ok(greatest)
}

// The greatest exponent of the variable at place `i`.
fn greatest_exponent(fs: &[KPoly], i: u32) -> u32 {
    let mut greatest = 0;
    'polynomials: for k in 0..fs.len() {
        let here = greatest_exponent_in(&fs[k], i);
        if here > greatest {
            greatest = here;
        }
    }
    greatest
}

// Its greatest exponent in a polynomial.
fn greatest_exponent_in(f: &KPoly, i: u32) -> u32 {
    let mut greatest = 0;
    for (mono, _) in f.terms() {
        if i < mono.vars() {
            let here = mono.exponent(i);
            if here > greatest {
                greatest = here;
            }
        }
    }
    greatest
}
