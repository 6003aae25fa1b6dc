//! Whether a polynomial is a sum of products. No product with a cofactor that is zero is formed.

ghost use Rattle.std.specs.Prelude.{◌≡◌, length, IsTrue, IfOk, IfSome, OnOk, option_map, is_some};
ghost use Rattle.rinv_algebra.specs.Residue.{residue_ops};
ghost use Rattle.rinv_algebra.specs.Fits.{product_fits, combination_fits, multiplies_out};
ghost use Rattle.rinv_form.specs.Forms.{is_stored};
ghost use Rattle.rinv_parts.specs.Points.{ArePolynomials};
ghost use Rattle.rinv_identities.specs.Stored.{AddsIf, SumsUp};

use rinv_poly::{KPoly, PolyRing};
use rinv_ring::{Gf, NoMemory, Ring, RingFault};
use std::alloc::Global;

// Adds a product to others, unless the cofactor is zero; false where it does not fit.
fn add_product(
    alloc: Global,
    ring: &PolyRing<Gf>,
    cofactor: &KPoly,
    generator: &KPoly,
    products: &mut Vec<KPoly>,
) -> Result<bool, NoMemory>
    requires cofactor { IsTrue (is_stored ring.now.coeffs ring.now.vars cofactor.now) }
    requires generator { IsTrue (is_stored ring.now.coeffs ring.now.vars generator.now) }
    requires products { ArePolynomials ring.now.coeffs ring.now.vars products.old.items }
    ensures fits { IfOk result (λ b. b ≡ product_fits (residue_ops ring.now.coeffs) cofactor.now generator.now) }
    ensures products { OnOk result (ArePolynomials ring.now.coeffs ring.now.vars products.new.items) }
    ensures sum { IfOk result (λ b. AddsIf b ring.now.coeffs cofactor.now generator.now products.old.items products.new.items) }
{
    if ring.is_zero(cofactor) {
        return Ok(true);
    }
    match ring.product(alloc, cofactor, generator) {
        Ok(product) => {
            products.push(product)?;
            Ok(true)
        }
        Err(RingFault::Degree { .. }) => Ok(false),
        Err(RingFault::NoMemory) => Err(NoMemory),
    }
}

// The products that are not zero; None where one does not fit.
fn products_of(
    alloc: Global,
    ring: &PolyRing<Gf>,
    cofactors: &[KPoly],
    generators: &[KPoly],
) -> Result<Option<Vec<KPoly>>, NoMemory>
    requires many { length cofactors.now ≡ length generators.now }
    requires cofactors { ArePolynomials ring.now.coeffs ring.now.vars cofactors.now }
    requires generators { ArePolynomials ring.now.coeffs ring.now.vars generators.now }
    ensures fits { IfOk result (λ o. is_some o ≡ combination_fits (residue_ops ring.now.coeffs) cofactors.now generators.now) }
    ensures products { IfOk result (λ o. IfSome o (λ v. ArePolynomials ring.now.coeffs ring.now.vars v.items)) }
    ensures sum { IfOk result (λ o. IfSome o (λ v. SumsUp ring.now.coeffs cofactors.now generators.now v.items)) }
{
    let mut products = Vec::new(alloc);
    'products: for k in 0..cofactors.len() {
        if !add_product(alloc, ring, &cofactors[k], &generators[k], &mut products)? {
            return Ok(None);
        }
    }
    Ok(Some(products))
}

/// Whether the polynomial is the sum of the cofactors times the generators, and these products fit.
pub fn multiplies_out(
    alloc: Global,
    ring: &PolyRing<Gf>,
    f: &KPoly,
    cofactors: &[KPoly],
    generators: &[KPoly],
) -> Result<bool, NoMemory>
    requires polynomial { IsTrue (is_stored ring.now.coeffs ring.now.vars f.now) }
    requires many { length cofactors.now ≡ length generators.now }
    requires cofactors { ArePolynomials ring.now.coeffs ring.now.vars cofactors.now }
    requires generators { ArePolynomials ring.now.coeffs ring.now.vars generators.now }
    ensures { IfOk result (λ b. b ≡ multiplies_out (residue_ops ring.now.coeffs) f.now cofactors.now generators.now) }
{
    let Some(products) = products_of(alloc, ring, cofactors, generators)? else {
        return Ok(false);
    };
    // Sums and comparisons of numbers modulo a prime are refused for memory alone.
    let Ok(sum) = ring.sum(alloc, products) else {
        return Err(NoMemory);
    };
    match ring.same(alloc, f, &sum) {
        Ok(same) => Ok(same),
        Err(_) => Err(NoMemory),
    }
}
