//! Products of many terms, added up piece by piece: memory follows the result, and not the number of products of two terms.

ghost use Rattle.std.specs.Prelude.{◌≡◌, ℕ, List, All, IfOk, OnOk};
ghost use Rattle.rinv_algebra.specs.Polynomial.{product};
ghost use Rattle.rinv_poly.specs.Terms.{IsTerm, FitWith};
ghost use Rattle.rinv_poly.specs.Polynomials.{IsOver, IsProductOver, IsSumOver};
ghost use Rattle.rinv_poly.specs.Changes.{ComeTo};

use crate::collect::collected;
use crate::merge::{Sign, merged};
use crate::products::push_products;
use rinv_mono::Mono;
use rinv_ring::{Ring, RingFault};
use std::alloc::Global;

// So many products of terms are collected before they are added up: one megabyte of them.
const PIECE: usize = 16_384;

/// The product of the two, in normal form. Where coefficients answer Degree, other sums may not: what is answered then says no more.
pub fn product_by_pieces<R: Ring>(
    coeffs: &R,
    alloc: Global,
    vars: u32,
    a: &[(Mono, R::Elem)],
    b: &[(Mono, R::Elem)],
) -> Result<Vec<(Mono, R::Elem)>, RingFault>
    requires left { IsOver R.ops R.is_element coeffs.now vars a.now }
    requires right { IsOver R.ops R.is_element coeffs.now vars b.now }
    ensures normal { IfOk result (λ v. IsOver R.ops R.is_element coeffs.now vars v.items) }
    ensures value { IfOk result (λ v. IsProductOver R.ops coeffs.now v.items a.now b.now) }
    ensures fits { OnOk result (All (λ s. FitWith s.0 b.now) a.now) }
{
    let mut sum = Vec::new(alloc);
    let mut piece = Vec::new(alloc);
    for (mono, c) in a {
        push_products(coeffs, alloc, vars, mono, c, b, &mut piece)?;
        let (so_far, left) = settled(coeffs, alloc, vars, sum, piece)?;
        sum = so_far;
        piece = left;
    }
    let product = total(coeffs, alloc, vars, sum, piece)?;
    Ok(product)
}

// Adds the piece to the sum once it is long: no shorter than the sum, so that each term is merged few times.
fn settled<R: Ring>(
    coeffs: &R,
    alloc: Global,
    vars: u32,
    sum: Vec<(Mono, R::Elem)>,
    piece: Vec<(Mono, R::Elem)>,
) -> Result<(Vec<(Mono, R::Elem)>, Vec<(Mono, R::Elem)>), RingFault>
    requires sum { IsOver R.ops R.is_element coeffs.now vars sum.items }
    requires piece { All (IsTerm (R.is_element coeffs.now) vars) piece.items }
    ensures sum { IfOk result (λ r. IsOver R.ops R.is_element coeffs.now vars r.0.items) }
    ensures piece { IfOk result (λ r. All (IsTerm (R.is_element coeffs.now) vars) r.1.items) }
    ensures value { IfOk result (ComeTo R.ops coeffs.now sum piece) }
{
    if piece.len() < PIECE || piece.len() < sum.len() {
        return Ok((sum, piece));
    }
    let sum = total(coeffs, alloc, vars, sum, piece)?;
    Ok((sum, Vec::new(alloc)))
}

// The sum and the terms of the piece.
fn total<R: Ring>(
    coeffs: &R,
    alloc: Global,
    vars: u32,
    sum: Vec<(Mono, R::Elem)>,
    piece: Vec<(Mono, R::Elem)>,
) -> Result<Vec<(Mono, R::Elem)>, RingFault>
    requires sum { IsOver R.ops R.is_element coeffs.now vars sum.items }
    requires piece { All (IsTerm (R.is_element coeffs.now) vars) piece.items }
    ensures normal { IfOk result (λ v. IsOver R.ops R.is_element coeffs.now vars v.items) }
    ensures value { IfOk result (λ v. IsSumOver R.ops coeffs.now v.items sum.items piece.items) }
{
    let terms = collected(coeffs, alloc, vars, piece)?;
    if sum.is_empty() {
        return Ok(terms);
    }
    let total = merged(coeffs, alloc, vars, Sign::Plus, &sum, &terms)?;
    Ok(total)
}
