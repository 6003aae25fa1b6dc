//! The cofactors of a value at Z = g over the group's ideal.

ghost use Rattle.std.specs.Prelude.{◌≡◌, length, true, nat_lt, IfOk};
ghost use Rattle.rinv_algebra.specs.Residue.{residue_ops};
ghost use Rattle.rinv_algebra.specs.Normal.{IsNormal};
ghost use Rattle.rinv_parts.specs.Points.{ArePolynomials};
ghost use Rattle.rinv_at_graph.specs.Grounds.{IsSomeGround};
ghost use Rattle.rinv_at_graph.specs.Stored.{GivesCofactors, GivesProof, GivesQuotients, GivesValue, IsInWhole};

use crate::ground::Ground;
use rinv_change::sums_of_products;
use rinv_div::{Division, divide_wholly};
use rinv_fits::check_sums;
use rinv_mono::Grevlex;
use rinv_poly::KPoly;
use rinv_ring::RingFault;
use rinv_sub::substitute_over_field;
use std::alloc::Global;

// The value of a polynomial in all variables.
fn value_of(alloc: Global, ground: &Ground, h: &KPoly) -> Result<KPoly, RingFault>
    requires ground { IsSomeGround ground.now }
    requires polynomial { IsNormal (residue_ops ground.now.ring.coeffs) (λ c. nat_lt c ground.now.ring.coeffs) ground.now.ring.vars h.now }
    ensures normal { IfOk result (IsInWhole ground.now) }
    ensures value { GivesValue result ground.now h.now }
{
    substitute_over_field(&ground.ring, alloc, h, &ground.whole, &ground.point)
}

// The quotients of a value by the kept elements of the group's basis.
fn quotients_of(alloc: Global, ground: &Ground, value: &KPoly) -> Result<Vec<KPoly>, RingFault>
    requires ground { IsSomeGround ground.now }
    requires value { IsInWhole ground.now value.now }
    ensures number { IfOk result (λ qs. length qs.items ≡ length ground.now.cofactors.lists.items) }
    ensures normal { IfOk result (λ qs. ArePolynomials ground.now.whole.coeffs ground.now.whole.vars qs.items) }
    ensures quotients { GivesQuotients result ground.now value.now }
{
    let basis = &ground.basis;
    let whole = &ground.whole;
    let division = divide_wholly(whole, alloc, value, &basis.polys, &basis.divisors, &Grevlex)?;
    let Division { quotients, .. } = division;
    Ok(quotients)
}

// The cofactors that the quotients make.
fn cofactors_of(
    alloc: Global,
    ground: &Ground,
    quotients: &[KPoly],
) -> Result<Vec<KPoly>, RingFault>
    requires ground { IsSomeGround ground.now }
    requires many { length quotients.now ≡ length ground.now.cofactors.lists.items }
    requires quotients { ArePolynomials ground.now.whole.coeffs ground.now.whole.vars quotients.now }
    ensures number { IfOk result (λ us. length us.items ≡ length ground.now.ideal.items) }
    ensures normal { IfOk result (λ us. ArePolynomials ground.now.whole.coeffs ground.now.whole.vars us.items) }
    ensures cofactors { GivesCofactors result ground.now quotients.now }
{
    let count = ground.ideal.len();
    let lists = &ground.cofactors.lists;
    let cofactors = sums_of_products(alloc, &ground.whole, quotients, lists, count)?;
    Ok(cofactors)
}

/// The cofactors of the value at Z = g of a polynomial in all variables, where it lies in the group's ideal: the quotients of its division
/// by the kept elements of the group's basis, times the cofactors of these. They multiply out within the limit on degrees. Degree comes only
/// where one of these products meets these degrees.
pub fn proof_at_graph(alloc: Global, ground: &Ground, h: &KPoly) -> Result<Vec<KPoly>, RingFault>
    requires ground { IsSomeGround ground.now }
    requires polynomial { IsNormal (residue_ops ground.now.ring.coeffs) (λ c. nat_lt c ground.now.ring.coeffs) ground.now.ring.vars h.now }
    ensures { GivesProof result ground.now h.now }
{
    let value = value_of(alloc, ground, h)?;
    let quotients = quotients_of(alloc, ground, &value)?;
    let cofactors = cofactors_of(alloc, ground, &quotients)?;
    check_sums(&ground.whole, &cofactors, &ground.ideal)?;
    Ok(cofactors)
}
