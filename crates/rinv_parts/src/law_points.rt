//! The points at which the parts of a law take the system's polynomials.

ghost use Rattle.std.specs.Prelude.{IfOk};
ghost use Rattle.rinv_defs.specs.Laws.Law.{L1, L2, L3, L4, L5, L6, A1, A2};
ghost use Rattle.rinv_parts.specs.LawNames.{law_of};
ghost use Rattle.rinv_parts.specs.Parts.{IsLawRing};
ghost use Rattle.rinv_parts.specs.Points.{ArePoints, law_points};

use crate::coordinates::{
    group_copy, inverse_of_copy, joined, moved_by_copy, product_of_copies, space_behind, unit_point,
};
use crate::law::LawName;
use rinv_poly::{KPoly, PolyRing};
use rinv_ring::{Gf, NoMemory};
use rinv_text::System;
use std::alloc::Global;

/// What a law says of some polynomials.
#[derive(Drop)]
pub enum LawPoints {
    /// They vanish at a point.
    Vanish(Vec<KPoly>),
    /// They have the same values at two points.
    Agree(Vec<KPoly>, Vec<KPoly>),
    /// At the first point they have the coordinates of the second for values.
    Give(Vec<KPoly>, Vec<KPoly>),
    /// At each of two points they have the coordinates of the third for values.
    GiveBoth(Vec<KPoly>, Vec<KPoly>, Vec<KPoly>),
}

// The unit is a point of the group.
fn unit_is_a_point(
    alloc: Global,
    system: &System,
    ring: &PolyRing<Gf>,
) -> Result<LawPoints, NoMemory>
    requires { IsLawRing system.now.system L1 ring.now.coeffs ring.now.vars }
    ensures { IfOk result (ArePoints system.now.system.p ring.now.vars (law_points system.now.system L1)) }
{
    let unit = unit_point(alloc, system, ring)?;
    Ok(LawPoints::Vanish(unit))
}

// Products of points are points.
fn products_are_points(
    alloc: Global,
    system: &System,
    ring: &PolyRing<Gf>,
) -> Result<LawPoints, NoMemory>
    requires { IsLawRing system.now.system L2 ring.now.coeffs ring.now.vars }
    ensures { IfOk result (ArePoints system.now.system.p ring.now.vars (law_points system.now.system L2)) }
{
    let product = product_of_copies(alloc, system, ring, 0)?;
    Ok(LawPoints::Vanish(product))
}

// Inverses of points are points.
fn inverses_are_points(
    alloc: Global,
    system: &System,
    ring: &PolyRing<Gf>,
) -> Result<LawPoints, NoMemory>
    requires { IsLawRing system.now.system L3 ring.now.coeffs ring.now.vars }
    ensures { IfOk result (ArePoints system.now.system.p ring.now.vars (law_points system.now.system L3)) }
{
    let inverse = inverse_of_copy(alloc, system, ring)?;
    Ok(LawPoints::Vanish(inverse))
}

// Products are associative.
fn products_are_associative(
    alloc: Global,
    system: &System,
    ring: &PolyRing<Gf>,
) -> Result<LawPoints, NoMemory>
    requires { IsLawRing system.now.system L4 ring.now.coeffs ring.now.vars }
    ensures { IfOk result (ArePoints system.now.system.p ring.now.vars (law_points system.now.system L4)) }
{
    let first = product_of_copies(alloc, system, ring, 0)?;
    let c = group_copy(alloc, system, ring, 2)?;
    let left = joined(first, c)?;
    let a = group_copy(alloc, system, ring, 0)?;
    let last = product_of_copies(alloc, system, ring, 1)?;
    let right = joined(a, last)?;
    Ok(LawPoints::Agree(left, right))
}

// The unit is neutral on both sides.
fn unit_is_neutral(
    alloc: Global,
    system: &System,
    ring: &PolyRing<Gf>,
) -> Result<LawPoints, NoMemory>
    requires { IsLawRing system.now.system L5 ring.now.coeffs ring.now.vars }
    ensures { IfOk result (ArePoints system.now.system.p ring.now.vars (law_points system.now.system L5)) }
{
    let unit = unit_point(alloc, system, ring)?;
    let a = group_copy(alloc, system, ring, 0)?;
    let left = joined(unit, a)?;
    let a = group_copy(alloc, system, ring, 0)?;
    let unit = unit_point(alloc, system, ring)?;
    let right = joined(a, unit)?;
    let a = group_copy(alloc, system, ring, 0)?;
    Ok(LawPoints::GiveBoth(left, right, a))
}

// Inverses are inverse on both sides.
fn inverses_are_inverse(
    alloc: Global,
    system: &System,
    ring: &PolyRing<Gf>,
) -> Result<LawPoints, NoMemory>
    requires { IsLawRing system.now.system L6 ring.now.coeffs ring.now.vars }
    ensures { IfOk result (ArePoints system.now.system.p ring.now.vars (law_points system.now.system L6)) }
{
    let inverse = inverse_of_copy(alloc, system, ring)?;
    let a = group_copy(alloc, system, ring, 0)?;
    let left = joined(inverse, a)?;
    let a = group_copy(alloc, system, ring, 0)?;
    let inverse = inverse_of_copy(alloc, system, ring)?;
    let right = joined(a, inverse)?;
    let unit = unit_point(alloc, system, ring)?;
    Ok(LawPoints::GiveBoth(left, right, unit))
}

// The unit moves nothing.
fn unit_moves_nothing(
    alloc: Global,
    system: &System,
    ring: &PolyRing<Gf>,
) -> Result<LawPoints, NoMemory>
    requires { IsLawRing system.now.system A1 ring.now.coeffs ring.now.vars }
    ensures { IfOk result (ArePoints system.now.system.p ring.now.vars (law_points system.now.system A1)) }
{
    let unit = unit_point(alloc, system, ring)?;
    let x = space_behind(alloc, system, ring, 0)?;
    let at_unit = joined(unit, x)?;
    let x = space_behind(alloc, system, ring, 0)?;
    Ok(LawPoints::Give(at_unit, x))
}

// A product moves as its factors do, one after the other.
fn products_move_in_turn(
    alloc: Global,
    system: &System,
    ring: &PolyRing<Gf>,
) -> Result<LawPoints, NoMemory>
    requires { IsLawRing system.now.system A2 ring.now.coeffs ring.now.vars }
    ensures { IfOk result (ArePoints system.now.system.p ring.now.vars (law_points system.now.system A2)) }
{
    let a = group_copy(alloc, system, ring, 0)?;
    let near = moved_by_copy(alloc, system, ring)?;
    let left = joined(a, near)?;
    let both = product_of_copies(alloc, system, ring, 0)?;
    let x = space_behind(alloc, system, ring, 2)?;
    let right = joined(both, x)?;
    Ok(LawPoints::Agree(left, right))
}

/// What the law says of some polynomials of the system.
pub(crate) fn points_of(
    alloc: Global,
    system: &System,
    ring: &PolyRing<Gf>,
    law: LawName,
) -> Result<LawPoints, NoMemory>
    requires { IsLawRing system.now.system (law_of law) ring.now.coeffs ring.now.vars }
    ensures { IfOk result (ArePoints system.now.system.p ring.now.vars (law_points system.now.system (law_of law))) }
{
    match law {
        LawName::L1 => unit_is_a_point(alloc, system, ring),
        LawName::L2 => products_are_points(alloc, system, ring),
        LawName::L3 => inverses_are_points(alloc, system, ring),
        LawName::L4 => products_are_associative(alloc, system, ring),
        LawName::L5 => unit_is_neutral(alloc, system, ring),
        LawName::L6 => inverses_are_inverse(alloc, system, ring),
        LawName::A1 => unit_moves_nothing(alloc, system, ring),
        LawName::A2 => products_move_in_turn(alloc, system, ring),
    }
}
