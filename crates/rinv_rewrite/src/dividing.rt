//! Division of polynomials, put in Z, by the relations with symbols.

ghost use Rattle.std.specs.Prelude.{List, ℕ, IfOk, IfErr};
ghost use Rattle.rinv_ring.specs.Fault.{DegreesMeet};
ghost use Rattle.rinv_frac.specs.Fractions.{IsPart};
ghost use Rattle.rinv_rewrite.specs.Needed.{InZMeets};
ghost use Rattle.rinv_rewrite.specs.Symbols.{IsSymbolPart};
ghost use Rattle.rinv_rewrite.specs.Taken.{LeavesInZ};
ghost use Rattle.rinv_rewrite.specs.Rewritten.{AreSymbolDivisors, IsInZ};

use crate::basis::SymbolBasis;
use crate::symbols::{ZPoly, ZRing, terms_in_z, total};
use rinv_div::remainder_wholly;
use rinv_mono::Grevlex;
use rinv_poly::KPoly;
use rinv_ring::{NoMemory, RingFault};
use std::alloc::Global;

// The polynomial, put in Z.
fn in_z(ring: &ZRing, alloc: Global, f: &KPoly) -> Result<ZPoly, NoMemory>
    requires { IsPart ring.now.coeffs.coeffs ring.now.vars f.now }
    ensures element { IfOk result (IsSymbolPart ring.now.coeffs.coeffs ring.now.coeffs.vars ring.now.vars) }
    ensures value { IfOk result (IsInZ ring.now.coeffs.coeffs f.now) }
{
    let terms = terms_in_z(ring, alloc, f)?;
    let poly = total(ring, alloc, terms)?;
    Ok(poly)
}

/// What division of the polynomial, put in Z, by the relations leaves.
pub(crate) fn rest_in_z(
    ring: &ZRing,
    alloc: Global,
    basis: &SymbolBasis,
    f: &KPoly,
) -> Result<ZPoly, RingFault>
    requires polynomial { IsPart ring.now.coeffs.coeffs ring.now.vars f.now }
    requires divisors { AreSymbolDivisors ring.now.coeffs.coeffs ring.now.coeffs.vars ring.now.vars basis.now }
    ensures element { IfOk result (IsSymbolPart ring.now.coeffs.coeffs ring.now.coeffs.vars ring.now.vars) }
    ensures rest { IfOk result (LeavesInZ ring.now.coeffs.coeffs basis.now.polys.items f.now) }
    ensures degree { IfErr result (DegreesMeet (InZMeets ring.now.coeffs.coeffs ring.now.coeffs.vars basis.now.polys.items f.now)) }
{
    let dividend = in_z(ring, alloc, f)?;
    let rest = remainder_wholly(
        ring,
        alloc,
        &dividend,
        &basis.polys,
        &basis.divisors,
        &Grevlex,
    )?;
    Ok(rest)
}
