//! The relations with symbols, made ready for division.

ghost use Rattle.std.specs.Prelude.{◌≡◌, length, All, IfOk};
ghost use Rattle.rinv_defs.specs.System.{space_count};
ghost use Rattle.rinv_defs.specs.SystemForm.{IsSystem};
ghost use Rattle.rinv_gens.specs.Found.{ArePieces};
ghost use Rattle.rinv_rewrite.specs.Prepared.{IsPrepared, IsReady};
ghost use Rattle.rinv_rewrite.specs.Symbols.{IsSymbolRelation};

use crate::relations::symbol_basis;
use crate::symbols::{ZPoly, ZRing};
use rinv_div::Divisors;
use rinv_frac::Frac;
use rinv_gens::{Findings, Relation};
use rinv_poly::PolyRing;
use rinv_ring::{Gf, NoMemory};
use rinv_text::System;
use std::alloc::Global;

/// The relations as polynomials in Z whose coefficients are polynomials in the symbols, one symbol for each generator.
#[derive(Drop)]
pub struct SymbolBasis {
    pub(crate) symbols: u32,
    pub(crate) polys: Vec<ZPoly>,
    pub(crate) divisors: Divisors<PolyRing<Gf>>,
}

/// The polynomials in Z, for the space's variables, over those in so many symbols.
pub(crate) fn z_ring(system: &System, symbols: u32) -> ZRing
    requires { IsSystem system.now.system }
    ensures field { result.coeffs.coeffs ≡ system.now.system.p }
    ensures symbols { result.coeffs.vars ≡ symbols }
    ensures vars { result.vars ≡ space_count system.now.system }
{
    let coeffs = PolyRing::new(system.field, symbols);
    PolyRing::new(coeffs, system.space.len())
}

/// The relations, tied to generators of a system, made ready once for all fractions. There is one symbol for each of the fractions.
pub fn prepared_for(
    alloc: Global,
    system: &System,
    fractions: &[Frac],
    relations: &[Relation],
) -> Result<SymbolBasis, NoMemory>
    requires system { IsSystem system.now.system }
    requires relations { All (IsSymbolRelation system.now.system.p (length fractions.now) (space_count system.now.system)) relations.now }
    ensures { IfOk result (IsReady system.now.system.p (length fractions.now) (space_count system.now.system) relations.now) }
{
    let count = fractions.len();
    if count > u32::MAX as usize {
        return Err(NoMemory);
    }
    let ring = z_ring(system, count as u32);
    let basis = symbol_basis(&ring, alloc, relations)?;
    Ok(basis)
}

/// The relations that were found for a system, made ready once for all fractions.
pub fn prepared(alloc: Global, system: &System, found: &Findings) -> Result<SymbolBasis, NoMemory>
    requires system { IsSystem system.now.system }
    requires pieces { ArePieces system.now found.now }
    ensures { IfOk result (IsPrepared system.now.system found.now) }
{
    let basis = prepared_for(alloc, system, &found.fractions, &found.relations)?;
    Ok(basis)
}
