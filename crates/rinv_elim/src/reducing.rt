//! The reduced basis of the extended ideal.

ghost use Rattle.std.specs.Prelude.{ℕ, All, IfOk, IfErr};
ghost use Rattle.rinv_defs.specs.System.{space_count};
ghost use Rattle.rinv_defs.specs.SystemForm.{IsSystem};
ghost use Rattle.rinv_defs.specs.Extended.{IsReducedBasis};
ghost use Rattle.rinv_invariance.specs.Twins.{AreAscending};
ghost use Rattle.rinv_reduction.specs.Localised.{IsMonicBasis};
ghost use Rattle.rinv_tails.specs.Stored.{IsStoredRelation};
ghost use Rattle.rinv_tails.specs.Reducing.{AreReducedSoFar, TailsMeet};
ghost use Rattle.rinv_elim.specs.Stopped.{StopsAt};

use crate::stop::ElimStop;
use rinv_frac::FracRing;
use rinv_poly::PolyRing;
use rinv_tails::{Monic, reduced_tails};
use rinv_text::System;
use std::alloc::Global;

/// The reduced Gröbner basis of the extended ideal: each tail is reduced by the relations before it, the greatest term first.
pub fn reduce(alloc: Global, system: &System, relations: Monic) -> Result<Monic, ElimStop>
    requires system { IsSystem system.now.system }
    requires stored { All (IsStoredRelation system.now.system.p (space_count system.now.system)) relations }
    requires monic { IsMonicBasis system.now.system relations }
    ensures reduced { IfOk result (IsReducedBasis system.now.system) }
    ensures ascending { IfOk result AreAscending }
    ensures stored { IfOk result (All (IsStoredRelation system.now.system.p (space_count system.now.system))) }
    ensures made { IfOk result (AreReducedSoFar system.now.system.p (space_count system.now.system) relations) }
    ensures degree { IfErr result (StopsAt (λ _. ⊥) (TailsMeet system.now.system.p (space_count system.now.system) relations)) }
{
    let ring = PolyRing::new(system.field, system.space.len());
    let field = FracRing::new(ring);
    let reduced = reduced_tails(&field, alloc, relations)?;
    Ok(reduced)
}
