//! The expression of an invariant in the generators.

ghost use Rattle.std.specs.Prelude.{◌≡◌, List, length, All, MatchOption, IfOk, IfErr, OnOk, ⊤};
ghost use Rattle.rinv_defs.specs.System.{space_count};
ghost use Rattle.rinv_defs.specs.SystemForm.{IsSystem};
ghost use Rattle.rinv_defs.specs.Invariant.{Fraction, IsInvariant};
ghost use Rattle.rinv_soundness.specs.Rewriting.{SymbolRelation};
ghost use Rattle.rinv_frac.specs.Fractions.{IsStored};
ghost use Rattle.rinv_laws.specs.Group.{IsGroupBasis};
ghost use Rattle.rinv_gens.specs.Found.{ArePieces};
ghost use Rattle.rinv_rewrite.specs.Prepared.{IsPrepared};
ghost use Rattle.rinv_rewrite.specs.Rewritten.{AnswersBy, AnswersOrStops, IsExact, IsReadyBasis, IsTakenFrom, StopsInTest, StopsSoFor};

use crate::basis::{SymbolBasis, z_ring};
use crate::choosing::chosen;
use crate::dividing::rest_in_z;
use crate::expression::Expression;
use crate::stop::RewriteStop;
use rinv_change::test_invariant;
use rinv_frac::{Frac, FracRing};
use rinv_gens::Findings;
use rinv_laws::GroupBasis;
use rinv_poly::PolyRing;
use rinv_ring::RingFault;
use rinv_text::System;
use std::alloc::Global;

// Whether the fraction is invariant: a stop where it is not.
fn tested(alloc: Global, system: &System, group: &GroupBasis, f: &Frac) -> Result<(), RewriteStop>
    requires system { IsSystem system.now.system }
    requires group { IsGroupBasis system.now.system group.now.basis group.now.reduced.items }
    requires fraction { IsStored system.now.system.p (space_count system.now.system) f.now }
    ensures invariant { OnOk result (IsInvariant system.now.system f.now) }
    ensures stop { (cs : List Fraction) (qs : List SymbolRelation) → IfErr result (StopsInTest system.now.system group.now cs qs f.now) }
{
    match test_invariant(alloc, system, group, f) {
        Ok(None) => Ok(()),
        Ok(Some(rest)) => Err(RewriteStop::NotInvariant { rest }),
        Err(RingFault::Degree { left, right }) => Err(RewriteStop::Degree { left, right }),
        Err(RingFault::NoMemory) => Err(RewriteStop::NoMemory),
    }
}

// The expression of a fraction that is invariant, by relations that are tied to the fractions.
fn expressed(
    alloc: Global,
    system: &System,
    fractions: &[Frac],
    basis: &SymbolBasis,
    f: &Frac,
) -> Result<Option<Expression>, RingFault>
    requires system { IsSystem system.now.system }
    requires invariant { IsInvariant system.now.system f.now }
    requires fraction { IsStored system.now.system.p (space_count system.now.system) f.now }
    requires fractions { All (IsStored system.now.system.p (space_count system.now.system)) fractions.now }
    requires basis { IsReadyBasis system.now.system fractions.now basis.now }
    ensures { AnswersBy result system.now.system fractions.now basis.now f.now }
{
    let ring = z_ring(system, basis.symbols);
    let field = FracRing::new(PolyRing::new(system.field, system.space.len()));
    let num = rest_in_z(&ring, alloc, basis, field.num(f))?;
    let den = rest_in_z(&ring, alloc, basis, field.den(f))?;
    let expression = chosen(&ring, alloc, &field, fractions, &num, &den)?;
    Ok(expression)
}

/// The expression of an invariant in the fractions, by relations that are tied to them; None exactly where it is invariant and its
/// denominator vanishes on the section. The stops are those of `rewritten`.
pub fn rewritten_by(
    alloc: Global,
    system: &System,
    group: &GroupBasis,
    fractions: &[Frac],
    basis: &SymbolBasis,
    f: &Frac,
) -> Result<Option<Expression>, RewriteStop>
    requires system { IsSystem system.now.system }
    requires group { IsGroupBasis system.now.system group.now.basis group.now.reduced.items }
    requires fractions { All (IsStored system.now.system.p (space_count system.now.system)) fractions.now }
    requires basis { IsReadyBasis system.now.system fractions.now basis.now }
    requires fraction { IsStored system.now.system.p (space_count system.now.system) f.now }
    ensures invariant { OnOk result (IsInvariant system.now.system f.now) }
    ensures answer { AnswersOrStops result system.now.system group.now fractions.now basis.now f.now }
{
    tested(alloc, system, group, f)?;
    match expressed(alloc, system, fractions, basis, f) {
        Ok(expression) => Ok(expression),
        Err(RingFault::Degree { left, right }) => Err(RewriteStop::Degree { left, right }),
        Err(RingFault::NoMemory) => Err(RewriteStop::NoMemory),
    }
}

/// The expression of an invariant in the generators that were found for a system; None exactly where it is invariant and its denominator
/// vanishes on the section, which none does where there is no section.
///
/// NotInvariant comes exactly where the fraction is not, with the rest of `test_invariant`; Degree only where the test of its invariance,
/// the division of its numerator or denominator by the relations, or the value of a coefficient of the rest of its denominator meets these
/// degrees.
pub fn rewritten(
    alloc: Global,
    system: &System,
    found: &Findings,
    basis: &SymbolBasis,
    f: &Frac,
) -> Result<Option<Expression>, RewriteStop>
    requires system { IsSystem system.now.system }
    requires pieces { ArePieces system.now found.now }
    requires basis { IsPrepared system.now.system found.now basis.now }
    requires fraction { IsStored system.now.system.p (space_count system.now.system) f.now }
    ensures invariant { OnOk result (IsInvariant system.now.system f.now) }
    ensures exact { IfOk result (IsExact system.now.system found.now.fractions.items f.now) }
    ensures symbols { IfOk result (λ r. MatchOption r ⊤ (IsStored system.now.system.p (length found.now.fractions.items))) }
    ensures taken { IfOk result (IsTakenFrom system.now.system found.now f.now) }
    ensures stop { IfErr result (StopsSoFor system.now.system found.now f.now) }
{
    let expression = rewritten_by(alloc, system, &found.group, &found.fractions, basis, f)?;
    Ok(expression)
}
