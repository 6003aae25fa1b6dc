//! The change of a fraction N/D: N(g)*D - N*D(g), in the group's and then the space's variables.

ghost use Rattle.std.specs.Prelude.{◌≡◌, ◌+◌, IfOk};
ghost use Rattle.std.specs.Result.{MatchResult};
ghost use Rattle.rinv_algebra.specs.Polynomial.{past};
ghost use Rattle.rinv_defs.specs.System.{group_count, space_count};
ghost use Rattle.rinv_defs.specs.SystemForm.{IsSystem};
ghost use Rattle.rinv_ring.specs.Fault.{DegreesMeet};
ghost use Rattle.rinv_frac.specs.Fractions.{IsPart, IsStored};
ghost use Rattle.rinv_parts.specs.Points.{IsStoredIn};
ghost use Rattle.rinv_change.specs.Asked.{IsChangeRing};
ghost use Rattle.rinv_change.specs.Changes.{ChangingMeets, change_count};
ghost use Rattle.rinv_change.specs.Changing.{IsAtMoved, IsMinus, IsStoredChange, IsTimes, MovedMeets, OfStored, TimesStops};

use rinv_frac::{Frac, FracRing};
use rinv_poly::{KPoly, PolyRing};
use rinv_ring::{Gf, NoMemory, Ring, RingFault};
use rinv_sub::substitute_over_field;
use rinv_text::System;
use std::alloc::Global;

/// The ring of changes.
pub fn change_ring(system: &System) -> PolyRing<Gf>
    requires { IsSystem system.now.system }
    ensures { IsChangeRing system.now.system result.coeffs result.vars }
{
    PolyRing::new(system.field, system.group.len() + system.space.len())
}

// The polynomial at the moved point.
fn at_moved_point(
    alloc: Global,
    system: &System,
    ring: &PolyRing<Gf>,
    f: &KPoly,
) -> Result<KPoly, RingFault>
    requires ring { IsChangeRing system.now.system ring.now.coeffs ring.now.vars }
    requires polynomial { IsPart system.now.system.p (space_count system.now.system) f.now }
    ensures { MatchResult result (IsAtMoved system.now.system f.now) (DegreesMeet (MovedMeets system.now.system f.now)) }
{
    let from = PolyRing::new(system.field, system.space.len());
    substitute_over_field(&from, alloc, f, ring, &system.action)
}

// The polynomial in the space's variables behind the group's.
fn behind_group(
    alloc: Global,
    system: &System,
    ring: &PolyRing<Gf>,
    f: &KPoly,
) -> Result<KPoly, NoMemory>
    requires ring { IsChangeRing system.now.system ring.now.coeffs ring.now.vars }
    requires polynomial { IsPart system.now.system.p (space_count system.now.system) f.now }
    ensures { IfOk result (IsStoredIn system.now.system.p (change_count system.now.system) (past (group_count system.now.system) f.now)) }
{
    let from = PolyRing::new(system.field, system.space.len());
    from.behind(alloc, system.group.len(), f, ring)
}

// The product of two polynomials.
fn product(alloc: Global, ring: &PolyRing<Gf>, a: &KPoly, b: &KPoly) -> Result<KPoly, RingFault>
    requires left { IsPart ring.now.coeffs ring.now.vars a.now }
    requires right { IsPart ring.now.coeffs ring.now.vars b.now }
    ensures { OfStored ring.now.coeffs ring.now.vars a.now b.now (λ s f g. MatchResult result (IsTimes s f g) (TimesStops s f g)) }
{
    ring.mul(alloc, a, b)
}

// The difference of two polynomials.
fn difference(alloc: Global, ring: &PolyRing<Gf>, a: &KPoly, b: &KPoly) -> Result<KPoly, NoMemory>
    requires left { IsPart ring.now.coeffs ring.now.vars a.now }
    requires right { IsPart ring.now.coeffs ring.now.vars b.now }
    ensures { OfStored ring.now.coeffs ring.now.vars a.now b.now (λ s f g. IfOk result (IsMinus s f g)) }
{
    // Differences of numbers modulo a prime are refused for memory alone.
    let Ok(difference) = ring.sub(alloc, a, b) else {
        return Err(NoMemory);
    };
    Ok(difference)
}

/// The change of the fraction.
pub(crate) fn change_of(
    alloc: Global,
    system: &System,
    ring: &PolyRing<Gf>,
    f: &Frac,
) -> Result<KPoly, RingFault>
    requires ring { IsChangeRing system.now.system ring.now.coeffs ring.now.vars }
    requires fraction { IsStored system.now.system.p (space_count system.now.system) f.now }
    ensures { MatchResult result (IsStoredChange system.now.system f.now) (DegreesMeet (ChangingMeets system.now.system f.now)) }
{
    let fractions = FracRing::new(PolyRing::new(system.field, system.space.len()));
    let num = fractions.num(f);
    let den = fractions.den(f);
    let num_moved = at_moved_point(alloc, system, ring, num)?;
    let den_moved = at_moved_point(alloc, system, ring, den)?;
    let num_behind = behind_group(alloc, system, ring, num)?;
    let den_behind = behind_group(alloc, system, ring, den)?;
    let first = product(alloc, ring, &num_moved, &den_behind)?;
    let second = product(alloc, ring, &num_behind, &den_moved)?;
    let change = difference(alloc, ring, &first, &second)?;
    Ok(change)
}
