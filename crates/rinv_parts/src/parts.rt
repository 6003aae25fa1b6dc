//! The parts of a law: what has to lie in the ideal of the points of which it speaks.

ghost use Rattle.std.specs.Prelude.{◌≡◌, ◌<◌, ◌+◌, ◌*◌, length, IfOk};
ghost use Rattle.std.specs.Result.{MatchResult};
ghost use Rattle.rinv_defs.specs.SystemForm.{IsSystem};
ghost use Rattle.rinv_defs.specs.Laws.{parts};
ghost use Rattle.rinv_ring.specs.Fault.{DegreesMeet};
ghost use Rattle.rinv_parts.specs.LawNames.{law_of, polynomial_variables, variables_of};
ghost use Rattle.rinv_parts.specs.Parts.{ArePartsOf, IsPart, part_meets};
ghost use Rattle.rinv_parts.specs.Points.{law_polynomials};

use crate::law::LawName;
use crate::law_points::{LawPoints, points_of};
use crate::taken::made_at;
use rinv_poly::{KPoly, PolyRing};
use rinv_ring::{Gf, NoMemory, RingFault};
use rinv_text::System;
use std::alloc::Global;

/// What the parts of a law are made of: their ring, whose variables are the copies of the group's of which the law speaks, and then the
/// space's where it speaks of a point of the space; and what the law says of polynomials of the system.
#[derive(Drop)]
pub struct LawParts {
    pub law: LawName,
    pub ring: PolyRing<Gf>,
    pub points: LawPoints,
}

/// The number of variables of the parts of a law.
pub fn variables_of(system: &System, law: LawName) -> u32
    requires { IsSystem system.now.system }
    ensures { result ≡ variables_of system.now.system (law_of law) }
{
    let group = system.group.len();
    let space = system.space.len();
    match law {
        LawName::L1 => 0,
        LawName::L3 | LawName::L5 | LawName::L6 => group,
        LawName::L2 => 2 * group,
        LawName::L4 => 3 * group,
        LawName::A1 => space,
        LawName::A2 => 2 * group + space,
    }
}

/// The polynomials of which a law speaks.
pub fn law_polynomials(system: &System, law: LawName) -> &[KPoly]
    ensures { result.now ≡ law_polynomials system.now.system (law_of law) }
{
    match law {
        LawName::L1 | LawName::L2 | LawName::L3 => &system.ideal,
        LawName::L4 | LawName::L5 | LawName::L6 => &system.product,
        LawName::A1 | LawName::A2 => &system.action,
    }
}

/// The number of their variables.
pub fn polynomial_variables(system: &System, law: LawName) -> u32
    requires { IsSystem system.now.system }
    ensures { result ≡ polynomial_variables system.now.system (law_of law) }
{
    let group = system.group.len();
    let space = system.space.len();
    match law {
        LawName::L1 | LawName::L2 | LawName::L3 => group,
        LawName::L4 | LawName::L5 | LawName::L6 => 2 * group,
        LawName::A1 | LawName::A2 => group + space,
    }
}

/// What the parts of the law are made of.
pub fn parts_of(alloc: Global, system: &System, law: LawName) -> Result<LawParts, NoMemory>
    requires { IsSystem system.now.system }
    ensures law { IfOk result (λ l. l.law ≡ law) }
    ensures parts { IfOk result (ArePartsOf system.now.system) }
{
    let ring = PolyRing::new(system.field, variables_of(system, law));
    let points = points_of(alloc, system, &ring, law)?;
    Ok(LawParts { law, ring, points })
}

/// How many parts the law has.
pub fn part_count(system: &System, law: LawName) -> u32
    requires { IsSystem system.now.system }
    ensures { result ≡ length (parts system.now.system (law_of law)) }
{
    let count = law_polynomials(system, law).len() as u32;
    match law {
        LawName::L5 | LawName::L6 => 2 * count,
        _ => count,
    }
}

/// The part at a place, counted from 0. Degree comes where a substitution by which this part is made multiplies two monomials of these
/// degrees, the product so far and the next factor, which add up to more than the limit; and only then.
pub fn part_at(
    alloc: Global,
    system: &System,
    law_parts: &LawParts,
    place: u32,
) -> Result<KPoly, RingFault>
    requires parts { ArePartsOf system.now.system law_parts.now }
    requires inside { place < length (parts system.now.system (law_of law_parts.now.law)) }
    ensures { MatchResult result (IsPart system.now.system (law_of law_parts.now.law) place) (DegreesMeet (part_meets system.now.system (law_of law_parts.now.law) place)) }
{
    let from = PolyRing::new(system.field, polynomial_variables(system, law_parts.law));
    let fs = law_polynomials(system, law_parts.law);
    made_at(
        alloc,
        &from,
        fs,
        &law_parts.ring,
        &law_parts.points,
        place as usize,
    )
}
