//! The second condition: the laws hold, as their cofactors show.

ghost use Rattle.std.specs.Prelude.{◌≡◌, ◌<◌, [], length, get_or, None, IfOk};
ghost use Rattle.rinv_defs.specs.Laws.{parts};
ghost use Rattle.rinv_defs.specs.Format.{format_failure};
ghost use Rattle.rinv_defs.specs.Conditions.{law_is_shown, law_failure};
ghost use Rattle.rinv_cert.specs.Seen.{plain};
ghost use Rattle.rinv_parts.specs.LawNames.{law_of};
ghost use Rattle.rinv_parts.specs.Parts.{ArePartsOf};
ghost use Rattle.rinv_parts.specs.Points.{ArePolynomials};
ghost use Rattle.rinv_check.specs.LawLists.{list_place, AreListsFor, AreListsOf, parts_shown, part_is_shown};

use crate::named_system::named_system;
use rinv_cert::{CertificateOf, Items, Kind};
use rinv_identities::{copied_ideal, multiplies_out};
use rinv_parts::{LawName, LawParts, part_at, part_count, parts_of};
use rinv_poly::{KPoly, PolyRing};
use rinv_ring::{NoMemory, RingFault};
use rinv_text::System;
use std::alloc::Global;

// The laws in the order in which they are tested.
const LAWS: [LawName; 8] = [
    LawName::L1,
    LawName::L2,
    LawName::L3,
    LawName::L4,
    LawName::L5,
    LawName::L6,
    LawName::A1,
    LawName::A2,
];

// The place of a law's cofactors; a law that says that polynomials are zero has none.
fn list_place(law: LawName) -> Option<usize>
    ensures { result ≡ list_place (law_of law) }
{
    match law {
        LawName::L1 | LawName::A1 => None,
        LawName::L2 => Some(0),
        LawName::L3 => Some(1),
        LawName::L4 => Some(2),
        LawName::L5 => Some(3),
        LawName::L6 => Some(4),
        LawName::A2 => Some(5),
    }
}

// Whether the part at a place is the sum of its cofactors times the generators, and its products fit.
fn part_is_shown(
    alloc: Global,
    system: &System,
    law_parts: &LawParts,
    place: u32,
    cofactors: &[KPoly],
    generators: &[KPoly],
) -> Result<bool, NoMemory>
    requires parts { ArePartsOf system.now.system law_parts.now }
    requires inside { place < length (parts system.now.system (law_of law_parts.now.law)) }
    requires many { length cofactors.now ≡ length generators.now }
    requires cofactors { ArePolynomials law_parts.now.ring.coeffs law_parts.now.ring.vars cofactors.now }
    requires generators { ArePolynomials law_parts.now.ring.coeffs law_parts.now.ring.vars generators.now }
    ensures { IfOk result (λ b. b ≡ part_is_shown system.now.system (law_of law_parts.now.law) place cofactors.now generators.now) }
{
    // Degree comes only where a substitution that the law states does not fit.
    let part = match part_at(alloc, system, law_parts, place) {
        Ok(part) => part,
        Err(RingFault::Degree { .. }) => return Ok(false),
        Err(RingFault::NoMemory) => return Err(NoMemory),
    };
    let shown = multiplies_out(alloc, &law_parts.ring, &part, cofactors, generators)?;
    Ok(shown)
}

// The cofactors of the part at a place, of which there are none where there is no list.
fn cofactors_at<'a>(lists: &'a [Items<KPoly>], place: usize) -> &'a [KPoly]
    ensures { result.now ≡ get_or lists.now place [] }
{
    match lists.get(place) {
        Some(list) => list.as_slice(),
        None => &[],
    }
}

// Whether each part is, by the cofactors at its place.
fn parts_are_shown(
    alloc: Global,
    system: &System,
    law_parts: &LawParts,
    lists: &[Items<KPoly>],
    generators: &[KPoly],
) -> Result<bool, NoMemory>
    requires parts { ArePartsOf system.now.system law_parts.now }
    requires generators { ArePolynomials law_parts.now.ring.coeffs law_parts.now.ring.vars generators.now }
    requires lists { AreListsOf system.now.system law_parts.now lists.now (length generators.now) }
    ensures { IfOk result (λ b. b ≡ parts_shown system.now.system (law_of law_parts.now.law) lists.now generators.now) }
{
    'parts: for k in 0..part_count(system, law_parts.law) {
        let cofactors = cofactors_at(lists, k as usize);
        if !part_is_shown(alloc, system, law_parts, k, cofactors, generators)? {
            return Ok(false);
        }
    }
    Ok(true)
}

// The lists of cofactors of a law's parts.
fn lists_of(stored: &CertificateOf<KPoly>, law: LawName) -> &[Items<KPoly>]
    requires kind { ¬ (stored.now.kind ≡ Kind.Invariance) }
    requires form { format_failure (plain stored.now) ≡ None }
    ensures { AreListsFor (plain stored.now) (law_of law) result.now }
{
    match list_place(law) {
        Some(place) => {
            let list = &stored.laws.as_slice()[place];
            list.as_slice()
        }
        None => &[],
    }
}

// Whether a law is shown by its cofactors.
fn law_is_shown(
    alloc: Global,
    stored: &CertificateOf<KPoly>,
    system: &System,
    law: LawName,
) -> Result<bool, NoMemory>
    requires kind { ¬ (stored.now.kind ≡ Kind.Invariance) }
    requires form { format_failure (plain stored.now) ≡ None }
    requires system { system.now.system ≡ (plain stored.now).system }
    ensures { IfOk result (λ b. b ≡ law_is_shown (plain stored.now) (law_of law)) }
{
    let parts = parts_of(alloc, system, law)?;
    let group = PolyRing::new(system.field, system.group.len());
    let generators = copied_ideal(alloc, &group, &system.ideal, &parts.ring, law.copies())?;
    let lists = lists_of(stored, law);
    let shown = parts_are_shown(alloc, system, &parts, lists, &generators)?;
    Ok(shown)
}

/// The number of the first law that its cofactors do not show.
pub(crate) fn law_failure(
    alloc: Global,
    stored: &CertificateOf<KPoly>,
) -> Result<Option<u32>, NoMemory>
    requires kind { ¬ (stored.now.kind ≡ Kind.Invariance) }
    requires form { format_failure (plain stored.now) ≡ None }
    ensures { IfOk result (λ o. o ≡ law_failure (plain stored.now)) }
{
    let system = named_system(alloc, stored)?;
    'laws: for k in 0..8 {
        if !law_is_shown(alloc, stored, &system, LAWS[k as usize])? {
            return Ok(Some(k + 1));
        }
    }
    Ok(None)
}
