//! The entries of the journal in their order.

ghost use Rattle.std.specs.Prelude.{◌≡◌, ◌+◌, ◌≤◌, filter, length, map, IfOk, IfErr};
ghost use Rattle.rinv_ring.specs.Fault.{DegreesMeet};
ghost use Rattle.rinv_defs.specs.SystemForm.{IsSystem};
ghost use Rattle.rinv_cert.specs.Seen.{pair_item_by};
ghost use Rattle.rinv_buch.specs.Kinds.{journal_of, kind_of};
ghost use Rattle.rinv_cofactors.specs.Combining.{adds};
ghost use Rattle.rinv_action.specs.Action.{IsActionBasis};
ghost use Rattle.rinv_recording.specs.Recorded.{ArePairItemsOf, PairsFit, PairsMeet};
ghost use Rattle.rinv_recording.specs.Entries.{found_of, AreItemsOf};

use crate::entries::item_of;
use rinv_action::{action_order, action_ring};
use rinv_buch::kinds::Basis;
use rinv_buch::{Entry, EntryKind};
use rinv_cert::{Items, PairItem, Plain};
use rinv_div::divisors_of;
use rinv_poly::KPoly;
use rinv_ring::{Gf, RingFault};
use rinv_text::System;
use std::alloc::Global;

// Whether the entry adds a rest.
fn adds(entry: &Entry) -> bool
    ensures { result ≡ adds (kind_of entry.now.kind) }
{
    match entry.kind {
        EntryKind::Reduced { added } => added.is_some(),
        _ => false,
    }
}

// How many elements of so many there were before the entries.
fn given_count(count: usize, journal: &[Entry]) -> usize
    requires { length (filter (λ e. adds e.kind) (journal_of journal.now)) ≤ count }
    ensures { result + length (filter (λ e. adds e.kind) (journal_of journal.now)) ≡ count }
{
    let mut given = count;
    'entries: for k in 0..journal.len() {
        if adds(&journal[k]) {
            given -= 1;
        }
    }
    given
}

// The entries of the journal that made the list.
fn recorded_list(
    alloc: Global,
    system: &System,
    polys: &[KPoly],
    journal: &[Entry],
) -> Result<Vec<PairItem<Plain>>, RingFault>
    requires system { IsSystem system.now.system }
    requires action { IsActionBasis system.now.system (found_of polys.now journal.now) }
    ensures items { IfOk result (λ r. AreItemsOf system.now.system polys.now journal.now r.items) }
    ensures fits { IfOk result (λ r. PairsFit system.now.system polys.now (map (pair_item_by (λ f. f)) r.items)) }
    ensures degree { IfErr result (DegreesMeet (PairsMeet system.now.system (found_of polys.now journal.now))) }
{
    let ring = action_ring(system);
    let order = action_order(alloc, system)?;
    let mut made = given_count(polys.len(), journal);
    let mut divisors = divisors_of(&ring, alloc, &polys[..made], &order)?;
    let mut items = Vec::new(alloc);
    'entries: for k in 0..journal.len() {
        let entry = &journal[k];
        let item = item_of(alloc, &ring, &order, polys, made, &divisors, entry)?;
        items.push(item)?;
        if adds(entry) {
            divisors.push(&ring, alloc, &polys[made], &order)?;
            made += 1;
        }
    }
    Ok(items)
}

/// The entries of the journal of the action's basis in their order, with places from 1. One whose S-polynomial was divided has the quotients
/// of that division, by the list as it was then: 1 at the place where a rest was added, and zero at every later place. Degree comes only
/// where an S-polynomial, its division, or a quotient times its element meets these degrees.
pub fn recorded_pairs(
    alloc: Global,
    system: &System,
    action: &Basis<Gf>,
) -> Result<Items<PairItem<Plain>>, RingFault>
    requires system { IsSystem system.now.system }
    requires action { IsActionBasis system.now.system action.now }
    ensures items { IfOk result (λ r. ArePairItemsOf system.now.system action.now (map (pair_item_by (λ f. f)) r)) }
    ensures fits { IfOk result (λ r. PairsFit system.now.system action.now.polys (map (pair_item_by (λ f. f)) r)) }
    ensures degree { IfErr result (DegreesMeet (PairsMeet system.now.system action.now)) }
{
    let items = recorded_list(alloc, system, &action.polys, &action.journal)?;
    Ok(Items::new(items))
}
