//! One entry on a pair: whether it is the first on its pair, and settles it.

ghost use Rattle.std.specs.Prelude.{◌≡◌, ◌≤◌, length, true, IfOk};
ghost use Rattle.rinv_defs.specs.Certificate.{Certificate};
ghost use Rattle.rinv_defs.specs.PairConditions.{places, leading, element, is_good_entry, settles};
ghost use Rattle.rinv_cert.specs.Seen.{pair_item_by};
ghost use Rattle.rinv_basis_check.specs.Bases.{IsBasisOf, is_pair_form_in};
ghost use Rattle.rinv_basis_check.specs.Whichever.{OfEarlier};

use crate::basis::Basis;
use crate::listed_pairs::ListedPairs;
use crate::quotients::reduces_to_zero;
use rinv_cert::PairItem;
use rinv_mono::Mono;
use rinv_pairs::{chain_by, coprime};
use rinv_poly::KPoly;
use rinv_ring::NoMemory;
use std::alloc::Global;

/// The two places of an entry.
pub(crate) fn places(entry: &PairItem<KPoly>) -> (u32, u32)
    ensures { result ≡ places (pair_item_by (λ f. f) entry.now) }
{
    match entry {
        PairItem::Coprime { i, j } => (*i, *j),
        PairItem::Chain { i, j, .. } => (*i, *j),
        PairItem::Quotients { i, j, .. } => (*i, *j),
    }
}

// The leading monomial of the element with a number from 1.
fn lead(basis: &Basis, number: u32) -> &Mono
    requires one { 1 ≤ number }
    requires inside { number ≤ length basis.now.leads.items }
    ensures { (c : Certificate) → IsBasisOf c basis.now →
        result.now ≡ leading c.system (element c number) }
{
    &basis.leads[number as usize - 1]
}

// Whether the entry settles its pair, after those that are listed.
fn settles(
    alloc: Global,
    basis: &Basis,
    listed: &ListedPairs,
    entry: &PairItem<KPoly>,
) -> Result<bool, NoMemory>
    requires form { is_pair_form_in basis.now entry.now ≡ true }
    ensures { OfEarlier basis.now listed.now (λ c before. IfOk result (λ b. b ≡ settles c before (pair_item_by (λ f. f) entry.now))) }
{
    match entry {
        PairItem::Coprime { i, j } => Ok(coprime(lead(basis, *i), lead(basis, *j))),
        PairItem::Chain { i, j, k } => {
            let divides = chain_by(lead(basis, *i), lead(basis, *j), lead(basis, *k));
            Ok(divides && listed.has(*i, *k) && listed.has(*k, *j))
        }
        PairItem::Quotients { i, j, q } => {
            let (first, second) = (*i as usize - 1, *j as usize - 1);
            let reduces = reduces_to_zero(alloc, basis, first, second, q.as_slice())?;
            Ok(reduces)
        }
    }
}

/// Whether no earlier entry has the pair, and the entry settles it.
pub(crate) fn is_good_entry(
    alloc: Global,
    basis: &Basis,
    listed: &ListedPairs,
    entry: &PairItem<KPoly>,
) -> Result<bool, NoMemory>
    requires form { is_pair_form_in basis.now entry.now ≡ true }
    ensures { OfEarlier basis.now listed.now (λ c before. IfOk result (λ b. b ≡ is_good_entry c before (pair_item_by (λ f. f) entry.now))) }
{
    let (i, j) = places(entry);
    if listed.has(i, j) {
        return Ok(false);
    }
    let settled = settles(alloc, basis, listed, entry)?;
    Ok(settled)
}
