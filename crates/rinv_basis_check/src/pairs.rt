//! The fifth condition: the basis is a Gröbner basis, as its pairs show.

ghost use Rattle.std.specs.Prelude.{◌≡◌, ◌+◌, None, IfOk};
ghost use Rattle.rinv_defs.specs.Format.{format_failure};
ghost use Rattle.rinv_defs.specs.PairConditions.{pairs_failure};
ghost use Rattle.rinv_cert.specs.Seen.{plain};
ghost use Rattle.rinv_basis_check.specs.Bases.{IsBasisOf};

use crate::basis::Basis;
use crate::entry::{is_good_entry, places};
use crate::listed_pairs::{ListedPairs, are_all_listed};
use rinv_cert::{CertificateOf, Kind};
use rinv_poly::KPoly;
use rinv_ring::NoMemory;
use std::alloc::Global;

// The number of an entry. Numbers are u32: a longer list is answered as want of memory.
fn number_of(place: usize) -> Result<u32, NoMemory>
    ensures { IfOk result (λ n. n ≡ place + 1) }
{
    match u32::try_from(place) {
        Ok(k) if k < u32::MAX => Ok(k + 1),
        _ => Err(NoMemory),
    }
}

/// The number of the first entry that is not good, or that after the last where a pair is missing.
pub fn pairs_failure(
    alloc: Global,
    stored: &CertificateOf<KPoly>,
    basis: &Basis,
) -> Result<Option<u32>, NoMemory>
    requires kind { stored.now.kind ≡ Kind.Full }
    requires form { format_failure (plain stored.now) ≡ None }
    requires basis { IsBasisOf (plain stored.now) basis.now }
    ensures { IfOk result (λ o. o ≡ pairs_failure (plain stored.now)) }
{
    let mut listed = ListedPairs::empty(alloc);
    let pairs = stored.pairs.as_slice();
    'entries: for k in 0..pairs.len() {
        let number = number_of(k)?;
        let entry = &pairs[k];
        if !is_good_entry(alloc, basis, &listed, entry)? {
            return Ok(Some(number));
        }
        let (i, j) = places(entry);
        listed.add(i, j)?;
    }
    let after = number_of(pairs.len())?;
    let Ok(count) = u32::try_from(stored.basis.as_slice().len()) else {
        return Err(NoMemory);
    };
    if are_all_listed(&listed, count) {
        Ok(None)
    } else {
        Ok(Some(after))
    }
}
