//! One entry of the journal.

ghost use Rattle.std.specs.Prelude.{◌≡◌, ◌+◌, ◌<◌, ◌≤◌, length, take, IfOk, IfErr};
ghost use Rattle.rinv_algebra.specs.BlockEnds.{last_from};
ghost use Rattle.rinv_ring.specs.Fault.{DegreesMeet};
ghost use Rattle.rinv_buch.specs.Kinds.{kind_of};
ghost use Rattle.rinv_parts.specs.Points.{ArePolynomials};
ghost use Rattle.rinv_recording.specs.Divided.{EntryHasRoom, HasRoom};
ghost use Rattle.rinv_recording.specs.Entries.{AreDivisorsBy, DividingMeets, IsDividedAgain, RecordsEntry, RecordsQuotients};

use crate::dividing::quotients_at;
use crate::padding::padded;
use rinv_buch::{Entry, EntryKind};
use rinv_cert::{Items, PairItem, Plain};
use rinv_div::Divisors;
use rinv_fits::check_sums;
use rinv_mono::Blocks;
use rinv_plain::plain_list;
use rinv_poly::{KPoly, PolyRing};
use rinv_ring::{Gf, NoMemory, RingFault};
use std::alloc::Global;

// The number of a place. Numbers are u32: a longer list is answered as want of memory.
fn number_of(place: u32) -> Result<u32, NoMemory>
    ensures { IfOk result (λ n. n ≡ place + 1) }
{
    match place.checked_add(1) {
        Some(number) => Ok(number),
        None => Err(NoMemory),
    }
}

// The quotients of the entry's pair, divided by the first `made` elements, as quotients by all of them.
fn recorded(
    alloc: Global,
    ring: &PolyRing<Gf>,
    order: &Blocks,
    polys: &[KPoly],
    made: usize,
    divisors: &Divisors<Gf>,
    entry: &Entry,
    added: Option<u32>,
) -> Result<Vec<KPoly>, RingFault>
    requires polys { ArePolynomials ring.now.coeffs ring.now.vars polys.now }
    requires divisors { AreDivisorsBy ring.now.coeffs ring.now.vars order.now (take made polys.now) divisors.now.list.items }
    requires suits { ring.now.vars ≡ last_from 0 order.now }
    requires room { HasRoom entry.now.first entry.now.second made (length polys.now) added }
    ensures again { IfOk result (λ q. IsDividedAgain ring.now.coeffs ring.now.vars order.now made polys.now entry.now added q.items) }
    ensures number { IfOk result (λ q. length q.items ≡ length polys.now) }
    ensures degree { IfErr result (DegreesMeet (DividingMeets ring.now.coeffs order.now made polys.now entry.now)) }
{
    let (first, second) = (entry.first as usize, entry.second as usize);
    let quotients = quotients_at(ring, alloc, &polys[..made], divisors, first, second, order)?;
    let list = padded(alloc, ring, quotients, added, polys.len())?;
    Ok(list)
}

// The same as a certificate has them. Degree comes only where the division meets these degrees, or a quotient times its element.
fn plain_quotients(
    alloc: Global,
    ring: &PolyRing<Gf>,
    order: &Blocks,
    polys: &[KPoly],
    made: usize,
    divisors: &Divisors<Gf>,
    entry: &Entry,
    added: Option<u32>,
) -> Result<Items<Plain>, RingFault>
    requires polys { ArePolynomials ring.now.coeffs ring.now.vars polys.now }
    requires divisors { AreDivisorsBy ring.now.coeffs ring.now.vars order.now (take made polys.now) divisors.now.list.items }
    requires suits { ring.now.vars ≡ last_from 0 order.now }
    requires room { HasRoom entry.now.first entry.now.second made (length polys.now) added }
    ensures { RecordsQuotients result ring.now.coeffs ring.now.vars order.now made polys.now entry.now added }
{
    let q = recorded(alloc, ring, order, polys, made, divisors, entry, added)?;
    check_sums(ring, &q, polys)?;
    let list = plain_list(alloc, &q)?;
    Ok(list)
}

/// The entry as a certificate has it; the first `made` of the elements were there when the pair was taken. Degree comes only where the pair
/// meets these degrees.
pub(crate) fn item_of(
    alloc: Global,
    ring: &PolyRing<Gf>,
    order: &Blocks,
    polys: &[KPoly],
    made: usize,
    divisors: &Divisors<Gf>,
    entry: &Entry,
) -> Result<PairItem<Plain>, RingFault>
    requires polys { ArePolynomials ring.now.coeffs ring.now.vars polys.now }
    requires divisors { AreDivisorsBy ring.now.coeffs ring.now.vars order.now (take made polys.now) divisors.now.list.items }
    requires suits { ring.now.vars ≡ last_from 0 order.now }
    requires room { EntryHasRoom entry.now.first entry.now.second made (length polys.now) (kind_of entry.now.kind) }
    ensures { RecordsEntry result ring.now.coeffs ring.now.vars order.now made polys.now entry.now }
{
    let i = number_of(entry.first)?;
    let j = number_of(entry.second)?;
    match entry.kind {
        EntryKind::Coprime => Ok(PairItem::Coprime { i, j }),
        EntryKind::Chain { by } => {
            let k = number_of(by)?;
            Ok(PairItem::Chain { i, j, k })
        }
        EntryKind::Reduced { added } => {
            let q = plain_quotients(alloc, ring, order, polys, made, divisors, entry, added)?;
            Ok(PairItem::Quotients { i, j, q })
        }
    }
}
