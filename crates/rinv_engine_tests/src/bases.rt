//! Bases of two polynomials over GF(101) in x > y: how the runs end, the reduced basis, and the cofactors of the elements.

ghost use Rattle.std.specs.Prelude.{◌≡◌, length, nat_lt, All};
ghost use Rattle.rinv_algebra.specs.Normal.{IsNormal};
ghost use Rattle.rinv_algebra.specs.Residue.{residue_ops};
ghost use Rattle.rinv_buch.specs.Spent.{IsKept};

use crate::tables::{Term, are_lists, is_list, nonzero, pair};
use rinv_buch::{Basis, EntryKind, Stop, Why, basis, interreduce, kept_places};
use rinv_cofactors::{combinations, sum_of_products};
use rinv_div::Budget;
use rinv_mono::Grevlex;
use rinv_poly::{KPoly, PolyRing};
use rinv_ring::{Gf, Ring, RingFault};
use std::alloc::Global;
use std::test::Fail;

// x^2 - 1 and x*y - 1, and their reduced basis, x - y and y^2 - 1.
const LOW: &[&[Term]] = &[&[(1, 2, 0), (100, 0, 0)], &[(1, 1, 1), (100, 0, 0)]];

const REDUCED: &[&[Term]] = &[&[(1, 1, 0), (100, 0, 1)], &[(1, 0, 2), (100, 0, 0)]];

// x^6000 - 1 and y^6000 - 1.
const HIGH: &[&[Term]] = &[&[(1, 6000, 0), (100, 0, 0)], &[(1, 0, 6000), (100, 0, 0)]];

// x^2*y, x*y^2 and x*y: the third settles the pair of the first two.
const CHAINED: &[&[Term]] = &[&[(1, 2, 1)], &[(1, 1, 2)], &[(1, 1, 1)]];

const CHAINED_KINDS: &[EntryKind] = &[
    EntryKind::Reduced { added: None },
    EntryKind::Reduced { added: None },
    EntryKind::Chain { by: 2 },
];

// Polynomials with the leading monomials x^2*y, x*y, x*y and y^2, and the places of those that stay in a reduced basis.
const LED: &[&[Term]] = &[
    &[(1, 2, 1)],
    &[(1, 1, 1), (1, 0, 0)],
    &[(2, 1, 1)],
    &[(1, 0, 2), (1, 1, 0)],
];

const KEPT: &[usize] = &[1, 3];

// How a run ends.
#[derive(Clone, Copy, Debug, PartialEq, Eq)]
enum End {
    Complete,
    Pairs(u32, u32),
    Steps,
    Degree(u32, u32),
    NoMemory,
}

// What is given and the limits on pairs and steps, none for a run without end; how the run ends, and the number of entries in its journal.
const ENDS: &[(&[&[Term]], Option<(u32, u64)>, End, usize)] = &[
    (LOW, Some((0, 10)), End::Pairs(0, 1), 0),
    (LOW, Some((1, 10)), End::Pairs(1, 2), 1),
    (LOW, Some((10, 0)), End::Steps, 2),
    (LOW, None, End::Complete, 6),
    (HIGH, None, End::Degree(6000, 6000), 0),
];

// A budget of so many pairs and steps, or one without end.
fn budget_of(limits: Option<(u32, u64)>) -> Budget
    ensures { IsKept result }
{
    match limits {
        Some((pairs, steps)) => Budget {
            pairs,
            steps,
            pairs_spent: 0,
            steps_spent: 0,
            endless: false,
        },
        None => Budget::without_end(),
    }
}

// The run on these polynomials.
fn run(
    alloc: Global,
    ring: &PolyRing<Gf>,
    lists: &[&[Term]],
    budget: &mut Budget,
) -> Result<Basis<Gf>, Stop<Gf>>
    requires vars { ring.now.vars ≡ 2 }
    requires within { IsKept budget.old }
{
    match nonzero(alloc, ring, lists) {
        Ok(given) => basis(ring, alloc, &given, &Grevlex, budget),
        Err(_) => Err(Stop::NoMemory),
    }
}

// How a run ends for this reason.
fn end_for(why: &Why) -> End {
    match why {
        Why::Pairs { first, second } => End::Pairs(*first, *second),
        Why::Steps { .. } => End::Steps,
        Why::Degree { left, right } => End::Degree(*left, *right),
    }
}

// How the run on these polynomials ends, and the number of entries in its journal.
fn end_of(
    alloc: Global,
    ring: &PolyRing<Gf>,
    lists: &[&[Term]],
    limits: Option<(u32, u64)>,
) -> (End, usize)
    requires vars { ring.now.vars ≡ 2 }
{
    let mut spent = budget_of(limits);
    match run(alloc, ring, lists, &mut spent) {
        Ok(found) => (End::Complete, found.journal.len()),
        Err(Stop::NoMemory) => (End::NoMemory, 0),
        Err(Stop::Incomplete(halt)) => (end_for(&halt.why), halt.journal.len()),
    }
}

// Whether the run spends a pair on each entry of its journal, the first of which adds the third element.
fn spends_and_adds(alloc: Global, ring: &PolyRing<Gf>, lists: &[&[Term]]) -> bool
    requires vars { ring.now.vars ≡ 2 }
{
    let mut spent = budget_of(Some((10, 10)));
    let Ok(found) = run(alloc, ring, lists, &mut spent) else {
        return false;
    };
    match found.journal.first() {
        Some(entry) => {
            entry.kind == EntryKind::Reduced { added: Some(2) }
                && spent.pairs_spent as usize == found.journal.len()
        }
        None => false,
    }
}

// Whether the entries of the run are of these kinds, and take no step.
fn has_entries(alloc: Global, ring: &PolyRing<Gf>, lists: &[&[Term]], kinds: &[EntryKind]) -> bool
    requires vars { ring.now.vars ≡ 2 }
{
    let mut spent = budget_of(None);
    let Ok(found) = run(alloc, ring, lists, &mut spent) else {
        return false;
    };
    if found.journal.len() != kinds.len() {
        return false;
    }
    'entries: for k in 0..kinds.len() {
        let entry = &found.journal[k];
        if entry.kind != kinds[k] || entry.steps > 0 {
            return false;
        }
    }
    true
}

// The reduced basis, where ten pairs and steps are enough.
fn reduced_basis(
    alloc: Global,
    ring: &PolyRing<Gf>,
    lists: &[&[Term]],
) -> Result<Vec<KPoly>, RingFault>
    requires vars { ring.now.vars ≡ 2 }
{
    let given = nonzero(alloc, ring, lists)?;
    let mut spent = budget_of(Some((10, 10)));
    match basis(ring, alloc, &given, &Grevlex, &mut spent) {
        Ok(found) => interreduce(ring, alloc, &found, &Grevlex),
        Err(_) => Err(RingFault::NoMemory),
    }
}

// Whether the polynomials at these places are kept.
fn keeps(
    alloc: Global,
    ring: &PolyRing<Gf>,
    lists: &[&[Term]],
    places: &[usize],
) -> Result<bool, RingFault>
    requires vars { ring.now.vars ≡ 2 }
{
    let polys = nonzero(alloc, ring, lists)?;
    let kept = kept_places(ring, alloc, &polys, &Grevlex)?;
    Ok(kept.as_slice() == places)
}

// x times x and y times y + 5, the second cofactors of the lists.
fn second_cofactors(alloc: Global, ring: &PolyRing<Gf>) -> Result<KPoly, RingFault>
    requires vars { ring.now.vars ≡ 2 }
{
    let quotients = pair(alloc, ring, &[(1, 1, 0)], &[(1, 0, 1)])?;
    let mut lists = Vec::new(alloc);
    lists.push(pair(alloc, ring, &[(1, 0, 0)], &[(1, 1, 0)])?)?;
    lists.push(pair(alloc, ring, &[], &[(1, 0, 1), (5, 0, 0)])?)?;
    sum_of_products(ring, alloc, &quotients, &lists, 1)
}

// Whether these are cofactors of the polynomial over those given.
fn combines(
    alloc: Global,
    ring: &PolyRing<Gf>,
    cofactors: &[KPoly],
    given: &[KPoly],
    f: &KPoly,
) -> Result<bool, RingFault>
    requires cofactors { All (IsNormal (residue_ops ring.now.coeffs) (λ c. nat_lt c ring.now.coeffs) ring.now.vars) cofactors.now }
    requires given { All (IsNormal (residue_ops ring.now.coeffs) (λ c. nat_lt c ring.now.coeffs) ring.now.vars) given.now }
    requires polynomial { IsNormal (residue_ops ring.now.coeffs) (λ c. nat_lt c ring.now.coeffs) ring.now.vars f.now }
    requires many { length cofactors.now ≡ length given.now }
{
    let mut products = Vec::new(alloc);
    'products: for k in 0..cofactors.len() {
        let product = ring.mul(alloc, &cofactors[k], &given[k])?;
        products.push(product)?;
    }
    let sum = ring.sum(alloc, products)?;
    ring.same(alloc, &sum, f)
}

// Whether the run adds an element, and each element is the combination of the polynomials given by its cofactors.
fn all_combine(alloc: Global, ring: &PolyRing<Gf>, lists: &[&[Term]]) -> Result<bool, RingFault>
    requires vars { ring.now.vars ≡ 2 }
{
    let given = nonzero(alloc, ring, lists)?;
    let mut endless = Budget::without_end();
    let Ok(found) = basis(ring, alloc, &given, &Grevlex, &mut endless) else {
        return Ok(false);
    };
    let cofactors = combinations(ring, alloc, &given, &found, &Grevlex)?;
    'elements: for k in 0..cofactors.len() {
        if !combines(alloc, ring, &cofactors[k], &given, &found.polys[k])? {
            return Ok(false);
        }
    }
    Ok(found.polys.len() > given.len())
}

#[test]
fn ends_where_the_budget_or_the_limit_does(rt: HostRuntime) -> Result<(), Fail> {
    let ring = PolyRing::new(Gf::new(101)?, 2);
    for (lists, limits, end, entries) in ENDS {
        assert_eq!(rt; end_of(rt.alloc(), &ring, lists, *limits), (*end, *entries));
    }
    Ok(())
}

#[test]
fn settles_by_a_third_element(rt: HostRuntime) -> Result<(), Fail> {
    let ring = PolyRing::new(Gf::new(101)?, 2);
    assert!(rt; has_entries(rt.alloc(), &ring, CHAINED, CHAINED_KINDS));
    Ok(())
}

#[test]
fn finds_a_basis_and_reduces_it(rt: HostRuntime) -> Result<(), Fail> {
    let ring = PolyRing::new(Gf::new(101)?, 2);
    assert!(rt; spends_and_adds(rt.alloc(), &ring, LOW));
    let reduced = reduced_basis(rt.alloc(), &ring, LOW)?;
    assert!(rt; are_lists(&ring, &reduced, REDUCED));
    Ok(())
}

#[test]
fn combines_the_polynomials_given(rt: HostRuntime) -> Result<(), Fail> {
    let ring = PolyRing::new(Gf::new(101)?, 2);
    assert!(rt; all_combine(rt.alloc(), &ring, LOW)?);
    Ok(())
}

#[test]
fn keeps_the_least_leading_monomials(rt: HostRuntime) -> Result<(), Fail> {
    let ring = PolyRing::new(Gf::new(101)?, 2);
    assert!(rt; keeps(rt.alloc(), &ring, LED, KEPT)?);
    Ok(())
}

#[test]
fn adds_up_cofactors_at_a_place(rt: HostRuntime) -> Result<(), Fail> {
    let ring = PolyRing::new(Gf::new(101)?, 2);
    let sum = second_cofactors(rt.alloc(), &ring)?;
    assert!(rt; is_list(&ring, &sum, &[(1, 2, 0), (1, 0, 2), (5, 0, 1)]));
    Ok(())
}
