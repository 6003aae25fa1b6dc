//! Terms added to a tail: one at its place, and the multiple of another tail.

ghost use Rattle.std.specs.Prelude.{◌≡◌, ◌+◌, ◌≤◌, List, length, All, IsTrue, IfOk, IfErr, OnOk};
ghost use Rattle.std.specs.List.{AllPairs};
ghost use Rattle.std.specs.declared.cmp.Ordering.TheVariants.{Less};
ghost use Rattle.rinv_algebra.specs.Residue.{residue_ops};
ghost use Rattle.rinv_algebra.specs.Monomial.{divides, monomial_product, total_degree, max_degree};
ghost use Rattle.rinv_algebra.specs.Order.{grevlex};
ghost use Rattle.rinv_ring.specs.Fault.{DegreesMeet};
ghost use Rattle.rinv_frac.specs.Fractions.{IsStored};
ghost use Rattle.rinv_tails.specs.Stored.{IsTail, IsTailTerm, IsStoredRelation};
ghost use Rattle.rinv_tails.specs.Places.{IsThere, IsGap, with_sum};
ghost use Rattle.rinv_tails.specs.Reducing.{AddsTerm, AddingMeets, AddsTail, AddsMeet};

use crate::relations::{FracRelation, Tail};
use rinv_frac::{Frac, FracRing};
use rinv_mono::{Grevlex, Mono, MonoFault, MonoOrder};
use rinv_ring::{NoMemory, Ring, RingFault};
use std::alloc::Global;
use std::cmp::Ordering;

// The place of the monomial among terms from the greatest down; where it is at none, the place of the first term below it.
fn place_of(mono: &Mono, terms: &[(Mono, Frac)]) -> Result<usize, usize>
    requires vars { All (λ t. length t.0 ≡ length mono.now) terms.now }
    requires descending { AllPairs (λ t u. grevlex u.0 t.0 ≡ Less) terms.now }
    ensures there { IfOk result (IsThere mono.now terms.now) }
    ensures gap { IfErr result (IsGap mono.now terms.now) }
{
    'terms: for k in 0..terms.len() {
        match Grevlex.compare(&terms[k].0, mono) {
            Ordering::Greater => {}
            Ordering::Equal => return Ok(k),
            Ordering::Less => return Err(k),
        }
    }
    Err(terms.len())
}

// Puts the sum in the place of the term with its monomial, which is taken away where the sum is zero.
fn put_sum(field: &FracRing, place: usize, mono: Mono, sum: Frac, tail: &mut Tail)
    requires there { IsThere mono tail.old.items place }
    requires sum { IsStored field.now.base.coeffs field.now.base.vars sum }
    ensures { tail.new.items ≡ with_sum field.now.base.coeffs tail.old.items place (mono, sum) }
{
    if field.is_zero(&sum) {
        tail.remove(place);
    } else {
        tail[place] = (mono, sum);
    }
}

// Adds the fraction to the term at the place.
fn add_there(
    field: &FracRing,
    alloc: Global,
    place: usize,
    mono: Mono,
    c: &Frac,
    tail: &mut Tail,
) -> Result<(), RingFault>
    requires there { IsThere mono tail.old.items place }
    requires fraction { IsStored field.now.base.coeffs field.now.base.vars c.now }
    requires tail { IsTail field.now.base.coeffs field.now.base.vars tail.old.items }
    ensures added { OnOk result (AddsTerm field.now.base.coeffs field.now.base.vars mono c.now tail.old.items tail.new.items) }
    ensures degree { IfErr result (DegreesMeet (AddingMeets field.now.base.coeffs field.now.base.vars mono c.now tail.old.items)) }
{
    let (_, there) = &tail[place];
    let sum = field.add(alloc, there, c)?;
    put_sum(field, place, mono, sum, tail);
    Ok(())
}

// Adds the fraction at the monomial.
fn add_term(
    field: &FracRing,
    alloc: Global,
    mono: Mono,
    c: Frac,
    tail: &mut Tail,
) -> Result<(), RingFault>
    requires term { IsTailTerm field.now.base.coeffs field.now.base.vars (mono, c) }
    requires tail { IsTail field.now.base.coeffs field.now.base.vars tail.old.items }
    ensures added { OnOk result (AddsTerm field.now.base.coeffs field.now.base.vars mono c tail.old.items tail.new.items) }
    ensures degree { IfErr result (DegreesMeet (AddingMeets field.now.base.coeffs field.now.base.vars mono c tail.old.items)) }
{
    match place_of(&mono, tail) {
        Ok(place) => add_there(field, alloc, place, mono, &c, tail),
        Err(place) => {
            tail.insert(place, (mono, c))?;
            Ok(())
        }
    }
}

// The product of monomials whose degrees add up to no more than the limit.
fn product(alloc: Global, a: &Mono, b: &Mono) -> Result<Mono, NoMemory>
    requires vars { length a.now ≡ length b.now }
    requires low { total_degree a.now + total_degree b.now ≤ max_degree }
    ensures { IfOk result (λ m. m ≡ monomial_product a.now b.now) }
{
    match a.product(alloc, b) {
        Ok(product) => Ok(product),
        Err(MonoFault::NoMemory) => Err(NoMemory),
        Err(MonoFault::Degree { .. }) => unreachable!(),
    }
}

/// Adds to terms below c*Z^m what this is by a relation whose lead divides Z^m.
pub(crate) fn add_multiple(
    field: &FracRing,
    alloc: Global,
    mono: &Mono,
    c: &Frac,
    by: &FracRelation,
    tail: &mut Tail,
) -> Result<(), RingFault>
    requires term { IsTailTerm field.now.base.coeffs field.now.base.vars (mono.now, c.now) }
    requires relation { IsStoredRelation field.now.base.coeffs field.now.base.vars by.now }
    requires divides { IsTrue (divides by.now.lead mono.now) }
    requires tail { IsTail field.now.base.coeffs field.now.base.vars tail.old.items }
    requires below { All (λ t. grevlex t.0 mono.now ≡ Less) tail.old.items }
    ensures added { OnOk result (AddsTail field.now.base.coeffs field.now.base.vars mono.now c.now by.now tail.old.items tail.new.items) }
    ensures tail { OnOk result (IsTail field.now.base.coeffs field.now.base.vars tail.new.items) }
    ensures below { OnOk result (All (λ t. grevlex t.0 mono.now ≡ Less) tail.new.items) }
    ensures degree { IfErr result (DegreesMeet (AddsMeet field.now.base.coeffs field.now.base.vars mono.now c.now by.now tail.old.items)) }
{
    let multiplier = mono.quotient(alloc, &by.lead)?;
    'terms: for k in 0..by.tail.len() {
        let (factor, coefficient) = &by.tail[k];
        let multiple = field.mul(alloc, c, coefficient)?;
        let at = product(alloc, &multiplier, factor)?;
        add_term(field, alloc, at, multiple, tail)?;
    }
    Ok(())
}
