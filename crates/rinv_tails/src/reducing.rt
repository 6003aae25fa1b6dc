//! The reduction of tails: the greatest term that an earlier lead divides is replaced, until there is none.

ghost use Rattle.std.specs.Prelude.{◌≡◌, ◌<◌, ℕ, List, length, get_or, All, IsTrue, IsFalse, IfOk, IfErr, IfSome, IfNone};
ghost use Rattle.std.specs.declared.cmp.Ordering.TheVariants.{Less};
ghost use Rattle.rinv_algebra.specs.Monomial.{divides};
ghost use Rattle.rinv_algebra.specs.Order.{grevlex};
ghost use Rattle.rinv_ring.specs.Fault.{DegreesMeet};
ghost use Rattle.rinv_defs.specs.Extended.{Relation, is_reducible};
ghost use Rattle.rinv_tails.specs.Stored.{IsTail, IsStoredRelation, none};
ghost use Rattle.rinv_tails.specs.Reducing.{Reduces, AreReducedSoFar, TailMeets, TailsMeet};

use crate::adding::add_multiple;
use crate::relations::{FracRelation, Monic, Tail};
use rinv_frac::FracRing;
use rinv_mono::Mono;
use rinv_ring::RingFault;
use std::alloc::Global;

// The place of the first relation whose lead divides the monomial.
fn first_divisor(relations: &[FracRelation], mono: &Mono) -> Option<usize>
    requires { All (λ r. length r.lead ≡ length mono.now) relations.now }
    ensures inside { IfSome result (λ k. k < length relations.now) }
    ensures divides { IfSome result (λ k. IsTrue (divides (get_or relations.now k none).lead mono.now)) }
    ensures first { IfSome result (λ k. (j : ℕ) → j < k → IsFalse (divides (get_or relations.now j none).lead mono.now)) }
    ensures none { IfNone result (IsFalse (is_reducible relations.now mono.now)) }
{
    'relations: for k in 0..relations.len() {
        let relation = &relations[k];
        if relation.lead.divides(mono) {
            return Some(k);
        }
    }
    None
}

// The tail, reduced by the relations.
fn reduced_tail(
    field: &FracRing,
    alloc: Global,
    by: &[FracRelation],
    tail: Tail,
) -> Result<Tail, RingFault>
    requires relations { All (IsStoredRelation field.now.base.coeffs field.now.base.vars) by.now }
    requires tail { IsTail field.now.base.coeffs field.now.base.vars tail.items }
    ensures steps { IfOk result (λ r. Reduces field.now.base.coeffs field.now.base.vars by.now tail.items r.items) }
    ensures irreducible { IfOk result (λ r. All (λ t. IsFalse (is_reducible by.now t.0)) r.items) }
    ensures tail { IfOk result (λ r. IsTail field.now.base.coeffs field.now.base.vars r.items) }
    ensures below { IfOk result (λ r. (m : List ℕ) → All (λ t. grevlex t.0 m ≡ Less) tail.items → All (λ t. grevlex t.0 m ≡ Less) r.items) }
    ensures degree { IfErr result (DegreesMeet (TailMeets field.now.base.coeffs field.now.base.vars by.now tail.items)) }
{
    let mut done = Vec::new(alloc);
    let mut left = tail;
    'terms: while left.len() > 0 {
        let (mono, c) = left.remove(0);
        let Some(place) = first_divisor(by, &mono) else {
            done.push((mono, c))?;
            continue;
        };
        add_multiple(field, alloc, &mono, &c, &by[place], &mut left)?;
    }
    Ok(done)
}

/// Each tail reduced by the relations before it, as they were reduced. Degree comes only where a step that is made meets these degrees.
pub fn reduced_tails(field: &FracRing, alloc: Global, relations: Monic) -> Result<Monic, RingFault>
    requires { All (IsStoredRelation field.now.base.coeffs field.now.base.vars) relations }
    ensures number { IfOk result (λ qs. length qs ≡ length relations) }
    ensures stored { IfOk result (All (IsStoredRelation field.now.base.coeffs field.now.base.vars)) }
    ensures made { IfOk result (AreReducedSoFar field.now.base.coeffs field.now.base.vars relations) }
    ensures degree { IfErr result (DegreesMeet (TailsMeet field.now.base.coeffs field.now.base.vars relations)) }
{
    let mut reduced = Vec::new(alloc);
    'relations: for relation in relations.relations {
        let FracRelation { lead, tail } = relation;
        let tail = reduced_tail(field, alloc, &reduced, tail)?;
        reduced.push(FracRelation { lead, tail })?;
    }
    Ok(Monic { relations: reduced })
}
