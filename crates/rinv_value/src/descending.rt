//! The terms of a polynomial in graded reverse lexicographic order, from the greatest down.

ghost use Rattle.std.specs.Prelude.{◌≡◌, IfOk};
ghost use Rattle.rinv_value.specs.Values.{AreDescending};

use rinv_mono::{Grevlex, Mono, MonoOrder};
use rinv_poly::KPoly;
use rinv_ring::NoMemory;
use std::alloc::Global;

/// The terms from the greatest down.
pub(crate) fn descending(alloc: Global, f: &KPoly) -> Result<Vec<(Mono, u32)>, NoMemory>
    ensures { IfOk result (λ v. AreDescending f.now v.items) }
{
    let mut terms = copied(alloc, f)?;
    terms.sort_unstable_by(|s, t| Grevlex.compare(&t.0, &s.0));
    Ok(terms)
}

// The terms once more.
fn copied(alloc: Global, f: &KPoly) -> Result<Vec<(Mono, u32)>, NoMemory>
    ensures { IfOk result (λ v. v.items ≡ f.now) }
{
    let mut terms = Vec::with_capacity(alloc, f.terms().len())?;
    for (mono, coefficient) in f.terms() {
        let mono = mono.copy(alloc)?;
        terms.push((mono, *coefficient))?;
    }
    Ok(terms)
}
