//! Polynomials as a certificate has them: lists of terms.

ghost use Rattle.std.specs.Prelude.{◌≡◌, map, IfOk};

use rinv_cert::{Items, Plain, Term};
use rinv_poly::KPoly;
use rinv_ring::NoMemory;
use std::alloc::Global;

/// The list of the polynomial's terms.
pub fn plain(alloc: Global, f: &KPoly) -> Result<Plain, NoMemory>
    ensures { IfOk result (λ r. r ≡ f.now) }
{
    let terms = f.terms();
    let mut list = Vec::with_capacity(alloc, terms.len())?;
    'terms: for k in 0..terms.len() {
        let (mono, coefficient) = &terms[k];
        let exponents = mono.to_exponents(alloc)?;
        list.push(Term {
            coefficient: *coefficient,
            exponents: Items::new(exponents),
        })?;
    }
    Ok(Items::new(list))
}

/// Those of the polynomials.
pub fn plain_list(alloc: Global, fs: &[KPoly]) -> Result<Items<Plain>, NoMemory>
    ensures { IfOk result (λ r. r ≡ fs.now) }
{
    let mut list = Vec::with_capacity(alloc, fs.len())?;
    'polynomials: for k in 0..fs.len() {
        let f = plain(alloc, &fs[k])?;
        list.push(f)?;
    }
    Ok(Items::new(list))
}

/// Those of the lists of polynomials.
pub fn plain_lists(alloc: Global, lists: &[Vec<KPoly>]) -> Result<Items<Items<Plain>>, NoMemory>
    ensures { IfOk result (λ r. r ≡ map (λ us. us.items) lists.now) }
{
    let mut list = Vec::with_capacity(alloc, lists.len())?;
    'lists: for k in 0..lists.len() {
        let fs = plain_list(alloc, &lists[k])?;
        list.push(fs)?;
    }
    Ok(Items::new(list))
}
