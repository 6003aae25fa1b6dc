//! The seventh condition: the relations cover the elements without the group's variables.

ghost use Rattle.std.specs.Prelude.{◌≡◌, ◌≤◌, ◌+◌, length, take, drop, true, None, IsTrue, IfOk, ◌==◌};
ghost use Rattle.std.specs.List.{list_all, list_any};
ghost use Rattle.rinv_algebra.specs.Monomial.{total_degree, divides};
ghost use Rattle.rinv_algebra.specs.Polynomial.{monomials};
ghost use Rattle.rinv_algebra.specs.Residue.{residue_ops};
ghost use Rattle.rinv_defs.specs.Format.{format_failure};
ghost use Rattle.rinv_defs.specs.RelationConditions.{leads_failure};
ghost use Rattle.rinv_cert.specs.Seen.{plain};
ghost use Rattle.rinv_form.specs.Forms.{is_stored};
ghost use Rattle.rinv_basis_check.specs.Bases.{IsBasisOf};

use crate::basis::Basis;
use rinv_cert::{CertificateOf, Kind, RelationItem};
use rinv_form::sizes_in;
use rinv_mono::Mono;
use rinv_poly::KPoly;
use rinv_ring::NoMemory;

// Whether a monomial has none of the first variables, so many.
fn has_none_of_first(mono: &Mono, count: u32) -> bool
    requires { count ≤ length mono.now }
    ensures { result ≡ (total_degree (take count mono.now) == 0) }
{
    'variables: for k in 0..count {
        if mono.exponent(k) != 0 {
            return false;
        }
    }
    true
}

// Whether no monomial of a polynomial has one of the group's variables.
fn is_free_of_group(basis: &Basis, group: u32, f: &KPoly) -> bool
    requires few { group ≤ basis.now.ring.vars }
    requires polynomial { IsTrue (is_stored basis.now.ring.coeffs basis.now.ring.vars f.now) }
    ensures { result ≡ list_all (λ m. total_degree (take group m) == 0) (monomials (residue_ops basis.now.ring.coeffs) f.now) }
{
    let ring = &basis.ring;
    'terms: for k in 0..ring.len(f) {
        if !has_none_of_first(ring.mono(f, k), group) {
            return false;
        }
    }
    true
}

// Whether the exponents, put for Z behind the group's variables, divide a monomial's part in Z.
fn divides_z_part(exponents: &[u32], mono: &Mono, group: u32) -> bool
    requires count { group + length exponents.now ≤ length mono.now }
    ensures { result ≡ divides exponents.now (take (length exponents.now) (drop group mono.now)) }
{
    let _vars = mono.vars();
    'variables: for k in 0..exponents.len() {
        if exponents[k] > mono.exponent(group + k as u32) {
            return false;
        }
    }
    true
}

// Whether the lead of one of the relations divides the monomial's part in Z.
fn is_covered(relations: &[RelationItem<KPoly>], mono: &Mono, group: u32, space: u32) -> bool
    requires count { group + space ≤ length mono.now }
    requires leads { list_all (λ r. length r.0 == space) relations.now ≡ true }
    ensures { result ≡ list_any (λ r. divides r.0 (take space (drop group mono.now))) relations.now }
{
    'relations: for k in 0..relations.len() {
        let relation = &relations[k];
        if divides_z_part(relation.a.as_slice(), mono, group) {
            return true;
        }
    }
    false
}

/// The place of the first element of the basis that no relation covers.
pub fn leads_failure(stored: &CertificateOf<KPoly>, basis: &Basis) -> Result<Option<u32>, NoMemory>
    requires kind { stored.now.kind ≡ Kind.Full }
    requires form { format_failure (plain stored.now) ≡ None }
    requires basis { IsBasisOf (plain stored.now) basis.now }
    ensures { IfOk result (λ o. o ≡ leads_failure (plain stored.now)) }
{
    let sizes = sizes_in(stored);
    let relations = stored.relations.as_slice();
    'elements: for k in 0..basis.elements.len() {
        // Numbers of entries are u32: a longer list is answered as want of memory.
        let Ok(number) = u32::try_from(k + 1) else {
            return Err(NoMemory);
        };
        if is_free_of_group(basis, sizes.group, &basis.elements[k])
            && !is_covered(relations, &basis.leads[k], sizes.group, sizes.space)
        {
            return Ok(Some(number));
        }
    }
    Ok(None)
}
