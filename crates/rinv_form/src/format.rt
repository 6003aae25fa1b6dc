//! The first condition: the parts of a certificate in the order of their keys.

ghost use Rattle.std.specs.Prelude.{◌≡◌, ◌≤◌, None, IfOk, IfErr, OnOk};
ghost use Rattle.rinv_defs.specs.Certificate.{invariance, sound, full};
ghost use Rattle.rinv_defs.specs.Format.{first_false, common_parts, law_parts, basis_parts, parts_of_kind, format_failure};
ghost use Rattle.rinv_cert.specs.Seen.{plain, parts_seen};
ghost use Rattle.rinv_form.specs.Sized.{IsSized};
ghost use Rattle.rinv_form.specs.Stops.{StopsAt, frame_failure};
ghost use Rattle.rinv_form.specs.Trimmed.{keys_of_kind, trimmed};

use crate::basis_form::BasisForm;
use crate::form::items;
use crate::frame::FormatStop;
use crate::law_lists::law_lists;
use crate::lists::{cofactors, fractions};
use crate::pair_form::PairForm;
use crate::relation_form::RelationForm;
use crate::sizes::{Sizes, sizes_of};
use crate::system_lists::system_lists;
use rinv_cert::{BasisItem, Certificate, CertificateOf, Items, Kind, PairItem, RelationItem};
use rinv_poly::KPoly;
use std::alloc::Global;

// The keys of kind `invariance`.
fn of_invariance(
    alloc: Global,
    sizes: &Sizes,
    certificate: &Certificate,
) -> Result<CertificateOf<KPoly>, FormatStop>
    requires sized { IsSized (plain certificate.now) sizes.now }
    requires frame { frame_failure (plain certificate.now).system ≡ None }
    ensures keys { IfOk result (λ s. plain s ≡ keys_of_kind invariance (plain certificate.now)) }
    ensures form { OnOk result (first_false (common_parts (plain certificate.now)) ≡ None) }
    ensures part { IfErr result (StopsAt (first_false (common_parts (plain certificate.now)))) }
{
    let z = sizes;
    let system = system_lists(alloc, z, &certificate.system)?;
    let Some(fractions) = fractions(alloc, z.field, z.space, &certificate.fractions)? else {
        return Err(FormatStop::Part(11));
    };
    let lists = &certificate.invariance;
    let Some(invariance) = cofactors(alloc, z.field, z.whole, z.ideal, z.fractions, lists)? else {
        return Err(FormatStop::Part(12));
    };
    Ok(CertificateOf {
        kind: Kind::Invariance,
        system,
        fractions,
        invariance,
        laws: Items::new(Vec::new(alloc)),
        basis: Items::new(Vec::new(alloc)),
        inputs: Items::new(Vec::new(alloc)),
        pairs: Items::new(Vec::new(alloc)),
        relations: Items::new(Vec::new(alloc)),
    })
}

// The keys of kind `sound`.
fn of_sound(
    alloc: Global,
    sizes: &Sizes,
    certificate: &Certificate,
) -> Result<CertificateOf<KPoly>, FormatStop>
    requires sized { IsSized (plain certificate.now) sizes.now }
    requires frame { frame_failure (plain certificate.now).system ≡ None }
    ensures keys { IfOk result (λ s. plain s ≡ keys_of_kind sound (plain certificate.now)) }
    ensures form { OnOk result (first_false (parts_of_kind sound (plain certificate.now)) ≡ None) }
    ensures part { IfErr result (StopsAt (first_false (parts_of_kind sound (plain certificate.now)))) }
{
    let mut stored = of_invariance(alloc, sizes, certificate)?;
    let Some(laws) = law_lists(alloc, sizes, &certificate.laws)? else {
        return Err(FormatStop::Part(13));
    };
    stored.kind = Kind::Sound;
    stored.laws = laws;
    Ok(stored)
}

// The basis, its inputs, its pairs and the relations.
type BasisParts = (
    Items<BasisItem<KPoly>>,
    Items<Items<KPoly>>,
    Items<PairItem<KPoly>>,
    Items<RelationItem<KPoly>>,
);

// The keys of the basis.
fn basis_keys(
    alloc: Global,
    sizes: &Sizes,
    certificate: &Certificate,
) -> Result<BasisParts, FormatStop>
    requires sized { IsSized (plain certificate.now) sizes.now }
    requires ideal { sizes.now.ideal ≤ 64 }
    ensures basis { IfOk result (λ x. x.0 ≡ certificate.now.basis) }
    ensures inputs { IfOk result (λ x. x.1 ≡ certificate.now.inputs) }
    ensures pairs { IfOk result (λ x. x.2 ≡ certificate.now.pairs) }
    ensures relations { IfOk result (λ x. x.3 ≡ certificate.now.relations) }
    ensures form { OnOk result (first_false (basis_parts (plain certificate.now)) ≡ None) }
    ensures part { IfErr result (StopsAt (first_false (basis_parts (plain certificate.now)))) }
{
    let z = sizes;
    let Some(basis) = items(&BasisForm { sizes: *z }, alloc, &certificate.basis)? else {
        return Err(FormatStop::Part(14));
    };
    let count = z.ideal + z.space as usize;
    let lists = &certificate.inputs;
    let Some(inputs) = cofactors(alloc, z.field, z.graph, z.basis, count, lists)? else {
        return Err(FormatStop::Part(15));
    };
    let Some(pairs) = items(&PairForm { sizes: *z }, alloc, &certificate.pairs)? else {
        return Err(FormatStop::Part(16));
    };
    let Some(relations) = items(&RelationForm { sizes: *z }, alloc, &certificate.relations)? else {
        return Err(FormatStop::Part(17));
    };
    Ok((basis, inputs, pairs, relations))
}

// The keys of kind `full`.
fn of_full(
    alloc: Global,
    sizes: &Sizes,
    certificate: &Certificate,
) -> Result<CertificateOf<KPoly>, FormatStop>
    requires sized { IsSized (plain certificate.now) sizes.now }
    requires frame { frame_failure (plain certificate.now).system ≡ None }
    ensures keys { IfOk result (λ s. plain s ≡ keys_of_kind full (plain certificate.now)) }
    ensures form { OnOk result (first_false (parts_of_kind full (plain certificate.now)) ≡ None) }
    ensures part { IfErr result (StopsAt (first_false (parts_of_kind full (plain certificate.now)))) }
{
    let mut stored = of_sound(alloc, sizes, certificate)?;
    let (basis, inputs, pairs, relations) = basis_keys(alloc, sizes, certificate)?;
    stored.kind = Kind::Full;
    stored.basis = basis;
    stored.inputs = inputs;
    stored.pairs = pairs;
    stored.relations = relations;
    Ok(stored)
}

/// The certificate with each polynomial stored in its ring, without the keys that its kind does not have; or the first part of the
/// wrong form.
pub fn stored(alloc: Global, certificate: &Certificate) -> Result<CertificateOf<KPoly>, FormatStop>
    ensures keys { IfOk result (λ s. plain s ≡ trimmed (plain certificate.now)) }
    ensures form { IfOk result (λ s. format_failure (plain s) ≡ None) }
    ensures part { IfErr result (StopsAt (format_failure (plain certificate.now))) }
{
    let sizes = sizes_of(certificate)?;
    match certificate.kind {
        Kind::Invariance => {
            let stored = of_invariance(alloc, &sizes, certificate)?;
            Ok(stored)
        }
        Kind::Sound => {
            let stored = of_sound(alloc, &sizes, certificate)?;
            Ok(stored)
        }
        Kind::Full => {
            let stored = of_full(alloc, &sizes, certificate)?;
            Ok(stored)
        }
    }
}
