//! From bytes to a certificate, or to the first part that is refused.

ghost use Rattle.std.specs.Prelude.{◌≡◌, map, codes, IfOk, IfErr};
ghost use Rattle.serde_json.specs.View.{view};
ghost use Rattle.rinv_json.specs.Reading.{found};
ghost use Rattle.rinv_json.specs.Shapes.{poly};
ghost use Rattle.rinv_json.specs.Items.{basis_item, pair_item};
ghost use Rattle.rinv_json.specs.Certificates.{many, system_of, invariance_of, sound_of, basis_of, full_of, body_of, certificate_of};
ghost use Rattle.rinv_json.specs.Denoted.{DenotesCertificate};
ghost use Rattle.rinv_cert.specs.Faults.{Refuses, RefusesBytes};
ghost use Rattle.rinv_cert.specs.Seen.{kind_of, system_by, basis_item_by, pair_item_by, relation_item_by, parts_seen, plain};
ghost use Rattle.rinv_cert.specs.Parts.{relations_read};

use crate::certificate::{
    BasisItem, Certificate, CertificateOf, Kind, PairItem, Polynomial, RelationItem, System,
};
use crate::fault::{CertStop, Part};
use crate::header::header;
use crate::items::{Items, Name};
use crate::laws::laws;
use crate::members::{many, one, refusal};
use serde_json::Value;
use std::alloc::Global;

// The keys of the system.
#[tactic(auto, unfolding(rinv_json::specs::Certificates::system_of))]
fn system(alloc: Global, value: &Value) -> Result<System<Polynomial>, CertStop>
    ensures ok { IfOk result (λ s. system_of poly (view value.now) ≡ found (system_by (λ f. f) s)) }
    ensures fault { IfErr result (Refuses (system_of poly (view value.now))) }
{
    let field = one::<u32>(alloc, value, Part::Field)?;
    let group = many::<Name>(alloc, value, Part::Group)?;
    let space = many::<Name>(alloc, value, Part::Space)?;
    let ideal = many::<Polynomial>(alloc, value, Part::Ideal)?;
    let unit = many::<u32>(alloc, value, Part::Unit)?;
    let product = many::<Polynomial>(alloc, value, Part::Product)?;
    let inverse = many::<Polynomial>(alloc, value, Part::Inverse)?;
    let action = many::<Polynomial>(alloc, value, Part::Action)?;
    Ok(System {
        field,
        group,
        space,
        ideal,
        unit,
        product,
        inverse,
        action,
    })
}

// The keys of kind `invariance`.
#[tactic(auto, unfolding(rinv_json::specs::Certificates::invariance_of))]
fn of_invariance(alloc: Global, value: &Value) -> Result<Certificate, CertStop>
    ensures ok { IfOk result (λ c. invariance_of poly (view value.now) ≡ found (plain c)) }
    ensures fault { IfErr result (Refuses (invariance_of poly (view value.now))) }
{
    let system = system(alloc, value)?;
    let fractions = many::<(Polynomial, Polynomial)>(alloc, value, Part::Fractions)?;
    let invariance = many::<Items<Polynomial>>(alloc, value, Part::Invariance)?;
    Ok(CertificateOf {
        kind: Kind::Invariance,
        system,
        fractions,
        invariance,
        laws: Items::new(Vec::new(alloc)),
        basis: Items::new(Vec::new(alloc)),
        inputs: Items::new(Vec::new(alloc)),
        pairs: Items::new(Vec::new(alloc)),
        relations: Items::new(Vec::new(alloc)),
    })
}

// The keys of kind `sound`.
#[tactic(auto, unfolding(rinv_json::specs::Certificates::sound_of))]
fn of_sound(alloc: Global, value: &Value) -> Result<Certificate, CertStop>
    ensures ok { IfOk result (λ c. sound_of poly (view value.now) ≡ found (plain c)) }
    ensures fault { IfErr result (Refuses (sound_of poly (view value.now))) }
{
    let mut certificate = of_invariance(alloc, value)?;
    let laws = laws(alloc, value)?;
    certificate.kind = Kind::Sound;
    certificate.laws = laws;
    Ok(certificate)
}

type BasisItems = Items<BasisItem<Polynomial>>;

type PairItems = Items<PairItem<Polynomial>>;

type RelationItems = Items<RelationItem<Polynomial>>;

type BasisParts = (
    BasisItems,
    Items<Items<Polynomial>>,
    PairItems,
    RelationItems,
);

// The basis.
fn basis(alloc: Global, value: &Value) -> Result<BasisItems, CertStop>
    ensures ok { IfOk result (λ xs. many (codes "basis") (basis_item poly) (view value.now) ≡ found (map (basis_item_by (λ f. f)) xs)) }
    ensures fault { IfErr result (Refuses (many (codes "basis") (basis_item poly) (view value.now))) }
{
    let items = many::<BasisItem<Polynomial>>(alloc, value, Part::Basis)?;
    Ok(items)
}

// The pairs.
fn pairs(alloc: Global, value: &Value) -> Result<PairItems, CertStop>
    ensures ok { IfOk result (λ xs. many (codes "pairs") (pair_item poly) (view value.now) ≡ found (map (pair_item_by (λ f. f)) xs)) }
    ensures fault { IfErr result (Refuses (many (codes "pairs") (pair_item poly) (view value.now))) }
{
    let items = many::<PairItem<Polynomial>>(alloc, value, Part::Pairs)?;
    Ok(items)
}

// The relations.
fn relations(alloc: Global, value: &Value) -> Result<RelationItems, CertStop>
    ensures ok { IfOk result (λ xs. relations_read (view value.now) ≡ found (map (relation_item_by (λ f. f)) xs)) }
    ensures fault { IfErr result (Refuses (relations_read (view value.now))) }
{
    let items = many::<RelationItem<Polynomial>>(alloc, value, Part::Relations)?;
    Ok(items)
}

// The basis, the inputs, the pairs and the relations.
#[tactic(auto, unfolding(rinv_json::specs::Certificates::basis_of))]
fn basis_parts(alloc: Global, value: &Value) -> Result<BasisParts, CertStop>
    ensures ok { IfOk result (λ x. basis_of poly (view value.now) ≡ found (parts_seen x)) }
    ensures fault { IfErr result (Refuses (basis_of poly (view value.now))) }
{
    let basis = basis(alloc, value)?;
    let inputs = many::<Items<Polynomial>>(alloc, value, Part::Inputs)?;
    let pairs = pairs(alloc, value)?;
    let relations = relations(alloc, value)?;
    Ok((basis, inputs, pairs, relations))
}

// The keys of kind `full`.
#[tactic(auto, unfolding(rinv_json::specs::Certificates::full_of))]
fn of_full(alloc: Global, value: &Value) -> Result<Certificate, CertStop>
    ensures ok { IfOk result (λ c. full_of poly (view value.now) ≡ found (plain c)) }
    ensures fault { IfErr result (Refuses (full_of poly (view value.now))) }
{
    let mut certificate = of_sound(alloc, value)?;
    let (basis, inputs, pairs, relations) = basis_parts(alloc, value)?;
    certificate.kind = Kind::Full;
    certificate.basis = basis;
    certificate.inputs = inputs;
    certificate.pairs = pairs;
    certificate.relations = relations;
    Ok(certificate)
}

// The keys of a kind.
fn of_kind(alloc: Global, kind: Kind, value: &Value) -> Result<Certificate, CertStop>
    ensures ok { IfOk result (λ c. body_of poly (kind_of kind) (view value.now) ≡ found (plain c)) }
    ensures fault { IfErr result (Refuses (body_of poly (kind_of kind) (view value.now))) }
{
    match kind {
        Kind::Invariance => of_invariance(alloc, value),
        Kind::Sound => of_sound(alloc, value),
        Kind::Full => of_full(alloc, value),
    }
}

// The certificate that a JSON value stands for.
fn certificate(alloc: Global, value: &Value) -> Result<Certificate, CertStop>
    ensures ok { IfOk result (λ c. certificate_of (view value.now) ≡ found (plain c)) }
    ensures fault { IfErr result (Refuses (certificate_of (view value.now))) }
{
    let kind = header(alloc, value)?;
    let certificate = of_kind(alloc, kind, value)?;
    Ok(certificate)
}

/// The certificate that the bytes denote, or the first part that is refused.
pub fn from_json(alloc: Global, bytes: &[u8]) -> Result<Certificate, CertStop>
    ensures ok { IfOk result (λ c. DenotesCertificate bytes.now (plain c)) }
    ensures fault { IfErr result (RefusesBytes bytes.now) }
{
    match Value::from_slice(alloc, bytes) {
        Ok(value) => {
            let certificate = certificate(alloc, &value)?;
            Ok(certificate)
        }
        Err(error) => {
            if error.is_memory() {
                return Err(CertStop::NoMemory);
            }
            Err(refusal(Part::Json, 0))
        }
    }
}
