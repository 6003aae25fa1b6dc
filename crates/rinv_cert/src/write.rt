//! From a certificate to its JSON text.

ghost use Rattle.std.specs.Prelude.{◌≡◌, ◌+◌, [], ◌∷◌, drop, IfOk, OnOk, MatchOption};
ghost use Rattle.serde_json.specs.Data.{put, no_members};
ghost use Rattle.serde_json.specs.View.{view, members_view};
ghost use Rattle.rinv_json.specs.Keys.{kind_word, law_keys};
ghost use Rattle.rinv_json.specs.Written.{poly_data, with_members, system_members, fraction_members, law_members, basis_members, members_of, json_text};
ghost use Rattle.rinv_json.specs.Ranges.{IsWritable};
ghost use Rattle.rinv_json.specs.Denoted.{DenotesCertificate};
ghost use Rattle.rinv_cert.specs.Seen.{kind_of, system_by, plain};
ghost use Rattle.rinv_cert.specs.Parts.{AddsMembers, head_members, kind_members, law_list_members};

use crate::certificate::{Certificate, Kind, Polynomial, System};
use crate::items::Items;
use crate::shape::Shape;
use serde_json::{Map, Value, put};
use std::alloc::{AllocError as NoMemory, Global};

type Object = Map<String, Value>;

// Puts a value under a key.
fn add<S: Shape>(alloc: Global, members: &mut Object, key: &str, value: &S) -> Result<(), NoMemory>
    ensures { OnOk result (members_view members.new.entries ≡ put key.now (S.writes value.now) (members_view members.old.entries)) }
{
    let data = value.to_data(alloc)?;
    put(members, alloc, key, data)
}

impl Kind {
    ghost use Rattle.std.specs.Prelude.{◌≡◌};
    ghost use Rattle.rinv_json.specs.Keys.{kind_word};
    ghost use Rattle.rinv_cert.specs.Seen.{kind_of};

    /// The word that is written.
    pub fn word(&self) -> &'static str
        ensures { result.now ≡ kind_word (kind_of self.now) }
    {
        match self {
            Kind::Invariance => "invariance",
            Kind::Sound => "sound",
            Kind::Full => "full",
        }
    }
}

// The version and the kind.
fn header(alloc: Global, kind: Kind) -> Result<Object, NoMemory>
    ensures { IfOk result (λ m. members_view m.entries ≡ head_members kind) }
{
    let mut members = Map::new(alloc);
    put(&mut members, alloc, "version", Value::from(1u32))?;
    let word = Value::try_from_str(alloc, kind.word())?;
    put(&mut members, alloc, "kind", word)?;
    Ok(members)
}

// The keys of the system.
fn add_system(
    alloc: Global,
    members: &mut Object,
    system: &System<Polynomial>,
) -> Result<(), NoMemory>
    ensures { OnOk result (AddsMembers members.old.entries members.new.entries (system_members poly_data (system_by (λ f. f) system.now))) }
{
    add(alloc, members, "field", &system.field)?;
    add(alloc, members, "group", &system.group)?;
    add(alloc, members, "space", &system.space)?;
    add(alloc, members, "ideal", &system.ideal)?;
    add(alloc, members, "unit", &system.unit)?;
    add(alloc, members, "product", &system.product)?;
    add(alloc, members, "inverse", &system.inverse)?;
    add(alloc, members, "action", &system.action)
}

// The fractions, and the cofactors of each.
fn add_fractions(
    alloc: Global,
    members: &mut Object,
    certificate: &Certificate,
) -> Result<(), NoMemory>
    ensures { OnOk result (AddsMembers members.old.entries members.new.entries (fraction_members poly_data (plain certificate.now))) }
{
    add(alloc, members, "fractions", &certificate.fractions)?;
    add(alloc, members, "invariance", &certificate.invariance)
}

// The name of a law, by its place.
fn law_name(place: usize) -> Option<&'static str>
    ensures { MatchOption result (drop place law_keys ≡ []) (λ name. drop place law_keys ≡ name.now ∷ drop (place + 1) law_keys) }
{
    match place {
        0 => Some("L2"),
        1 => Some("L3"),
        2 => Some("L4"),
        3 => Some("L5"),
        4 => Some("L6"),
        5 => Some("A2"),
        _ => None,
    }
}

// The object with the cofactors of each law.
fn laws(alloc: Global, laws: &[Items<Items<Polynomial>>]) -> Result<Object, NoMemory>
    ensures { IfOk result (λ m. members_view m.entries ≡ law_list_members laws.now) }
{
    let mut members = Map::new(alloc);
    'laws: for k in 0..laws.len() {
        let Some(name) = law_name(k) else {
            return Ok(members);
        };
        add(alloc, &mut members, name, &laws[k])?;
    }
    Ok(members)
}

// The cofactors of the laws.
fn add_laws(alloc: Global, members: &mut Object, certificate: &Certificate) -> Result<(), NoMemory>
    ensures { OnOk result (AddsMembers members.old.entries members.new.entries (law_members poly_data (plain certificate.now))) }
{
    let laws = laws(alloc, certificate.laws.as_slice())?;
    put(members, alloc, "laws", Value::Object(laws))
}

// The basis, the inputs, the pairs and the relations.
fn add_basis(alloc: Global, members: &mut Object, certificate: &Certificate) -> Result<(), NoMemory>
    ensures { OnOk result (AddsMembers members.old.entries members.new.entries (basis_members poly_data (plain certificate.now))) }
{
    add(alloc, members, "basis", &certificate.basis)?;
    add(alloc, members, "inputs", &certificate.inputs)?;
    add(alloc, members, "pairs", &certificate.pairs)?;
    add(alloc, members, "relations", &certificate.relations)
}

// The keys that the kind has further.
fn add_further(
    alloc: Global,
    members: &mut Object,
    certificate: &Certificate,
) -> Result<(), NoMemory>
    ensures { OnOk result (AddsMembers members.old.entries members.new.entries (kind_members certificate.now)) }
{
    match certificate.kind {
        Kind::Invariance => Ok(()),
        Kind::Sound => add_laws(alloc, members, certificate),
        Kind::Full => {
            add_laws(alloc, members, certificate)?;
            add_basis(alloc, members, certificate)
        }
    }
}

// All keys of the certificate.
fn members(alloc: Global, certificate: &Certificate) -> Result<Object, NoMemory>
    ensures { IfOk result (λ m. members_view m.entries ≡ with_members no_members (members_of poly_data (plain certificate.now))) }
{
    let mut members = header(alloc, certificate.kind)?;
    add_system(alloc, &mut members, &certificate.system)?;
    add_fractions(alloc, &mut members, certificate)?;
    add_further(alloc, &mut members, certificate)?;
    Ok(members)
}

/// The text of the certificate, without white space.
pub fn to_json(alloc: Global, certificate: &Certificate) -> Result<Vec<u8>, NoMemory>
    ensures text { IfOk result (λ b. b.items ≡ json_text (plain certificate.now)) }

    // It is read as the certificate.
    ensures read_back { IfOk result (λ b. IsWritable (plain certificate.now) → DenotesCertificate b.items (plain certificate.now)) }
{
    let members = members(alloc, certificate)?;
    let text = Value::Object(members).to_vec(alloc)?;
    Ok(text)
}
