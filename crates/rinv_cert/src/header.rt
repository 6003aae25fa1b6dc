//! What stands before the keys of the system: an object, the version, the kind, and no foreign key.

ghost use Rattle.std.specs.Prelude.{◌≡◌, codes, if◌then◌else◌, Some, None, option_map, IfOk, IfErr};
ghost use Rattle.serde_json.specs.View.{view};
ghost use Rattle.rinv_json.specs.Keys.{version, kind, kind_named};
ghost use Rattle.rinv_json.specs.Shapes.{under, poly};
ghost use Rattle.rinv_json.specs.Certificates.{body_of, certificate_of};
ghost use Rattle.rinv_cert.specs.Faults.{Refuses};
ghost use Rattle.rinv_cert.specs.Seen.{kind_of};

use crate::certificate::Kind;
use crate::fault::{CertStop, Part};
use crate::items::Name;
use crate::keys::{KeySet, has_only};
use crate::members::{member, refusal};
use serde_json::Value;
use std::alloc::{AllocError as NoMemory, Global};

// Whether the version stands there.
fn has_version(alloc: Global, value: &Value) -> Result<bool, NoMemory>
    ensures { IfOk result (λ b. under (codes "version") version (view value.now) ≡ (if b then Some 1 else None)) }
{
    match member::<u32>(alloc, value, "version")? {
        Some(n) => Ok(n == 1),
        None => Ok(false),
    }
}

// The kind that the word is.
fn kind_named(word: &Name) -> Option<Kind>
    ensures { option_map kind_of result ≡ kind_named word.now }
{
    if word.is("invariance") {
        Some(Kind::Invariance)
    } else if word.is("sound") {
        Some(Kind::Sound)
    } else if word.is("full") {
        Some(Kind::Full)
    } else {
        None
    }
}

// The kind that stands there.
fn kind_under(alloc: Global, value: &Value) -> Result<Option<Kind>, NoMemory>
    ensures { IfOk result (λ o. option_map kind_of o ≡ under (codes "kind") kind (view value.now)) }
{
    match member::<Name>(alloc, value, "kind")? {
        Some(word) => Ok(kind_named(&word)),
        None => Ok(None),
    }
}

/// The kind of the certificate, where nothing is refused before the keys of its system.
#[tactic(auto, unfolding(rinv_json::specs::Certificates::certificate_of))]
pub(crate) fn header(alloc: Global, value: &Value) -> Result<Kind, CertStop>
    ensures ok { IfOk result (λ k. certificate_of (view value.now) ≡ body_of poly (kind_of k) (view value.now)) }
    ensures fault { IfErr result (Refuses (certificate_of (view value.now))) }
{
    let Some(members) = value.as_object() else {
        return Err(refusal(Part::Object, 0));
    };
    if !has_version(alloc, value)? {
        return Err(refusal(Part::Version, 0));
    }
    let Some(kind) = kind_under(alloc, value)? else {
        return Err(refusal(Part::Kind, 0));
    };
    if !has_only(KeySet::OfKind(kind), members) {
        return Err(refusal(Part::Key, 0));
    }
    Ok(kind)
}
