//! Which keys an object may have.

ghost use Rattle.std.specs.Prelude.{◌≡◌, take, bytes_eq};
ghost use Rattle.std.specs.List.{list_any};
ghost use Rattle.serde_json.specs.View.{members_view};
ghost use Rattle.rinv_json.specs.Keys.{all_keys, law_keys, has_only};
ghost use Rattle.rinv_cert.specs.KeySets.{keys_in};

use crate::certificate::Kind;
use serde_json::{Map, Value};

/// The keys of a kind of certificates, or those of the laws.
#[derive(Clone, Copy)]
pub(crate) enum KeySet {
    OfKind(Kind),
    OfLaws,
}

// Whether it is a key of every kind.
fn is_common_key(key: &str) -> bool
    ensures { result ≡ list_any (bytes_eq key.now) (take 12 all_keys) }
{
    key == "version"
        || key == "kind"
        || key == "field"
        || key == "group"
        || key == "space"
        || key == "ideal"
        || key == "unit"
        || key == "product"
        || key == "inverse"
        || key == "action"
        || key == "fractions"
        || key == "invariance"
}

// Whether it is a key of kind `full`.
fn is_full_key(key: &str) -> bool
    ensures { result ≡ list_any (bytes_eq key.now) all_keys }
{
    key == "version"
        || key == "kind"
        || key == "field"
        || key == "group"
        || key == "space"
        || key == "ideal"
        || key == "unit"
        || key == "product"
        || key == "inverse"
        || key == "action"
        || key == "fractions"
        || key == "invariance"
        || key == "laws"
        || key == "basis"
        || key == "inputs"
        || key == "pairs"
        || key == "relations"
}

// Whether it is the name of a law with cofactors.
fn is_law_key(key: &str) -> bool
    ensures { result ≡ list_any (bytes_eq key.now) law_keys }
{
    key == "L2" || key == "L3" || key == "L4" || key == "L5" || key == "L6" || key == "A2"
}

// Whether it is one of the keys.
fn is_key(keys: KeySet, key: &str) -> bool
    ensures { result ≡ list_any (bytes_eq key.now) (keys_in keys) }
{
    match keys {
        KeySet::OfKind(Kind::Invariance) => is_common_key(key),
        KeySet::OfKind(Kind::Sound) => is_common_key(key) || key == "laws",
        KeySet::OfKind(Kind::Full) => is_full_key(key),
        KeySet::OfLaws => is_law_key(key),
    }
}

/// Whether no member has a foreign key.
pub(crate) fn has_only(keys: KeySet, members: &Map<String, Value>) -> bool
    ensures { result ≡ has_only (keys_in keys) (members_view members.now.entries) }
{
    for key in members.keys() {
        if !is_key(keys, key.as_str()) {
            return false;
        }
    }
    true
}
