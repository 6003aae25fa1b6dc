//! Which part of a text is refused, and at which place.

use crate::worked::{LAWFUL, SIGNS, TRANSLATIONS, changed};
use rinv_cert::{CertStop, from_json};
use std::alloc::Global;

// Whole texts, with the part that is refused.
const TEXTS: &[(&str, &str)] = &[
    ("", "json"),
    ("{", "json"),
    ("[]", "object"),
    ("7", "object"),
    ("{}", "version"),
    ("{\"version\":1}", "kind"),
    ("{\"version\":1,\"kind\":\"invariance\",\"basis\":0}", "key"),
    ("{\"version\":1,\"kind\":\"invariance\"}", "field"),
];

// Pieces of the signs, what stands for each, and the part that is refused, with its place.
const OF_SIGNS: &[(&str, &str, &str, u32)] = &[
    ("\"version\":1", "\"version\":2", "version", 0),
    ("\"version\":1", "\"version\":1.0", "version", 0),
    ("\"version\":1", "\"version\":\"1\"", "version", 0),
    ("\"kind\":\"invariance\"", "\"kind\":\"half\"", "kind", 0),
    ("\"kind\":\"invariance\"", "\"kind\":1", "kind", 0),
    ("\"kind\":\"invariance\"", "\"kind\":\"sound\"", "laws", 0),
    ("\"kind\"", "\"note\":1,\"kind\"", "key", 0),
    ("\"kind\"", "\"laws\":{},\"kind\"", "key", 0),
    ("\"field\":7", "\"field\":\"7\"", "field", 0),
    ("\"field\":7", "\"field\":4294967296", "field", 0),
    ("\"field\":7", "\"field\":-7", "field", 0),
    ("\"group\":[\"a\"]", "\"group\":\"a\"", "group", 0),
    ("\"group\":[\"a\"]", "\"group\":[\"a\",1]", "group", 2),
    ("\"space\":[\"x\"],", "", "space", 0),
    ("[6,[0]]", "[6]", "ideal", 1),
    ("[6,[0]]", "[6,[0],0]", "ideal", 1),
    ("[6,[0]]", "[6,0]", "ideal", 1),
    ("[6,[0]]", "[6.0,[0]]", "ideal", 1),
    ("[6,[0]]", "[6e0,[0]]", "ideal", 1),
    ("[6,[0]]", "[-0,[0]]", "ideal", 1),
    ("[6,[0]]", "[06,[0]]", "json", 0),
    ("[6,[0]]]", "[6,[0]]],[],7", "ideal", 3),
    ("\"unit\":[1]", "\"unit\":[-1]", "unit", 1),
    ("\"product\":[", "\"product\":[[],{},", "product", 2),
    ("\"inverse\":[", "\"inverse\":[null,", "inverse", 1),
    ("\"action\":[", "\"action\":{},\"actions\":[", "key", 0),
    (
        "\"fractions\":[",
        "\"fractions\":[[[],[],[]],",
        "fractions",
        1,
    ),
    (
        "\"fractions\":[",
        "\"fractions\":[[[],[]],[[]],",
        "fractions",
        2,
    ),
    ("\"invariance\":[", "\"invariance\":[[7],", "invariance", 1),
    ("\"space\":[\"x\"],\"unit\":[1],", "", "space", 0),
];

// The same of the translations.
const OF_TRANSLATIONS: &[(&str, &str, &str, u32)] = &[
    ("\"L4\":[[]],", "", "laws", 3),
    ("\"L4\":[[]],", "\"L4\":[[]],\"L7\":[],", "laws", 7),
    ("\"L4\":[[]],", "\"L7\":[],", "laws", 3),
    ("\"A2\":[[],[]]", "\"A2\":7", "laws", 6),
    ("\"L2\":[]", "\"L2\":[[7]]", "laws", 1),
    ("\"laws\":{", "\"laws\":[],\"lows\":{", "key", 0),
    ("\"basis\":[", "\"basis\":[[[]],", "basis", 1),
    ("\"inputs\":[", "\"inputs\":[[7],", "inputs", 1),
    ("[\"coprime\",1,2]", "[\"coprime\",1]", "pairs", 1),
    ("[\"coprime\",1,2]", "[\"coprime\",1,2,3]", "pairs", 1),
    ("[\"coprime\",1,2]", "[\"prime\",1,2]", "pairs", 1),
    ("[\"coprime\",1,2]", "[\"chain\",1,2]", "pairs", 1),
    (
        "[\"coprime\",1,2]",
        "[\"coprime\",1,2],[\"chain\",1,2,[]]",
        "pairs",
        2,
    ),
    ("[\"coprime\",1,2]", "[\"quotients\",1,2,3]", "pairs", 1),
    (
        "[\"coprime\",1,2]",
        "[\"coprime\",1,4294967296]",
        "pairs",
        1,
    ),
    ("[\"generator\",1]", "[\"genesis\",1]", "relations", 1),
    ("[\"generator\",1]", "[\"generator\",1,1]", "relations", 1),
    (
        "[\"generator\",1]]]",
        "[\"generator\",1]],7]",
        "relations",
        1,
    ),
    ("\"relations\":[", "\"relations\":[[],", "relations", 1),
    ("\"relations\":[", "\"relations\":7,\"rel\":[", "key", 0),
];

// The part that is refused, and its place; "read" where none is.
fn refusal(alloc: Global, bytes: &[u8]) -> (&'static str, u32) {
    match from_json(alloc, bytes) {
        Ok(_) => ("read", 0),
        Err(CertStop::Fault(fault)) => (fault.part.word(), fault.index),
        Err(CertStop::NoMemory) => ("memory", 0),
    }
}

// Whether the text is refused so.
fn is_refused(alloc: Global, text: &str, part: &str, place: u32) -> bool {
    let (found, index) = refusal(alloc, text.as_bytes());
    found == part && index == place
}

// Whether the changed text is.
fn refuses(alloc: Global, text: &str, old: &str, new: &str, part: &str, place: u32) -> bool {
    match changed(alloc, text, old, new) {
        Ok(other) => is_refused(alloc, other.as_str(), part, place),
        Err(_) => false,
    }
}

// Whether each whole text is refused, at place 0.
fn refuses_texts_of(alloc: Global, table: &[(&str, &str)]) -> bool {
    for (text, part) in table {
        if !is_refused(alloc, text, part, 0) {
            return false;
        }
    }
    true
}

// Whether each change of the text is refused.
fn refuses_changes(alloc: Global, text: &str, table: &[(&str, &str, &str, u32)]) -> bool {
    for (old, new, part, place) in table {
        if !refuses(alloc, text, old, new, part, *place) {
            return false;
        }
    }
    true
}

#[test]
fn refuses_texts(rt: HostRuntime) {
    assert!(rt; refuses_texts_of(rt.alloc(), TEXTS));
}

#[test]
fn refuses_parts_of_signs(rt: HostRuntime) {
    assert!(rt; refuses_changes(rt.alloc(), SIGNS, OF_SIGNS));
}

#[test]
fn refuses_parts_of_translations(rt: HostRuntime) {
    assert!(rt; refuses_changes(rt.alloc(), TRANSLATIONS, OF_TRANSLATIONS));
}

// The kind of the certificate `LAWFUL`, and those whose keys it does not have.
const OF_LAWFUL: &[(&str, &str, &str, u32)] = &[
    ("\"kind\":\"sound\"", "\"kind\":\"full\"", "basis", 0),
    ("\"kind\":\"sound\"", "\"kind\":\"invariance\"", "key", 0),
];

#[test]
fn refuses_keys_of_another_kind(rt: HostRuntime) {
    assert!(rt; refuses_changes(rt.alloc(), LAWFUL, OF_LAWFUL));
}

// Whether each proper prefix is refused as no JSON.
fn refuses_prefixes(alloc: Global, bytes: &[u8]) -> bool {
    for length in 0..bytes.len() {
        let (found, index) = refusal(alloc, &bytes[..length]);
        if found != "json" || index != 0 {
            return false;
        }
    }
    true
}

#[test]
fn refuses_each_prefix(rt: HostRuntime) {
    assert!(rt; refuses_prefixes(rt.alloc(), SIGNS.as_bytes()));
}
