//! What is written of a certificate that was read.

use crate::worked::{LAWFUL, SIGNS, TRANSLATIONS, changed};
use rinv_cert::{from_json, to_json};
use std::alloc::Global;

// Other entries of a full certificate: each way in which a pair and a coefficient of a relation are told.
const OTHERS: &[(&str, &str)] = &[
    ("[\"coprime\",1,2]", "[\"chain\",1,2,3]"),
    ("[\"coprime\",1,2]", "[\"quotients\",1,2,[[[1,[0,0]]],[]]]"),
    ("[\"coprime\",1,2]", "[\"coprime\",0,4294967295]"),
    ("[\"generator\",1]", "[\"constant\",100]"),
    (
        "\"space\":[\"x\",\"y\"]",
        "\"space\":[\"\\u0001\\\"\",\"é\"]",
    ),
];

// Whether the text is written as it was read.
fn is_written(alloc: Global, text: &[u8]) -> bool {
    let Ok(certificate) = from_json(alloc, text) else {
        return false;
    };
    match to_json(alloc, &certificate) {
        Ok(written) => written.as_slice() == text,
        Err(_) => false,
    }
}

#[test]
fn writes_what_was_read(rt: HostRuntime) {
    assert!(rt; is_written(rt.alloc(), SIGNS.as_bytes()), "at signs");
    assert!(rt; is_written(rt.alloc(), LAWFUL.as_bytes()), "at sound");
    assert!(rt; is_written(rt.alloc(), TRANSLATIONS.as_bytes()), "at full");
}

// Whether the translations, changed so, are.
fn is_written_changed(alloc: Global, old: &str, new: &str) -> bool {
    match changed(alloc, TRANSLATIONS, old, new) {
        Ok(text) => is_written(alloc, text.as_bytes()),
        Err(_) => false,
    }
}

// Whether all of them are.
fn are_written_changed(alloc: Global, table: &[(&str, &str)]) -> bool {
    for (old, new) in table {
        if !is_written_changed(alloc, old, new) {
            return false;
        }
    }
    true
}

#[test]
fn writes_other_entries(rt: HostRuntime) {
    assert!(rt; are_written_changed(rt.alloc(), OTHERS));
}
