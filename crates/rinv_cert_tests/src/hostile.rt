//! Texts that are made to do harm: deep, long, and with keys twice.

use crate::worked::{SIGNS, TRANSLATIONS, changed};
use rinv_cert::{CertStop, from_json};
use std::alloc::{AllocError, Global};

// How long a text of brackets is, in bytes.
const LONG: usize = 8388608;

// Whether the bytes are refused as no JSON.
fn is_no_json(alloc: Global, bytes: &[u8]) -> bool {
    match from_json(alloc, bytes) {
        Err(CertStop::Fault(fault)) => fault.part.word() == "json" && fault.index == 0,
        _ => false,
    }
}

// Whether so many brackets, all open, are no JSON.
fn refuses_brackets(alloc: Global, count: usize) -> bool {
    match "[".repeat(alloc, count) {
        Ok(open) => is_no_json(alloc, open.as_bytes()),
        Err(_) => false,
    }
}

#[test]
fn refuses_brackets_alone(rt: HostRuntime) {
    assert!(rt; refuses_brackets(rt.alloc(), LONG));
}

// The signs, with a value so deep under `unit` before the one that counts, which is the last.
fn nested(alloc: Global, depth: usize) -> Result<String, AllocError> {
    let open = "[".repeat(alloc, depth)?;
    let close = "]".repeat(alloc, depth)?;
    let entry = format!(in alloc; "\"unit\":{open}{close},\"unit\"")?;
    changed(alloc, SIGNS, "\"unit\"", entry.as_str())
}

fn is_read(alloc: Global, bytes: &[u8]) -> bool {
    from_json(alloc, bytes).is_ok()
}

fn reads_nested(alloc: Global, depth: usize) -> bool {
    match nested(alloc, depth) {
        Ok(text) => is_read(alloc, text.as_bytes()),
        Err(_) => false,
    }
}

fn refuses_nested(alloc: Global, depth: usize) -> bool {
    match nested(alloc, depth) {
        Ok(text) => is_no_json(alloc, text.as_bytes()),
        Err(_) => false,
    }
}

// The reader of JSON takes 127 levels, of which the object is the first.
#[test]
fn refuses_deep_nesting(rt: HostRuntime) {
    assert!(rt; reads_nested(rt.alloc(), 126));
    assert!(rt; refuses_nested(rt.alloc(), 127));
}

// What stands twice: the last counts.
const TWICE: &[(&str, &str, bool)] = &[
    ("\"kind\"", "\"kind\":\"half\",\"kind\"", true),
    ("\"version\":1", "\"version\":1,\"version\":2", false),
    ("\"laws\"", "\"laws\":7,\"laws\"", true),
    ("\"L2\":[]", "\"L2\":7,\"L2\":[]", true),
    ("\"L2\":[]", "\"L2\":[],\"L2\":7", false),
    ("\"pairs\"", "\"pairs\":{},\"pairs\"", true),
];

fn reads_changed(alloc: Global, old: &str, new: &str) -> bool {
    match changed(alloc, TRANSLATIONS, old, new) {
        Ok(text) => is_read(alloc, text.as_bytes()),
        Err(_) => false,
    }
}

// Whether each of these is read, or is not.
fn reads_twice(alloc: Global, table: &[(&str, &str, bool)]) -> bool {
    for (old, new, read) in table {
        if reads_changed(alloc, old, new) != *read {
            return false;
        }
    }
    true
}

#[test]
fn takes_the_last_of_two(rt: HostRuntime) {
    assert!(rt; reads_twice(rt.alloc(), TWICE));
}
