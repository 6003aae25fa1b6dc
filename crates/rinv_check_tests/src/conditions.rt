//! Which condition of the worked certificates in their changed forms fails first, and where.

use crate::worked::{LAWFUL, SIGNS, TRANSLATIONS, changed};
use rinv_cert::from_json;
use rinv_check::{Verdict, check};
use std::alloc::{AllocError, Global};

// Pieces of the signs, what stands for each, and the condition that fails, with its place; 0 where none fails.
const OF_SIGNS: &[(&str, &str, u32, u32)] = &[
    ("\"field\":7", "\"field\":7", 0, 0),
    ("\"field\":7", "\"field\":8", 1, 3),
    ("[[[[1,[0,2]]]]]", "[[[[2,[0,2]]]]]", 8, 1),
    ("[[[[1,[2]]],[[1,[0]]]]]", "[[[[1,[1]]],[[1,[0]]]]]", 8, 1),
    // A product of degree over the limit is no identity.
    ("[[[[1,[0,2]]]]]", "[[[[1,[9999,0]]]]]", 8, 1),
];

// The same of the translations. The quotients of the fourth last are those of the S-polynomial; those after it reach the multiple itself.
const OF_TRANSLATIONS: &[(&str, &str, u32, u32)] = &[
    ("\"kind\"", "\"kind\"", 0, 0),
    ("\"field\":101", "\"field\":100", 1, 3),
    ("\"unit\":[0]", "\"unit\":[101]", 1, 7),
    ("\"unit\":[0]", "\"unit\":[1]", 2, 5),
    ("\"inverse\":[[[100,[1]]]]", "\"inverse\":[[[1,[1]]]]", 2, 6),
    (
        "\"action\":[[[1,[1,0,0]],[1,[0,1,0]]]",
        "\"action\":[[[2,[1,0,0]],[1,[0,1,0]]]",
        3,
        1,
    ),
    ("\"inputs\":[[[[100,", "\"inputs\":[[[[99,", 4, 1),
    ("[\"coprime\",1,2]", "", 5, 1),
    (
        "[\"coprime\",1,2]",
        "[\"coprime\",1,2],[\"coprime\",1,2]",
        5,
        2,
    ),
    (
        "[\"coprime\",1,2]",
        "[\"quotients\",1,2,[[[1,[0,0,0,0,1]]],[[100,[0,1,0,0,0]],[1,[0,0,0,1,0]]]]]",
        0,
        0,
    ),
    (
        "[\"coprime\",1,2]",
        "[\"quotients\",1,2,[[[1,[0,0,1,0,0]]],[[100,[1,0,0,0,0]]]]]",
        5,
        1,
    ),
    (
        "[[1,[0,1]]],[\"generator\",1]",
        "[[2,[0,1]]],[\"generator\",1]",
        6,
        1,
    ),
    (
        "[[1,[0,1]]],[\"generator\",1]",
        "[[1,[0,1]]],[\"constant\",1]",
        6,
        1,
    ),
    (
        "\"relations\":[[[0,1],[[1,[0,0]]],[[[0,0],[[1,[0,1]]],[\"generator\",1]]],[]]]",
        "\"relations\":[]",
        7,
        2,
    ),
];

// The elements, the inputs and the pairs of a basis with one element three times, whose entries cite each other in a circle.
const CIRCLE: &[(&str, &str)] = &[
    (
        "[[[1,[0,0,1,0,0]],[100,[0,0,0,0,1]]],[]]]",
        "[[[1,[0,0,1,0,0]],[100,[0,0,0,0,1]]],[]],[[[1,[0,0,1,0,0]],[100,[0,0,0,0,1]]],[]],[[[1,[0,0,1,0,0]],[100,[0,0,0,0,1]]],[]]]",
    ),
    (
        "[[[100,[0,0,0,0,0]]],[]],[[],[[1,[0,0,0,0,0]]]]",
        "[[[100,[0,0,0,0,0]]],[],[],[]],[[],[[1,[0,0,0,0,0]]],[],[]]",
    ),
    (
        "[\"coprime\",1,2]",
        "[\"chain\",2,3,4],[\"chain\",2,4,3],[\"chain\",3,4,2],[\"coprime\",1,2],[\"coprime\",1,3],[\"coprime\",1,4]",
    ),
];

// A certificate that asks for x^9999 at x + a + a^2, whose degree is over the limit. To find this by products takes minutes.
const TOO_HIGH: &str =
    r#"{"action":[[[1,[2,0]],[1,[1,0]],[1,[0,1]]]],"field":7,"fractions":[[[[1,[9999]]],[[1,[0]]]]],"group":["a"],"ideal":[],"invariance":[[]],"inverse":[[[6,[1]]]],"kind":"invariance","product":[[[1,[1,0]],[1,[0,1]]]],"space":["x"],"unit":[0],"version":1}"#;

// The condition that fails and its place; 0 where none fails, and 98 where there is no verdict.
fn failure_of(verdict: Result<Verdict, AllocError>) -> (u32, u32) {
    match verdict {
        Ok(Verdict::Yes) => (0, 0),
        Ok(Verdict::No { condition, index }) => (condition, index),
        Err(_) => (98, 0),
    }
}

// The failure of a certificate in bytes; 97 where it is not read.
fn failure_in(alloc: Global, bytes: &[u8]) -> (u32, u32) {
    match from_json(alloc, bytes) {
        Ok(certificate) => failure_of(check(alloc, &certificate)),
        Err(_) => (97, 0),
    }
}

// The same, of a certificate with a piece of its text changed; 96 where memory is short.
fn failure(alloc: Global, text: &str, old: &str, new: &str) -> (u32, u32) {
    match changed(alloc, text, old, new) {
        Ok(other) => failure_in(alloc, other.as_bytes()),
        Err(_) => (96, 0),
    }
}

// Whether each change of the text fails so.
fn fail_so(alloc: Global, text: &str, table: &[(&str, &str, u32, u32)]) -> bool {
    for (old, new, condition, index) in table {
        if failure(alloc, text, old, new) != (*condition, *index) {
            return false;
        }
    }
    true
}

#[test]
fn names_the_first_condition_of_kind_invariance(rt: HostRuntime) {
    assert!(rt; fail_so(rt.alloc(), SIGNS, OF_SIGNS));
}

#[test]
fn names_the_first_condition_of_kind_full(rt: HostRuntime) {
    assert!(rt; fail_so(rt.alloc(), TRANSLATIONS, OF_TRANSLATIONS));
}

// The failure of a text is the one expected.
fn fails_at(alloc: Global, text: &str, condition: u32, index: u32) -> bool {
    failure_in(alloc, text.as_bytes()) == (condition, index)
}

#[test]
fn accepts_kind_sound(rt: HostRuntime) {
    assert!(rt; fails_at(rt.alloc(), LAWFUL, 0, 0));
}

// The translations with all the pieces of the circle.
fn circle(alloc: Global) -> Result<String, AllocError> {
    let mut text = String::from_str(alloc, TRANSLATIONS)?;
    for (old, new) in CIRCLE {
        text = changed(alloc, text.as_str(), old, new)?;
    }
    Ok(text)
}

fn circle_fails(alloc: Global) -> bool {
    match circle(alloc) {
        Ok(text) => fails_at(alloc, text.as_str(), 5, 1),
        Err(_) => false,
    }
}

#[test]
fn refuses_entries_that_cite_each_other(rt: HostRuntime) {
    assert!(rt; circle_fails(rt.alloc()));
}

#[test]
fn refuses_too_high_a_degree_before_products(rt: HostRuntime) {
    assert!(rt; fails_at(rt.alloc(), TOO_HIGH, 8, 1));
}
