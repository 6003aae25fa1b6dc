//! Which names, and which parts of the worked certificates in their changed forms, are refused.

use crate::worked::{LAWFUL, SIGNS, TRANSLATIONS, changed};
use rinv_cert::{CertificateOf, Name, from_json};
use rinv_form::{FormatStop, are_names, names_of, stored};
use rinv_poly::KPoly;
use std::alloc::{AllocError, Global};

// The values of keys that the changed forms replace.
const IDEAL: &str = "[[[1,[2]],[6,[0]]]]";

const FRACTIONS: &str = "[[[[1,[2]]],[[1,[0]]]]]";

const COFACTORS: &str = "[[[[1,[0,2]]]]]";

const PAIR: &str = "[[[1,[1,1]]]]";

const ONE: &str = "[[[1,[1]]]]";

// Keys, their values, other values, and the number of the part that is refused; 0 where all are stored.
const FORMS: &[(&str, &str, &str, u32)] = &[
    ("field", "7", "7", 0),
    ("field", "7", "8", 3),
    ("field", "7", "1", 3),
    ("group", "[\"a\"]", "[]", 4),
    ("group", "[\"a\"]", "[\"y1\"]", 4),
    ("space", "[\"x\"]", "[\"a\"]", 5),
    ("ideal", IDEAL, "[[[6,[0]],[1,[2]]]]", 6),
    ("ideal", IDEAL, "[[[1,[2]],[7,[0]]]]", 6),
    ("ideal", IDEAL, "[[[1,[2]],[0,[0]]]]", 6),
    ("ideal", IDEAL, "[[[1,[10001]],[6,[0]]]]", 6),
    ("ideal", IDEAL, "[[[1,[2]],[1,[2]]]]", 6),
    ("unit", "[1]", "[7]", 7),
    ("unit", "[1]", "[1,1]", 7),
    ("product", PAIR, ONE, 8),
    ("inverse", ONE, "[]", 9),
    ("action", PAIR, ONE, 10),
    ("fractions", FRACTIONS, "[[[[1,[2]]],[]]]", 11),
    ("fractions", FRACTIONS, "[[[],[[1,[0]]]]]", 0),
    ("fractions", FRACTIONS, "[]", 12),
    ("invariance", COFACTORS, "[[[[1,[2]]]]]", 12),
    ("invariance", COFACTORS, "[[[]]]", 0),
    ("invariance", COFACTORS, "[[]]", 12),
];

// Words, and whether each is a name.
const WORDS: &[(&str, bool)] = &[
    ("a", true),
    ("Z_9", true),
    ("y", true),
    ("y1x", true),
    ("abcdefghijklmnop", true),
    ("", false),
    ("1a", false),
    ("_a", false),
    ("a'", false),
    ("y1", false),
    ("y007", false),
    ("abcdefghijklmnopq", false),
];

// The number of the part that is refused, and 0 where all are stored.
fn refused(read: &Result<CertificateOf<KPoly>, FormatStop>) -> u32 {
    match read {
        Ok(_) => 0,
        Err(FormatStop::Part(k)) => *k,
        Err(FormatStop::NoMemory) => 98,
    }
}

// The number of the part that is refused of a certificate in bytes; 97 where it is not read.
fn part_of(alloc: Global, bytes: &[u8]) -> u32 {
    match from_json(alloc, bytes) {
        Ok(certificate) => refused(&stored(alloc, &certificate)),
        Err(_) => 97,
    }
}

// The same, of a certificate with a piece of its text changed; 96 where memory is short.
fn part(alloc: Global, text: &str, old: &str, new: &str) -> u32 {
    match changed(alloc, text, old, new) {
        Ok(other) => part_of(alloc, other.as_bytes()),
        Err(_) => 96,
    }
}

// The signs with another value of one key.
fn with_value(alloc: Global, key: &str, old: &str, new: &str) -> Result<String, AllocError> {
    let entry = format!(in alloc; "\"{key}\":{old}")?;
    let other = format!(in alloc; "\"{key}\":{new}")?;
    changed(alloc, SIGNS, entry.as_str(), other.as_str())
}

// The number of their part that is refused.
fn key_part(alloc: Global, key: &str, old: &str, new: &str) -> u32 {
    match with_value(alloc, key, old, new) {
        Ok(text) => part_of(alloc, text.as_bytes()),
        Err(_) => 96,
    }
}

// Whether each key refuses its part.
fn refuses_keys(alloc: Global, table: &[(&str, &str, &str, u32)]) -> bool {
    for (key, old, new, number) in table {
        if key_part(alloc, key, old, new) != *number {
            return false;
        }
    }
    true
}

// Whether each change of the text refuses its part.
fn refuses_changes(alloc: Global, text: &str, table: &[(&str, &str, u32)]) -> bool {
    for (old, new, number) in table {
        if part(alloc, text, old, new) != *number {
            return false;
        }
    }
    true
}

#[test]
fn refuses_the_first_part_of_the_wrong_form(rt: HostRuntime) {
    assert!(rt; refuses_keys(rt.alloc(), FORMS));
}

// Pieces of the certificate of kind `full`, what stands for each, and the number of the part that is refused; 0 where all are stored.
const FULL: &[(&str, &str, u32)] = &[
    ("\"kind\"", "\"kind\"", 0),
    ("\"L2\":[]", "\"L2\":[[]]", 13),
    ("\"L4\":[[]]", "\"L4\":[[[]]]", 13),
    ("\"L5\":[[],[]]", "\"L5\":[[]]", 13),
    ("\"A2\":[[],[]]", "\"A2\":[[]]", 13),
    ("[[[1,[0,0,1,0,0]],[100,[0,0,0,0,1]]],[]]", "[[],[]]", 14),
    (
        "[[[1,[0,0,1,0,0]],[100,[0,0,0,0,1]]],[]]",
        "[[[1,[0,0,1,0,0]]],[[]]]",
        14,
    ),
    ("[[],[[1,[0,0,0,0,0]]]]]", "[[],[]]]", 0),
    ("[[],[[1,[0,0,0,0,0]]]]]", "[[[1,[0,0,0,0,0]]]]]", 15),
    ("\"coprime\",1,2", "\"coprime\",2,1", 16),
    ("\"coprime\",1,2", "\"coprime\",1,1", 16),
    ("\"coprime\",1,2", "\"coprime\",0,2", 16),
    ("\"coprime\",1,2", "\"coprime\",1,3", 16),
    ("\"coprime\",1,2", "\"chain\",1,2,2", 16),
    ("\"coprime\",1,2", "\"chain\",1,2,3", 16),
    ("\"coprime\",1,2", "\"quotients\",1,2,[[]]", 16),
    ("\"coprime\",1,2", "\"quotients\",1,2,[[],[]]", 0),
    ("[[0,1],[[1,[0,0]]]", "[[0],[[1,[0,0]]]", 17),
    ("[[0,1],[[1,[0,0]]]", "[[0,10001],[[1,[0,0]]]", 17),
    ("[[0,1],[[1,[0,0]]]", "[[0,1],[]", 17),
    ("[\"generator\",1]", "[\"generator\",0]", 17),
    ("[\"generator\",1]", "[\"generator\",2]", 17),
    ("[\"generator\",1]", "[\"constant\",101]", 17),
    ("[\"generator\",1]", "[\"constant\",100]", 0),
    (
        "[\"generator\",1]]",
        "[\"generator\",1]],[[1,0],[],[\"constant\",0]]",
        0,
    ),
    (
        "[\"generator\",1]]",
        "[\"generator\",1]],[[0,0],[],[\"constant\",0]]",
        17,
    ),
];

// The same of kind `sound`.
const SOUND: &[(&str, &str, u32)] = &[
    ("\"A2\":[[],[]]", "\"A2\":[]", 13),
    ("\"kind\"", "\"kind\"", 0),
];

#[test]
fn refuses_parts_of_the_other_kinds(rt: HostRuntime) {
    assert!(rt; refuses_changes(rt.alloc(), TRANSLATIONS, FULL), "at full");
    assert!(rt; refuses_changes(rt.alloc(), LAWFUL, SOUND), "at sound");
}

// The word, as a list of one name.
fn alone(alloc: Global, word: &str) -> Result<Vec<Name>, AllocError> {
    let mut names = Vec::new(alloc);
    names.push(Name::new(String::from_str(alloc, word)?))?;
    Ok(names)
}

// Whether the word is taken as a name so, and never twice.
fn is_taken(alloc: Global, word: &str, is_name: bool) -> bool {
    match alone(alloc, word) {
        Ok(names) => are_names(&[], &names) == is_name && !are_names(&names, &names),
        Err(_) => false,
    }
}

// Whether each word is.
fn are_taken(alloc: Global, table: &[(&str, bool)]) -> bool {
    for (word, is_name) in table {
        if !is_taken(alloc, word, *is_name) {
            return false;
        }
    }
    true
}

#[test]
fn tells_names(rt: HostRuntime) {
    assert!(rt; are_taken(rt.alloc(), WORDS));
}

// Whether the word is the first of the names that are made of it.
fn is_made(alloc: Global, word: &str) -> bool {
    match alone(alloc, word) {
        Ok(names) => first_is(alloc, &names, word),
        Err(_) => false,
    }
}

fn first_is(alloc: Global, names: &[Name], word: &str) -> bool {
    if names.len() > 1 {
        return false;
    }
    if !are_names(&[], names) {
        return false;
    }
    match names_of(alloc, names) {
        Ok(made) => made.place(word) == Some(0),
        Err(_) => false,
    }
}

#[test]
fn makes_names(rt: HostRuntime) {
    assert!(rt; is_made(rt.alloc(), "Z_9"));
}
