//! What is read of the worked certificate, and of its changed forms.

use crate::worked::{LAWFUL, SIGNS, TRANSLATIONS, changed};
use rinv_cert::{
    CertStop, Certificate, Items, Kind, Name, Part, Polynomial, System, Term, from_json,
};
use std::alloc::{AllocError, Global};

// Texts of the certificate that are read, each with the piece that is changed and the field that is denoted.
const DENOTED: &[(&str, &str, u32)] = &[
    ("7", "7", 7),
    ("\"version\":1}", "\"version\" : 1 }\n", 7),
    ("7", "4294967295", 4294967295),
    ("\"field\":7", "\"field\":5,\"field\":7", 7),
    ("\"field\":7", "\"field\":7,\"field\":5", 5),
];

// Whether these are the names.
fn are_names(names: &Items<Name>, words: &[&str]) -> bool {
    let names = names.as_slice();
    names.len() == words.len() && names.iter().zip(words).all(|(name, word)| name.is(word))
}

fn is_term(term: &Term, (c, exponents): &(u32, &[u32])) -> bool {
    term.coefficient == *c && term.exponents.as_slice() == *exponents
}

// Whether these are the terms, in this order.
fn is_polynomial(f: &Polynomial, terms: &[(u32, &[u32])]) -> bool {
    let read = f.as_slice();
    read.len() == terms.len() && read.iter().zip(terms).all(|(t, u)| is_term(t, u))
}

// Whether the list has one polynomial, of these terms.
fn is_alone(fs: &Items<Polynomial>, terms: &[(u32, &[u32])]) -> bool {
    match fs.as_slice() {
        [f] => is_polynomial(f, terms),
        _ => false,
    }
}

// Whether the system is signs on the line, over this field.
fn is_signs(system: &System<Polynomial>, field: u32) -> bool {
    system.field == field
        && are_names(&system.group, &["a"])
        && are_names(&system.space, &["x"])
        && system.unit.as_slice() == [1].as_slice()
        && is_alone(&system.ideal, &[(1, &[2]), (6, &[0])])
        && is_alone(&system.product, &[(1, &[1, 1])])
        && is_alone(&system.inverse, &[(1, &[1])])
        && is_alone(&system.action, &[(1, &[1, 1])])
}

// Whether the fraction is x^2, with the cofactor of its identity.
fn is_square(certificate: &Certificate) -> bool {
    match (
        certificate.fractions.as_slice(),
        certificate.invariance.as_slice(),
    ) {
        ([(numerator, denominator)], [cofactors]) => {
            is_polynomial(numerator, &[(1, &[2])])
                && is_polynomial(denominator, &[(1, &[0])])
                && is_alone(cofactors, &[(1, &[0, 2])])
        }
        _ => false,
    }
}

// Whether the bytes are read as the certificate, over this field.
fn reads(alloc: Global, bytes: &[u8], field: u32) -> bool {
    match from_json(alloc, bytes) {
        Ok(certificate) => is_signs(&certificate.system, field) && is_square(&certificate),
        Err(_) => false,
    }
}

// Whether the bytes are refused as no certificate.
fn refuses(alloc: Global, bytes: &[u8]) -> bool {
    match from_json(alloc, bytes) {
        Err(CertStop::Fault(fault)) => fault.part == Part::Json && fault.index == 0,
        _ => false,
    }
}

// Whether the changed certificate is read, with this field.
fn reads_changed(alloc: Global, old: &str, new: &str, field: u32) -> bool {
    match changed(alloc, SIGNS, old, new) {
        Ok(text) => reads(alloc, text.as_bytes(), field),
        Err(_) => false,
    }
}

// Whether each of them is.
fn reads_all(alloc: Global, table: &[(&str, &str, u32)]) -> bool {
    for (old, new, field) in table {
        if !reads_changed(alloc, old, new, *field) {
            return false;
        }
    }
    true
}

#[test]
fn reads_what_is_denoted(rt: HostRuntime) {
    assert!(rt; reads_all(rt.alloc(), DENOTED));
}

// The certificate in bytes, of which the name is no text.
fn no_text(alloc: Global) -> Result<Vec<u8>, AllocError> {
    let text = changed(alloc, SIGNS, "[\"x\"]", "[\"~\"]")?;
    let mut bytes = text.as_bytes().to_vec(alloc)?;
    for byte in bytes.iter_mut() {
        if *byte == b'~' {
            *byte = 0xff;
        }
    }
    Ok(bytes)
}

fn refuses_no_text_at_all(alloc: Global) -> bool {
    match no_text(alloc) {
        Ok(bytes) => refuses(alloc, &bytes),
        Err(_) => false,
    }
}

#[test]
fn refuses_no_text(rt: HostRuntime) {
    assert!(rt; refuses(rt.alloc(), b""), "at no bytes");
    assert!(rt; refuses_no_text_at_all(rt.alloc()), "at no text");
}

// Whether the translations are read as kind `full`, with so many entries under each key that this kind has.
fn is_full(alloc: Global) -> bool {
    match from_json(alloc, TRANSLATIONS.as_bytes()) {
        Ok(c) => {
            c.kind == Kind::Full
                && c.system.field == 101
                && c.laws.as_slice().len() == 6
                && c.basis.as_slice().len() == 2
                && c.inputs.as_slice().len() == 2
                && c.pairs.as_slice().len() == 1
                && c.relations.as_slice().len() == 1
        }
        Err(_) => false,
    }
}

// The same of kind `sound`.
fn is_sound(alloc: Global) -> bool {
    match from_json(alloc, LAWFUL.as_bytes()) {
        Ok(c) => {
            c.kind == Kind::Sound
                && c.laws.as_slice().len() == 6
                && c.basis.as_slice().is_empty()
                && c.relations.as_slice().is_empty()
        }
        Err(_) => false,
    }
}

#[test]
fn reads_each_kind(rt: HostRuntime) {
    assert!(rt; is_full(rt.alloc()), "at full");
    assert!(rt; is_sound(rt.alloc()), "at sound");
}

fn is_printed(alloc: Global, part: Part, word: &str) -> bool {
    match format!(in alloc; "{part}") {
        Ok(text) => text.as_str() == word,
        Err(_) => false,
    }
}

#[test]
fn a_part_is_printed_as_its_word(rt: HostRuntime) {
    assert!(rt; is_printed(rt.alloc(), Part::Json, "json"));
}
