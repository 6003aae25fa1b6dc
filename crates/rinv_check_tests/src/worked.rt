//! The worked certificates, and their changed forms.

use std::alloc::{AllocError, Global};

// Signs on the line, the fraction x^2 and a cofactor of its identity.
pub(crate) const SIGNS: &str =
    r#"{"action":[[[1,[1,1]]]],"field":7,"fractions":[[[[1,[2]]],[[1,[0]]]]],"group":["a"],"ideal":[[[1,[2]],[6,[0]]]],"invariance":[[[[1,[0,2]]]]],"inverse":[[[1,[1]]]],"kind":"invariance","product":[[[1,[1,1]]]],"space":["x"],"unit":[1],"version":1}"#;

// Translations along a line of the plane: the basis a - Z1 + x, Z2 - y, and the relation Z2 = y1.
pub(crate) const TRANSLATIONS: &str =
    r#"{"action":[[[1,[1,0,0]],[1,[0,1,0]]],[[1,[0,0,1]]]],"basis":[[[[1,[1,0,0,0,0]],[100,[0,1,0,0,0]],[1,[0,0,0,1,0]]],[]],[[[1,[0,0,1,0,0]],[100,[0,0,0,0,1]]],[]]],"field":101,"fractions":[[[[1,[0,1]]],[[1,[0,0]]]]],"group":["a"],"ideal":[],"inputs":[[[[100,[0,0,0,0,0]]],[]],[[],[[1,[0,0,0,0,0]]]]],"invariance":[[]],"inverse":[[[100,[1]]]],"kind":"full","laws":{"A2":[[],[]],"L2":[],"L3":[],"L4":[[]],"L5":[[],[]],"L6":[[],[]]},"pairs":[["coprime",1,2]],"product":[[[1,[1,0]],[1,[0,1]]]],"relations":[[[0,1],[[1,[0,0]]],[[[0,0],[[1,[0,1]]],["generator",1]]],[]]],"space":["x","y"],"unit":[0],"version":1}"#;

// The same of kind `sound`.
pub(crate) const LAWFUL: &str =
    r#"{"action":[[[1,[1,0,0]],[1,[0,1,0]]],[[1,[0,0,1]]]],"field":101,"fractions":[[[[1,[0,1]]],[[1,[0,0]]]]],"group":["a"],"ideal":[],"invariance":[[]],"inverse":[[[100,[1]]]],"kind":"sound","laws":{"A2":[[],[]],"L2":[],"L3":[],"L4":[[]],"L5":[[],[]],"L6":[[],[]]},"product":[[[1,[1,0]],[1,[0,1]]]],"space":["x","y"],"unit":[0],"version":1}"#;

// The text, with one piece of it changed.
pub(crate) fn changed(
    alloc: Global,
    text: &str,
    old: &str,
    new: &str,
) -> Result<String, AllocError> {
    match text.split_once(old) {
        Some((before, after)) => format!(in alloc; "{before}{new}{after}"),
        None => format!(in alloc; "no {old}"),
    }
}
