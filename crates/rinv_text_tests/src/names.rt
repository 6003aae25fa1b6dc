//! Which words are taken as names, and the lists that are made of names.

ghost use Rattle.std.specs.Prelude.{◌≡◌, [], ◌∷◌, IfOk};

use rinv_text::{Names, TextCode, TextFault, TextStop};
use std::alloc::{AllocError, Global};

// Words, and how many names they are, or the place of the first that is refused.
const LISTS: &[(&[&str], Result<u32, u32>)] = &[
    (&[], Ok(0)),
    (&["a", "b_2", "y", "y1z"], Ok(4)),
    (&["a", "y1", "a"], Err(1)),
    (&["x", "Y1", "x"], Err(2)),
    (&["a'"], Err(0)),
    (&["a", "_b"], Err(1)),
    (&["a", ""], Err(1)),
    (&["sixteen_bytes_ok", "seventeen_bytes_no"], Err(1)),
];

const SYMBOLS: &[&str] = &[
    "y1", "y2", "y3", "y4", "y5", "y6", "y7", "y8", "y9", "y10", "y11",
];

const PRIMED: &[&str] = &["a", "a'", "a''", "x"];

// The words, each owned.
fn owned(alloc: Global, list: &[&str]) -> Result<Vec<String>, AllocError> {
    let mut words = Vec::new(alloc);
    for word in list {
        let word = String::from_str(alloc, *word)?;
        words.push(word)?;
    }
    Ok(words)
}

// How many names the words are, or the place of the first that is refused; 99 for another refusal.
fn counted(alloc: Global, list: &[&str]) -> Result<u32, u32> {
    let Ok(words) = owned(alloc, list) else {
        return Err(99);
    };
    if words.len() > 100 {
        return Err(99);
    }
    match Names::from_words(alloc, &words) {
        Ok(names) => Ok(names.len()),
        Err(
            TextStop::Fault(
                TextFault {
                    place,
                    code: TextCode::Name,
                },
            ),
        ) => Err(place),
        Err(_) => Err(99),
    }
}

#[test]
fn takes_words_up_to_the_first_bad_one(rt: HostRuntime) {
    for (list, outcome) in LISTS {
        assert!(rt; counted(rt.alloc(), list) == *outcome, "at {list:?}");
    }
}

// One name.
fn one(alloc: Global, name: &str) -> Result<Names, TextStop>
    ensures { IfOk result (λ n. n ≡ name.now ∷ []) }
{
    let words = [String::from_str(alloc, name)?];
    let names = Names::from_words(alloc, &words)?;
    Ok(names)
}

// The names a, a' and a'', and then x.
fn primed_and_x(alloc: Global) -> Result<Names, TextStop> {
    let a = one(alloc, "a")?;
    let x = one(alloc, "x")?;
    let copies = a.copies(alloc, 3)?;
    let all = copies.joined(alloc, &x)?;
    Ok(all)
}

// Whether these are the names, each at its place.
fn are_names(names: &Names, words: &[&str]) -> bool {
    if names.len() as usize != words.len() {
        return false;
    }
    for k in 0..names.len() {
        let word = words[k as usize];
        if names.name(k) != word || names.place(word) != Some(k) {
            return false;
        }
    }
    true
}

// Whether the first eleven symbols are these.
fn are_symbols(alloc: Global, words: &[&str]) -> bool {
    match Names::symbols(alloc, 11) {
        Ok(names) => are_names(&names, words),
        Err(_) => false,
    }
}

// Whether a, a' and a'', and then x, are these names.
fn are_primed(alloc: Global, words: &[&str]) -> bool {
    match primed_and_x(alloc) {
        Ok(names) => are_names(&names, words) && names.place("b").is_none(),
        Err(_) => false,
    }
}

#[test]
fn makes_lists_of_names(rt: HostRuntime) {
    assert!(rt; are_symbols(rt.alloc(), SYMBOLS));
    assert!(rt; are_primed(rt.alloc(), PRIMED));
}
