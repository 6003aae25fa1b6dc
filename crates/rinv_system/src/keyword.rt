//! The words that begin lines.

ghost use Rattle.std.specs.Prelude.{◌≡◌, Some, None};
ghost use Rattle.std.specs.Option.{MatchOption};
ghost use Rattle.rinv_system.specs.Words.{word_of, rest_of, keyword_of, budget_of, head_of};

use crate::lines::{from_word, word_len};

/// What a line of the text tells.
#[derive(Clone, Copy, Debug, PartialEq, Eq)]
pub enum Keyword {
    /// The prime.
    Field,
    /// The names of the group's variables.
    Group,
    /// The names of the space's variables.
    Space,
    /// The group's ideal.
    Ideal,
    /// The group's unit.
    Unit,
    /// The group's product.
    Product,
    /// The group's inverse.
    Inverse,
    /// The action.
    Action,
    /// The section.
    Section,
    /// The greatest number of pairs.
    Pairs,
    /// The greatest number of steps.
    Steps,
}

/// The first word of a line, and what follows it.
pub fn split_word(line: &[u8]) -> (&[u8], &[u8])
    ensures word { result.0.now ≡ word_of line.now }
    ensures rest { result.1.now ≡ rest_of line.now }
{
    let (word, rest) = line.split_at(word_len(line));
    (word, from_word(rest))
}

#[tactic(auto, unfolding(crate::specs::Words::keyword_of))]
fn keyword_of(word: &[u8]) -> Option<Keyword>
    ensures { result ≡ keyword_of word.now }
{
    if word == b"field".as_slice() {
        Some(Keyword::Field)
    } else if word == b"group".as_slice() {
        Some(Keyword::Group)
    } else if word == b"space".as_slice() {
        Some(Keyword::Space)
    } else if word == b"ideal".as_slice() {
        Some(Keyword::Ideal)
    } else if word == b"unit".as_slice() {
        Some(Keyword::Unit)
    } else if word == b"product".as_slice() {
        Some(Keyword::Product)
    } else if word == b"inverse".as_slice() {
        Some(Keyword::Inverse)
    } else if word == b"action".as_slice() {
        Some(Keyword::Action)
    } else if word == b"section".as_slice() {
        Some(Keyword::Section)
    } else {
        None
    }
}

#[tactic(auto, unfolding(crate::specs::Words::budget_of))]
fn budget_of(word: &[u8]) -> Option<Keyword>
    ensures { result ≡ budget_of word.now }
{
    if word == b"pairs".as_slice() {
        Some(Keyword::Pairs)
    } else if word == b"steps".as_slice() {
        Some(Keyword::Steps)
    } else {
        None
    }
}

/// What a line tells by its first word, or by its second after `budget`, and what follows.
#[tactic(auto, unfolding(crate::specs::Words::head_of))]
pub fn head(line: &[u8]) -> Option<(Keyword, &[u8])>
    ensures { MatchOption result (head_of line.now ≡ None) (λ r. head_of line.now ≡ Some (r.0, r.1.now)) }
{
    let (word, rest) = split_word(line);
    if word == b"budget".as_slice() {
        let (kind, rest) = split_word(rest);
        Some((budget_of(kind)?, rest))
    } else {
        Some((keyword_of(word)?, rest))
    }
}
