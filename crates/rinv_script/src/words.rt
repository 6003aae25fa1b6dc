//! The words of script lines.

ghost use Rattle.std.specs.Prelude.{◌≡◌, Some, None};
ghost use Rattle.std.specs.Option.{MatchOption};
ghost use Rattle.rinv_script.specs.Words.{script_word_of, allows, script_head};

use crate::form::Form;
use rinv_system::split_word;

/// What a script line tells.
#[derive(Clone, Copy, Debug, PartialEq, Eq)]
pub(crate) enum ScriptWord {
    /// An abbreviation.
    Def,
    /// The query for the laws.
    Laws,
    /// The query for the generators.
    Generators,
    /// The query whether a fraction is invariant.
    Invariant,
    /// The query for the expression of a fraction in the generators.
    Rewrite,
}

#[tactic(auto, unfolding(crate::specs::Words::script_word_of))]
fn script_word_of(word: &[u8]) -> Option<ScriptWord>
    ensures { result ≡ script_word_of word.now }
{
    if word == b"def".as_slice() {
        Some(ScriptWord::Def)
    } else if word == b"laws".as_slice() {
        Some(ScriptWord::Laws)
    } else if word == b"generators".as_slice() {
        Some(ScriptWord::Generators)
    } else if word == b"invariant".as_slice() {
        Some(ScriptWord::Invariant)
    } else if word == b"rewrite".as_slice() {
        Some(ScriptWord::Rewrite)
    } else {
        None
    }
}

// Whether the form allows the word.
fn allows(form: Form, word: ScriptWord) -> bool
    ensures { result ≡ allows form word }
{
    match form {
        Form::SystemOnly => false,
        Form::Rewrites => matches!(word, ScriptWord::Rewrite),
        Form::Whole => true,
    }
}

/// The script word of a line, where the form allows it, and what follows it.
#[tactic(auto, unfolding(crate::specs::Words::script_head))]
pub(crate) fn script_head(form: Form, line: &[u8]) -> Option<(ScriptWord, &[u8])>
    ensures { MatchOption result (script_head form line.now ≡ None) (λ r. script_head form line.now ≡ Some (r.0, r.1.now)) }
{
    let (word, rest) = split_word(line);
    let word = script_word_of(word)?;
    if allows(form, word) {
        Some((word, rest))
    } else {
        None
    }
}
