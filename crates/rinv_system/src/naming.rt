//! Lists of names.

ghost use Rattle.std.specs.Prelude.{◌≡◌, ◌++◌, ◌∷◌, [], ℕ, List, map, bytes_eq, true, false, IsTrue, IfOk, IfErr, OnOk};
ghost use Rattle.std.specs.List.{list_all, list_any};
ghost use Rattle.rinv_text.specs.Tokens.{is_name_byte};
ghost use Rattle.rinv_text.specs.Names.{is_new_name};
ghost use Rattle.rinv_system.specs.Lines.{from_word, to_last_word};
ghost use Rattle.rinv_system.specs.Entries.{is_name_word, words_of};
ghost use Rattle.rinv_system.specs.Forms.{AreNewNames, HasOldName, TellsNames, IsRestRefused, IsRestTaken, with_names};
ghost use Rattle.rinv_system.specs.Stops.{OnCode};

use crate::draft::Draft;
use crate::entries::entries;
use crate::keyword::Keyword;
use crate::lines::{from_word, to_last_word};
use crate::refused::{Code, LineStop};
use rinv_text::{Names, TextCode, is_digit, is_letter};
use std::alloc::{AllocError as NoMemory, Global};

fn trimmed(entry: &[u8]) -> &[u8]
    ensures { result.now ≡ to_last_word (from_word entry.now) }
{
    to_last_word(from_word(entry))
}

// What stands between the commas, without blanks at both ends.
fn words(alloc: Global, list: &[u8]) -> Result<Vec<&[u8]>, NoMemory>
    ensures { IfOk result (λ v. map (λ w. w.now) v.items ≡ words_of list.now) }
{
    let entries = entries(alloc, list)?;
    let mut words = Vec::new(alloc);
    'entries: for entry in &entries {
        words.push(trimmed(entry))?;
    }
    Ok(words)
}

fn go_on_a_name(bytes: &[u8]) -> bool
    ensures { result ≡ list_all is_name_byte bytes.now }
{
    bytes
        .iter()
        .all(|b| is_letter(*b) || is_digit(*b) || *b == b'_')
}

/// A letter, and then letters, digits and underscores, however many.
pub fn is_name_word(word: &[u8]) -> bool
    ensures { result ≡ is_name_word word.now }
{
    let Some((first, rest)) = word.split_first() else {
        return false;
    };
    is_letter(*first) && go_on_a_name(rest)
}

fn are_name_words(words: &[&[u8]]) -> bool
    ensures { result ≡ list_all (λ w. is_name_word w.now) words.now }
{
    'words: for word in words {
        if !is_name_word(word) {
            return false;
        }
    }
    true
}

// The bytes of a name as text.
fn as_text(word: &[u8]) -> &str
    requires { IsTrue (is_name_word word.now) }
    ensures { result.now ≡ word.now }
{
    match str::from_utf8(word) {
        Ok(text) => text,
        Err(_) => unreachable!(),
    }
}

// Whether the word may be a name behind the earlier ones and these.
fn is_new(earlier: &Names, names: &Names, word: &str) -> bool
    ensures { result ≡ is_new_name (earlier.now ++ names.now) word.now }
{
    names.may_add(word) && earlier.may_add(word)
}

// Puts a name behind the others, none of which it is.
fn push_name(alloc: Global, names: &mut Names, word: &str) -> Result<(), NoMemory>
    requires { list_any (bytes_eq word.now) names.now ≡ false }
    ensures { OnOk result (names.new ≡ names.old ++ word.now ∷ []) }
{
    let name = String::from_str(alloc, word)?;
    names.push(name)?;
    Ok(())
}

// The words as names, behind the earlier ones.
fn new_names(alloc: Global, earlier: &Names, words: &[&[u8]]) -> Result<Names, LineStop>
    requires { list_all is_name_word (map (λ w. w.now) words.now) ≡ true }
    ensures names { IfOk result (λ n. n ≡ map (λ w. w.now) words.now) }
    ensures new { IfOk result (AreNewNames earlier.now) }
    ensures fault { IfErr result (OnCode (λ code. (code ≡ Code.Text TextCode.Name) × HasOldName earlier.now (map (λ w. w.now) words.now))) }
{
    let mut names = Names::empty(alloc);
    'words: for word in words {
        let text = as_text(word);
        if !is_new(earlier, &names, text) {
            return Err(LineStop::Fault(Code::Text(TextCode::Name)));
        }
        push_name(alloc, &mut names, text)?;
    }
    Ok(names)
}

// The words of the line of a keyword as names, behind the earlier ones.
fn named(
    alloc: Global,
    draft: &Draft,
    keyword: Keyword,
    earlier: &Names,
    words: &[&[u8]],
) -> Result<Names, LineStop>
    requires { TellsNames draft.now keyword earlier.now }
    ensures ok { IfOk result (λ names. (rest : List ℕ) → map (λ w. w.now) words.now ≡ words_of rest → IsRestTaken draft.now rest keyword (with_names draft.now keyword names)) }
    ensures fault { IfErr result (OnCode (λ code. (rest : List ℕ) → map (λ w. w.now) words.now ≡ words_of rest → IsRestRefused draft.now rest keyword code)) }
{
    if !are_name_words(words) {
        return Err(LineStop::Fault(Code::Text(TextCode::Expression)));
    }
    if let Some(code) = draft.length_fault(keyword, words.len()) {
        return Err(LineStop::Fault(code));
    }
    let names = new_names(alloc, earlier, words)?;
    Ok(names)
}

/// The names that the rest of the line of a keyword gives, behind the earlier ones.
pub(crate) fn read(
    alloc: Global,
    draft: &Draft,
    keyword: Keyword,
    earlier: &Names,
    rest: &[u8],
) -> Result<Names, LineStop>
    requires { TellsNames draft.now keyword earlier.now }
    ensures ok { IfOk result (λ names. IsRestTaken draft.now rest.now keyword (with_names draft.now keyword names)) }
    ensures fault { IfErr result (OnCode (IsRestRefused draft.now rest.now keyword)) }
{
    let words = words(alloc, rest)?;
    let names = named(alloc, draft, keyword, earlier, &words)?;
    Ok(names)
}
