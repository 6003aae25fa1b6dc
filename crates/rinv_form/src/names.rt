//! Which names the variables of a system may have, and lists of such names.

ghost use Rattle.std.specs.Prelude.{◌≡◌, ◌<◌, ◌^◌, ◌++◌, [], length, true, bytes_eq, IfOk};
ghost use Rattle.std.specs.List.{list_any};
ghost use Rattle.rinv_defs.specs.Names.{are_names};
ghost use Rattle.rinv_text.specs.Names.{is_new_name};

use rinv_cert::Name;
use rinv_ring::NoMemory;
use rinv_text::{Names, TextStop, has_name_form};
use std::alloc::Global;

fn stands_in(name: &Name, names: &[Name]) -> bool
    ensures { result ≡ list_any (bytes_eq name.now) names.now }
{
    names.iter().any(|other| name.is(other.as_str()))
}

// Whether a name may stand behind the earlier ones and those before it.
fn is_new_name(earlier: &[Name], before: &[Name], name: &Name) -> bool
    ensures { result ≡ is_new_name (before.now ++ earlier.now) name.now }
{
    has_name_form(name.as_str().as_bytes()) && !stands_in(name, before) && !stands_in(name, earlier)
}

/// Whether each name is plain, is no symbol, and stands neither earlier nor twice.
pub fn are_names(earlier: &[Name], names: &[Name]) -> bool
    ensures { result ≡ are_names earlier.now names.now }
{
    for (place, name) in names.iter().enumerate() {
        let (before, _) = names.split_at(place);
        if !is_new_name(earlier, before, name) {
            return false;
        }
    }
    true
}

/// The names once more, as a list of names.
pub fn names_of(alloc: Global, names: &[Name]) -> Result<Names, NoMemory>
    requires form { are_names [] names.now ≡ true }
    requires few { length names.now < 2 ^ 32 }
    ensures { IfOk result (λ n. n ≡ names.now) }
{
    let mut words = Vec::new(alloc);
    for name in names {
        let word = String::from_str(alloc, name.as_str())?;
        words.push(word)?;
    }
    match Names::from_words(alloc, &words) {
        Ok(names) => Ok(names),
        Err(TextStop::NoMemory) => Err(NoMemory),
        Err(TextStop::Fault(_)) => unreachable!(),
    }
}
