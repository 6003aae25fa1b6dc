//! Lists with commas.

ghost use Rattle.std.specs.Prelude.{◌≡◌, ◌<◌, ◌∷◌, [], length, map, MatchOption, IfSome, IfOk};
ghost use Rattle.rinv_system.specs.Entries.{entries_of};

use crate::lines::len_before;
use std::alloc::{AllocError as NoMemory, Global};

// What stands before the first comma, and what follows it, if there is one.
fn first_entry(list: &[u8]) -> (&[u8], Option<&[u8]>)
    ensures entries { MatchOption result.1 (entries_of list.now ≡ result.0.now ∷ []) (λ f. entries_of list.now ≡ result.0.now ∷ entries_of f.now) }
    ensures shorter { IfSome result.1 (λ f. length f.now < length list.now) }
{
    let (entry, behind) = list.split_at(len_before(list, b','));
    match behind.split_first() {
        Some((_, following)) => (entry, Some(following)),
        None => (entry, None),
    }
}

/// What stands between the commas.
pub(crate) fn entries(alloc: Global, list: &[u8]) -> Result<Vec<&[u8]>, NoMemory>
    ensures { IfOk result (λ v. map (λ e. e.now) v.items ≡ entries_of list.now) }
{
    let mut found = Vec::new(alloc);
    let mut rest = Some(list);
    'entries: while let Some(bytes) = rest {
        let (entry, following) = first_entry(bytes);
        found.push(entry)?;
        rest = following;
    }
    Ok(found)
}
