//! The pairs that are listed so far: a set, so that whether a pair is among them is told at once.

use indexmap::IndexSet;
use std::alloc::{AllocError as NoMemory, Global};
use std::marker::Model;

/// Pairs of places, the smaller first, in the order in which they were listed.
#[derive(Drop)]
pub(crate) struct ListedPairs {
    set: IndexSet<(u32, u32)>,
}

impl Model for ListedPairs {
    ghost use Rattle.std.specs.Prelude.{ℕ, List};

    ghost Value = { List (ℕ × ℕ) };

    ghost view = { λ s. s.set.keys };
}

impl ListedPairs {
    ghost use Rattle.std.specs.Prelude.{◌≡◌, [], ◌∷◌, ◌++◌, min, max, false, OnOk};
    ghost use Rattle.rinv_basis_check.specs.Listed.{is_listed};

    /// No pairs.
    pub(crate) fn empty(alloc: Global) -> ListedPairs
        ensures { result ≡ [] }
    {
        ListedPairs {
            set: IndexSet::new(alloc),
        }
    }

    /// Whether the pair of two places is listed.
    pub(crate) fn has(&self, i: u32, j: u32) -> bool
        ensures { result ≡ is_listed self.now i j }
    {
        let pair = (i.min(j), i.max(j));
        self.set.contains(&pair)
    }

    /// Lists a pair that was not listed before.
    pub(crate) fn add(&mut self, i: u32, j: u32) -> Result<(), NoMemory>
        requires { is_listed self.old i j ≡ false }
        ensures { OnOk result (self.new ≡ self.old ++ (min i j, max i j) ∷ []) }
    {
        let pair = (i.min(j), i.max(j));
        let Ok(_) = self.set.insert(pair) else {
            return Err(NoMemory);
        };
        Ok(())
    }
}

ghost use Rattle.std.specs.Prelude.{◌≡◌};
ghost use Rattle.std.specs.List.{list_all};
ghost use Rattle.rinv_defs.specs.PairConditions.{all_pairs};
ghost use Rattle.rinv_basis_check.specs.Listed.{is_listed};

/// Whether each pair of places from 1 to `count` is listed. It ends at the first that is not, so it takes as many steps as pairs are listed.
pub(crate) fn are_all_listed(listed: &ListedPairs, count: u32) -> bool
    ensures { result ≡ list_all (λ p. is_listed listed.now p.0 p.1) (all_pairs count) }
{
    'seconds: for j in 0..count {
        if !are_all_listed_with(listed, j + 1) {
            return false;
        }
    }
    true
}

ghost use Rattle.std.specs.Prelude.{◌≤◌, ◌-◌};
ghost use Rattle.std.specs.List.{range_with_len};

// Whether the pairs of this place with the smaller ones are listed.
fn are_all_listed_with(listed: &ListedPairs, j: u32) -> bool
    requires { 1 ≤ j }
    ensures { result ≡ list_all (λ i. is_listed listed.now i j) (range_with_len 1 (j - 1)) }
{
    'firsts: for i in 1..j {
        if !listed.has(i, j) {
            return false;
        }
    }
    true
}
