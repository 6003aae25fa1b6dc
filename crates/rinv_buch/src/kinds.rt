//! What Buchberger's algorithm answers: a list with its journal, or where it halted and why.

use rinv_mono::Mono;
use rinv_pairs::Pair;
use rinv_poly::Poly;
use rinv_ring::{Field, NoMemory};
use std::alloc::AllocFailed;
use std::marker::Model;

/// What became of a pair.
#[derive(Clone, Copy, Debug, PartialEq, Eq)]
pub enum EntryKind {
    /// Its S-polynomial was divided by the list; a rest that is not zero was added at this place.
    Reduced { added: Option<u32> },
    /// The leading monomials have no common variable.
    Coprime,
    /// The leading monomial at this place divides the least common multiple, and its pairs with both were entered before.
    Chain { by: u32 },
}

/// An entry of the journal: the places of a pair, the first below the second, what became of it, and the number of cancelling steps, or
/// 2^64 - 1 where there were more.
#[derive(Clone, Copy, Debug, PartialEq, Eq)]
pub struct Entry {
    pub first: u32,
    pub second: u32,
    pub kind: EntryKind,
    pub steps: u64,
}

/// A Gröbner basis, and the journal that made it.
#[derive(Drop)]
pub struct Basis<F: Field> {
    pub polys: Vec<Poly<F>>,
    pub journal: Vec<Entry>,
}

impl<F: Field> Model for Basis<F> {
    ghost use Rattle.rinv_buch.specs.Kinds.{Found, journal_of};

    ghost Value = { Found F.Elem };

    ghost view = { λ b. record { polys = b.polys.items; journal = journal_of b.journal.items } };
}

/// Why the algorithm halted.
#[derive(Drop)]
pub enum Why {
    /// No pair is left in the budget, and this one was not taken.
    Pairs { first: u32, second: u32 },
    /// No step is left in the budget, though a pair was, and the polynomial at work has this monomial, which can be cancelled.
    Steps { reducible: Mono },
    /// Two monomials of these degrees have a product, or a least common multiple, over the limit.
    Degree { left: u32, right: u32 },
}

/// Where the algorithm halted: the list and its journal so far, what the steps so far leave of the S-polynomial at work, and the pair that it is of; none
/// where nothing is at work.
#[derive(Drop)]
pub struct Halt<F: Field> {
    pub polys: Vec<Poly<F>>,
    pub journal: Vec<Entry>,
    pub working: Poly<F>,
    pub origin: Option<Pair>,
    pub why: Why,
}

impl<F: Field> Model for Halt<F> {
    ghost use Rattle.rinv_buch.specs.Kinds.{Halted, journal_of, places_of};

    ghost Value = { Halted F.Elem };

    ghost view = { λ h. record { polys = h.polys.items; journal = journal_of h.journal.items; working = h.working; origin = places_of h.origin; why = h.why } };
}

/// Why there is no basis.
#[derive(Drop)]
pub enum Stop<F: Field> {
    Incomplete(Halt<F>),
    NoMemory,
}

impl<F: Field> From<NoMemory> for Stop<F> {
    ghost use Rattle.std.specs.Prelude.{◌≡◌};
    ghost use Rattle.rinv_buch.specs.declared.kinds.Stop.TheVariants.{NoMemory};

    ghost from_gives = { λ _ e. e ≡ NoMemory };

    fn from(_error: NoMemory) -> Stop<F> {
        Stop::NoMemory
    }
}

impl<F: Field, T: Drop> From<AllocFailed<T>> for Stop<F> {
    ghost use Rattle.std.specs.Prelude.{◌≡◌};
    ghost use Rattle.rinv_buch.specs.declared.kinds.Stop.TheVariants.{NoMemory};

    ghost from_gives = { λ _ e. e ≡ NoMemory };

    fn from(_error: AllocFailed<T>) -> Stop<F> {
        Stop::NoMemory
    }
}
