//! Generators, with all that was found on the way to them, and why there are none.

use rinv_buch::kinds::Basis;
use rinv_buch::{Entry, Why};
use rinv_frac::Frac;
use rinv_laws::{GroupBasis, LawFault};
use rinv_mono::Mono;
use rinv_poly::KPoly;
use rinv_ring::{Gf, NoMemory};
use rinv_tails::Monic;
use std::alloc::AllocFailed;
use std::marker::Model;

/// What a coefficient of a relation is tied to.
#[derive(Clone, Copy, Debug, PartialEq, Eq)]
pub enum Symbol {
    /// A number of the field.
    Constant(u32),
    /// The generator with this number, counted from 1.
    Generator(usize),
}

/// A relation whose coefficients are tied.
#[derive(Drop)]
pub struct Relation {
    pub lead: Mono,
    pub tail: Vec<(Mono, Symbol)>,
}

impl Model for Relation {
    ghost use Rattle.std.specs.Prelude.{map};
    ghost use Rattle.rinv_coefficients.specs.Ties.{TiedRelation};
    ghost use Rattle.rinv_gens.specs.Symbols.{tied_of};

    ghost Value = { TiedRelation };

    ghost view = { λ r. record { lead = r.lead; tail = map (λ t. (t.0, tied_of t.1)) r.tail.items } };
}

/// The group's basis, the basis of the action's ideal, the reduced basis of the extended ideal, the same with its coefficients tied, and
/// the generators to which they are tied.
#[derive(Drop)]
pub struct Findings {
    pub group: GroupBasis,
    pub action: Basis<Gf>,
    pub monic: Monic,
    pub relations: Vec<Relation>,
    pub fractions: Vec<Frac>,
}

/// A part of the work.
#[derive(Clone, Copy, Debug, PartialEq, Eq)]
pub enum Phase {
    /// The run on the group's ideal, and its reduced basis.
    Group,
    /// The test of the laws.
    Laws,
    /// The run on the action's ideal, and the elimination.
    Action,
    /// The reduction of the relations, and the numbering of their coefficients.
    Tail,
}

/// Why there are no generators.
#[derive(Drop)]
pub enum GenStop {
    /// A part of a law is false.
    Law(LawFault),
    /// The section misses the orbits: a polynomial in the space's variables that is not zero lies in the action's ideal.
    Missed(KPoly),
    /// A phase was halted, with the entries of the journal so far, over both runs.
    Incomplete {
        phase: Phase,
        journal: Vec<Entry>,
        why: Why,
    },
    NoMemory,
}

impl From<NoMemory> for GenStop {
    ghost use Rattle.std.specs.Prelude.{◌≡◌};
    ghost use Rattle.rinv_gens.specs.declared.kinds.GenStop.TheVariants.{NoMemory};

    ghost from_gives = { λ _ e. e ≡ NoMemory };

    fn from(_error: NoMemory) -> GenStop {
        GenStop::NoMemory
    }
}

impl<T: Drop> From<AllocFailed<T>> for GenStop {
    ghost use Rattle.std.specs.Prelude.{◌≡◌};
    ghost use Rattle.rinv_gens.specs.declared.kinds.GenStop.TheVariants.{NoMemory};

    ghost from_gives = { λ _ e. e ≡ NoMemory };

    fn from(_error: AllocFailed<T>) -> GenStop {
        GenStop::NoMemory
    }
}
