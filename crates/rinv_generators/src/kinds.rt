//! Generators with their proofs, and why there are none on a section.

use rinv_buch::Entry;
use rinv_buch::kinds::Basis;
use rinv_frac::Frac;
use rinv_gens::{GenStop, Relation};
use rinv_laws::{GroupBasis, LawProofs};
use rinv_poly::KPoly;
use rinv_ring::Gf;
use rinv_tails::Monic;
use rinv_text::System;
use std::marker::Model;

/// A system and the generators of its field of invariants. Each value of the type has what `generators` and `assemble` promise of it.
#[derive(Drop)]
pub struct Generators {
    pub system: System,
    pub group: GroupBasis,
    /// The cofactors of each law's parts over the copies of the group's ideal.
    pub laws: LawProofs,
    pub action: Basis<Gf>,
    /// The reduced basis of the extended ideal, in ascending order.
    pub monic: Monic,
    /// The same relations, with each coefficient tied to a number or to a generator.
    pub relations: Vec<Relation>,
    /// The generators.
    pub fractions: Vec<Frac>,
    /// For each generator the cofactors of its change over the group's ideal.
    pub proofs: Vec<Vec<KPoly>>,
    /// The journal of the run on the group's ideal, and then that of the run on the action's.
    pub journal: Vec<Entry>,
}

impl Model for Generators {
    ghost use Rattle.std.specs.Prelude.{map};
    ghost use Rattle.rinv_buch.specs.Kinds.{journal_of};
    ghost use Rattle.rinv_parts.specs.LawNames.{law_of};
    ghost use Rattle.rinv_generators.specs.Generated.{Generated, IsGenerators};

    ghost Value = { Generated };

    ghost view = { λ g. record {
      told = g.system;
      group = g.group.basis;
      reduced = g.group.reduced.items;
      laws = map (λ e. (law_of e.0, map (λ us. us.items) e.1.items)) g.laws.cofactors.items;
      action = g.action;
      monic = g.monic;
      relations = g.relations.items;
      fractions = g.fractions.items;
      proofs = map (λ us. us.items) g.proofs.items;
      journal = journal_of g.journal.items;
    } };

    ghost invariant = { λ g. IsGenerators (record {
      told = g.system;
      group = g.group.basis;
      reduced = g.group.reduced.items;
      laws = map (λ e. (law_of e.0, map (λ us. us.items) e.1.items)) g.laws.cofactors.items;
      action = g.action;
      monic = g.monic;
      relations = g.relations.items;
      fractions = g.fractions.items;
      proofs = map (λ us. us.items) g.proofs.items;
      journal = journal_of g.journal.items;
    }) };
}

/// Why there are no generators on a section.
#[derive(Drop)]
pub enum SectionStop {
    /// The section misses the orbits: a polynomial in the space's variables that is not zero lies in the action's ideal.
    Misses { element: KPoly },
    /// Anything else.
    Gen(GenStop),
}
