//! Relations over fractions.

use rinv_frac::Frac;
use rinv_mono::Mono;
use std::marker::Model;

/// Terms in Z, from the greatest monomial down.
pub type Tail = Vec<(Mono, Frac)>;

/// A relation: a monomial in Z is the sum of the terms of the tail.
#[derive(Drop)]
pub struct FracRelation {
    pub lead: Mono,
    pub tail: Tail,
}

impl Model for FracRelation {
    ghost use Rattle.rinv_defs.specs.Extended.{Relation};

    ghost Value = { Relation };

    ghost view = { λ r. record { lead = r.lead; tail = r.tail.items } };
}

/// Relations with ascending leads.
#[derive(Drop)]
pub struct Monic {
    pub relations: Vec<FracRelation>,
}

impl Model for Monic {
    ghost use Rattle.std.specs.Prelude.{List};
    ghost use Rattle.rinv_defs.specs.Extended.{Relation};

    ghost Value = { List Relation };

    ghost view = { λ m. m.relations.items };
}
