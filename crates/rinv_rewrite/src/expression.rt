//! A rational expression in the generators.

use rinv_poly::KPoly;
use std::marker::Model;

/// A numerator and a denominator in the symbols, of which each stands for a generator. Contracts see them as a pair.
#[derive(Drop)]
pub struct Expression {
    pub num: KPoly,
    pub den: KPoly,
}

impl Model for Expression {
    ghost use Rattle.rinv_defs.specs.Generators.{Expression as Pair};

    ghost Value = { Pair };

    ghost view = { λ e. (e.num, e.den) };
}
