//! What a script is.

use rinv_frac::Frac;
use rinv_text::System;
use std::marker::Model;

/// Which lines may follow those of a system.
#[derive(Clone, Copy, Debug, PartialEq, Eq)]
pub enum Form {
    /// None.
    SystemOnly,
    /// Those of `rewrite` alone.
    Rewrites,
    /// All script lines.
    Whole,
}

/// What is asked of a system.
#[derive(Drop)]
pub enum Query {
    /// Whether the laws hold.
    Laws,
    /// The generators.
    Generators,
    /// Whether a fraction is invariant.
    Invariant(Frac),
    /// The expression of a fraction in the generators.
    Rewrite(Frac),
}

/// A system, and what is asked of it, in its order.
#[derive(Drop)]
pub struct Script {
    pub system: System,
    pub queries: Vec<Query>,
}

impl Model for Script {
    ghost use Rattle.std.specs.Prelude.{map};
    ghost use Rattle.rinv_script.specs.Queries.{Script as Asked};
    ghost use Rattle.rinv_script.specs.Stored.{query_of};

    ghost Value = { Asked };

    ghost view = { λ s. record { told = s.system; queries = map query_of s.queries.items } };
}
