//! The laws by their names.

ghost use Rattle.std.specs.Prelude.{◌≡◌};
ghost use Rattle.rinv_defs.specs.Laws.{copies};
ghost use Rattle.rinv_parts.specs.LawNames.{law_of, is_of_action};

use std::fmt;

/// The laws of a group and of its action, in the order in which they are tested.
#[derive(Clone, Copy, Debug, PartialEq, Eq)]
pub enum LawName {
    /// The unit is a point of the group.
    L1,
    /// Products of points are points.
    L2,
    /// Inverses of points are points.
    L3,
    /// Products are associative.
    L4,
    /// The unit is neutral on both sides.
    L5,
    /// Inverses are inverse on both sides.
    L6,
    /// The unit moves nothing.
    A1,
    /// A product moves as its factors do, one after the other.
    A2,
}

impl LawName {
    /// Of how many points of the group the law speaks.
    pub fn copies(self) -> u32
        ensures { result ≡ copies (law_of self) }
    {
        match self {
            LawName::L1 | LawName::A1 => 0,
            LawName::L3 | LawName::L5 | LawName::L6 => 1,
            LawName::L2 | LawName::A2 => 2,
            LawName::L4 => 3,
        }
    }

    /// Whether the law speaks of a point of the space.
    pub fn is_of_action(self) -> bool
        ensures { result ≡ is_of_action (law_of self) }
    {
        matches!(self, LawName::A1 | LawName::A2)
    }
}

impl fmt::Display for LawName {
    ghost use Rattle.std.specs.Prelude.{Some};
    ghost use Rattle.rinv_parts.specs.LawNames.{law_of, law_word};

    ghost output = { λ law. Some (law_word (law_of law)) };

    fn fmt<W: fmt::Write>(&self, f: &mut fmt::Formatter<W>) -> fmt::Result {
        f.write_str(match self {
            LawName::L1 => "L1",
            LawName::L2 => "L2",
            LawName::L3 => "L3",
            LawName::L4 => "L4",
            LawName::L5 => "L5",
            LawName::L6 => "L6",
            LawName::A1 => "A1",
            LawName::A2 => "A2",
        })
    }
}
