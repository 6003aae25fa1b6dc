//! The reduced Gröbner basis of the extended ideal: its coefficients are invariant, it is unique, and it depends on the ideals alone.
//! The functions do nothing: each contract is a theorem over the definitions.
#![tactic(auto)]

ghost use Rattle.std.specs.Prelude.{◌↔◌, ◌+◌, ◌*◌, ℕ, List, All, Contains, IsTrue};
ghost use Rattle.std.specs.List.{AllZip, list_any};
ghost use Rattle.rinv_algebra.specs.Ring.{IsSame};
ghost use Rattle.rinv_algebra.specs.Residue.{residue_ops};
ghost use Rattle.rinv_algebra.specs.Polynomial.{coefficient};
ghost use Rattle.rinv_defs.specs.System.{System, Poly, group_count, space_count};
ghost use Rattle.rinv_defs.specs.SystemForm.{IsSystem};
ghost use Rattle.rinv_defs.specs.Laws.{AllLawsHold};
ghost use Rattle.rinv_defs.specs.Invariant.{Fraction, IsFraction, IsInvariant};
ghost use Rattle.rinv_defs.specs.Generators.{rational_ops};
ghost use Rattle.rinv_defs.specs.Extended.{FractionPoly, Relation, InExtendedIdeal, IsReducedBasis, Misses, action_ideal};
ghost use Rattle.rinv_defs.specs.PairConditions.{action_order};
ghost use Rattle.rinv_groebner.specs.Basis.{IsGroebnerBasis};
ghost use Rattle.rinv_groebner.specs.Orders.{AreInVariables};
ghost use Rattle.rinv_invariance.specs.Twins.{AreAscending, IsTwin};
ghost use Rattle.rinv_invariance.specs.InSpace.{leads_in_space};
ghost use Rattle.rinv_invariance.specs.Replaced.{with_ideal, GenerateSame};

/// The coefficients of the reduced basis are invariant, where the laws hold: each fraction that has the value of one is.
pub fn reduced_coefficients_are_invariant()
    ensures { (s : System) (rs : List Relation) → IsSystem s → AllLawsHold s → IsReducedBasis s rs →
        All (λ r. (m : List ℕ) (f : Fraction) → IsFraction s f → IsSame (rational_ops s.p) f (coefficient (rational_ops s.p) r.tail m) → IsInvariant s f) rs }
{}

/// Two reduced bases of one extended ideal are the same: each relation of the one is in the other, its coefficients up to their
/// values, and where the leads of both ascend, it is at the same place.
pub fn reduced_basis_is_unique()
    ensures up_to_order { (s : System) (rs qs : List Relation) → IsReducedBasis s rs → IsReducedBasis s qs →
        All (λ r. (q : Relation) × Contains qs q × IsTwin s r q) rs }
    ensures in_order { (s : System) (rs qs : List Relation) → IsReducedBasis s rs → IsReducedBasis s qs → AreAscending rs → AreAscending qs →
        AllZip (IsTwin s) rs qs }
{}

/// The extended ideal depends on the ideals that the group's polynomials and the section's generate, and so do its reduced bases.
pub fn extended_ideal_by_ideal()
    ensures members { (s : System) (ideal section : List Poly) → GenerateSame s s.ideal ideal → GenerateSame s s.section section →
        (f : FractionPoly) → InExtendedIdeal s f ↔ InExtendedIdeal (with_ideal s ideal section) f }
    ensures bases { (s : System) (ideal section : List Poly) → GenerateSame s s.ideal ideal → GenerateSame s s.section section →
        (rs : List Relation) → IsReducedBasis s rs ↔ IsReducedBasis (with_ideal s ideal section) rs }
{}

/// The section misses the orbits exactly where an element of a Gröbner basis of the action's ideal lies in the space's variables alone.
pub fn misses_by_lead()
    ensures { (s : System) (hs : List Poly) →
        let v = group_count s + 2 * space_count s in
        IsGroebnerBasis (residue_ops s.p) (action_order s) v (action_ideal s) hs → AreInVariables v hs →
        Misses s ↔ IsTrue (list_any (leads_in_space s) hs) }
{}
