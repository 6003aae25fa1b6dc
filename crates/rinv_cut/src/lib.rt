//! The elements of a Gröbner basis without the first variables, by themselves: they are a Gröbner basis of their own ideal, and what is
//! reduced of them is a part of the reduced basis of the whole ideal. The functions do nothing: each contract is a law of the definitions,
//! over any field whose elements are of a type `E`, and in any order that eliminates the first k of v variables.
#![tactic(auto)]

ghost use Rattle.std.specs.Prelude.{◌≡◌, ℕ, List};
ghost use Rattle.std.specs.declared.cmp.Ordering.{Ordering};
ghost use Rattle.rinv_algebra.specs.Ring.{RingOps, RingLaws, FieldLaws};
ghost use Rattle.rinv_algebra.specs.Polynomial.{Polynomial};
ghost use Rattle.rinv_groebner.specs.Orders.{OrdersMonomials, AreInVariables};
ghost use Rattle.rinv_groebner.specs.Basis.{AreNonzero, IsGroebnerBasis};
ghost use Rattle.rinv_groebner.specs.Elimination.{Eliminates, free_part};
ghost use Rattle.rinv_groebner.specs.Reduced.{IsReducedGroebnerBasis, Ascend};

/// The elements whose leading monomials have none of the first k variables are a Gröbner basis of their own ideal, in all variables.
pub fn free_part_is_a_basis<E>()
    ensures { (o : RingOps E) (cmp : List ℕ → List ℕ → Ordering) (v k : ℕ) (fs hs : List (Polynomial E)) →
        RingLaws o → FieldLaws o → OrdersMonomials cmp v → Eliminates cmp k → AreInVariables v hs → AreNonzero o hs →
        IsGroebnerBasis o cmp v fs hs → IsGroebnerBasis o cmp v (free_part o cmp k hs) (free_part o cmp k hs) }
{}

/// The reduced basis of these elements, with ascending leading monomials, is the part without the first k variables of a reduced basis of
/// the whole ideal whose leading monomials ascend.
pub fn reduced_part_is_of_a_basis<E>()
    ensures { (o : RingOps E) (cmp : List ℕ → List ℕ → Ordering) (v k : ℕ) (fs hs gs : List (Polynomial E)) →
        RingLaws o → FieldLaws o → OrdersMonomials cmp v → Eliminates cmp k → AreInVariables v hs → AreNonzero o hs →
        IsGroebnerBasis o cmp v fs hs → AreInVariables v gs → IsReducedGroebnerBasis o cmp v (free_part o cmp k hs) gs → Ascend o cmp gs →
        (basis : List (Polynomial E)) × IsReducedGroebnerBasis o cmp v fs basis × AreInVariables v basis × Ascend o cmp basis
        × (gs ≡ free_part o cmp k basis) }
{}
