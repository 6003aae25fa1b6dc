//! Laws of a Gröbner basis in grevlex in more variables than its own. The functions do nothing: each contract is a law of the
//! definitions, over any field whose elements are of a type `E`.

ghost use Rattle.std.specs.Prelude.{ℕ, ◌+◌, ◌*◌, List, IsTrue, IsFalse};
ghost use Rattle.rinv_algebra.specs.Ring.{RingOps, RingLaws, FieldLaws};
ghost use Rattle.rinv_algebra.specs.Monomial.{divides};
ghost use Rattle.rinv_algebra.specs.Order.{grevlex};
ghost use Rattle.rinv_algebra.specs.Polynomial.{Polynomial, has_monomial, difference};
ghost use Rattle.rinv_algebra.specs.Ideal.{IsMember};
ghost use Rattle.rinv_algebra.specs.Leading.{IsLeadingMonomial};
ghost use Rattle.rinv_groebner.specs.Orders.{AreInVariables};
ghost use Rattle.rinv_groebner.specs.Division.{Step, IsDivision};
ghost use Rattle.rinv_groebner.specs.Basis.{AreNonzero, IsGroebnerBasis};
ghost use Rattle.rinv_groebner.specs.Copies.{copies};

/// Copies of a Gröbner basis in disjoint sets of variables are together a Gröbner basis of the copies of the ideal, in these variables and
/// any number of further ones. They have no zero where the basis has none.
pub fn copies_are_a_basis<E>()
    ensures basis { (o : RingOps E) (c v n : ℕ) (fs hs : List (Polynomial E)) →
        RingLaws o → FieldLaws o → AreInVariables v hs → IsGroebnerBasis o grevlex v fs hs →
        IsGroebnerBasis o grevlex (c * v + n) (copies c v fs) (copies c v hs) }
    ensures nonzero { (o : RingOps E) (c v : ℕ) (hs : List (Polynomial E)) → AreNonzero o hs → AreNonzero o (copies c v hs) }
    ensures variables { (c v n : ℕ) (hs : List (Polynomial E)) → AreInVariables v hs → AreInVariables (c * v + n) (copies c v hs) }
{}

/// A Gröbner basis is one in any number of further variables. So what division by it leaves is the normal form modulo the ideal: the
/// leading monomial of no member, in whatever variables, divides a monomial of it.
pub fn rests_are_reduced<E>()
    ensures basis { (o : RingOps E) (v n : ℕ) (fs hs : List (Polynomial E)) →
        RingLaws o → FieldLaws o → AreInVariables v hs → IsGroebnerBasis o grevlex v fs hs → IsGroebnerBasis o grevlex (v + n) fs hs }
    ensures rest { (o : RingOps E) (v : ℕ) (fs hs : List (Polynomial E)) (f r : Polynomial E) (steps : List (Step E)) →
        RingLaws o → FieldLaws o → AreInVariables v hs → IsGroebnerBasis o grevlex v fs hs → IsDivision o grevlex hs f steps r →
        IsMember o fs (difference o f r) × ((g : Polynomial E) (m e : List ℕ) →
        IsMember o fs g → IsLeadingMonomial o grevlex g m → IsTrue (has_monomial o r e) → IsFalse (divides m e)) }
{}
