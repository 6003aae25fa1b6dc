//! Laws of normal forms, of the reduced Gröbner basis and of elimination. The functions do nothing: each contract is a law of the
//! definitions, over any field whose elements are of a type `E`, and in any order of monomials that tells those in v variables apart.

ghost use Rattle.std.specs.Prelude.{◌↔◌, ℕ, List, ◌++◌, take, IsTrue, IsFalse};
ghost use Rattle.std.specs.List.{sum};
ghost use Rattle.std.specs.List.Sorted.{IsPermutation};
ghost use Rattle.std.specs.declared.cmp.Ordering.{Ordering};
ghost use Rattle.rinv_algebra.specs.Ring.{RingOps, RingLaws, FieldLaws, IsSame};
ghost use Rattle.rinv_algebra.specs.Order.{block_order};
ghost use Rattle.rinv_algebra.specs.Polynomial.{Polynomial, poly_ops, is_zero, difference, scale};
ghost use Rattle.rinv_algebra.specs.Normal.{is_in_variables};
ghost use Rattle.rinv_algebra.specs.Ideal.{IsMember};
ghost use Rattle.rinv_algebra.specs.Leading.{leading_monomial};
ghost use Rattle.rinv_groebner.specs.Orders.{OrdersMonomials, AreInVariables};
ghost use Rattle.rinv_groebner.specs.Division.{Step, AreSame, IsDivision};
ghost use Rattle.rinv_groebner.specs.Basis.{AreMembers, AreNonzero, GenerateOneIdeal, IsGroebnerBasis};
ghost use Rattle.rinv_groebner.specs.Reduced.{IsNormalForm, IsReducedGroebnerBasis, AreMonic, AreApart, Ascend, AreMade};
ghost use Rattle.rinv_groebner.specs.Elimination.{is_free, Eliminates, IsFreeOf, free_part, IsEliminationBasis};

/// Modulo a Gröbner basis the normal form is unique: congruent polynomials have the same, whichever basis of the ideal is taken. It is
/// linear, and zero exactly on the ideal. What division leaves is a normal form.
pub fn normal_forms<E>()
    ensures of_division { (o : RingOps E) (cmp : List ℕ → List ℕ → Ordering) (fs hs : List (Polynomial E)) (f rest : Polynomial E)
        (steps : List (Step E)) →
        RingLaws o → AreMembers o fs hs → IsDivision o cmp hs f steps rest → IsNormalForm o cmp fs hs f rest }
    ensures unique { (o : RingOps E) (cmp : List ℕ → List ℕ → Ordering) (v : ℕ) (fs hs others : List (Polynomial E))
        (f g r s : Polynomial E) →
        RingLaws o → FieldLaws o → OrdersMonomials cmp v → AreInVariables v hs → AreInVariables v others →
        IsTrue (is_in_variables v r) → IsTrue (is_in_variables v s) →
        IsGroebnerBasis o cmp v fs hs → IsGroebnerBasis o cmp v fs others → IsMember o fs (difference o f g) →
        IsNormalForm o cmp fs hs f r → IsNormalForm o cmp fs others g s → IsSame (poly_ops o) r s }
    ensures sums { (o : RingOps E) (cmp : List ℕ → List ℕ → Ordering) (fs hs : List (Polynomial E)) (f g r s : Polynomial E) →
        RingLaws o → IsNormalForm o cmp fs hs f r → IsNormalForm o cmp fs hs g s → IsNormalForm o cmp fs hs (f ++ g) (r ++ s) }
    ensures multiples { (o : RingOps E) (cmp : List ℕ → List ℕ → Ordering) (fs hs : List (Polynomial E)) (c : E) (f r : Polynomial E) →
        RingLaws o → IsNormalForm o cmp fs hs f r → IsNormalForm o cmp fs hs (scale o c f) (scale o c r) }
    ensures members { (o : RingOps E) (cmp : List ℕ → List ℕ → Ordering) (v : ℕ) (fs hs : List (Polynomial E)) (f r : Polynomial E) →
        RingLaws o → FieldLaws o → OrdersMonomials cmp v → AreInVariables v hs → IsTrue (is_in_variables v r) →
        IsGroebnerBasis o cmp v fs hs → IsNormalForm o cmp fs hs f r → IsMember o fs f ↔ IsTrue (is_zero o r) }
{}

/// A Gröbner basis without zero makes a reduced Gröbner basis of its ideal, when the elements are kept whose leading monomials no other
/// properly divides and no earlier element has, each is divided by the others and made monic. What is made is determined, and may be put
/// into any order.
pub fn made_basis<E>()
    ensures exists { (o : RingOps E) (cmp : List ℕ → List ℕ → Ordering) (v : ℕ) (fs hs : List (Polynomial E)) →
        RingLaws o → FieldLaws o → OrdersMonomials cmp v → AreInVariables v hs → AreNonzero o hs → IsGroebnerBasis o cmp v fs hs →
        (gs : List (Polynomial E)) × AreMade o cmp hs gs }
    ensures reduced { (o : RingOps E) (cmp : List ℕ → List ℕ → Ordering) (v : ℕ) (fs hs gs : List (Polynomial E)) →
        RingLaws o → FieldLaws o → OrdersMonomials cmp v → AreInVariables v hs → AreNonzero o hs → IsGroebnerBasis o cmp v fs hs →
        AreMade o cmp hs gs → IsReducedGroebnerBasis o cmp v fs gs }
    ensures determined { (o : RingOps E) (cmp : List ℕ → List ℕ → Ordering) (v : ℕ) (fs hs gs others : List (Polynomial E)) →
        RingLaws o → FieldLaws o → OrdersMonomials cmp v → AreInVariables v hs → AreNonzero o hs → IsGroebnerBasis o cmp v fs hs →
        AreMade o cmp hs gs → AreMade o cmp hs others → AreSame o gs others }
    ensures in_any_order { (o : RingOps E) (cmp : List ℕ → List ℕ → Ordering) (v : ℕ) (fs gs hs : List (Polynomial E)) →
        RingLaws o → IsPermutation gs hs → IsReducedGroebnerBasis o cmp v fs gs → IsReducedGroebnerBasis o cmp v fs hs }
{}

/// Two reduced Gröbner bases of one ideal, both with ascending leading monomials, are the same, element by element.
pub fn reduced_basis_is_unique<E>()
    ensures { (o : RingOps E) (cmp : List ℕ → List ℕ → Ordering) (v : ℕ) (fs es gs hs : List (Polynomial E)) →
        RingLaws o → FieldLaws o → OrdersMonomials cmp v → AreInVariables v gs → AreInVariables v hs → GenerateOneIdeal o fs es →
        IsReducedGroebnerBasis o cmp v fs gs → IsReducedGroebnerBasis o cmp v es hs → Ascend o cmp gs → Ascend o cmp hs → AreSame o gs hs }
{}

/// In an order that eliminates the first k variables, as a block order does, a polynomial is free of them where its leading monomial is.
/// The part of a Gröbner basis that is free of them is a Gröbner basis of the polynomials of the ideal that are. The part of a reduced
/// basis is monic, no leading monomial in it divides a monomial of another element, and it ascends where the basis does.
pub fn elimination<E>()
    ensures blocks { (sizes : List ℕ) (i : ℕ) → Eliminates (block_order sizes) (sum (take i sizes)) }
    ensures leading { (o : RingOps E) (cmp : List ℕ → List ℕ → Ordering) (v k : ℕ) (f : Polynomial E) →
        RingLaws o → OrdersMonomials cmp v → Eliminates cmp k → IsFalse (is_zero o f) →
        IsTrue (is_free k (leading_monomial o cmp f)) → IsFreeOf o k f }
    ensures basis { (o : RingOps E) (cmp : List ℕ → List ℕ → Ordering) (v k : ℕ) (fs hs : List (Polynomial E)) →
        RingLaws o → FieldLaws o → OrdersMonomials cmp v → Eliminates cmp k → AreInVariables v hs →
        IsGroebnerBasis o cmp v fs hs → IsEliminationBasis o cmp v k fs (free_part o cmp k hs) }
    ensures monic { (o : RingOps E) (cmp : List ℕ → List ℕ → Ordering) (k : ℕ) (hs : List (Polynomial E)) →
        AreMonic o cmp hs → AreMonic o cmp (free_part o cmp k hs) }
    ensures apart { (o : RingOps E) (cmp : List ℕ → List ℕ → Ordering) (k : ℕ) (hs : List (Polynomial E)) →
        AreApart o cmp hs → AreApart o cmp (free_part o cmp k hs) }
    ensures ascends { (o : RingOps E) (cmp : List ℕ → List ℕ → Ordering) (k : ℕ) (hs : List (Polynomial E)) →
        Ascend o cmp hs → Ascend o cmp (free_part o cmp k hs) }
{}
