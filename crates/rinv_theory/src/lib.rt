//! The theory of rings and polynomials: `proofs/` has honest rings, a solver, polynomials by their universal property, fractions.
//! The functions but the last do nothing: each contract is a law of the definitions over the field of p elements.
#![tactic(auto)]

ghost use Rattle.std.specs.Prelude.{◌↔◌, ◌⊎◌, ℕ, List, ◌++◌, map, get_or, IsTrue};
ghost use Rattle.rinv_algebra.specs.Ring.{RingLaws, FieldLaws, IsSame};
ghost use Rattle.rinv_algebra.specs.Residue.{residue_ops};
ghost use Rattle.rinv_algebra.specs.Polynomial.{Polynomial, poly_ops, product, constant, variable, is_zero};
ghost use Rattle.rinv_algebra.specs.Value.{substitute};
ghost use Rattle.rinv_algebra.specs.Ideal.{IsMember};
ghost use Rattle.rinv_algebra.specs.Fraction.{over_one, fraction_ops};

/// Substitution keeps sameness, sums, products and constants, and puts its image for each variable; one past the images is put 1.
pub fn substitution_is_a_map()
    ensures sameness { (p : ℕ) (images : List (Polynomial ℕ)) (f g : Polynomial ℕ) →
        let o = residue_ops p in
        IsSame (poly_ops o) f g → IsSame (poly_ops o) (substitute o images f) (substitute o images g) }
    ensures sums { (p : ℕ) (images : List (Polynomial ℕ)) (f g : Polynomial ℕ) →
        let o = residue_ops p in
        IsSame (poly_ops o) (substitute o images (f ++ g)) (substitute o images f ++ substitute o images g) }
    ensures products { (p : ℕ) (images : List (Polynomial ℕ)) (f g : Polynomial ℕ) →
        let o = residue_ops p in
        IsSame (poly_ops o) (substitute o images (product o f g)) (product o (substitute o images f) (substitute o images g)) }
    ensures constants { (p : ℕ) (images : List (Polynomial ℕ)) (c : ℕ) →
        let o = residue_ops p in
        IsSame (poly_ops o) (substitute o images (constant o c)) (constant o c) }
    ensures variables { (p : ℕ) (images : List (Polynomial ℕ)) (k : ℕ) →
        let o = residue_ops p in
        IsSame (poly_ops o) (substitute o images (variable o k)) (get_or images k (poly_ops o).one) }
{}

/// One substitution after another is the substitution of the images' images.
pub fn substitutions_compose()
    ensures { (p : ℕ) (images others : List (Polynomial ℕ)) (f : Polynomial ℕ) →
        let o = residue_ops p in
        IsSame (poly_ops o) (substitute o images (substitute o others f)) (substitute o (map (substitute o images) others) f) }
{}

/// The image of a member of an ideal is a member of the ideal of the images.
pub fn substitution_keeps_members()
    ensures { (p : ℕ) (images fs : List (Polynomial ℕ)) (f : Polynomial ℕ) →
        let o = residue_ops p in
        IsMember o fs f → IsMember o (map (substitute o images) fs) (substitute o images f) }
{}

/// A product of two polynomials is zero only where one of them is.
pub fn no_zero_divisors()
    ensures { (p : ℕ) (f g : Polynomial ℕ) →
        let o = residue_ops p in
        IsTrue (is_zero o (product o f g)) → IsTrue (is_zero o f) ⊎ IsTrue (is_zero o g) }
{}

/// Fractions of polynomials are a field, and the polynomials are in it: f/1 and g/1 have one value exactly where f and g are the same.
pub fn fractions_are_a_field()
    ensures ring { (p : ℕ) → RingLaws (fraction_ops (residue_ops p)) }
    ensures field { (p : ℕ) → FieldLaws (fraction_ops (residue_ops p)) }
    ensures exact { (p : ℕ) (f g : Polynomial ℕ) →
        let o = residue_ops p in
        IsSame (fraction_ops o) (over_one o f) (over_one o g) ↔ IsSame (poly_ops o) f g }
{}

/// The difference of two squares modulo 7, not reduced: the contract is an identity of rings, proved by the solver.
pub fn difference_of_squares(a: u16, b: u16) -> u64
    ensures { let o = residue_ops 7 in IsSame o result (o.mul (o.add a b) (o.add a (o.neg b))) }
{
    let (a, b) = (u64::from(a), u64::from(b));
    a * a + 6 * (b * b)
}
