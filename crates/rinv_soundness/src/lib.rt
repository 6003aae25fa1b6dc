//! The theorems on certificates and rewriting: an accepted certificate of kind `full` is sound, and division by relations with
//! symbols finds expressions. The functions do nothing: each contract is a theorem over the definitions.
#![tactic(auto)]

ghost use Rattle.std.specs.Prelude.{◌≡◌, ℕ, List, [], All, IsTrue, IsFalse};
ghost use Rattle.rinv_algebra.specs.Ring.{IsSame};
ghost use Rattle.rinv_algebra.specs.Residue.{residue_ops};
ghost use Rattle.rinv_algebra.specs.Polynomial.{poly_ops, coefficient, is_zero};
ghost use Rattle.rinv_algebra.specs.Normal.{is_in_variables};
ghost use Rattle.rinv_defs.specs.System.{System, Poly, space_count};
ghost use Rattle.rinv_defs.specs.SystemForm.{IsSystem};
ghost use Rattle.rinv_defs.specs.Laws.{AllLawsHold};
ghost use Rattle.rinv_defs.specs.Invariant.{Fraction, IsInvariant};
ghost use Rattle.rinv_defs.specs.Generators.{rational_ops, value_at, HasValue, IsSound};
ghost use Rattle.rinv_defs.specs.Certificate.{Certificate, full};
ghost use Rattle.rinv_defs.specs.Accepted.{IsAccepted};
ghost use Rattle.rinv_defs.specs.Extended.{Vanishes};
ghost use Rattle.rinv_soundness.specs.Rewriting.{SymbolPoly, SymbolRelation, in_z, IsSymbolBasis, IsRestBy, symbol_relations};

/// An accepted certificate of kind `full` is sound: the laws hold, its fractions are invariant, and each invariant, of any degree, is
/// a rational expression in them.
pub fn accepted_is_sound()
    ensures { (c : Certificate) → c.kind ≡ full → IsAccepted c → IsSound c.system c.fractions }
{}

/// Rewriting: P(Z) and Q(Z) are divided by relations with symbols. At each monomial where the coefficient of the rest of Q(Z) has a
/// value, the coefficients of the two rests denote an invariant P/Q. There is such a monomial exactly where Q does not vanish on the
/// section, and a Q that is not zero vanishes nowhere where there is no section.
pub fn rewriting()
    ensures denotes { (s : System) (c : List Fraction) (qs : List SymbolRelation) (f : Fraction) (a b : SymbolPoly) (m : List ℕ) →
        let o = residue_ops s.p in
        IsSystem s → IsSymbolBasis s c qs → IsInvariant s f → IsRestBy s qs (in_z s.p f.0) a → IsRestBy s qs (in_z s.p f.1) b →
        ¬ (IsSame (rational_ops s.p) (value_at s.p c (coefficient (poly_ops o) b m)) (rational_ops s.p).zero) →
        HasValue s.p c (coefficient (poly_ops o) a m, coefficient (poly_ops o) b m) f }
    ensures found { (s : System) (c : List Fraction) (qs : List SymbolRelation) (q : Poly) (b : SymbolPoly) →
        let o = residue_ops s.p in
        IsSymbolBasis s c qs → IsTrue (is_in_variables (space_count s) q) → IsRestBy s qs (in_z s.p q) b → ¬ (Vanishes s q) →
        (m : List ℕ) × ¬ (IsSame (rational_ops s.p) (value_at s.p c (coefficient (poly_ops o) b m)) (rational_ops s.p).zero) }
    ensures vanishes { (s : System) (c : List Fraction) (qs : List SymbolRelation) (q : Poly) (b : SymbolPoly) (m : List ℕ) →
        let o = residue_ops s.p in
        IsSymbolBasis s c qs → IsTrue (is_in_variables (space_count s) q) → IsRestBy s qs (in_z s.p q) b → Vanishes s q →
        IsSame (rational_ops s.p) (value_at s.p c (coefficient (poly_ops o) b m)) (rational_ops s.p).zero }
    ensures no_section { (s : System) (q : Poly) →
        IsSystem s → AllLawsHold s → s.section ≡ [] → IsTrue (is_in_variables (space_count s) q) → IsFalse (is_zero (residue_ops s.p) q) → ¬ (Vanishes s q) }
{}

/// The same by the relations of an accepted certificate, whose coefficients are tied to its fractions: no other basis is needed.
pub fn certificate_rewriting()
    ensures denotes { (c : Certificate) (f : Fraction) (a b : SymbolPoly) (m : List ℕ) →
        let s = c.system in
        let o = residue_ops s.p in
        c.kind ≡ full → IsAccepted c → IsInvariant s f → IsRestBy s (symbol_relations c) (in_z s.p f.0) a → IsRestBy s (symbol_relations c) (in_z s.p f.1) b →
        ¬ (IsSame (rational_ops s.p) (value_at s.p c.fractions (coefficient (poly_ops o) b m)) (rational_ops s.p).zero) →
        HasValue s.p c.fractions (coefficient (poly_ops o) a m, coefficient (poly_ops o) b m) f }
    ensures found { (c : Certificate) (q : Poly) (b : SymbolPoly) →
        let s = c.system in
        let o = residue_ops s.p in
        c.kind ≡ full → IsAccepted c → IsTrue (is_in_variables (space_count s) q) → IsFalse (is_zero o q) → IsRestBy s (symbol_relations c) (in_z s.p q) b →
        (m : List ℕ) × ¬ (IsSame (rational_ops s.p) (value_at s.p c.fractions (coefficient (poly_ops o) b m)) (rational_ops s.p).zero) }
{}
