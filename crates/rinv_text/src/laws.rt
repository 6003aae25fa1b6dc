//! What holds of each text.

ghost use Rattle.std.specs.Prelude.{ℕ, List, length, nat_lt, IsTrue};
ghost use Rattle.rinv_algebra.specs.Residue.{is_listed, residue_ops};
ghost use Rattle.rinv_algebra.specs.Normal.{IsNormal};
ghost use Rattle.rinv_defs.specs.System.{Poly};
ghost use Rattle.rinv_algebra.specs.Fraction.{Fraction};
ghost use Rattle.rinv_defs.specs.Text.{poly_text, fraction_text};
ghost use Rattle.rinv_frac.specs.Fractions.{IsStored};
ghost use Rattle.rinv_frac.specs.Cancelling.{IsCancelled};
ghost use Rattle.rinv_text.specs.declared.formal.Formal.{Formal};
ghost use Rattle.rinv_text.specs.Reading.{Definition};
ghost use Rattle.rinv_text.specs.Stops.{HasOneReading, HasOneFraction, Denotes, DenotesFraction};
ghost use Rattle.rinv_text.specs.Printable.{AreWords, IsWithinLimits};

/// A text has one reading or one refusal, and not both.
pub fn texts_have_one_reading()
    ensures { (names : List (List ℕ)) (text : List ℕ) → HasOneReading names text }
{}

/// So has the text of a fraction.
pub fn fractions_have_one_reading()
    ensures { (p : ℕ) (names : List (List ℕ)) (defs : List Definition) (text : List ℕ) → HasOneFraction p names defs text }
{}

/// The text that is printed of a stored polynomial denotes it, where its terms and their degrees are within the limits of a text.
pub fn printed_polynomials_are_read()
    ensures { (p : ℕ) (names : List (List ℕ)) (f : Poly) → IsTrue (is_listed p) → AreWords names → IsNormal (residue_ops p) (λ c. nat_lt c p) (length names) f → IsWithinLimits f → Denotes p names (poly_text p names f) f }
{}

/// The text that is printed of a stored fraction denotes it, cancelled, where the terms of its parts and their degrees are within the
/// limits of a text; so one that is cancelled is read as the same.
pub fn printed_fractions_are_read()
    ensures { (p : ℕ) (names : List (List ℕ)) (defs : List Definition) (f r : Fraction ℕ) → IsTrue (is_listed p) → AreWords names → IsStored p (length names) f → IsWithinLimits f.0 → IsWithinLimits f.1 → IsCancelled (residue_ops p) f r → (numbers : Formal) × DenotesFraction p names defs (fraction_text p names f) r numbers }
{}
