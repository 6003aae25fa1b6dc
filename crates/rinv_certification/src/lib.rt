//! What the certificate of generators is, why it is accepted, and why it can be written: the theory.
//! The functions do nothing: each contract is a theorem over the definitions.
#![tactic(auto)]

ghost use Rattle.std.specs.Prelude.{◌≡◌, true};
ghost use Rattle.rinv_defs.specs.Certificate.{Certificate};
ghost use Rattle.rinv_defs.specs.Accepted.{IsAccepted};
ghost use Rattle.rinv_acceptance.specs.Fits.{all_multiply};
ghost use Rattle.rinv_generators.specs.Generated.{Generated, IsGenerators};
ghost use Rattle.rinv_certification.specs.Made.{IsCertificateOf, IsWritableIfFew};

/// The certificate of generators is accepted, where the products of its conditions are within the limit on degrees.
pub fn certificates_are_accepted()
    ensures { (g : Generated) (c : Certificate) → IsGenerators g → IsCertificateOf g c → all_multiply c ≡ true → IsAccepted c }
{}

/// It can be written as JSON and is read back, where it is accepted and its places are 32-bit numbers.
pub fn certificates_can_be_written()
    ensures { (g : Generated) (c : Certificate) → IsCertificateOf g c → IsAccepted c → IsWritableIfFew g c }
{}
