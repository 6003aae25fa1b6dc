//! What is certified is accepted. The function does nothing: its contract is a law of the definitions.

ghost use Rattle.rinv_serve.specs.Accepted.{CertifiedIsAccepted};

/// What a run of `certify` that was done wrote, `check` accepts: a run of `check` on it that wrote its whole answer was done. So it was done,
/// or the source or the sink failed, or memory was refused.
pub fn certified_runs_are_accepted()
    ensures { CertifiedIsAccepted }
{}
