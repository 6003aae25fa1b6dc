//! There is one first fault. The function does nothing: its contract is a law of the definitions.

ghost use Rattle.std.specs.Prelude.{ℕ};
ghost use Rattle.rinv_defs.specs.System.{System, Poly};
ghost use Rattle.rinv_defs.specs.Laws.{Law, AllLawsHold};
ghost use Rattle.rinv_laws.specs.Faults.{IsFirstFault, IsOnePlace};

/// Where all laws hold there is no fault, and the first fault of a system is at one part of one law.
pub fn first_fault_is_one()
    ensures none { (s : System) (law : Law) (k : ℕ) (rest : Poly) → IsFirstFault s law k rest → AllLawsHold s → ⊥ }
    ensures one { (s : System) (l m : Law) (j k : ℕ) (f g : Poly) → IsFirstFault s l j f → IsFirstFault s m k g → IsOnePlace l j m k }
{}
