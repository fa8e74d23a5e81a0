//! What may stop a CPU before a step.

ghost use Rattle.std.specs.Prelude.{◌≡◌, ℕ, ◌<◌, ◌↔◌, Bool, true, IsTrue};
ghost use Rattle.wbt_io.specs.Gates.{both_are, both_tell};

/// It is asked before each step of a CPU.
pub trait Gate {
    /// The gate answered so to a CPU that had made so many steps. Each answer is said, and generic code knows of no other.
    ghost said: { Self → ℕ → ℕ → Bool → Type 0 };

    /// Whether a CPU that has made so many steps may make one more. The answer false stops it there.
    fn may_step(&self, cpu: u32, steps: u64) -> bool
        ensures { said self.now cpu steps result };

    /// A CPU has one answer at one number of steps: to ask again changes nothing.
    ghost one_answer: { (gate : Self) (cpu steps : ℕ) (a b : Bool) → said gate cpu steps a → said gate cpu steps b → a ≡ b };
}

/// A gate that stops nobody.
#[derive(Clone, Copy, Debug)]
pub struct FreeGate;

impl Gate for FreeGate {
    ghost said = { λ _ _ _ answer. answer ≡ true };

    ghost one_answer = { λ gate cpu steps a b. both_are a b true };

    fn may_step(&self, _cpu: u32, _steps: u64) -> bool
        ensures { result ≡ true }
    {
        true
    }
}

/// A gate that stops each CPU once it has made so many steps.
#[derive(Clone, Copy, Debug)]
pub struct HaltGate {
    /// The steps that a CPU may make.
    pub halt: u64,
}

impl Gate for HaltGate {
    ghost said = { λ gate _ steps answer. IsTrue answer ↔ (steps < gate.halt) };

    ghost one_answer = { λ gate cpu steps a b. both_tell a b (steps < gate.halt) };

    fn may_step(&self, _cpu: u32, steps: u64) -> bool
        ensures { IsTrue result ↔ (steps < self.now.halt) }
    {
        steps < self.halt
    }
}
