// The laws of the program's answers.
ghost use Rattle.std.specs.Prelude.{[], codes, decimal, ℕ, ◌++◌, ◌∷◌, ◌≡◌};
ghost use Rattle.fm_words.specs.Parts.{Bytes};
ghost use Rattle.fm_problem.specs.declared.fault_kind.FaultKind.{FaultKind};
ghost use Rattle.fm_problem.specs.Faults.{fault_text};
ghost use Rattle.fm_report.specs.Holding.{VerdictsHold};

/// The line that tells the first fault of a problem text states no verdict, nor does a beginning of it.
pub fn a_fault_line_states_nothing()
    ensures { (line : ℕ) (kind : FaultKind) (front back : Bytes) → codes "line " ++ (decimal line ++ (codes ": " ++ (fault_text kind ++ 10 ∷ []))) ≡ front ++ back → VerdictsHold front }
{}
