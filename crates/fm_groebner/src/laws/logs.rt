// The law on logs of completions.
ghost use Rattle.std.specs.Prelude.{Bool, ℕ, List, [], ◌∷◌, ◌++◌, ◌≡◌, Contains};
ghost use Rattle.fm_gfp.specs.declared.prime.Prime.{Prime};
ghost use Rattle.fm_mono.specs.declared.order.Order.{Order};
ghost use Rattle.fm_algebra.specs.PolynomialMatrices.{InImage};
ghost use Rattle.fm_term.specs.declared.vterm.VTerm.{VTerm};
ghost use Rattle.fm_term.specs.Falling.{AreFalling, AreMonic, IsFalling};
ghost use Rattle.fm_term.specs.Meanings.{vector_of, vectors_of};
ghost use Rattle.fm_groebner.specs.Bases.{IsGroebnerBasis, generators};
ghost use Rattle.fm_groebner.specs.Logs.{Entry, FreeRun, IsComplete, ReducesBy};

/// The members of a complete log of free steps are a Gröbner basis of the span of the inputs: whatever the order of the entries, whichever members
/// reduce, with rests that are kept though they could be reduced further, and with pairs skipped by the chain criterion. The members of any log are monic
/// and lie in the span of the inputs (Buchberger 1965 and 1979; Gebauer and Möller, On an installation of Buchberger's algorithm, Journal of Symbolic Computation 6, 1988).
pub fn a_complete_log_gives_a_groebner_basis()
    ensures basis { (p : Prime) (n m : ℕ) (o : Order) (bound : List ℕ → Bool) (inputs members : List (List VTerm)) (log : List Entry)
        (taken : List ℕ) (treated : List (ℕ × ℕ))
        → FreeRun p n m o bound inputs log members taken treated → IsComplete inputs members taken treated
        → IsGroebnerBasis p n m o (vectors_of p n m members) (vectors_of p n m inputs) }
    ensures inside { (p : Prime) (n m : ℕ) (o : Order) (bound : List ℕ → Bool) (inputs members : List (List VTerm)) (log : List Entry)
        (taken : List ℕ) (treated : List (ℕ × ℕ))
        → FreeRun p n m o bound inputs log members taken treated → (ts : List VTerm) → Contains members ts
        → InImage p n (generators p n m (vectors_of p n m inputs)) (vector_of p n m ts) }
    ensures monic { (p : Prime) (n m : ℕ) (o : Order) (bound : List ℕ → Bool) (inputs members : List (List VTerm)) (log : List Entry)
        (taken : List ℕ) (treated : List (ℕ × ℕ))
        → FreeRun p n m o bound inputs log members taken treated → AreMonic p n m o members }
{}

/// A log determines its members, the inputs taken and the pairs treated, a list of numbers determines the rest, and the front of a log of free steps is one.
pub fn a_log_determines_its_members()
    ensures members { (p : Prime) (n m : ℕ) (o : Order) (bound : List ℕ → Bool) (inputs : List (List VTerm)) (log : List Entry)
        (members others : List (List VTerm)) (taken taken' : List ℕ) (treated treated' : List (ℕ × ℕ))
        → FreeRun p n m o bound inputs log members taken treated → FreeRun p n m o bound inputs log others taken' treated'
        → (members ≡ others) × (taken ≡ taken') × (treated ≡ treated') }
    ensures rest { (p : Prime) (n m : ℕ) (o : Order) (bound : List ℕ → Bool) (members : List (List VTerm)) (by : List ℕ)
        (v r s : List VTerm) → AreFalling p n m o members → IsFalling p n m o v
        → ReducesBy p n m o bound members by v r → ReducesBy p n m o bound members by v s → r ≡ s }
    ensures front { (p : Prime) (n m : ℕ) (o : Order) (bound : List ℕ → Bool) (inputs : List (List VTerm)) (log : List Entry)
        (e : Entry) (members : List (List VTerm)) (taken : List ℕ) (treated : List (ℕ × ℕ))
        → FreeRun p n m o bound inputs (log ++ e ∷ []) members taken treated
        → (members' : List (List VTerm)) × (taken' : List ℕ) × (treated' : List (ℕ × ℕ))
        × FreeRun p n m o bound inputs log members' taken' treated' }
{}
